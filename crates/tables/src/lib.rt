// What the check of a descriptor keeps of each id: the place of the triplets that describe it, how many items it stands for, and of an SDA's id the
// plan entry of its field.

#![tactic(auto)]

ghost use Rattle.std.specs.Prelude.{◌≡◌, ◌+◌, ◌*◌, ◌/◌, ◌%◌, ◌<◌, MatchOption, MatchBool, ◌≢◌, get_or, replicate, set};

use std::marker::Model;

// What is kept of an id. The place stands one higher, the highest as 0, and an entry of 0 is none: so an id that no triplet describes is all zeros, as
// which memory is cleared fast. With Options an id would take 24 bytes in place of 16. That count and lower product are below 65,536 is what takes a
// size of the lists apart again.
#[derive(Clone, Copy)]
struct Described {
    entry: u64,
    lower: u32,
    place: u16,
    count: u16,
    ghost count_below: { count < 65536 },
    ghost lower_below: { lower < 65536 },
}

#[derive(Drop)]
pub struct Tables {
    of: [Described; 256],
}

impl Model for Tables {
    ghost use Rattle.std.specs.Prelude.{map, ◌+◌, ◌*◌, ◌%◌};
    ghost use Rattle.tables.specs.Lists.{Lists};

    ghost Value = { Lists };

    ghost view = { λ t. record {
      starts = map (λ d. (d.place + 65535) % 65536) t.of;
      sizes = map (λ d. d.count + 65536 * d.lower) t.of;
      entries = map (λ d. d.entry) t.of;
    } };
}

impl Tables {
    // No id is described.
    pub fn new() -> Tables
        ensures starts { result.starts ≡ replicate 256 65535 }
        ensures sizes { result.sizes ≡ replicate 256 0 }
        ensures entries { result.entries ≡ replicate 256 0 }
    {
        let none = Described {
            entry: 0,
            lower: 0,
            place: 0,
            count: 0,
        };
        Tables { of: [none; 256] }
    }

    // Whether an id is described.
    pub fn is_described(&self, id: u8) -> bool
        ensures { MatchBool result (get_or self.now.starts id 0 ≢ 65535) (get_or self.now.starts id 0 ≡ 65535) }
    {
        self.of[usize::from(id)].place != 0
    }

    // Where the triplets stand that describe an id.
    pub fn start(&self, id: u8) -> usize
        ensures { (result ≡ get_or self.now.starts id 0) × (result < 65536) }
    {
        usize::from(self.of[usize::from(id)].place.wrapping_sub(1))
    }

    // How many items an id stands for.
    pub fn count(&self, id: u8) -> usize
        ensures { (result ≡ get_or self.now.sizes id 0 % 65536) × (result < 65536) }
    {
        usize::from(self.of[usize::from(id)].count)
    }

    // The product of an SDA's lower extents.
    pub fn lower(&self, id: u8) -> usize
        ensures { (result ≡ get_or self.now.sizes id 0 / 65536) × (result < 65536) }
    {
        self.of[usize::from(id)].lower as usize
    }

    // The plan entry of an SDA's field; none for another id.
    pub fn field(&self, id: u8) -> Option<u64>
        ensures { MatchOption result (get_or self.now.entries id 0 ≡ 0)
            (λ e. (e ≡ get_or self.now.entries id 0) × (0 < e)) }
    {
        let entry = self.of[usize::from(id)].entry;
        if entry == 0 {
            return None;
        }
        Some(entry)
    }

    // Keeps of an id what its triplet says.
    pub fn describe(&mut self, id: u8, start: u16, count: u16, lower: u16, entry: u64)
        ensures starts { self.new.starts ≡ set self.old.starts id start }
        ensures sizes { self.new.sizes ≡ set self.old.sizes id (count + 65536 * lower) }
        ensures entries { self.new.entries ≡ set self.old.entries id entry }
    {
        self.of[usize::from(id)] = Described {
            entry,
            lower: u32::from(lower),
            place: start.wrapping_add(1),
            count,
        };
    }
}
