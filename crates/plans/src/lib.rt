// The plan of an accepted descriptor: its unfolding, one number an item, written by going down the references.

#![tactic(auto)]

ghost use Rattle.std.specs.Prelude.{◌≡◌, ◌+◌, ◌-◌, ◌*◌, ◌≤◌, ◌<◌, map, length, get_or, take, drop, replicate};
ghost use Rattle.std.proofs.lemmas.List.Edits.{sets};
ghost use Rattle.fdoca.specs.Basics.{repeat};
ghost use Rattle.fields.specs.Plan.{entry_of};
ghost use Rattle.plans.specs.Tied.{list_of, kind_of, groups_at, row_list, Refers, RowAt, TiedTo, Known};
ghost use Rattle.plans.specs.Left.{group_of};
ghost use Rattle.plans.specs.Writing.{group_list, entries_taken, end_of_cpt};

use tables::Tables;

// The construct types of a GDA and a CPT.
pub const GDA: u8 = 0x75;

const CPT: u8 = 0x7F;

// Writes n entries from `at` on, and gives the place behind them.
pub fn fill(plan: &mut [u64], at: usize, n: usize, entry: u64) -> usize
    requires { at + n ≤ length plan.old }
    ensures value { result ≡ at + n }
    ensures plan_after { plan.new ≡ sets plan.old at (replicate n entry) }
{
    plan[at..at + n].fill(entry);
    at + n
}

// Writes the entries between `from` and `to` so many times more, right behind them, and gives the place behind the last.
fn copies(plan: &mut [u64], from: usize, to: usize, more: usize) -> usize
    requires { (from ≤ to) × (to + more * (to - from) ≤ length plan.old) }
    ensures value { result ≡ to + more * (to - from) }
    ensures plan_after { plan.new ≡ sets plan.old to (repeat more (take (to - from) (drop from plan.old))) }
{
    let n = more * (to - from);
    // By place: what a copy reads may be what the copy before it wrote.
    for k in 0..n {
        plan[to + k] = plan[from + k];
    }
    to + n
}

// How many items a group takes once of an SDA's id: all, or elements taken times the product of the lower extents.
pub fn taken_count(tables: &Tables, id: u8, taken: u8) -> usize
    ensures { (result ≡ entries_taken (get_or tables.now.sizes id 0) taken) × (result < 16777216) }
{
    if taken == 0 {
        return tables.count(id);
    }
    usize::from(taken) * tables.lower(id)
}

// The end of the CPT at g; 0 where none stands there. No crate here asks for it: `Groups` goes over a row's CPTs by itself.
#[tactic(auto, unfolding(crate::specs::Writing::end_of_cpt))]
pub fn cpt_end(desc: &[u8], g: usize) -> usize
    requires { g ≤ length desc.now }
    ensures { result ≡ end_of_cpt desc.now g }
{
    if desc.len() - g < 3 || desc[g + 1] != CPT {
        return 0;
    }
    g + usize::from(desc[g])
}

// Three bytes of an RLO, a GDA or a CPT: the id of a triplet, and in an RLO elements taken and the repetition factor, in a GDA the length.
#[derive(Clone, Copy)]
pub struct Group {
    pub id: u8,
    pub byte1: u8,
    pub byte2: u8,
}

// The groups of an RLO or a GDA and of the CPTs right behind it: the bytes behind the groups given so far, `own` of them the triplet's own.
#[derive(Drop)]
pub struct Groups<'a> {
    bytes: &'a [u8],
    own: usize,
}

impl<'a> Groups<'a> {
    ghost use Rattle.plans.specs.Left.{groups_left};

    // The groups of the row at p.
    pub fn of(desc: &'a [u8], p: usize) -> Groups<'a>
        requires { p + 3 ≤ length desc.now }
        ensures { groups_left result ≡ groups_at desc.now p }
    {
        Groups {
            bytes: &desc[p + 3..],
            own: usize::from(desc[p]).saturating_sub(3),
        }
    }
}

impl<'a> Iterator for Groups<'a> {
    type Item = Group;

    ghost use Rattle.std.specs.Iterator.{YieldsFirstBy, item_count};
    ghost use Rattle.plans.specs.Left.{group_of, groups_left};

    ghost next_gives = { YieldsFirstBy group_of groups_left };

    ghost remaining = { item_count groups_left };

    fn next(&mut self) -> Option<Group> {
        while let [id, byte1, byte2, others @ ..] = self.bytes {
            if self.own != 0 {
                self.bytes = others;
                self.own = self.own.saturating_sub(3);
                return Some(Group {
                    id: *id,
                    byte1: *byte1,
                    byte2: *byte2,
                });
            }
            if *byte1 != CPT {
                return None;
            }
            self.bytes = others;
            self.own = usize::from(*id).saturating_sub(3);
        }
        None
    }
}

// Writes the list of the row at p from `at` on, group by group, and gives the place behind it.
#[cycle(expand_group)]
pub fn expand(desc: &[u8], tables: &Tables, plan: &mut [u64], p: usize, at: usize) -> usize
    requires { TiedTo desc.now tables.now × RowAt desc.now tables.now.starts p (row_list desc.now p)
        × (at + length (row_list desc.now p) ≤ length plan.old) }
    ensures value { result ≡ at + length (row_list desc.now p) }
    ensures plan_after { plan.new ≡ sets plan.old at (map entry_of (row_list desc.now p)) }
{
    let head = desc[p + 1];
    let mut end = at;
    for group in Groups::of(desc, p) {
        end = write_group(desc, tables, plan, group, end, head);
    }
    end
}

// Writes the list of a group from `at` on, and gives the place behind it. `head` is the construct type of the row's head. A row that
// the group refers to is written by going down to it once; its repetitions are copies. A factor of 0 adds nothing (document 02, Q-5).
// What a group of a GDA writes is the entry of the SDA's field, with the length that holds.
#[cycle(expand_group)]
fn write_group(
    desc: &[u8],
    tables: &Tables,
    plan: &mut [u64],
    group: Group,
    at: usize,
    head: u8,
) -> usize
    requires { TiedTo desc.now tables.now
        × Refers (kind_of head) desc.now tables.now.starts (length desc.now) (group_of group)
        × (at + length (group_list desc.now (kind_of head) (group_of group)) ≤ length plan.old) }
    ensures value { result ≡ at + length (group_list desc.now (kind_of head) (group_of group)) }
    ensures plan_after { plan.new ≡ sets plan.old at (map entry_of (group_list desc.now (kind_of head) (group_of group))) }
{
    if head == GDA {
        let own = tables.field(group.id).unwrap();
        plan[at] = fields::replaced(own, group.byte1, group.byte2);
        return at + 1;
    }
    let factor = usize::from(group.byte2);
    if factor == 0 {
        return at;
    }
    match tables.field(group.id) {
        Some(entry) => {
            let n = factor * taken_count(tables, group.id, group.byte1);
            fill(plan, at, n, entry)
        }
        None => {
            let once = expand(desc, tables, plan, tables.start(group.id), at);
            copies(plan, at, once, factor - 1)
        }
    }
}

// Writes the list of the id, from the plan's beginning on.
pub fn write(desc: &[u8], tables: &Tables, plan: &mut [u64], id: u8)
    requires { TiedTo desc.now tables.now × Known desc.now id
        × (length (list_of desc.now id) ≤ length plan.old) }
    ensures { plan.new ≡ sets plan.old 0 (map entry_of (list_of desc.now id)) }
{
    match tables.field(id) {
        Some(entry) => fill(plan, 0, tables.count(id), entry),
        None => expand(desc, tables, plan, tables.start(id), 0),
    };
}
