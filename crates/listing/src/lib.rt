// What the dump program prints of a file (document 01, "The item list and the dump program"), written into a lent text.

#![tactic(auto)]

ghost use Rattle.std.specs.Prelude.{◌≡◌, ◌+◌, ◌≤◌, ◌<◌, [], ◌∷◌, ◌++◌, length, if◌then◌else◌};
ghost use Rattle.std.proofs.lemmas.List.Edits.{sets};
ghost use Rattle.fdoca.specs.Basics.{big};
ghost use Rattle.fdoca.specs.Item.{item};
ghost use Rattle.fdoca.specs.Returned.{number_of};
ghost use Rattle.fdoca.specs.Walk.{walk_by};
ghost use Rattle.fdoca.specs.Unfolding.{unfolded, repeated};
ghost use Rattle.fdoca.specs.Dump.{decimal, null_word, refused_line, block_notes, dump};
ghost use Rattle.descriptors.specs.Holds.{Ready};
ghost use Rattle.cuts.specs.Cut.{Fitting};
ghost use Rattle.listing.specs.Put.{HasRoom, IsFresh, Put, Told};
ghost use Rattle.listing.specs.Lines.{first_line, entry_line, entry_lines, EachMeasured};

use descriptors::Examined;
use fdoca::{Reason, Refusal};
use numbers::pair;
use tables::Tables;
use terminated::Measured;

// Where the parts of a marked plan's entry begin: type code and position.
const CODE: u64 = 16777216;

const POSITION: u64 = 281474976710656;

// The largest descriptor, and the largest data.
const MOST_DESCRIPTOR: usize = 4096;

const MOST_DATA: usize = 32768;

const SPACE: u8 = b' ';

const NEWLINE: u8 = b'\n';

// A text that is lent: `len` bytes of it are written. Each method below puts a run of bytes behind them.
struct Text<'t> {
    bytes: &'t mut [u8],
    len: usize,
}

impl Text<'_> {
    fn byte(&mut self, byte: u8)
        requires { HasRoom self.old 1 }
        ensures { Put self.old self.new (byte ∷ []) }
    {
        self.bytes[self.len] = byte;
        self.len += 1;
    }

    fn word(&mut self, word: &[u8])
        requires { HasRoom self.old (length word.now) }
        ensures { Put self.old self.new word.now }
    {
        let end = self.len + word.len();
        self.bytes[self.len..end].copy_from_slice(word);
        self.len = end;
    }

    // A number in decimal: its last digit stands behind the number of tens.
    fn number(&mut self, n: u32)
        requires { HasRoom self.old (length (decimal n)) }
        ensures { Put self.old self.new (decimal n) }
    {
        if n < 10 {
            return self.byte(b'0' + n as u8);
        }
        self.number(n / 10);
        self.byte(b'0' + (n % 10) as u8);
    }

    // A number, and the byte that ends it.
    fn field(&mut self, n: u32, end: u8)
        requires { HasRoom self.old 11 }
        ensures { Put self.old self.new (decimal n ++ (end ∷ [])) × (self.new.len ≤ self.old.len + 11) }
    {
        self.number(n);
        self.byte(end);
    }

    // The line of a refusal.
    fn refusal(&mut self, refusal: Refusal)
        requires { HasRoom self.old 30 }
        ensures { Put self.old self.new (refused_line (number_of refusal.reason) refusal.place) × (self.new.len ≤ self.old.len + 30) }
    {
        self.word(b"refused ");
        self.field(refusal.reason.number(), SPACE);
        self.field(refusal.place, NEWLINE);
    }

    // The line of a refusal that has no place of its own.
    fn reason(&mut self, reason: Reason)
        requires { HasRoom self.old 30 }
        ensures { Put self.old self.new (refused_line (number_of reason) 0) × (self.new.len ≤ self.old.len + 30) }
    {
        self.refusal(Refusal { reason, place: 0 });
    }

    // The first line of a good block.
    fn first(&mut self, count: usize, size: usize)
        requires { (count ≤ 4096) × (size ≤ 32768) × HasRoom self.old 34 }
        ensures { Put self.old self.new (first_line count size) × (self.new.len ≤ self.old.len + 34) }
    {
        self.word(b"items ");
        self.field(count as u32, SPACE);
        self.word(b"bytes ");
        self.field(size as u32, NEWLINE);
    }

    // The end of an item's line: its value's length, or `null`.
    fn value(&mut self, null: bool, value: usize)
        requires { (value ≤ 32768) × HasRoom self.old 11 }
        ensures { Put self.old self.new ((if null then null_word else decimal value) ++ (10 ∷ [])) }
    {
        if null {
            return self.word(b"null\n");
        }
        self.field(value as u32, NEWLINE);
    }

    // The line of item k.
    fn item(&mut self, k: usize, entry: u64, m: Measured)
        requires { (k < 4096) × (m.value ≤ 32768) × HasRoom self.old 44 }
        ensures { Put self.old self.new (entry_line k entry (item m.null m.lead m.value m.spare)) }
    {
        self.field(k as u32, SPACE);
        self.field((entry / POSITION) as u32, SPACE);
        self.field((entry / CODE % 256) as u32, SPACE);
        self.value(m.null, m.value);
    }

    // The lines of all items, by a marked plan. An item is measured again where its entry says that it starts.
    fn items(&mut self, plan: &[u64], data: &[u8])
        requires { EachMeasured plan.now «data».now × (length plan.now ≤ 4096) × (length «data».now ≤ 32768) × (self.old.len ≤ 34) × (90112 ≤ length self.old.bytes.now) }
        ensures { Put self.old self.new (entry_lines 0 plan.now «data».now) × (self.new.len ≤ 90112) }
    {
        for (k, entry) in plan.iter().enumerate() {
            let m = walks::item_at(*entry, data, (*entry / POSITION) as usize).unwrap();
            self.item(k, *entry, m);
        }
    }
}

// The text of the data of an accepted descriptor, with a plan that has room.
fn write_by(
    desc: &[u8],
    tables: &Tables,
    x: Examined,
    plan: &mut [u64],
    data: &[u8],
    text: &mut Text<'_>,
)
    requires { Ready desc.now tables.now.starts tables.now.sizes tables.now.entries x.id x.items x.rows × Fitting x plan.old × (length «data».now ≤ 32768)
        × IsFresh text.old }
    ensures { Told text.old text.new (length «data».now)
        (walk_by (unfolded desc.now) (repeated desc.now) «data».now) }
{
    match cuts::cut(desc, tables, x, plan, data) {
        Ok(count) => {
            text.first(count, data.len());
            text.items(&plan[..count], data);
        }
        Err(stop) => text.refusal(stop),
    }
}

// The text of a descriptor and its data.
fn write_block(desc: &[u8], data: &[u8], text: &mut Text<'_>)
    requires { (length desc.now ≤ 4096) × (length «data».now ≤ 32768) × IsFresh text.old }
    ensures { Told text.old text.new (length «data».now) (block_notes desc.now «data».now) }
{
    let mut tables = Tables::new();
    match descriptors::examine(desc, &mut tables) {
        Ok(x) => {
            let mut plan = [0u64; 4096];
            let n = cuts::entries(x);
            write_by(desc, &tables, x, &mut plan[..n], data, text);
        }
        Err(refusal) => text.refusal(refusal),
    }
}

// A size in the file's first bytes: four bytes, most significant first.
fn size_in(s: &[u8]) -> usize
    requires { 4 ≡ length s.now }
    ensures { (result ≡ big s.now) × (result < 4294967296) }
{
    pair(s[0], s[1]) * 65536 + pair(s[2], s[3])
}

// The text of a file.
fn write_file(file: &[u8], text: &mut Text<'_>)
    requires { IsFresh text.old }
    ensures { Put text.old text.new (dump file.now) × (text.new.len ≤ 90112) }
{
    if file.len() < 8 {
        return text.reason(Reason::BadFile);
    }
    let d = size_in(&file[..4]);
    let s = size_in(&file[4..8]);
    if MOST_DESCRIPTOR < d || MOST_DATA < s {
        return text.reason(Reason::Oversize);
    }
    if file.len() != 8 + d + s {
        return text.reason(Reason::BadFile);
    }
    let end = 8 + d;
    write_block(&file[8..end], &file[end..], text);
}

// Writes what the dump program prints of a file into the text, and gives the length of it: at most 90,112 bytes.
pub fn write_dump(file: &[u8], text: &mut [u8; 90112]) -> usize
    ensures { (result ≡ length (dump file.now)) × (text.new ≡ sets text.old 0 (dump file.now)) × (result ≤ 90112) }
{
    let mut written = Text {
        bytes: text,
        len: 0,
    };
    write_file(file, &mut written);
    let Text { bytes: _, len } = written;
    len
}
