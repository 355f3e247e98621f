// A field as one number of a plan, its entry; and the entry of the field with another size (document 02, Q-4). It stays one number, and no struct,
// since a plan has up to 4,096 of them, which the walk reads one after the other: eight bytes each make it fast.

#![tactic(auto)]

ghost use Rattle.std.specs.Prelude.{◌≡◌, ◌<◌};
ghost use Rattle.fields.specs.Parts.{length_part, layout_part, entry_by};
ghost use Rattle.fields.specs.Replaced.{Replaced};

use field_types::Layout;

// By what an entry is divided, so that the layout's number stands lowest.
const LAYOUT: u64 = 1099511627776;

// The length in bytes of a size: p / 2 + 1 of p digits.
fn length_part(layout: u8, size: u64) -> u64
    requires { size < 65536 }
    ensures { (result ≡ length_part layout size) × (result < 65536) }
{
    if layout == Layout::Digits.number() {
        return size / 256 / 2 + 1;
    }
    size
}

// The layout's number in a plan, and of digits whether they are odd in number, and the fraction digits.
fn layout_part(layout: u8, size: u64) -> u64
    ensures { (result ≡ layout_part layout size) × (result < 4096) }
{
    if layout == Layout::Digits.number() {
        return 4 * (size / 256 % 2 + 2 * (size % 256));
    }
    u64::from(layout)
}

// The entry of a field: `own` is its id, type code, mode and bias indicator as one number. The layout is a number here: entry_of answers for every number.
pub fn entry_of(own: u64, layout: u8, size: u64) -> u64
    requires { (own < 16777216) × (size < 65536) }
    ensures { result ≡ entry_by own layout size }
{
    let upper = own + 16777216 * layout_part(layout, size);
    length_part(layout, size) + 65536 * upper
}

// The entry of a field where a group triplet gives the length, in two bytes; a length of zero replaces nothing.
pub fn replaced(entry: u64, a: u8, b: u8) -> u64
    ensures { Replaced entry a b result }
{
    let size = u64::from(a) * 256 + u64::from(b);
    if size == 0 {
        return entry;
    }
    let own = entry / 65536 % 16777216;
    let code = (own / 256 % 256) as u8;
    if field_types::in_digits(code) {
        return entry_of(own, Layout::Digits.number(), size);
    }
    let layout = (entry / LAYOUT % 4) as u8;
    entry_of(own, layout, size)
}
