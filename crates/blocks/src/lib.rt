// The calls on a descriptor and its data: list the items, tell an item's state, lend its value, read a whole number, a packed
// decimal, or a value that is whole or a float.

#![tactic(auto)]

ghost use Rattle.std.specs.Prelude.{◌≡◌, ◌+◌, ◌≤◌, not, ◌&&◌, length, IfOk};
ghost use Rattle.fdoca.specs.Calls as calls;
ghost use Rattle.fdoca.specs.Calls.{item_at, state_of, whole_number, whole_answer, decimal_answer, value_answer};
ghost use Rattle.descriptors.specs.Holds.{Ready};
ghost use Rattle.cuts.specs.Cut.{Fitting};
ghost use Rattle.blocks.specs.Answers.{items_into, ListedAs};
ghost use Rattle.blocks.specs.Lending.{lent_at, LentPart};
ghost use Rattle.blocks.specs.Order.{order_of};
ghost use Rattle.blocks.specs.Packing.{Packing, read_at};
ghost use Rattle.field_types.specs.Types.{defined_type};

use descriptors::Examined;
use fdoca::{Decimal, Reason, Refusal, State, Value};
use field_types::FieldType;
use tables::Tables;
use values::Reading;

// Where an entry's type code begins.
const CODE: u64 = 16777216;

// Where an item's value lies: so many bytes behind the data's beginning, and so long.
#[derive(Clone, Copy, Debug, PartialEq, Eq)]
pub struct Lent {
    pub offset: u32,
    pub length: u32,
}

// The list call on an accepted descriptor, where 12 has not come before the items. The list is written only after the whole block is known to be
// good, and to have room in it.
fn list_by(
    desc: &[u8],
    tables: &Tables,
    x: Examined,
    plan: &mut [u64],
    data: &[u8],
    list: &mut [u32],
) -> Result<(), Refusal>
    requires { Ready desc.now tables.now.starts tables.now.sizes tables.now.entries x.id x.items x.rows × Fitting x plan.old × (length «data».now ≤ 32768) }
    ensures { ListedAs (items_into desc.now «data».now list.old) list.old result list.new }
{
    let count = cuts::cut(desc, tables, x, plan, data)?;
    if list.len() < 2 + 2 * count {
        return Err(Refusal {
            reason: Reason::SmallList,
            place: 0,
        });
    }
    walks::write_list(&plan[..count], data.len(), list);
    Ok(())
}

// The list call on an accepted descriptor, with a plan in the smaller buffer that holds it: two calls, as in lookups.
fn list_planned(
    desc: &[u8],
    tables: &Tables,
    x: Examined,
    data: &[u8],
    list: &mut [u32],
) -> Result<(), Refusal>
    requires { Ready desc.now tables.now.starts tables.now.sizes tables.now.entries x.id x.items x.rows × (length «data».now ≤ 32768) }
    ensures { ListedAs (items_into desc.now «data».now list.old) list.old result list.new }
{
    let n = cuts::entries(x);
    if n <= lookups::FEW {
        let mut few = [0u64; lookups::FEW];
        return list_by(desc, tables, x, &mut few[..n], data, list);
    }
    let mut many = [0u64; lookups::MANY];
    list_by(desc, tables, x, &mut many[..n], data, list)
}

// Whether a list of so many entries is too small, as far as the descriptor alone tells: with rows to the end it does not.
fn too_small(x: Examined, size: usize) -> bool
    requires { x.items ≤ 4096 }
    ensures { result ≡ (not x.rows && calls.small size x.items) }
{
    !x.rows && size < 2 + 2 * x.items as usize
}

// Lists a block's items in the caller's list: the count, the block's length, each item's start and each item's id. On a refusal the list is as before.
pub fn list(descriptor: &[u8], data: &[u8], list: &mut [u32]) -> Result<(), Refusal>
    ensures { ListedAs (calls.list descriptor.now «data».now list.old) list.old result list.new }
{
    if lookups::MOST_DATA < data.len() {
        return Err(Refusal {
            reason: Reason::Oversize,
            place: 0,
        });
    }
    let mut tables = Tables::new();
    let x = descriptors::examine(descriptor, &mut tables)?;
    if too_small(x, list.len()) {
        return Err(Refusal {
            reason: Reason::SmallList,
            place: 0,
        });
    }
    list_planned(descriptor, &tables, x, data, list)
}

// Tells an item's state: null mark, type code, and the lengths of its lead, its value and its spare.
pub fn state(descriptor: &[u8], data: &[u8], item: u32) -> Result<State, Refusal>
    ensures { result ≡ state_of (item_at descriptor.now «data».now item) }
{
    let found = lookups::find(descriptor, data, item)?;
    Ok(State {
        null: found.null,
        code: (found.entry / CODE % 256) as u8,
        lead: found.lead as u32,
        value: found.value as u32,
        spare: found.spare as u32,
    })
}

// Tells where an item's value lies in the data. On a null it is empty, right behind the null indicator.
pub fn value_place(descriptor: &[u8], data: &[u8], item: u32) -> Result<Lent, Refusal>
    ensures place { result ≡ lent_at (item_at descriptor.now «data».now item) }
    ensures within { IfOk result (λ lent. lent.offset + lent.length ≤ length «data».now) }
{
    let found = lookups::find(descriptor, data, item)?;
    let offset = (found.start + found.lead) as u32;
    let length = found.value as u32;
    Ok(Lent { offset, length })
}

// Lends an item's value: the part of the data that holds it, cut at its place. On a null or a refusal it is empty.
pub fn lend<'d, 'b>(descriptor: &'d [u8], data: &'b [u8], item: u32) -> &'b [u8]
    ensures { LentPart (item_at descriptor.now «data».now item) «data».entry result }
{
    match value_place(descriptor, data, item) {
        Ok(lies) => {
            let offset = lies.offset as usize;
            let end = offset + lies.length as usize;
            &data[offset..end]
        }
        Err(_) => &data[..0],
    }
}

// A refusal at an item's start.
fn refused(reason: Reason, start: usize) -> Refusal
    requires { start ≤ 32768 }
    ensures { result ≡ record { reason = reason; place = start } }
{
    Refusal {
        reason,
        place: start as u32,
    }
}

// Whether the bytes of a type's whole numbers are reversed, if it has whole numbers.
fn reversed(field_type: FieldType) -> Option<bool>
    ensures { result ≡ order_of (defined_type field_type) }
{
    match field_type {
        FieldType::Integer => Some(false),
        FieldType::ReversedInteger => Some(true),
        _ => None,
    }
}

// Reads a whole-number item, unless it is null.
pub fn whole_number(descriptor: &[u8], data: &[u8], item: u32) -> Result<Option<i64>, Refusal>
    ensures { result ≡ whole_answer (whole_number descriptor.now «data».now item) }
{
    let found = lookups::find(descriptor, data, item)?;
    let code = (found.entry / CODE % 256) as u8;
    let reversed = FieldType::of_code(code)
        .and_then(reversed)
        .ok_or(refused(Reason::WrongKind, found.start))?;
    if found.null {
        return Ok(None);
    }
    let from = found.start + found.lead;
    let to = from + found.value;
    let number = numbers::read(&data[from..to], reversed);
    Ok(Some(number))
}

// Where an entry's part of digits begins: whether they are odd in number, then the fraction digits.
const DIGITS: u64 = 4398046511104;

// The packed decimal of `size` bytes from a place of the data on; `digits` tells whether its digits are odd in number, and its fraction digits.
fn unpacked(
    data: &[u8],
    from: usize,
    size: usize,
    digits: u64,
    start: usize,
) -> Result<Decimal, Refusal>
    requires { Packing «data».now from size digits start }
    ensures { result ≡ decimal_answer (read_at «data».now from size digits start) }
{
    let to = from + size;
    let p = 2 * (size - 1) + (digits % 2) as usize;
    let value = numbers::packed(&data[from..to], p).ok_or(refused(Reason::BadDigit, start))?;
    Ok(Decimal {
        value: Some(value),
        fraction: (digits / 2) as u8,
    })
}

// Reads a packed item: the whole number of its digits, unless it is null, and how many are fraction digits.
pub fn packed(descriptor: &[u8], data: &[u8], item: u32) -> Result<Decimal, Refusal>
    ensures { result ≡ decimal_answer (calls.packed descriptor.now «data».now item) }
{
    let found = lookups::find(descriptor, data, item)?;
    let code = (found.entry / CODE % 256) as u8;
    if FieldType::of_code(code) != Some(FieldType::PackedDecimal) {
        return Err(refused(Reason::WrongKind, found.start));
    }
    let digits = found.entry / DIGITS % 64;
    if found.null {
        return Ok(Decimal {
            value: None,
            fraction: (digits / 2) as u8,
        });
    }
    unpacked(
        data,
        found.start + found.lead,
        found.value,
        digits,
        found.start,
    )
}

// Where an entry's bias indicator stands.
const BIAS: u64 = 549755813888;

// Reads an item's value, whatever numeric type it has: null, a whole number or a 64-bit float of exactly equal value.
pub fn value(descriptor: &[u8], data: &[u8], item: u32) -> Result<Value, Refusal>
    ensures { result ≡ value_answer (calls.value descriptor.now «data».now item) }
{
    let found = lookups::find(descriptor, data, item)?;
    let code = (found.entry / CODE % 256) as u8;
    let reading = FieldType::of_code(code)
        .and_then(|field_type| {
            Reading::of_type(field_type, found.entry % 65536, found.entry / BIAS % 2)
        })
        .ok_or(refused(Reason::WrongKind, found.start))?;
    if found.null {
        return Ok(Value::Null);
    }
    let from = found.start + found.lead;
    let to = from + found.value;
    reading.read(&data[from..to], found.start as u32)
}
