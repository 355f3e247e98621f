// The calls that a program in C makes. A slice is passed as a pointer and a count of elements. The number is returned, and every other
// result is written where the caller lends room for it; on a refusal zeros are.

#![tactic(auto)]

ghost use Rattle.std.specs.Prelude.{◌≡◌};
ghost use Rattle.fdoca.specs.Check.{check};
ghost use Rattle.fdoca.specs.Calls as calls;
ghost use Rattle.fdoca.specs.Calls.{number_given, place_given};
ghost use Rattle.fdoca.specs.Returned.{answer};
ghost use Rattle.panel.specs.Given.{CheckGiven, ListGiven, StateGiven, LentGiven, WholeGiven, PackedGiven, kind_of, whole_in, real_in, ValueGiven};

use blocks::Lent;
use fdoca::{Decimal, Refusal, State, Value};

// The number of what a call returned, with its place: a refusal's, or zeros.
fn number_of<T>(returned: &Result<T, Refusal>, place: &mut u32) -> u32
    ensures { (result ≡ number_given (answer returned.now)) × (place.new ≡ place_given (answer returned.now)) }
{
    match returned {
        Ok(_) => {
            *place = 0;
            0
        }
        Err(refusal) => {
            *place = refusal.place;
            refusal.reason.number()
        }
    }
}

// Checks a descriptor: how many items it describes.
#[unsafe(no_mangle)]
pub extern "C" fn fdoca_check(descriptor: &[u8], place: &mut u32, items: &mut u32) -> u32
    ensures { CheckGiven (check descriptor.now) result place.new items.new }
{
    let checked = descriptors::check(descriptor);
    let number = number_of(&checked, place);
    *items = checked.unwrap_or(0);
    number
}

// Lists a block's items in the caller's list. On a refusal the list is as before.
#[unsafe(no_mangle)]
pub extern "C" fn fdoca_list(
    descriptor: &[u8],
    data: &[u8],
    list: &mut [u32],
    place: &mut u32,
) -> u32
    ensures { ListGiven (calls.list descriptor.now «data».now list.old) list.old result place.new list.new }
{
    let listed = blocks::list(descriptor, data, list);
    number_of(&listed, place)
}

// Tells an item's state: null mark, type code, and the lengths of its lead, its value and its spare.
#[unsafe(no_mangle)]
pub extern "C" fn fdoca_state(
    descriptor: &[u8],
    data: &[u8],
    item: u32,
    place: &mut u32,
    is_null: &mut u32,
    type_code: &mut u32,
    lead: &mut u32,
    value: &mut u32,
    spare: &mut u32,
) -> u32
    ensures { StateGiven (calls.item_at descriptor.now «data».now item) result place.new is_null.new type_code.new lead.new value.new spare.new }
{
    let told = blocks::state(descriptor, data, item);
    let number = number_of(&told, place);
    let state = told.unwrap_or(State {
        null: false,
        code: 0,
        lead: 0,
        value: 0,
        spare: 0,
    });
    *is_null = u32::from(state.null);
    *type_code = u32::from(state.code);
    *lead = state.lead;
    *value = state.value;
    *spare = state.spare;
    number
}

// Tells where in the data an item's value lies.
#[unsafe(no_mangle)]
pub extern "C" fn fdoca_lend(
    descriptor: &[u8],
    data: &[u8],
    item: u32,
    place: &mut u32,
    offset: &mut u32,
    size: &mut u32,
) -> u32
    ensures { LentGiven (calls.item_at descriptor.now «data».now item) «data».now result place.new offset.new size.new }
{
    let told = blocks::value_place(descriptor, data, item);
    let number = number_of(&told, place);
    let lent = told.unwrap_or(Lent {
        offset: 0,
        length: 0,
    });
    *offset = lent.offset;
    *size = lent.length;
    number
}

// Reads a whole-number item; a null is 0 with the null mark 1.
#[unsafe(no_mangle)]
pub extern "C" fn fdoca_whole_number(
    descriptor: &[u8],
    data: &[u8],
    item: u32,
    place: &mut u32,
    is_null: &mut u32,
    value: &mut i64,
) -> u32
    ensures { WholeGiven (calls.whole_number descriptor.now «data».now item) result place.new is_null.new value.new }
{
    let read = blocks::whole_number(descriptor, data, item);
    let number = number_of(&read, place);
    let whole = read.unwrap_or(Some(0));
    *is_null = u32::from(whole.is_none());
    *value = whole.unwrap_or(0);
    number
}

// Reads a packed item: the whole number of its digits, and how many are fraction digits; a null is 0 with the null mark 1.
#[unsafe(no_mangle)]
pub extern "C" fn fdoca_packed(
    descriptor: &[u8],
    data: &[u8],
    item: u32,
    place: &mut u32,
    is_null: &mut u32,
    value: &mut i64,
    fraction_digits: &mut u32,
) -> u32
    ensures { PackedGiven (calls.packed descriptor.now «data».now item) result place.new is_null.new value.new fraction_digits.new }
{
    let read = blocks::packed(descriptor, data, item);
    let number = number_of(&read, place);
    let decimal = read.unwrap_or(Decimal {
        value: Some(0),
        fraction: 0,
    });
    *is_null = u32::from(decimal.value.is_none());
    *value = decimal.value.unwrap_or(0);
    *fraction_digits = u32::from(decimal.fraction);
    number
}

// The kind of a value: 0 null, 1 a whole number, 2 a 64-bit float.
fn kind_of(value: Value) -> u32
    ensures { result ≡ kind_of value }
{
    match value {
        Value::Null => 0,
        Value::Whole(_) => 1,
        Value::Real(_) => 2,
    }
}

// The whole number that a value is, or 0.
fn whole_in(value: Value) -> i64
    ensures { result ≡ whole_in value }
{
    match value {
        Value::Whole(whole) => whole,
        Value::Null | Value::Real(_) => 0,
    }
}

// The float that a value is, or 0.
fn real_in(value: Value) -> f64
    ensures { result ≡ real_in value }
{
    match value {
        Value::Real(real) => real,
        Value::Null | Value::Whole(_) => 0.0,
    }
}

// Reads an item's value: its kind, and its whole number or its float.
#[unsafe(no_mangle)]
pub extern "C" fn fdoca_value(
    descriptor: &[u8],
    data: &[u8],
    item: u32,
    place: &mut u32,
    kind: &mut u32,
    whole: &mut i64,
    real: &mut f64,
) -> u32
    ensures { ValueGiven (calls.value descriptor.now «data».now item) result place.new kind.new whole.new real.new }
{
    let read = blocks::value(descriptor, data, item);
    let number = number_of(&read, place);
    let value = read.unwrap_or(Value::Whole(0));
    *kind = kind_of(value);
    *whole = whole_in(value);
    *real = real_in(value);
    number
}
