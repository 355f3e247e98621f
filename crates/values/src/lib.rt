// The value of an item's bytes, whatever numeric type they have (document 02, Q-7): a whole number or a 64-bit float.

#![tactic(auto)]

ghost use Rattle.std.specs.Prelude.{◌≡◌, ◌≤◌, length};
ghost use Rattle.fdoca.specs.Basics.{is_some, the};
ghost use Rattle.fdoca.specs.Calls.{read_by, reading_by};
ghost use Rattle.fdoca.specs.Returned.{returned};
ghost use Rattle.field_types.specs.Types.{defined_type};
ghost use Rattle.values.specs.Reading.{defined_reading, maybe_defined, by_length, binary_by, reading_for};

use fdoca::{Reason, Refusal, Value};
use field_types::FieldType;
use floats::Format;

// How the bytes of a value are read, which may be reversed: as a whole number, or as a float of a format.
#[derive(Clone, Copy, Debug, PartialEq, Eq)]
pub enum Reading {
    Whole { reversed: bool },
    Float { reversed: bool, format: Format },
}

// A float of 4 or of 8 bytes.
fn of_length(size: u64, reversed: bool, short: Format, long: Format) -> Option<Reading>
    ensures { maybe_defined result ≡ by_length size reversed short long }
{
    match size {
        4 => Some(Reading::Float {
            reversed,
            format: short,
        }),
        8 => Some(Reading::Float {
            reversed,
            format: long,
        }),
        _ => None,
    }
}

// A binary float, which is read with the bias indicator 0.
fn binary(size: u64, bias: u64, reversed: bool) -> Option<Reading>
    ensures { maybe_defined result ≡ binary_by size bias reversed }
{
    if bias != 0 {
        return None;
    }
    of_length(size, reversed, Format::ShortBinary, Format::LongBinary)
}

impl Reading {
    // How the value of a field is read, if it is, by its type, its length and its bias indicator.
    #[tactic(auto, unfolding(fdoca::specs::Calls::reading_by))]
    pub fn of_type(field_type: FieldType, size: u64, bias: u64) -> Option<Reading>
        ensures { maybe_defined result ≡ reading_by (defined_type field_type) size bias }
    {
        match field_type {
            FieldType::Integer => Some(Reading::Whole { reversed: false }),
            FieldType::ReversedInteger => Some(Reading::Whole { reversed: true }),
            FieldType::HexFloat => {
                of_length(
                    size,
                    false,
                    Format::ShortHexadecimal,
                    Format::LongHexadecimal,
                )
            }
            FieldType::ReversedFloat => binary(size, bias, true),
            FieldType::BinaryFloat => binary(size, bias, false),
            FieldType::FixedBytes
            | FieldType::VariableBytes
            | FieldType::TerminatedBytes
            | FieldType::ShortBytes
            | FieldType::PackedDecimal => None,
        }
    }

    // The value of the bytes; it is refused at the item's start where there is no exact float.
    pub fn read(self, s: &[u8], start: u32) -> Result<Value, Refusal>
        requires { length s.now ≤ 8 }
        ensures { result ≡ returned (the (read_by (defined_reading self) s.now) 23 start) }
    {
        match self {
            Reading::Whole { reversed } => Ok(Value::Whole(numbers::read(s, reversed))),
            Reading::Float { reversed, format } => {
                let bits = numbers::unsigned(s, reversed);
                let float = format.float_of(bits).ok_or(Refusal {
                    reason: Reason::NoExactFloat,
                    place: start,
                })?;
                Ok(Value::Real(float))
            }
        }
    }
}

// Whether the value of a field is read, by its plain type code, its length and its bias indicator. No crate here asks for it: the value call takes
// the reading itself, from `Reading::of_type`.
#[tactic(auto, using(crate::proofs::Plain::no_plain, crate::proofs::Plain::of_no_type, crate::proofs::Plain::of_a_type))]
pub fn is_read(plain: u8, size: u64, bias: u64) -> bool
    ensures { result ≡ is_some (reading_for plain size bias) }
{
    if 128 <= plain {
        return false;
    }
    match FieldType::of_code(plain) {
        Some(field_type) => Reading::of_type(field_type, size, bias).is_some(),
        None => false,
    }
}
