// Field types (document 01, "Field types"; document 02, Q-1 to Q-4): the type of a type code, its rule, the size that holds for an SDA's type
// parameters, and their test; and the test of a length that replaces theirs.

#![tactic(auto)]

ghost use Rattle.std.specs.Prelude.{◌≡◌, length};
ghost use Rattle.fdoca.specs.FieldType.{plain, type_of, rule_of, allows, length_that_holds, digits_up_to, digits};
ghost use Rattle.fdoca.specs.Check.{good_column};
ghost use Rattle.field_types.specs.Layouts.{number_of, numbered};
ghost use Rattle.field_types.specs.Types.{defined_type, maybe_defined};
ghost use Rattle.field_types.specs.Rows.{sizes_of, given, IsRule};
ghost use Rattle.field_types.specs.Parameters.{unused_zero, allows_number, rule_allows, good_eight, in_digits, shape_if};

use numbers::pair;

// The types that are carried: bytes of a fixed length, behind a length field of two bytes, before a zero byte and behind a length field of one byte;
// whole numbers, also byte-reversed, and packed decimals; hexadecimal floats, and binary ones, byte-reversed or not.
#[derive(Clone, Copy, Debug, PartialEq, Eq)]
pub enum FieldType {
    FixedBytes,
    VariableBytes,
    TerminatedBytes,
    ShortBytes,
    Integer,
    ReversedInteger,
    PackedDecimal,
    HexFloat,
    ReversedFloat,
    BinaryFloat,
}

// Where a value ends: after all bytes of its size, after as many as a length field of one byte or of two says, or before a zero byte; and that of
// a packed decimal, which is fixed too, with its size in digits.
#[derive(Clone, Copy, PartialEq, Eq)]
pub enum Layout {
    Fixed,
    Short,
    Long,
    Terminated,
    Digits,
}

impl Layout {
    // Its number.
    pub fn number(self) -> u8
        ensures { result ≡ number_of self }
    {
        self as u8
    }

    // The layout by which an item of a number is measured; from 3 on it ends before a zero byte.
    pub fn of_number(n: u8) -> Layout
        ensures { result ≡ numbered n }
    {
        match n {
            0 => Layout::Fixed,
            1 => Layout::Short,
            2 => Layout::Long,
            _ => Layout::Terminated,
        }
    }
}

// What an SDA's type and parameters say of its items: the layout, and the two bytes of the size that holds, as one number.
#[derive(Clone, Copy)]
pub struct Shape {
    pub layout: Layout,
    pub size: usize,
}

// The sizes that a type allows: field lengths, or so many digits at the most.
#[derive(Clone, Copy)]
enum Sizes {
    UpTo(usize),
    Two(usize, usize),
    Three(usize, usize, usize),
    DigitsUpTo(usize),
}

// Whether there are 1 to `most` digits, and at most as many fraction digits.
fn digits_allowed(most: usize, p: usize, fraction: usize) -> bool
    ensures { result ≡ allows (digits_up_to most) (digits p fraction) }
{
    1 <= p && p <= most && fraction <= p
}

impl Sizes {
    // Whether a size is allowed, by its two bytes as one number.
    fn allow(self, size: usize) -> bool
        ensures { result ≡ allows_number (sizes_of self) size }
    {
        match self {
            Sizes::UpTo(most) => size <= most,
            Sizes::Two(a, b) => size == a || size == b,
            Sizes::Three(a, b, c) => size == a || size == b || size == c,
            Sizes::DigitsUpTo(most) => digits_allowed(most, size / 256, size % 256),
        }
    }
}

// What a field type allows as its type parameters, and how its values are laid out.
#[derive(Clone, Copy)]
struct Rule {
    layout: Layout,
    sizes: Sizes,
    // What a field length other than 4, 8, 16 means.
    default: Option<usize>,
    has_mode: bool,
    has_bias: bool,
}

impl Rule {
    // The size that holds, by its two bytes as one number: the default, where there is one, in place of a field length other than 4, 8, 16.
    fn size_held(self, size: usize) -> usize
        ensures { result ≡ length_that_holds (given self.default) size }
    {
        if matches!(size, 4 | 8 | 16) {
            return size;
        }
        self.default.unwrap_or(size)
    }

    // Whether a bias indicator, a mode and a size are allowed.
    fn allows(self, bias: usize, mode: u8, size: usize) -> bool
        ensures { result ≡ rule_allows self bias mode size }
    {
        bias <= usize::from(self.has_bias)
            && mode <= u8::from(self.has_mode)
            && self.sizes.allow(size)
    }
}

// The rules, row by row.
const RULES: [Rule; 10] = [
    // X'01'
    Rule {
        layout: Layout::Fixed,
        sizes: Sizes::UpTo(32767),
        default: None,
        has_mode: false,
        has_bias: false,
    },
    // X'02'
    Rule {
        layout: Layout::Long,
        sizes: Sizes::UpTo(32767),
        default: None,
        has_mode: true,
        has_bias: false,
    },
    // X'03'
    Rule {
        layout: Layout::Terminated,
        sizes: Sizes::UpTo(32767),
        default: None,
        has_mode: true,
        has_bias: false,
    },
    // X'07'
    Rule {
        layout: Layout::Short,
        sizes: Sizes::UpTo(255),
        default: None,
        has_mode: true,
        has_bias: false,
    },
    // X'23'
    Rule {
        layout: Layout::Fixed,
        sizes: Sizes::Three(2, 4, 8),
        default: None,
        has_mode: false,
        has_bias: false,
    },
    // X'24'
    Rule {
        layout: Layout::Fixed,
        sizes: Sizes::Three(2, 4, 8),
        default: None,
        has_mode: false,
        has_bias: false,
    },
    // X'30'
    Rule {
        layout: Layout::Digits,
        sizes: Sizes::DigitsUpTo(18),
        default: None,
        has_mode: false,
        has_bias: false,
    },
    // X'40'
    Rule {
        layout: Layout::Fixed,
        sizes: Sizes::Three(4, 8, 16),
        default: Some(8),
        has_mode: false,
        has_bias: false,
    },
    // X'47'
    Rule {
        layout: Layout::Fixed,
        sizes: Sizes::Two(4, 8),
        default: Some(4),
        has_mode: false,
        has_bias: true,
    },
    // X'48'
    Rule {
        layout: Layout::Fixed,
        sizes: Sizes::Two(4, 8),
        default: Some(4),
        has_mode: false,
        has_bias: true,
    },
];

// The plain code of a type code, whose nullable form is the plain code plus X'80'.
pub fn plain_code(code: u8) -> u8
    ensures { result ≡ plain code }
{
    if code < 128 { code } else { code - 128 }
}

impl FieldType {
    // The type that a code stands for, plain or nullable. Inlined, so that who asks for one type makes one comparison.
    #[inline(always)]
    #[tactic(auto, unfolding(fdoca::specs::FieldType::type_of))]
    pub fn of_code(code: u8) -> Option<FieldType>
        ensures { maybe_defined result ≡ type_of code }
    {
        match plain_code(code) {
            0x01 => Some(FieldType::FixedBytes),
            0x02 => Some(FieldType::VariableBytes),
            0x03 => Some(FieldType::TerminatedBytes),
            0x07 => Some(FieldType::ShortBytes),
            0x23 => Some(FieldType::Integer),
            0x24 => Some(FieldType::ReversedInteger),
            0x30 => Some(FieldType::PackedDecimal),
            0x40 => Some(FieldType::HexFloat),
            0x47 => Some(FieldType::ReversedFloat),
            0x48 => Some(FieldType::BinaryFloat),
            _ => None,
        }
    }

    // The rule of a type. Each index is a constant, so that the table is never copied to be read.
    #[tactic(auto, unfolding(fdoca::specs::FieldType::rule_of, crate::specs::Rows::sizes_of, crate::specs::Rows::given, crate::specs::Layouts::form_of, crate::specs::Layouts::numbered, crate::specs::Layouts::prefix_of))]
    fn rule(self) -> Rule
        ensures { IsRule result (rule_of (defined_type self)) }
    {
        match self {
            FieldType::FixedBytes => RULES[0],
            FieldType::VariableBytes => RULES[1],
            FieldType::TerminatedBytes => RULES[2],
            FieldType::ShortBytes => RULES[3],
            FieldType::Integer => RULES[4],
            FieldType::ReversedInteger => RULES[5],
            FieldType::PackedDecimal => RULES[6],
            FieldType::HexFloat => RULES[7],
            FieldType::ReversedFloat => RULES[8],
            FieldType::BinaryFloat => RULES[9],
        }
    }
}

// Whether the size of a code's type is in digits: that of a packed decimal.
#[tactic(auto, using(crate::proofs::Rows::no_digits, crate::proofs::Rows::packed_digits, crate::proofs::Rows::other_digits))]
pub fn in_digits(code: u8) -> bool
    ensures { result ≡ in_digits code }
{
    matches!(FieldType::of_code(code), Some(FieldType::PackedDecimal))
}

// Whether the bytes that hold no type parameter are zero.
fn unused_zero(ps: &[u8]) -> bool
    requires { length ps.now ≡ 8 }
    ensures { result ≡ unused_zero ps.now }
{
    ps[0] == 0 && ps[1] == 0 && ps[4] == 0
}

// Whether a length that a group triplet gives, in two bytes, suits the type of a code as it is given; one of zero replaces nothing, and is good.
pub fn good_length(code: u8, a: u8, b: u8) -> bool
    ensures { result ≡ good_column code a b }
{
    let length = pair(a, b);
    if length == 0 {
        return true;
    }
    match FieldType::of_code(code) {
        Some(field_type) => field_type.rule().sizes.allow(length),
        None => false,
    }
}

// The shape of an SDA whose type parameters are eight bytes that its field type allows, with the size that holds.
pub fn shape_of(code: u8, ps: &[u8]) -> Option<Shape>
    ensures { result ≡ shape_if (good_eight code ps.now) code ps.now }
{
    if ps.len() != 8 || !unused_zero(ps) {
        return None;
    }
    let rule = FieldType::of_code(code)?.rule();
    let given = pair(ps[6], ps[7]);
    let size = rule.size_held(given);
    if !rule.allows(pair(ps[2], ps[3]), ps[5], size) {
        return None;
    }
    Some(Shape {
        layout: rule.layout,
        size,
    })
}
