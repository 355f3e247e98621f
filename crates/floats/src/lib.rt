// The 64-bit floats of exactly equal value (document 02, Q-7).

#![tactic(auto)]

ghost use Rattle.std.specs.Prelude.{◌≡◌, ◌+◌, ◌*◌, ◌/◌, ◌%◌, ◌^◌, ◌≤◌, ◌<◌, nat_le};
ghost use Rattle.std.specs.Float.{binary64};
ghost use Rattle.std.specs.Float.Ieee.{of_fields};
ghost use Rattle.fdoca.specs.Float.{float_of};
ghost use Rattle.fdoca.specs.Returned.{option_of};
ghost use Rattle.floats.specs.Reals.{Units, Hexadecimal, Binary, Narrow};
ghost use Rattle.floats.specs.Format.{format_of};

// The formats: hexadecimal and binary, each of 4 and of 8 bytes.
#[derive(Clone, Copy, Debug, PartialEq, Eq)]
pub enum Format {
    ShortHexadecimal,
    LongHexadecimal,
    ShortBinary,
    LongBinary,
}

// A whole significand, times a power of two.
#[derive(Clone, Copy)]
struct Scaled {
    significand: u64,
    power: u64,
}

// The sign bits of 4 and of 8 bytes.
const SHORT: u64 = 0x8000_0000;

const LONG: u64 = 0x8000_0000_0000_0000;

// The least significand with a bit at the place of a 64-bit float's leading 1, and the least that is too long.
const LEADING: u64 = 0x10_0000_0000_0000;

const TOO_LONG: u64 = 0x20_0000_0000_0000;

// A float from its sign, characteristic and fraction.
fn of_parts(negative: bool, characteristic: u64, fraction: u64) -> f64
    requires { (characteristic ≤ 2046) × (fraction < 2 ^ 52) }
    ensures { result ≡ of_fields binary64 negative characteristic fraction }
{
    let bits = characteristic * LEADING + fraction;
    if negative {
        f64::from_bits(LONG + bits)
    } else {
        f64::from_bits(bits)
    }
}

impl Scaled {
    ghost use Rattle.floats.specs.Scaled.{units_of};

    // The same number with a leading 1, or else with the power 0.
    fn shifted_left(self) -> Scaled
        requires { self.significand < 2 ^ 53 }
        ensures same { units_of result ≡ units_of self }
        ensures at_most_53_bits { result.significand < 2 ^ 53 }
        ensures power { result.power ≤ self.power }
        ensures leading { result.significand < 2 ^ 52 → result.power ≡ 0 }
    {
        let mut shifted = self;
        while shifted.significand < LEADING && 0 < shifted.power {
            shifted.significand *= 2;
            shifted.power -= 1;
        }
        shifted
    }

    // The same number with at most 53 bits, or else odd.
    fn shifted_right(self) -> Scaled
        requires significand { self.significand < 2 ^ 56 }
        requires power { self.power ≤ 2030 }
        ensures same { units_of result ≡ units_of self }
        ensures narrow { Narrow result.significand }
        ensures power { result.power ≤ 2045 }
    {
        let mut shifted = self;
        while TOO_LONG <= shifted.significand && shifted.significand % 2 == 0 {
            shifted.significand /= 2;
            shifted.power += 1;
        }
        shifted
    }

    // The float that it is in units of the least one, 2 to the -1074.
    fn float(self, negative: bool) -> f64
        requires significand { self.significand < 2 ^ 53 }
        requires power { self.power ≤ 2045 }
        ensures { Units result negative self.significand self.power }
    {
        if self.significand == 0 {
            return of_parts(negative, 0, 0);
        }
        let shifted = self.shifted_left();
        if shifted.significand < LEADING {
            return of_parts(negative, 0, shifted.significand);
        }
        of_parts(negative, shifted.power + 1, shifted.significand - LEADING)
    }
}

// The float of a binary number, which has a 1 before its fraction where the characteristic is not 0, if the characteristic is at most `maximum`. `sign` is
// the weight of its sign bit, `hidden` that of the 1, and `power` the power of the characteristic 1, which 0 has too.
fn binary(bits: u64, sign: u64, hidden: u64, maximum: u64, power: u64) -> Option<f64>
    requires weights { (0 < sign) × (0 < hidden) × (hidden ≤ 2 ^ 52) }
    requires powers { (power ≤ 2045) × (maximum + power ≤ 2046) }
    ensures { Binary (nat_le sign bits) (bits % sign / hidden) (bits % hidden) hidden maximum power result }
{
    let characteristic = bits % sign / hidden;
    if maximum < characteristic {
        return None;
    }
    let fraction = bits % hidden;
    let number = if characteristic == 0 {
        Scaled {
            significand: fraction,
            power,
        }
    } else {
        Scaled {
            significand: hidden + fraction,
            power: power + characteristic - 1,
        }
    };
    Some(number.float(sign <= bits))
}

// The float of a hexadecimal number, if the significant bits of its fraction are at most 53. `sign` is the weight of its sign bit, `unit` that of the
// characteristic's last bit, and `power` the power of the characteristic 0.
fn hexadecimal(bits: u64, sign: u64, unit: u64, power: u64) -> Option<f64>
    requires weights { (0 < sign) × (0 < unit) × (unit ≤ 2 ^ 56) }
    requires powers { 4 * (bits % sign / unit) + power ≤ 2030 }
    ensures { Hexadecimal (nat_le sign bits) (bits % unit) (4 * (bits % sign / unit) + power) result }
{
    let characteristic = bits % sign / unit;
    let number = Scaled {
        significand: bits % unit,
        power: 4 * characteristic + power,
    };
    let narrow = number.shifted_right();
    if TOO_LONG <= narrow.significand {
        return None;
    }
    Some(narrow.float(sign <= bits))
}

impl Format {
    // The float of the bits, if one has exactly their value.
    pub fn float_of(self, bits: u64) -> Option<f64>
        ensures { result ≡ option_of (float_of (format_of self) bits) }
    {
        match self {
            Format::ShortHexadecimal => hexadecimal(bits, SHORT, 0x100_0000, 794),
            Format::LongHexadecimal => hexadecimal(bits, LONG, 0x100_0000_0000_0000, 762),
            Format::ShortBinary => binary(bits, SHORT, 0x80_0000, 254, 925),
            Format::LongBinary => binary(bits, LONG, LEADING, 2046, 0),
        }
    }
}
