// The numbers that bytes are: two, signed whole numbers of up to eight in two's complement, of either byte order (document 01, "Field types",
// X'23' and X'24'), and packed decimals (document 02, Q-1).

#![tactic(auto)]

ghost use Rattle.std.specs.Prelude.{◌≡◌, ◌+◌, ◌*◌, ◌/◌, ◌^◌, ◌≤◌, ◌<◌, [], ◌∷◌, length, get_or, take, drop};
ghost use Rattle.fdoca.specs.Basics.{big, lookup};
ghost use Rattle.fdoca.specs.Packed.{half_bytes, signs, all_below, packed_number};
ghost use Rattle.fdoca.specs.Calls.{ordered};
ghost use Rattle.fdoca.specs.Returned.{option_of};
ghost use Rattle.numbers.specs.Whole.{twos, whole_up_to_8};
ghost use Rattle.numbers.specs.Packed.{magnitude_of, signed_by};

// The number that two bytes are, most significant first.
pub fn pair(a: u8, b: u8) -> usize
    ensures { (result ≡ big (a ∷ b ∷ [])) × (result < 65536) }
{
    usize::from(u16::from_be_bytes([a, b]))
}

// The byte at `i`, counted from the most significant one. By an index, since the bytes forwards and backwards would be iterators of two types.
fn digit(s: &[u8], reversed: bool, i: usize) -> u8
    requires { i < length s.now }
    ensures { result ≡ get_or (ordered s.now reversed) i 0 }
{
    if reversed { s[s.len() - 1 - i] } else { s[i] }
}

// The unsigned number of the bytes, by Horner's rule.
pub fn unsigned(s: &[u8], reversed: bool) -> u64
    requires { length s.now ≤ 8 }
    ensures { (result ≡ big (ordered s.now reversed)) × (result < 256 ^ length s.now) }
{
    let mut n: u64 = 0;
    for i in 0..s.len() {
        n = n * 256 + u64::from(digit(s, reversed, i));
    }
    n
}

// Half of the numbers of so many bytes: the least one whose sign is minus.
fn half_of(width: usize) -> u64
    requires { (0 < width) × (width ≤ 8) }
    ensures { 2 * result ≡ 256 ^ width }
{
    128 * 256u64.pow(width as u32 - 1)
}

// What n stands for in two's complement, where `h` is half of the numbers of its width.
fn complement(n: u64, h: u64) -> i64
    requires { (n < 2 * h) × (h ≤ 9223372036854775808) }
    ensures { result ≡ twos h n }
{
    if n < h {
        return n as i64;
    }
    let k = h - 1 - (n - h);
    -1 - (k as i64)
}

// The whole number of the bytes, most significant first, or last where `reversed`. It cannot fail, so more than eight bytes, which no field of whole numbers
// has, give 0.
pub fn read(s: &[u8], reversed: bool) -> i64
    ensures { result ≡ whole_up_to_8 s.now reversed }
{
    if s.is_empty() || 8 < s.len() {
        return 0;
    }
    let n = unsigned(s, reversed);
    complement(n, half_of(s.len()))
}

// The half-byte at `i`, two to a byte, the left one first.
fn half(s: &[u8], i: usize) -> u8
    requires { i < 2 * length s.now }
    ensures { result ≡ get_or (half_bytes s.now) i 0 }
{
    let b = s[i / 2];
    if i % 2 == 0 { b / 16 } else { b % 16 }
}

// Whether the half-bytes before the digits, one at the most, are zero.
fn unused_zero(s: &[u8], unused: usize) -> bool
    requires { (unused ≤ 1) × (0 < length s.now) }
    ensures { result ≡ all_below 1 (take unused (half_bytes s.now)) }
{
    unused == 0 || half(s, 0) == 0
}

// The number of the p digits from a half-byte on, by Horner's rule, unless one is above 9.
fn magnitude(s: &[u8], from: usize, p: usize) -> Option<u64>
    requires { (from + p ≤ 2 * length s.now) × (from ≤ 1) × (p ≤ 18) }
    ensures { result ≡ magnitude_of (take p (drop from (half_bytes s.now))) }
{
    let mut n: u64 = 0;
    // By place: two half-bytes share a byte.
    for i in 0..p {
        let d = u64::from(half(s, from + i));
        if 9 < d {
            return None;
        }
        n = n * 10 + d;
    }
    Some(n)
}

// The number n with the sign that a half-byte is: B and D are minus, the others from A on plus.
fn with_sign(n: u64, sign: u8) -> Option<i64>
    requires { n < 1000000000000000000 }
    ensures { result ≡ signed_by n (lookup sign signs) }
{
    match sign {
        0xB | 0xD => Some(-(n as i64)),
        0xA..=0xF => Some(n as i64),
        _ => None,
    }
}

// The number of a packed decimal of p digits, whose bytes these are, unless a half-byte is not valid.
pub fn packed(s: &[u8], p: usize) -> Option<i64>
    requires { (length s.now ≡ p / 2 + 1) × (p ≤ 18) }
    ensures { result ≡ option_of (packed_number p s.now) }
{
    let unused = (p + 1) % 2;
    if !unused_zero(s, unused) {
        return None;
    }
    let n = magnitude(s, unused, p)?;
    with_sign(n, half(s, unused + p))
}
