// A null-terminated value (X'03'): where its first zero byte stands, and how its bytes are laid out. And what measuring an item finds, of any layout.

#![tactic(auto)]

ghost use Rattle.std.specs.Prelude.{◌≡◌, ◌==◌, false, position};
ghost use Rattle.fdoca.specs.Item.{unbounded, limited, reserved, space, measure_terminated};
ghost use Rattle.terminated.specs.Answer.{measured};

use fdoca::Reason;

// An item as it was measured. It is three runs of bytes: what precedes the value (null indicator and length field), the value, and what follows it
// (terminator and reserved space).
#[derive(Clone, Copy, Debug, PartialEq, Eq)]
pub struct Measured {
    pub null: bool,
    pub lead: usize,
    pub value: usize,
    pub spare: usize,
}

impl Measured {
    // An item that has a value.
    pub fn with_value(lead: usize, value: usize, spare: usize) -> Measured
        ensures { result ≡ record { null = false; lead = lead; value = value; spare = spare } }
    {
        Measured {
            null: false,
            lead,
            value,
            spare,
        }
    }
}

// Where the first zero byte stands.
fn zero_in(s: &[u8]) -> Option<usize>
    ensures { result ≡ position (λ b. b == 0) s.now }
{
    s.iter().position(|b| *b == 0)
}

// The same, four bytes at a time, since for long values `zero_in` takes half as long again.
#[tactic(auto, using(crate::proofs::Fours::fours))]
fn first_zero(s: &[u8]) -> Option<usize>
    ensures { result ≡ position (λ b. b == 0) s.now }
{
    // By place, as `chunks` would give each four as a slice of a length that is not known.
    let mut i = 0;
    while 4 <= s.len() - i {
        if let Some(k) = zero_in(&[s[i], s[i + 1], s[i + 2], s[i + 3]]) {
            return Some(i + k);
        }
        i += 4;
    }
    let k = zero_in(&s[i..])?;
    Some(i + k)
}

// F = 0: the item ends with the first zero byte.
#[tactic(auto, using(crate::proofs::Ways::ways))]
fn endless(s: &[u8]) -> Result<Measured, Reason>
    ensures { measured result ≡ measure_terminated unbounded s.now }
{
    match first_zero(s) {
        Some(end) => Ok(Measured::with_value(0, end, 1)),
        None => Err(Reason::ShortData),
    }
}

// F above 0, mode 1: the item ends with the first zero byte, which stands among the first F + 1.
#[inline(always)]
#[tactic(auto, using(crate::proofs::Ways::ways))]
fn bounded(s: &[u8], f: usize) -> Result<Measured, Reason>
    ensures { measured result ≡ measure_terminated (limited f) s.now }
{
    if s.len() <= f {
        return endless(s);
    }
    match first_zero(&s[..=f]) {
        Some(end) => Ok(Measured::with_value(0, end, 1)),
        None => Err(Reason::NoEnd),
    }
}

// F above 0, mode 0: F + 1 bytes, of which one is zero.
#[inline(always)]
#[tactic(auto, using(crate::proofs::Ways::ways))]
fn padded(s: &[u8], f: usize) -> Result<Measured, Reason>
    ensures { measured result ≡ measure_terminated (reserved f) s.now }
{
    if s.len() <= f {
        return Err(Reason::ShortData);
    }
    let sent = &s[..=f];
    let Some(end) = first_zero(sent) else {
        return Err(Reason::NoEnd);
    };
    Ok(Measured::with_value(0, end, sent.len() - end))
}

// A value that ends before a zero byte. Inlined, like the two above, since the walk is faster with all of it in its loop.
#[inline(always)]
#[tactic(auto, unfolding(fdoca::specs::Item::space))]
pub fn terminated_value(s: &[u8], mode: u8, f: usize) -> Result<Measured, Reason>
    ensures { measured result ≡ measure_terminated (space mode f) s.now }
{
    match (f, mode) {
        (0, _) => endless(s),
        (_, 0) => padded(s, f),
        _ => bounded(s, f),
    }
}
