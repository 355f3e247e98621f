// One item of a data block: whether it is null, and how its bytes are laid out.

#![tactic(auto)]

ghost use Rattle.std.specs.Prelude.{◌≡◌, ◌≤◌};
ghost use Rattle.fdoca.specs.FieldType.{signed_two, unsigned_one};
ghost use Rattle.fdoca.specs.Item.{space, measure_fixed, measure_counted, measure_value, measure_item};
ghost use Rattle.field_types.specs.Layouts.{layout_of, layout_by};
ghost use Rattle.terminated.specs.Answer.{measured};
ghost use Rattle.items.specs.Answer.{measure_sent, measure_ranged, measure_indicator, told};

use fdoca::Reason;
use field_types::Layout;
use terminated::Measured;

// A value of F bytes, which is the whole item of a form without a null indicator.
#[tactic(auto, unfolding(fdoca::specs::Item::measure_fixed))]
pub fn fixed_value(s: &[u8], f: usize) -> Result<Measured, Reason>
    ensures { measured result ≡ measure_fixed f s.now }
{
    if f <= s.len() {
        Ok(Measured::with_value(0, f, 0))
    } else {
        Err(Reason::ShortData)
    }
}

// Behind a length field of `width` bytes `size` bytes are sent, of which the first `l` are the value; `left` bytes are there.
#[tactic(auto, unfolding(crate::specs::Answer::measure_sent))]
fn sent(width: usize, l: usize, size: usize, left: usize) -> Result<Measured, Reason>
    requires { l ≤ size }
    ensures { measured result ≡ measure_sent width l size left }
{
    if size <= left {
        Ok(Measured::with_value(width, l, size - l))
    } else {
        Err(Reason::ShortData)
    }
}

// Behind a length field that says `l`: its range, then the body, which has F bytes in mode 0 with F above 0.
#[tactic(auto, using(crate::proofs::Ways::ranged_ways))]
fn ranged(width: usize, l: usize, left: usize, mode: u8, f: usize) -> Result<Measured, Reason>
    ensures { measured result ≡ measure_ranged (space mode f) width l left }
{
    match (f, mode) {
        (0, _) => sent(width, l, l, left),
        _ if f < l => Err(Reason::BadCount),
        (_, 0) => sent(width, l, f, left),
        _ => sent(width, l, l, left),
    }
}

// A length field of one byte, unsigned.
#[tactic(auto, using(crate::proofs::Ways::counted_ways))]
fn counted_one(s: &[u8], mode: u8, f: usize) -> Result<Measured, Reason>
    ensures { measured result ≡ measure_counted unsigned_one (space mode f) s.now }
{
    let [l, body @ ..] = s else {
        return Err(Reason::ShortData);
    };
    ranged(1, usize::from(*l), body.len(), mode, f)
}

// A length field of two bytes, signed, most significant first.
#[tactic(auto, using(crate::proofs::Ways::counted_ways))]
fn counted_two(s: &[u8], mode: u8, f: usize) -> Result<Measured, Reason>
    ensures { measured result ≡ measure_counted signed_two (space mode f) s.now }
{
    let [high, low, body @ ..] = s else {
        return Err(Reason::ShortData);
    };
    if 128 <= *high {
        return Err(Reason::BadCount);
    }
    let l = usize::from(*high) * 256 + usize::from(*low);
    ranged(2, l, body.len(), mode, f)
}

// An item without null indicator, or what follows one. Inlined, like `measure`, since the walk is faster with all of it in its loop.
#[inline(always)]
#[tactic(auto, unfolding(fdoca::specs::Item::measure_value, field_types::specs::Layouts::layout_of))]
fn value(s: &[u8], layout: Layout, mode: u8, f: usize) -> Result<Measured, Reason>
    ensures { measured result ≡ measure_value (layout_of layout) mode f s.now }
{
    match layout {
        Layout::Fixed | Layout::Digits => fixed_value(s, f),
        Layout::Short => counted_one(s, mode, f),
        Layout::Long => counted_two(s, mode, f),
        Layout::Terminated => terminated::terminated_value(s, mode, f),
    }
}

// What the null indicator tells: how many bytes the value stands behind, or that there is none since the item is null.
#[tactic(auto, using(crate::proofs::Ways::indicator_ways), unfolding(crate::specs::Answer::measure_indicator))]
fn indicator(s: &[u8], nullable: bool) -> Result<Option<usize>, Reason>
    ensures { told result ≡ measure_indicator nullable s.now }
{
    if !nullable {
        return Ok(Some(0));
    }
    match s {
        [] => Err(Reason::ShortData),
        [0, ..] => Ok(Some(1)),
        [1..=127, ..] => Err(Reason::BadIndicator),
        _ => Ok(None),
    }
}

// The item at the start of `s`. The layout is a number here: an entry of a plan holds it so, and measuring answers for every number.
#[inline(always)]
#[tactic(auto, using(crate::proofs::Ways::measured_ways))]
pub fn measure(s: &[u8], nullable: bool, layout: u8, mode: u8, f: usize) -> Result<Measured, Reason>
    ensures { measured result ≡ measure_item nullable (layout_by layout) mode f s.now }
{
    let Some(skip) = indicator(s, nullable)? else {
        return Ok(Measured {
            null: true,
            lead: 1,
            value: 0,
            spare: 0,
        });
    };
    let item = value(&s[skip..], Layout::of_number(layout), mode, f)?;
    Ok(Measured {
        lead: skip + item.lead,
        ..item
    })
}
