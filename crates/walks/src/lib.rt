// The walk over a plan and the data (document 01, "Unfolding and walk").

#![tactic(auto)]

ghost use Rattle.std.specs.Prelude.{◌≡◌, ◌+◌, ◌*◌, ◌/◌, ◌≤◌, ◌<◌, List, length, drop, IfOk};
ghost use Rattle.std.proofs.Math.Seq.{paste};
ghost use Rattle.fdoca.specs.Item.{Field};
ghost use Rattle.terminated.specs.Answer.{measured};
ghost use Rattle.fields.specs.Plan.{Planned};
ghost use Rattle.walks.specs.Entry.{measure_entry, is_plain, length_of, Inside, Stepped};
ghost use Rattle.walks.specs.Marks.{MarkedPart, Marked, list_by};
ghost use Rattle.walks.specs.Finding.{IsPlan, IsMark, FoundBy};
ghost use Rattle.walks.specs.Passes.{unmarked, Apart, PassPlan, IsPassPlan, MarkedPasses, RowPlan, IsRowPlan, MarkedRows};

use fdoca::{Reason, Refusal};
use terminated::Measured;

// One item of a good block, and its entry in the plan.
#[derive(Clone, Copy, Debug, PartialEq, Eq)]
pub struct Found {
    pub start: usize,
    pub null: bool,
    pub lead: usize,
    pub value: usize,
    pub spare: usize,
    pub entry: u64,
}

// Where the parts of an entry begin, behind the field length: id, type code, mode with the bias indicator, the layout's number with the digits' part,
// and the position that a marked entry holds.
const ID: u64 = 65536;

const CODE: u64 = 16777216;

const MODE: u64 = 4294967296;

const LAYOUT: u64 = 1099511627776;

const POSITION: u64 = 281474976710656;

// The item at a place of the data, by its entry in the plan, marked or not. It lies within the data. Inlined, since the walk is faster with all of it in its loop.
#[inline(always)]
#[tactic(auto, using(crate::proofs::Going::place_ways))]
pub fn item_at(entry: u64, data: &[u8], at: usize) -> Result<Measured, Reason>
    requires { at ≤ length «data».now }
    ensures measured { measured result ≡ measure_entry entry (drop at «data».now) }
    ensures inside { IfOk result (Inside «data».now at) }
{
    let nullable = 128 <= entry / CODE % 256;
    let layout = (entry / LAYOUT % 4) as u8;
    let mode = (entry / MODE % 128) as u8;
    let f = (entry % ID) as usize;
    items::measure(&data[at..], nullable, layout, mode, f)
}

// Whether the items of an entry are F bytes without a null indicator.
#[tactic(auto, unfolding(crate::specs::Entry::is_plain))]
fn plain(entry: u64) -> bool
    ensures { result ≡ is_plain entry }
{
    entry / CODE % 256 < 128 && entry / LAYOUT % 4 == 0
}

// How many bytes an item has.
fn length_of(item: Measured) -> usize
    requires { item.lead + item.value + item.spare ≤ 32768 }
    ensures { result ≡ length_of item }
{
    item.lead + item.value + item.spare
}

// How many bytes the item at a place of the data has. One of F bytes without a null indicator needs no more than that to be measured; it is tested for first,
// since the walk is faster so.
#[tactic(auto, using(crate::proofs::Steps::step_ways))]
fn step_at(entry: u64, data: &[u8], at: usize) -> Result<usize, Reason>
    requires { (at ≤ length «data».now) × (length «data».now ≤ 32768) }
    ensures { Stepped entry «data».now at result }
{
    if plain(entry) {
        let f = (entry % ID) as usize;
        return Ok(length_of(items::fixed_value(&data[at..], f)?));
    }
    Ok(length_of(item_at(entry, data, at)?))
}

// The walk over a part of a plan, from a place of the data on. The entry of an item gets its position in the highest 16 bits, up to the item that
// stops the walk. The place behind the items.
fn mark_part(part: &mut [u64], data: &[u8], from: usize) -> Result<usize, Refusal>
    requires { IsPlan part.old × (from ≤ length «data».now) × (length «data».now ≤ 32768) }
    ensures marked_part { (fs : List Field) → Planned part.old fs → MarkedPart result from part.new fs «data».now }
    ensures at_in_bounds { IfOk result (λ at. at ≤ length «data».now) }
{
    let mut at = from;
    for entry in part.iter_mut() {
        match step_at(*entry, data, at) {
            Ok(step) => {
                *entry = *entry % POSITION + at as u64 * POSITION;
                at += step;
            }
            Err(reason) => {
                return Err(Refusal {
                    reason,
                    place: at as u32,
                });
            }
        }
    }
    Ok(at)
}

// The walk over the whole plan and the data.
pub fn mark(plan: &mut [u64], data: &[u8]) -> Result<(), Refusal>
    requires { IsPlan plan.old × (length «data».now ≤ 32768) }
    ensures { (fs : List Field) → Planned plan.old fs → Marked result plan.new fs «data».now }
{
    let end = mark_part(plan, data, 0)?;
    if end < data.len() {
        return Err(Refusal {
            reason: Reason::Surplus,
            place: end as u32,
        });
    }
    Ok(())
}

// Copies the first m entries of a pass, which stand from `before` on, to the places from k on, without their marks.
#[tactic(auto, using(crate::proofs::Passing::copy_ways))]
fn copy_pass(plan: &mut [u64], before: usize, k: usize, m: usize)
    requires { Apart before m k × (k + m ≤ length plan.old) }
    ensures { plan.new ≡ paste plan.old k (unmarked (drop before plan.old)) m }
{
    // By place: the entries that are read stand in the same slice as those that are written.
    for i in 0..m {
        plan[k + i] = plan[before + i] % POSITION;
    }
}

// The walk over rows to the end, from a place of the data on, behind the items of the first `before` entries of the plan. The entries of a pass are
// the next `once`; each pass is marked in its items' own places. The plan's length is the room: the most items that can be.
fn mark_passes(
    plan: &mut [u64],
    before: usize,
    once: usize,
    data: &[u8],
    from: usize,
) -> Result<usize, Refusal>
    requires { IsPassPlan plan.old before once × (length plan.old ≤ 4096) × (once < 4294967296) × (from ≤ length «data».now)
        × (length «data».now ≤ 32768) }
    ensures { (rows : List Field) → PassPlan plan.old before once rows
        → MarkedPasses result plan.old plan.new before from rows «data».now }
{
    let mut at = from;
    let mut k = before;
    while at < data.len() {
        let m = once.min(plan.len() - k);
        copy_pass(plan, before, k, m);
        // A match, since with `?` the walk over short passes takes twice as long.
        let end = match mark_part(&mut plan[k..k + m], data, at) {
            Ok(end) => end,
            Err(refusal) => return Err(refusal),
        };
        if m < once {
            return Err(Refusal {
                reason: Reason::TooManyItems,
                place: end as u32,
            });
        }
        at = end;
        k += m;
    }
    Ok(k)
}

// The walk over rows to the end (document 02, Q-5): the fields of the first `before` entries of the plan, and then those of the next `once` over and
// over. How many items it took.
pub fn mark_rows(
    plan: &mut [u64],
    before: usize,
    once: usize,
    data: &[u8],
) -> Result<usize, Refusal>
    requires { IsRowPlan plan.old before once × (length plan.old ≤ 4096) × (once < 4294967296) × (length «data».now ≤ 32768) }
    ensures { (bs rows : List Field) → RowPlan plan.old before once bs rows
        → MarkedRows result plan.old plan.new bs rows «data».now }
{
    let at = mark_part(&mut plan[..before], data, 0)?;
    mark_passes(plan, before, once, data, at)
}

// The position in a marked entry.
fn start_in(entry: u64) -> u32
    ensures { result ≡ entry / 281474976710656 }
{
    (entry / POSITION) as u32
}

// The item list by a marked plan: the count, the block's length, the positions, the ids.
#[tactic(auto, using(crate::proofs::Writing::write_ways))]
pub fn write_list(plan: &[u64], size: usize, list: &mut [u32])
    requires { (2 + 2 * length plan.now ≤ length list.old) × ((length plan.now ≤ 4096) × (size ≤ 32768)) }
    ensures { list.new ≡ list_by plan.now size list.old }
{
    let n = plan.len();
    list[0] = n as u32;
    list[1] = size as u32;
    // By place: each entry is written at two places of the list.
    for (k, entry) in plan.iter().enumerate() {
        list[2 + k] = start_in(*entry);
        list[2 + n + k] = (*entry / ID % 256) as u32;
    }
}

// The item of a marked entry in a good block.
pub fn item_of(marked: u64, data: &[u8]) -> Found
    requires { IsMark «data».now marked × (length «data».now ≤ 32768) }
    ensures { FoundBy «data».now marked result }
{
    let start = (marked / POSITION) as usize;
    let item = item_at(marked, data, start).unwrap();
    Found {
        start,
        null: item.null,
        lead: item.lead,
        value: item.value,
        spare: item.spare,
        entry: marked % POSITION,
    }
}
