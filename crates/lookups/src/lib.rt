// One item of a block, by its number, or the refusal.

#![tactic(auto)]

ghost use Rattle.std.specs.Prelude.{◌≤◌, length};
ghost use Rattle.fdoca.specs.Calls.{item_at};
ghost use Rattle.descriptors.specs.Holds.{Ready};
ghost use Rattle.cuts.specs.Cut.{Fitting};
ghost use Rattle.lookups.specs.Answer.{item_in, FoundAs};

use descriptors::Examined;
use fdoca::{Reason, Refusal};
use tables::Tables;
use walks::Found;

// The largest data block.
pub const MOST_DATA: usize = 32768;

// The two sizes of a plan: a buffer is cleared before use, so a small block takes a small one.
pub const FEW: usize = 128;

pub const MANY: usize = 4096;

// One item of an accepted descriptor's block, once the whole block is known to be good.
fn find_by(
    desc: &[u8],
    tables: &Tables,
    x: Examined,
    plan: &mut [u64],
    data: &[u8],
    item: u32,
) -> Result<Found, Refusal>
    requires { Ready desc.now tables.now.starts tables.now.sizes tables.now.entries x.id x.items x.rows × Fitting x plan.old × (length «data».now ≤ 32768) }
    ensures { FoundAs (item_in desc.now «data».now item) «data».now result }
{
    let count = cuts::cut(desc, tables, x, plan, data)?;
    let k = item as usize;
    if count <= k {
        return Err(Refusal {
            reason: Reason::NoSuchItem,
            place: 0,
        });
    }
    Ok(walks::item_of(plan[k], data))
}

// One item of an accepted descriptor's block, with a plan in the smaller buffer that holds it. The call stands twice, once for each size: with the size as
// a parameter the choice between two calls would stand here still.
#[inline(always)]
fn find_planned(
    desc: &[u8],
    tables: &Tables,
    x: Examined,
    data: &[u8],
    item: u32,
) -> Result<Found, Refusal>
    requires { Ready desc.now tables.now.starts tables.now.sizes tables.now.entries x.id x.items x.rows × (length «data».now ≤ 32768) }
    ensures { FoundAs (item_in desc.now «data».now item) «data».now result }
{
    let n = cuts::entries(x);
    if n <= FEW {
        let mut few = [0u64; FEW];
        return find_by(desc, tables, x, &mut few[..n], data, item);
    }
    let mut many = [0u64; MANY];
    find_by(desc, tables, x, &mut many[..n], data, item)
}

// The item of a number, or the refusal. Inlined with the choice of a plan, so that what is found is not handed on through memory.
#[inline(always)]
pub fn find(descriptor: &[u8], data: &[u8], item: u32) -> Result<Found, Refusal>
    ensures { FoundAs (item_at descriptor.now «data».now item) «data».now result }
{
    if MOST_DATA < data.len() {
        return Err(Refusal {
            reason: Reason::Oversize,
            place: 0,
        });
    }
    let mut tables = Tables::new();
    // A match in place of `?`, so that the refusal is handed on as a value that a must-fail edit can change.
    match descriptors::examine(descriptor, &mut tables) {
        Ok(x) => find_planned(descriptor, &tables, x, data, item),
        Err(refusal) => Err(refusal),
    }
}
