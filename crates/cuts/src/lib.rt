// The cut of an accepted descriptor's data into items: its plan, marked by the walk.

#![tactic(auto)]

ghost use Rattle.std.specs.Prelude.{◌≡◌, ◌≤◌, true, false, length};
ghost use Rattle.descriptors.specs.Holds.{Ready};
ghost use Rattle.cuts.specs.Cut.{entries_for, Fitting, CutAs};

use descriptors::Examined;
use fdoca::Refusal;
use tables::Tables;

// The most items.
const MOST: usize = 4096;

// Without rows to the end: the plan has as many entries as there are items.
fn cut_items(
    desc: &[u8],
    tables: &Tables,
    id: u8,
    plan: &mut [u64],
    data: &[u8],
) -> Result<usize, Refusal>
    requires { Ready desc.now tables.now.starts tables.now.sizes tables.now.entries id (length plan.old) false × (length «data».now ≤ 32768) }
    ensures { CutAs desc.now «data».now plan.new result }
{
    plans::write(desc, tables, plan, id);
    walks::mark(plan, data)?;
    Ok(plan.len())
}

// With rows to the end: the plan has the fields before them and one pass, and room for the most items.
fn cut_rows(
    desc: &[u8],
    tables: &Tables,
    id: u8,
    before: usize,
    plan: &mut [u64],
    data: &[u8],
) -> Result<usize, Refusal>
    requires { Ready desc.now tables.now.starts tables.now.sizes tables.now.entries id before true × (4096 ≡ length plan.old) × (length «data».now ≤ 32768) }
    ensures { CutAs desc.now «data».now plan.new result }
{
    let g = desc.len() - 3;
    let once = rows::write(desc, tables, plan, id, before, g);
    walks::mark_rows(plan, before, once, data)
}

// How many entries the plan of an accepted descriptor needs.
pub fn entries(x: Examined) -> usize
    requires { x.items ≤ 4096 }
    ensures { (result ≡ entries_for x) × (result ≤ 4096) }
{
    if x.rows { MOST } else { x.items as usize }
}

// The items of the data of an accepted descriptor: how many, with their marks in the plan, or the refusal.
pub fn cut(
    desc: &[u8],
    tables: &Tables,
    x: Examined,
    plan: &mut [u64],
    data: &[u8],
) -> Result<usize, Refusal>
    requires { Ready desc.now tables.now.starts tables.now.sizes tables.now.entries x.id x.items x.rows × Fitting x plan.old × (length «data».now ≤ 32768) }
    ensures { CutAs desc.now «data».now plan.new result }
{
    if x.rows {
        return cut_rows(desc, tables, x.id, x.items as usize, plan, data);
    }
    cut_items(desc, tables, x.id, plan, data)
}
