// Rows to the end (document 02, Q-5): the plan of one pass over the repeated layout, and whether it would take no data.

#![tactic(auto)]

ghost use Rattle.std.specs.Prelude.{◌≡◌, ◌+◌, ◌≤◌, ◌<◌, map, ◌++◌, length, take};
ghost use Rattle.std.proofs.lemmas.List.Edits.{sets};
ghost use Rattle.fields.specs.Plan.{entry_of};
ghost use Rattle.fdoca.specs.Unfolding.{endless};
ghost use Rattle.plans.specs.Tied.{list_of, kind_of, row_list, Refers, RowAt, TiedTo, Known};
ghost use Rattle.plans.specs.Left.{group_of};
ghost use Rattle.plans.specs.Writing.{group_list, RefersRow};
ghost use Rattle.rows.specs.Pass.{layout_list, pass_list, PassAt, Room, TiedSome, no_data};

use plans::{Group, Groups};
use tables::Tables;

// Writes one pass over the layout of the group at g, from the plan's beginning on, cut at the plan's end, and gives the items of a whole pass.
fn pass(desc: &[u8], tables: &Tables, plan: &mut [u64], g: usize) -> usize
    requires { TiedTo desc.now tables.now × PassAt desc.now g × Room desc.now tables.now.entries g (length plan.old)
        × (length plan.old ≤ 4096) }
    ensures value { (result ≡ length (pass_list desc.now g)) × (result < 16777216) }
    ensures plan_after { plan.new ≡ sets plan.old 0 (take (length plan.old) (map entry_of (pass_list desc.now g))) }
{
    let id = desc[g];
    match tables.field(id) {
        Some(entry) => {
            let n = plans::taken_count(tables, id, desc[g + 1]);
            plans::fill(plan, 0, n.min(plan.len()), entry);
            n
        }
        None => plans::expand(desc, tables, plan, tables.start(id), 0),
    }
}

// Writes the plan of rows to the end: the list of the id, of `before` fields, and behind it one pass over the layout of the group at g, cut at the
// plan's end. Gives the items of a whole pass.
pub fn write(
    desc: &[u8],
    tables: &Tables,
    plan: &mut [u64],
    id: u8,
    before: usize,
    g: usize,
) -> usize
    requires { TiedTo desc.now tables.now × Known desc.now id × PassAt desc.now g
        × Room desc.now tables.now.entries g (length plan.old) × (before ≡ length (list_of desc.now id)) × (before ≤ length plan.old)
        × (length plan.old ≤ 4096) }
    ensures value { (result ≡ length (pass_list desc.now g)) × (result < 16777216) }
    ensures plan_after { plan.new ≡ sets plan.old 0
        (take (length plan.old) (map entry_of (list_of desc.now id ++ pass_list desc.now g))) }
{
    let n = pass(desc, tables, plan, g);
    if before == 0 {
        return n;
    }
    let kept = n.min(plan.len() - before);
    plan.copy_within(..kept, before);
    plans::write(desc, tables, plan, id);
    n
}

// Whether a plan's entry is that of an X'01' that is not nullable, with F 0.
fn no_data(entry: u64) -> bool
    ensures { result ≡ no_data entry }
{
    entry / 16777216 % 256 == 1 && entry % 65536 == 0
}

// `endless` of the row at p, group by group.
#[cycle(no_data_rows)]
fn endless_row(desc: &[u8], tables: &Tables, p: usize) -> bool
    requires { TiedSome desc.now tables.now.starts tables.now.entries × RowAt desc.now tables.now.starts p (row_list desc.now p) }
    ensures { result ≡ endless (row_list desc.now p) }
{
    let head = desc[p + 1];
    // No `all`: in a cycle of calls a closure needs clauses and a measure of its own.
    for group in Groups::of(desc, p) {
        if !endless_group(desc, tables, group, head) {
            return false;
        }
    }
    true
}

// `endless` of the fields that a group adds. `head` is the construct type of the row's head. Repetitions do not matter, but for 0, which adds
// no field.
#[cycle(no_data_rows)]
fn endless_group(desc: &[u8], tables: &Tables, group: Group, head: u8) -> bool
    requires { TiedSome desc.now tables.now.starts tables.now.entries
        × Refers (kind_of head) desc.now tables.now.starts (length desc.now) (group_of group) }
    ensures { result ≡ endless (group_list desc.now (kind_of head) (group_of group)) }
{
    if head == plans::GDA {
        let own = tables.field(group.id).unwrap();
        return no_data(fields::replaced(own, group.byte1, group.byte2));
    }
    group.byte2 == 0 || endless_layout(desc, tables, group)
}

// `endless` of the layout of a group. Elements taken do not matter: an SDA has an item at least.
#[cycle(no_data_rows)]
fn endless_layout(desc: &[u8], tables: &Tables, group: Group) -> bool
    requires { TiedSome desc.now tables.now.starts tables.now.entries × RefersRow desc.now (group_of group) }
    ensures { result ≡ endless (layout_list desc.now (group_of group)) }
{
    match tables.field(group.id) {
        Some(entry) => no_data(entry),
        None => endless_row(desc, tables, tables.start(group.id)),
    }
}

// Whether every item of the layout of the group at g is an X'01' that is not nullable and has F 0, so that a pass would take no data.
pub fn endless(desc: &[u8], tables: &Tables, g: usize) -> bool
    requires { TiedSome desc.now tables.now.starts tables.now.entries × PassAt desc.now g }
    ensures { result ≡ endless (pass_list desc.now g) }
{
    let group = Group {
        id: desc[g],
        byte1: desc[g + 1],
        byte2: desc[g + 2],
    };
    endless_layout(desc, tables, group)
}
