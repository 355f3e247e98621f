// One RLO, GDA, CPT or ISD of a descriptor: the first reason to refuse it, or what a row counts with it.

#![tactic(auto)]

ghost use Rattle.std.specs.Prelude.{◌≡◌, ◌≤◌, Bool, true};
ghost use Rattle.fdoca.specs.Triplet.{rlo, gda, groups_of};
ghost use Rattle.fdoca.specs.Check.{good_length_row, good_length_isd, good_isd};
ghost use Rattle.plans.specs.Tied.{kind_of};
ghost use Rattle.plans.specs.Left.{group_of};
ghost use Rattle.triplets.specs.Judged.{ItemsTaken, FitsColumn, Counted, AddedGroup, AddedGroups, JudgedRow, JudgedCPT, JudgedISD};

mod counts;

use counts::Count;
use fdoca::Reason;
use plans::{GDA, Group};
use tables::Tables;

// The construct type of an RLO. A row's kind stays the construct type of its head: `judge_cpt` takes it so, and a const parameter has to be a number.
pub const RLO: u8 = 0x71;

// By what the plan entry of a field is divided, so that the type code stands lowest.
const CODE: u64 = 16777216;

// LENGTH of an RLO, a GDA or a CPT: 3 plus a positive multiple of 3.
fn row_length(t: &[u8]) -> bool
    ensures { result ≡ good_length_row t.now }
{
    t.len() >= 6 && t.len() % 3 == 0
}

// How many items a group of an RLO takes once of a described id. None: a number of elements of what has no extents.
fn items_taken(tables: &Tables, group: Group) -> Option<usize>
    ensures { ItemsTaken tables.now (group_of group) result }
{
    match (group.byte1, tables.lower(group.id)) {
        (0, _) => Some(tables.count(group.id)),
        (_, 0) => None,
        (taken, lower) => Some(usize::from(taken) * lower),
    }
}

// The count of an RLO with one more group, of repetition factor 0, which refers to a described id: 0 is carried where the group `ends` the descriptor,
// and the group then adds nothing (document 02, Q-5). It has a function of its own: in one with the others the loop over the groups takes longer.
fn add_rows(tables: &Tables, group: Group, sum: Count, ends: bool) -> Result<Count, Reason>
    ensures { group.byte2 ≡ 0 → Counted rlo ends tables.now (group_of group) sum result }
{
    if !ends {
        return Err(Reason::NotCarried);
    }
    match items_taken(tables, group) {
        Some(_) => sum.plus(0),
        None => Err(Reason::NotCarried),
    }
}

// The count of an RLO with one more group, which refers to a described id.
fn add_elements(tables: &Tables, group: Group, sum: Count, ends: bool) -> Result<Count, Reason>
    ensures { Counted rlo ends tables.now (group_of group) sum result }
{
    if group.byte2 == 0 {
        return add_rows(tables, group, sum, ends);
    }
    let items = items_taken(tables, group).ok_or(Reason::NotCarried)?;
    sum.plus(usize::from(group.byte2) * items)
}

// Whether a column may be of a described id: of an SDA without extents, for whose type the length that the group gives is good.
fn fits(tables: &Tables, group: Group) -> bool
    ensures { FitsColumn tables.now (group_of group) result }
{
    match tables.field(group.id) {
        Some(field) => {
            let code = (field / CODE % 256) as u8;
            tables.lower(group.id) == 0 && field_types::good_length(code, group.byte1, group.byte2)
        }
        None => false,
    }
}

// The count of a GDA with one more group, which refers to a described id.
fn add_column(tables: &Tables, group: Group, sum: Count) -> Result<Count, Reason>
    ensures { (ends : Bool) → Counted gda ends tables.now (group_of group) sum result }
{
    if !fits(tables, group) {
        return Err(Reason::ColumnMisfit);
    }
    sum.plus(1)
}

// A row's count with one more group, HEAD being the construct type of the row's head.
fn add_group<const HEAD: u8>(
    tables: &Tables,
    group: Group,
    sum: Count,
    ends: bool,
) -> Result<Count, Reason>
    ensures { AddedGroup (kind_of HEAD) ends tables.now (group_of group) sum result }
{
    if !tables.is_described(group.id) {
        return Err(Reason::MissingReference);
    }
    if HEAD == GDA {
        return add_column(tables, group, sum);
    }
    add_elements(tables, group, sum, ends)
}

// A row's count with the groups of a triplet of it, or the first refusal among them. The construct type HEAD of the row's head is a const parameter,
// so that the compiler makes a loop for each kind. `last` tells whether the triplet is the descriptor's last.
fn add_groups<const HEAD: u8>(
    t: &[u8],
    last: bool,
    tables: &Tables,
    sum: Count,
) -> Result<Count, Reason>
    requires { good_length_row t.now ≡ true }
    ensures { AddedGroups (kind_of HEAD) last (groups_of t.now) tables.now sum result }
{
    let mut groups = &t[3..];
    let mut n = sum;
    while let [id, byte1, byte2, rest @ ..] = groups {
        let group = Group {
            id: *id,
            byte1: *byte1,
            byte2: *byte2,
        };
        let ends = last && rest.is_empty();
        n = add_group::<HEAD>(tables, group, n, ends)?;
        groups = rest;
    }
    Ok(n)
}

// The same by the construct type of the row's head. Inlined, so that the loops stand in the check.
#[inline(always)]
fn add_triplet(t: &[u8], head: u8, last: bool, tables: &Tables, sum: Count) -> Result<Count, Reason>
    requires { good_length_row t.now ≡ true }
    ensures { AddedGroups (kind_of head) last (groups_of t.now) tables.now sum result }
{
    if head == GDA {
        return add_groups::<GDA>(t, last, tables, sum);
    }
    add_groups::<RLO>(t, last, tables, sum)
}

// The count of an RLO or a GDA. `last` tells whether it is the descriptor's last triplet.
#[tactic(auto, unfolding(fdoca::specs::Check::check_row))]
pub fn judge_row(t: &[u8], last: bool, tables: &Tables) -> Result<usize, Reason>
    ensures { JudgedRow last t.now tables.now result }
{
    if !row_length(t) {
        return Err(Reason::BadLength);
    }
    if t[2] == 0 {
        return Err(Reason::BadParameter);
    }
    if tables.is_described(t[2]) {
        return Err(Reason::NameTaken);
    }
    let count = add_triplet(t, t[1], last, tables, Count::of(0))?;
    Ok(count.items())
}

// The count of a row of `sum` items with those of a CPT. `head` is the construct type of the row's head.
#[tactic(auto, unfolding(fdoca::specs::Check::check_cpt))]
pub fn judge_cpt(
    t: &[u8],
    head: u8,
    last: bool,
    tables: &Tables,
    sum: usize,
) -> Result<usize, Reason>
    requires { sum ≤ 4096 }
    ensures { JudgedCPT (kind_of head) last t.now tables.now sum result }
{
    if !row_length(t) {
        return Err(Reason::BadLength);
    }
    if t[2] != 0 {
        return Err(Reason::BadParameter);
    }
    let count = add_triplet(t, head, last, tables, Count::of(sum))?;
    Ok(count.items())
}

// LENGTH of an ISD.
fn isd_length(t: &[u8]) -> bool
    ensures { result ≡ good_length_isd t.now }
{
    matches!(t.len(), 5 | 6)
}

// An ISD's id, subset and version.
fn isd_good(t: &[u8]) -> bool
    requires { good_length_isd t.now ≡ true }
    ensures { result ≡ good_isd t.now }
{
    t[2] == 0 && matches!(numbers::pair(t[3], t[4]), 0 | 256) && (t.len() < 6 || t[5] == 1)
}

// Judges an ISD at p.
#[tactic(auto, unfolding(fdoca::specs::Check::check_isd))]
pub fn judge_isd(t: &[u8], p: usize) -> Result<(), Reason>
    ensures { JudgedISD t.now p result }
{
    if p != 0 {
        return Err(Reason::OutOfSequence);
    }
    if !isd_length(t) {
        return Err(Reason::BadLength);
    }
    if !isd_good(t) {
        return Err(Reason::BadParameter);
    }
    Ok(())
}
