// The check of a descriptor, triplet by triplet from left to right.

#![tactic(auto)]

ghost use Rattle.std.specs.Prelude.{◌≡◌, ◌+◌, ◌-◌, ◌≤◌, ◌<◌, ◌&&◌, length, get_or, replicate, IfSome};
ghost use Rattle.fdoca.specs.Check.{check};
ghost use Rattle.fdoca.specs.Unfolding.{endless};
ghost use Rattle.fdoca.specs.Calls.{checked};
ghost use Rattle.rows.specs.Pass.{pass_list};
ghost use Rattle.descriptors.specs.Holds.{MakesSame, Held, ClosedRow, SteppedSDA, SteppedRow, SteppedCPT, Advanced, to_the_end, last_byte, Repeating, Examination};

use fdoca::{Reason, Refusal};
use plans::GDA;
use tables::Tables;
use triplets::RLO;

// A row that a CPT may continue: the construct type of its head, an RLO's or a GDA's, and its place.
#[derive(Clone, Copy)]
struct Row {
    head: u8,
    at: usize,
}

// What was described last: the id of an SDA, an RLO or a GDA, and its count of items; and the row that a CPT may continue, if there is one.
#[derive(Clone, Copy)]
struct Step {
    id: u8,
    count: usize,
    row: Option<Row>,
}

// An accepted descriptor: how many items it describes, the id of the triplet that describes the block, and whether it has rows to the end.
#[derive(Clone, Copy)]
pub struct Examined {
    pub items: u32,
    pub id: u8,
    pub rows: bool,
}

// The most bytes that a descriptor has.
const MOST_BYTES: usize = 4096;

// The construct types, as the bytes that they are in a descriptor. They stay numbers, since `triplets::judge_cpt` takes the kind of a row as that byte.
const SDA: u8 = 0x70;

const ISD: u8 = 0x7E;

const CPT: u8 = 0x7F;

// The place of a row that makes the list of the one at `at`, which ends at p: its own, or, where its only group is another row once, that
// row's. So going down the references never passes through such rows one by one.
fn row_place(desc: &[u8], tables: &Tables, at: usize, p: usize) -> usize
    requires { (6 ≤ get_or desc.now at 0) × (at + get_or desc.now at 0 ≤ p) × (p ≤ length desc.now) × (p ≤ 4096) }
    ensures { MakesSame desc.now tables.now at p result × (result < 65536) }
{
    let id = desc[at + 3];
    if p - at == 6 && desc[at + 5] == 1 && tables.field(id).is_none() {
        return tables.start(id);
    }
    at
}

// Enters the row of the step before, if there is one, into the tables: it ends at p.
fn close(desc: &[u8], tables: &mut Tables, p: usize, x: Option<Step>)
    requires { Held desc.now tables.old p x × (length desc.now ≤ 4096) }
    ensures { ClosedRow desc.now tables.old tables.new p x }
{
    let Some(step) = x else {
        return;
    };
    let Some(row) = step.row else {
        return;
    };
    let start = row_place(desc, tables, row.at, p);
    tables.describe(step.id, start as u16, step.count as u16, 0, 0);
}

fn sda_step(t: &[u8], p: usize, tables: &mut Tables) -> Result<Step, Reason>
    requires { p < 4096 }
    ensures { SteppedSDA t.now p tables.old tables.new result }
{
    let judged = sdas::judge_sda(t, tables)?;
    sdas::put_sda(t, p, judged, tables);
    Ok(Step {
        id: t[2],
        count: judged.count,
        row: None,
    })
}

fn row_step(t: &[u8], p: usize, last: bool, tables: &Tables) -> Result<Step, Reason>
    ensures { SteppedRow last t.now p tables.now result }
{
    let count = triplets::judge_row(t, last, tables)?;
    Ok(Step {
        id: t[2],
        count,
        row: Some(Row { head: t[1], at: p }),
    })
}

#[tactic(auto, unfolding(fdoca::specs::Check::check_cpt))]
fn cpt_step(t: &[u8], last: bool, tables: &Tables, x: Option<Step>) -> Result<Step, Reason>
    requires { IfSome x (λ x. x.count ≤ 4096) }
    ensures { SteppedCPT last t.now tables.now x result }
{
    let step = x.ok_or(Reason::OutOfSequence)?;
    let row = step.row.ok_or(Reason::OutOfSequence)?;
    let count = triplets::judge_cpt(t, row.head, last, tables, step.count)?;
    Ok(Step { count, ..step })
}

// The step over the triplet at p, x being the step before.
fn advance(
    desc: &[u8],
    tables: &mut Tables,
    p: usize,
    x: Option<Step>,
) -> Result<Option<Step>, Reason>
    requires { Held desc.now tables.old p x × (p < length desc.now) × (length desc.now ≤ 4096) }
    ensures { Advanced desc.now tables.new p result }
{
    let n = usize::from(desc[p]);
    if n < 2 || desc.len() - p < n {
        return Err(Reason::TornTriplet);
    }
    let end = p + n;
    let t = &desc[p..end];
    let last = end == desc.len();
    let kind = t[1];
    if kind == CPT {
        return Ok(Some(cpt_step(t, last, tables, x)?));
    }
    close(desc, tables, p, x);
    match kind {
        SDA => Ok(Some(sda_step(t, p, tables)?)),
        RLO | GDA => Ok(Some(row_step(t, p, last, tables)?)),
        ISD => {
            triplets::judge_isd(t, p)?;
            Ok(None)
        }
        _ => Err(Reason::UnknownConstruct),
    }
}

// Whether a descriptor has rows to the end (document 02, Q-5): its last group, of an RLO, has repetition 0. `row` is the row that its last triplet
// belongs to, if there is one.
fn to_the_end(desc: &[u8], row: Option<Row>) -> bool
    requires { 0 < length desc.now }
    ensures { result ≡ to_the_end row (last_byte desc.now) }
{
    match row {
        Some(row) => row.head != GDA && desc[desc.len() - 1] == 0,
        None => false,
    }
}

// Whether there are rows to the end, and these take no data.
fn takes_nothing(desc: &[u8], tables: &Tables, row: Option<Row>) -> bool
    requires { Repeating desc.now tables.now row }
    ensures { result ≡ (to_the_end row (last_byte desc.now) && endless (pass_list desc.now (length desc.now - 3))) }
{
    to_the_end(desc, row) && rows::endless(desc, tables, desc.len() - 3)
}

// A refusal at a place of the descriptor.
fn refusal(reason: Reason, place: usize) -> Refusal
    requires { place < 4294967296 }
    ensures { result ≡ record { reason = reason; place = place } }
{
    Refusal {
        reason,
        place: place as u32,
    }
}

// Examines a descriptor: the check's answer; for an accepted one the tables are then filled for whoever writes its plan. `last` is the place of the
// triplet before p. The triplets tell their own lengths, so that no iterator of std goes over them.
pub fn examine(desc: &[u8], tables: &mut Tables) -> Result<Examined, Refusal>
    requires { (tables.old.starts ≡ replicate 256 65535) × (tables.old.sizes ≡ replicate 256 0) × (tables.old.entries ≡ replicate 256 0) }
    ensures { Examination desc.now tables.new.starts tables.new.sizes tables.new.entries result }
{
    if MOST_BYTES < desc.len() {
        return Err(refusal(Reason::Oversize, 0));
    }
    let mut last = 0;
    let mut p = 0;
    let mut x = None;
    while p < desc.len() {
        x = advance(desc, tables, p, x).map_err(|reason| refusal(reason, p))?;
        last = p;
        p += usize::from(desc[p]);
    }
    let Some(step) = x else {
        return Err(refusal(Reason::NothingDescribed, p));
    };
    close(desc, tables, p, x);
    if takes_nothing(desc, tables, step.row) {
        return Err(refusal(Reason::Endless, last));
    }
    let rows = to_the_end(desc, step.row);
    Ok(Examined {
        items: step.count as u32,
        id: step.id,
        rows,
    })
}

// Checks a descriptor: how many items it describes, or the first reason to refuse it.
pub fn check(descriptor: &[u8]) -> Result<u32, Refusal>
    ensures { result ≡ checked (check descriptor.now) }
{
    let mut tables = Tables::new();
    let examined = examine(descriptor, &mut tables)?;
    Ok(examined.items)
}
