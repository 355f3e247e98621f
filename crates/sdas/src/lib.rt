// One SDA: the first reason to refuse it, or what is kept of it in the tables of described ids.

#![tactic(auto)]

ghost use Rattle.std.specs.Prelude.{◌≡◌, ◌*◌, ◌≤◌, ◌<◌, true, false, MatchOption};
ghost use Rattle.fdoca.specs.Triplet.{id_of, code_of, parameters_of, extents_of};
ghost use Rattle.fdoca.specs.Basics.{product};
ghost use Rattle.fdoca.specs.Check.{good_length_sda, good_sda};
ghost use Rattle.field_types.specs.Parameters.{shape_of, shape_if};
ghost use Rattle.plans.specs.Tied.{lower_of};
ghost use Rattle.sdas.specs.Judged.{extent_or_1, JudgedSDA};
ghost use Rattle.sdas.specs.Kept.{EntryOf, PutSDA};

use fdoca::Reason;
use field_types::Shape;
use tables::Tables;

// The largest count of items.
pub const MOST: usize = 4096;

// What judging an SDA finds: its shape, and how many items it stands for.
#[derive(Clone, Copy)]
pub struct Judged {
    pub shape: Shape,
    pub count: usize,
}

// The bytes of an SDA, a Simple Data Array, of a good LENGTH: 12 plus zero to three extents.
#[derive(Clone, Copy)]
struct DataArray<'a> {
    bytes: &'a [u8],
    ghost good_length: { good_length_sda bytes.now ≡ true },
}

impl<'a> DataArray<'a> {
    // The bytes of an SDA, if their LENGTH is good.
    fn new(bytes: &'a [u8]) -> Option<DataArray<'a>>
        ensures { MatchOption result (good_length_sda bytes.now ≡ false) (λ sda. sda.bytes.now ≡ bytes.now) }
    {
        if !matches!(bytes.len(), 12 | 14 | 16 | 18) {
            return None;
        }
        Some(DataArray { bytes })
    }

    fn id(&self) -> u8
        ensures { result ≡ id_of self.now.bytes.now }
    {
        self.bytes[2]
    }

    // The extent at a place, or 1 where LENGTH leaves it out.
    fn extent(&self, at: usize) -> usize
        requires { at ≤ 16 }
        ensures { (result ≡ extent_or_1 self.now.bytes.now at) × (result < 65536) }
    {
        if self.bytes.len() < at + 2 {
            return 1;
        }
        numbers::pair(self.bytes[at], self.bytes[at + 1])
    }

    // The product of the lower extents.
    fn lower_product(&self) -> usize
        ensures { (result ≡ extent_or_1 self.now.bytes.now 14 * extent_or_1 self.now.bytes.now 16) × (result < 4294967296) }
    {
        self.extent(14) * self.extent(16)
    }

    // How many items it stands for: the product of its extents.
    fn item_count(&self) -> usize
        ensures { (result ≡ product (extents_of self.now.bytes.now)) × (result < 281474976710656) }
    {
        self.extent(12) * self.lower_product()
    }

    // The product by which elements taken is multiplied: 0 without extents.
    fn lower(&self) -> usize
        ensures { result ≡ lower_of (extents_of self.now.bytes.now) }
    {
        if self.bytes.len() == 12 {
            0
        } else {
            self.lower_product()
        }
    }

    // Its shape, if id, type, parameters and extents are good.
    fn shape(&self) -> Option<Shape>
        ensures { result ≡ shape_if (good_sda self.now.bytes.now) (code_of self.now.bytes.now) (parameters_of self.now.bytes.now) }
    {
        if self.id() == 0 || self.item_count() == 0 {
            return None;
        }
        field_types::shape_of(self.bytes[3], &self.bytes[4..12])
    }

    // The plan's entry for its field.
    fn entry(&self, shape: Shape) -> u64
        requires good { good_sda self.now.bytes.now ≡ true }
        requires shape { shape ≡ shape_of (code_of self.now.bytes.now) (parameters_of self.now.bytes.now) }
        ensures { EntryOf self.now.bytes.now result }
    {
        let bytes = self.bytes;
        let parameters = u64::from(bytes[9]) + 128 * u64::from(bytes[7]);
        let own = u64::from(self.id()) + 256 * (u64::from(bytes[3]) + 256 * parameters);
        fields::entry_of(own, shape.layout.number(), shape.size as u64)
    }
}

// An SDA's shape and item count, or the first reason to refuse it.
pub fn judge_sda(t: &[u8], tables: &Tables) -> Result<Judged, Reason>
    ensures { JudgedSDA t.now tables.now.starts result }
{
    let sda = DataArray::new(t).ok_or(Reason::BadLength)?;
    let shape = sda.shape().ok_or(Reason::BadParameter)?;
    if tables.is_described(sda.id()) {
        return Err(Reason::NameTaken);
    }
    let count = sda.item_count();
    if MOST < count {
        return Err(Reason::TooManyItems);
    }
    Ok(Judged { shape, count })
}

// Enters an SDA at p into the tables.
pub fn put_sda(t: &[u8], p: usize, judged: Judged, tables: &mut Tables)
    requires good_length { good_length_sda t.now ≡ true }
    requires good { good_sda t.now ≡ true }
    requires place { p < 4096 }
    requires count { judged.count ≡ product (extents_of t.now) }
    requires small { judged.count ≤ 4096 }
    requires shape { judged.shape ≡ shape_of (code_of t.now) (parameters_of t.now) }
    ensures { PutSDA t.now p tables.old.starts tables.old.sizes tables.old.entries tables.new.starts tables.new.sizes tables.new.entries }
{
    let sda = DataArray { bytes: t };
    let entry = sda.entry(judged.shape);
    let lower = sda.lower();
    tables.describe(sda.id(), p as u16, judged.count as u16, lower as u16, entry);
}
