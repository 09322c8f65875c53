// Room to resolve lists in, one after the other.
ghost use Rattle.std.specs.Prelude.{◌≡◌, ◌+◌, ◌^◌, ◌<◌, ◌≤◌, length};
ghost use Rattle.codec.specs.All.{All};
ghost use Rattle.slices.specs.Passes.{Passes};
ghost use Rattle.slices.specs.Record.{records, count};
ghost use Rattle.resolve.specs.Resolved.{Ready};
ghost use Rattle.resolve.specs.Set.{most};

use crate::segments::Resolved;

// Room for a list of at most so many records. Keys may be sorted in three of its arrays when no list is resolved there: `sizes` is for that.
#[derive(Drop)]
pub struct Room<'a> {
    pub records: usize,
    pub marks: &'a mut [u32],
    pub tops: &'a mut [u16],
    pub pos: &'a mut [u64],
    pub ends: &'a mut [u32],
    pub order: &'a mut [u16],
    pub spare: &'a mut [u16],
    pub ghost segments_fit: { (records ≤ most) × (records + records + 1 < length marks.now) × (records + records < length tops.now) },
    pub ghost records_fit: { (records ≤ length pos.now) × (records ≤ length ends.now) × (records ≤ length order.now) × (records ≤ length spare.now) },
    pub ghost sizes: { (0 < length pos.now) × (length pos.now < 2 ^ 16) × (length pos.now ≤ length order.now) × (length pos.now ≤ length spare.now) },
}

impl Room<'_> {
    // Resolves a list: how many segments it has.
    pub fn resolve(&mut self, list: &[u8]) -> usize
        requires all { All Passes (records list.now) }
        requires few { count list.now ≤ self.old.records }
        ensures ready { Ready list.now self.new.marks.now self.new.tops.now result }
        ensures same { self.new.records ≡ self.old.records }
    {
        crate::resolve(
            list, self.marks, self.tops, self.pos, self.ends, self.order, self.spare,
        )
    }

    // The list that was resolved in it last, with its segments.
    pub fn resolved<'b>(&'b self, list: &'b [u8], segments: usize) -> Resolved<'b>
        requires { Ready list.now self.now.marks.now self.now.tops.now segments }
        ensures { result.list.now ≡ list.now }
    {
        Resolved {
            list,
            marks: self.marks,
            tops: self.tops,
            segments,
        }
    }
}
