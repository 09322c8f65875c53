// How far a piece goes over the segments of a resolved list.
ghost use Rattle.std.specs.Prelude.{◌≡◌, ◌+◌, ◌-◌, ◌<◌, ◌≤◌, get_or};
ghost use Rattle.codec.specs.All.{All};
ghost use Rattle.slices.specs.Limits.{chunk};
ghost use Rattle.slices.specs.Passes.{Passes};
ghost use Rattle.slices.specs.Record.{records};
ghost use Rattle.resolve.specs.Resolved.{OnTop, Holds};
ghost use Rattle.resolve.specs.Tops.{id_on};
ghost use Rattle.runs.specs.Inner.{Unbroken, Leads};
ghost use Rattle.runs.specs.Runs.{Stops};
ghost use Rattle.plans.specs.Location.{location_at, next_location, onward};

use crate::locations;
use crate::shifts::BlockSize;
use resolve::segments::Resolved;
use resolve::{Reached, tops};

// A position behind p, and at most e, up to which the locations go on from p, where the record `top` lies on top of the positions up to e. In front
// of e it is the end of a block.
pub fn same_top_to(list: &[u8], top: u16, p: u32, e: u32, block: BlockSize) -> u32
    requires all { All Passes (records list.now) }
    requires p_lt_e { p < e }
    requires on_top { OnTop list.now top p e }
    ensures unbroken { Unbroken next_location (location_at block.bytes (records list.now)) p e result }
    ensures stops { result < e → Stops next_location (location_at block.bytes (records list.now)) result e }
{
    if block.is_none(tops::id_on(list, top)) {
        return e;
    }
    let off = tops::off_in(list, tops::wide(top) - 1, p);
    p + block.in_block(off, e - p)
}

// The same in segment k, which holds p, and at most `end`. As a call of its own, once a piece, it would cost up to 11 in 100 of a plan.
#[inline(always)]
pub fn same_block_to(r: &Resolved, k: usize, p: u32, end: u32, block: BlockSize) -> u32
    requires p_lt_end { p < end }
    requires holds { Holds r.now.marks.now r.now.segments k p }
    ensures unbroken { Unbroken next_location (location_at block.bytes (records r.now.list.now)) p end result × (result ≤ get_or r.now.marks.now (k + 1) 0) }
    ensures stops { result < get_or r.now.marks.now (k + 1) 0 → Stops next_location (location_at block.bytes (records r.now.list.now)) result end }
{
    let e = r.until(k, end);
    same_top_to(r.list, r.tops[k], p, e, block)
}

// Whether the piece from p on, with the record a on top of p, goes on at e, with b on top of it; id is a's. Most often the ids tell.
fn joins(list: &[u8], id: u64, a: u16, p: u32, b: u16, e: u32, block: u32) -> bool
    requires all { All Passes (records list.now) }
    requires p_lt_e { (p < e) × (0 < block) × (id ≡ id_on list.now a) }
    requires on_top { OnTop list.now a p (p + 1) }
    requires on_top_2 { OnTop list.now b e (e + 1) }
    ensures { result ≡ next_location (onward (location_at block (records list.now) p) (e - p - 1)) (location_at block (records list.now) e) }
{
    if tops::id_on(list, b) != id {
        return false;
    }
    if id == 0 {
        return true;
    }
    let first = locations::location_of(tops::source_of(list, a, p), block);
    let s = locations::location_of(tops::source_of(list, b, e), block);
    locations::location_goes_on(first, e - p, s)
}

// Where the maximal run of locations, of the positions from p up to `end`, that starts at p ends, and in which segment; segment k holds p.
pub(crate) fn reach(r: &Resolved, k: usize, p: u32, end: u32, block: BlockSize) -> Reached
    requires p_lt_end { (p < end) × (end ≤ chunk) }
    requires holds { Holds r.now.marks.now r.now.segments k p }
    ensures leads { Leads next_location (location_at block.bytes (records r.now.list.now)) p end (location_at block.bytes (records r.now.list.now) p) result.end }
    ensures holds_2 { result.end < end → Holds r.now.marks.now r.now.segments result.segment result.end }
{
    let top = r.tops[k];
    let id = tops::id_on(r.list, top);
    let mut segment = k;
    let mut e = same_block_to(r, k, p, end, block);
    while e < end {
        // A block ends inside the segment: no piece goes on there.
        if e < r.marks[segment + 1] {
            return Reached { end: e, segment };
        }
        segment += 1;
        if joins(r.list, id, top, p, r.tops[segment], e, block.bytes) {
            e = same_block_to(r, segment, e, end, block);
        } else {
            return Reached { end: e, segment };
        }
    }
    Reached { end: e, segment }
}
