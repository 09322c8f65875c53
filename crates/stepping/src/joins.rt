// How far a piece goes over several records. `plans::reach` has the same for the walk over a whole plan, where it must stand by itself: the compiler
// puts it into that loop only where it has no other caller.
ghost use Rattle.std.specs.Prelude.{◌≡◌, ◌+◌, ◌-◌, ◌<◌, ◌≤◌};
ghost use Rattle.codec.specs.All.{All};
ghost use Rattle.slices.specs.Limits.{chunk};
ghost use Rattle.slices.specs.Passes.{Passes};
ghost use Rattle.slices.specs.Record.{records};
ghost use Rattle.resolve.specs.Resolved.{OnTop, Holds};
ghost use Rattle.resolve.specs.Tops.{id_on};
ghost use Rattle.runs.specs.Inner.{Leads};
ghost use Rattle.plans.specs.Location.{location_at, next_location, onward};

use plans::shifts::BlockSize;
use plans::{locations, reach};
use resolve::segments::Resolved;
use resolve::tops;

// Whether the piece from p on, with the record a on top of p, goes on at e, with b on top of it.
pub(crate) fn lies_behind(list: &[u8], a: u16, p: u32, b: u16, e: u32, block: u32) -> bool
    requires all { All Passes (records list.now) }
    requires p_lt_e { (p < e) × (0 < block) }
    requires on_top { OnTop list.now a p (p + 1) }
    requires on_top_2 { OnTop list.now b e (e + 1) }
    ensures { result ≡ next_location (onward (location_at block (records list.now) p) (e - p - 1)) (location_at block (records list.now) e) }
{
    let first = locations::location_of(tops::source_of(list, a, p), block);
    let s = locations::location_of(tops::source_of(list, b, e), block);
    locations::location_goes_on(first, e - p, s)
}

// The same where id is that of a. Most often the ids tell.
fn goes_on(list: &[u8], id: u64, a: u16, p: u32, b: u16, e: u32, block: u32) -> bool
    requires all { All Passes (records list.now) }
    requires p_lt_e { (p < e) × (0 < block) × (id ≡ id_on list.now a) }
    requires on_top { OnTop list.now a p (p + 1) }
    requires on_top_2 { OnTop list.now b e (e + 1) }
    ensures { result ≡ next_location (onward (location_at block (records list.now) p) (e - p - 1)) (location_at block (records list.now) e) }
{
    tops::id_on(list, b) == id && (id == 0 || lies_behind(list, a, p, b, e, block))
}

// Where the maximal run of locations, of the positions from p up to `end`, that starts at p ends; segment k holds p.
pub(crate) fn run_to(r: &Resolved, k: usize, p: u32, end: u32, block: BlockSize) -> u32
    requires p_lt_end { (p < end) × (end ≤ chunk) }
    requires holds { Holds r.now.marks.now r.now.segments k p }
    ensures { Leads next_location (location_at block.bytes (records r.now.list.now)) p end (location_at block.bytes (records r.now.list.now) p) result }
{
    let top = r.tops[k];
    let id = tops::id_on(r.list, top);
    let mut segment = k;
    let mut e = reach::same_block_to(r, k, p, end, block);
    while e < end {
        // A block ends inside the segment: no piece goes on there.
        if e < r.marks[segment + 1] {
            return e;
        }
        segment += 1;
        if goes_on(r.list, id, top, p, r.tops[segment], e, block.bytes) {
            e = reach::same_block_to(r, segment, e, end, block);
        } else {
            return e;
        }
    }
    e
}
