// Where the piece ends that starts at a position.
ghost use Rattle.std.specs.Prelude.{◌<◌, ◌≤◌, IfSome};
ghost use Rattle.runs.specs.Inner.{Leads};
ghost use Rattle.slices.specs.Accepts.{Accepts};
ghost use Rattle.slices.specs.Limits.{chunk};
ghost use Rattle.slices.specs.Record.{records};
ghost use Rattle.scanning.specs.Scan.{Scans};
ghost use Rattle.plans.specs.Location.{location_at, next_location};

use crate::{joins, rooms};
use plans::reach;
use plans::shifts::BlockSize;
use resolve::tops;
use scanning::Scanned;
use slices::RECORD;

// Where the piece ends that starts at position p, by what a scan found there; nothing where it joins what several of many records
// give, so that more room is needed.
pub(crate) fn end_of(list: &[u8], s: Scanned, p: u32, end: u32, block: BlockSize) -> Option<u32>
    requires accepts { Accepts list.now }
    requires p_lt_end { (p < end) × (end ≤ chunk) }
    requires scans { Scans list.now p end s }
    ensures { IfSome result (λ e. Leads next_location (location_at block.bytes (records list.now)) p end (location_at block.bytes (records list.now) p) e) }
{
    let stop = s.end;
    let e = reach::same_top_to(list, s.top, p, stop, block);
    if e < stop {
        return Some(e);
    }
    if end <= e {
        return Some(e);
    }
    let id = tops::id_on(list, s.top);
    let next = scanning::top_below(list, s.before, e);
    if tops::id_on(list, next) != id {
        return Some(e);
    }
    if joins::lies_behind(list, s.top, p, next, e, block.bytes) {
        if list.len() / RECORD <= 32 {
            // That room is small enough for the frame of the scan.
            let found = rooms::sized::<32, 66, 65>(list, p, end, block);
            return Some(found.end);
        }
        return None;
    }
    Some(e)
}
