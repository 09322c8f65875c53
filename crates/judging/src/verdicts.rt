// What is said of a plan, of lists that are accepted.
ghost use Rattle.std.specs.Prelude.{◌≡◌, map, ℕ, ◌+◌, ◌*◌, ◌≤◌, length};
ghost use Rattle.codec.specs.All.{All};
ghost use Rattle.slices.specs.Accepts.{Accepts};
ghost use Rattle.slices.specs.Limits.{chunk};
ghost use Rattle.slices.specs.Record.{records};
ghost use Rattle.joined.specs.Lists.{total, parts};
ghost use Rattle.plans.specs.Location.{Site};
ghost use Rattle.files.specs.File.{site_from};
ghost use Rattle.files.specs.Limits.{max_lists};
ghost use Rattle.judging.specs.Calls.{said};
ghost use Rattle.judging.specs.Judge.{verdict};
ghost use Rattle.judging.specs.Inner.{said_of};

use crate::{Judged, rooms};
use plans::PIECE;
use plans::shifts::BlockSize;

// What is said of the first place that is not held once, n where there is none.
fn of_place(at: u32, n: u32) -> Judged
    ensures { result ≡ said_of at n }
{
    if at < n {
        return Judged::WrongByte(at);
    }
    Judged::Accepted
}

// For an empty read only the empty plan is accepted.
pub(crate) fn of_empty(plan: &[u8]) -> Judged
    ensures { (f : ℕ → Site) → result ≡ said (verdict f 0 plan.now) }
{
    if plan.len() == 0 {
        return Judged::Accepted;
    }
    Judged::WrongPiece(0)
}

// What is said of a plan for the n bytes from position `from` on.
pub(crate) fn of_read(
    lists: &[u8],
    lengths: &[u64],
    first: u32,
    from: u32,
    n: u32,
    block: BlockSize,
    plan: &[u8],
) -> Judged
    requires lengths_value { (total lengths.now ≡ length lists.now) × All Accepts (parts lengths.now lists.now) }
    requires lengths_len_bound { (length lengths.now ≤ max_lists) × (from + n ≤ length lengths.now * chunk) }
    ensures { result ≡ said (verdict (site_from first block.bytes (map records (parts lengths.now lists.now)) from) n plan.now) }
{
    let lead = rooms::in_room(lists, lengths, first, from, n, block, plan, true);
    if lead.number * PIECE == plan.len() {
        return of_place(lead.place, n);
    }
    let found = rooms::in_room(lists, lengths, first, from, n, block, plan, false);
    if found.number * PIECE < plan.len() {
        return Judged::WrongPiece(found.number);
    }
    of_place(found.place, n)
}
