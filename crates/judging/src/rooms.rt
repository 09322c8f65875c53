// Room to resolve the lists in, one after the other.
ghost use Rattle.std.specs.Prelude.{◌≡◌, true, ◌+◌, ◌*◌, ◌^◌, ◌<◌, ◌≤◌, length};
ghost use Rattle.codec.specs.All.{All};
ghost use Rattle.slices.specs.Accepts.{Accepts};
ghost use Rattle.slices.specs.Limits.{chunk, max_records, record_size};
ghost use Rattle.joined.specs.Lists.{total, parts};
ghost use Rattle.files.specs.Inner.{Fits};
ghost use Rattle.files.specs.Limits.{max_lists};
ghost use Rattle.judging.specs.Inner.{Worked};

use crate::leading::Lead;
use crate::{leading, sifting};
use plans::PIECE;
use plans::shifts::BlockSize;
use resolve::room::Room;
use slices::RECORD;

// Finds the pieces at the front that stand in order; or the number of the first whole piece that is wrong in itself, and, where there is neither such a piece nor a
// rest, the first place that is not held once. The room for the lists serves for that too.
fn work(
    lists: &[u8],
    lengths: &[u64],
    first: u32,
    from: u32,
    n: u32,
    block: BlockSize,
    plan: &[u8],
    lead: bool,
    room: &mut Room,
) -> Lead
    requires lengths_value { (total lengths.now ≡ length lists.now) × All (Fits room.old.records) (parts lengths.now lists.now) }
    requires lengths_len_bound { (length lengths.now ≤ max_lists) × (from + n ≤ length lengths.now * chunk) }
    ensures { Worked lead first from n block.bytes (parts lengths.now lists.now) plan.now result.number result.place }
{
    if lead {
        return leading::lead_all(lists, lengths, first, from, n, block, plan, room);
    }
    let limit = sifting::first_misformed(plan, first, from, n);
    let number = sifting::sift_all(lists, lengths, first, from, n, block, plan, limit, room);
    if number * PIECE < plan.len() {
        return Lead { number, place: 0 };
    }
    Lead {
        number,
        place: coverage::first_not_once(plan, n, room.pos, room.order, room.spare),
    }
}

// The same for lists of at most N records each, and for WINDOW pieces at a time.
fn sized<const N: usize, const WINDOW: usize, const MARKS: usize, const TOPS: usize>(
    lists: &[u8],
    lengths: &[u64],
    first: u32,
    from: u32,
    n: u32,
    block: BlockSize,
    plan: &[u8],
    lead: bool,
) -> Lead
    requires lengths_value { (total lengths.now ≡ length lists.now) × All Accepts (parts lengths.now lists.now) }
    requires lengths_len_bound { (length lengths.now ≤ max_lists) × (from + n ≤ length lengths.now * chunk) }
    requires lists_len_bound { N < max_records → length lists.now ≤ N * record_size }
    requires room { (N ≤ max_records) × (MARKS ≡ N + N + 2) × (TOPS ≡ N + N + 1) }
    requires window { (N ≤ WINDOW) × (0 < WINDOW) × (WINDOW < 2 ^ 16) }
    ensures { Worked lead first from n block.bytes (parts lengths.now lists.now) plan.now result.number result.place }
{
    let mut marks = [0u32; MARKS];
    let mut tops = [0u16; TOPS];
    let mut pos = [0u64; WINDOW];
    let mut ends = [0u32; N];
    let mut order = [0u16; WINDOW];
    let mut spare = [0u16; WINDOW];
    let mut room = Room {
        records: N,
        marks: &mut marks,
        tops: &mut tops,
        pos: &mut pos,
        ends: &mut ends,
        order: &mut order,
        spare: &mut spare,
    };
    work(lists, lengths, first, from, n, block, plan, lead, &mut room)
}

// Whether so many bytes of lists and of a plan are at most 256 records and pieces.
fn is_small(lists: usize, plan: usize) -> bool
    ensures { result ≡ true → lists ≤ 256 * record_size }
{
    if lists <= 256 * RECORD {
        return plan <= 256 * PIECE;
    }
    false
}

// The same in the smaller room that does. It has two callers, and so a frame of its own.
pub(crate) fn in_room(
    lists: &[u8],
    lengths: &[u64],
    first: u32,
    from: u32,
    n: u32,
    block: BlockSize,
    plan: &[u8],
    lead: bool,
) -> Lead
    requires lengths_value { (total lengths.now ≡ length lists.now) × All Accepts (parts lengths.now lists.now) }
    requires lengths_len_bound { (length lengths.now ≤ max_lists) × (from + n ≤ length lengths.now * chunk) }
    ensures { Worked lead first from n block.bytes (parts lengths.now lists.now) plan.now result.number result.place }
{
    if is_small(lists.len(), plan.len()) {
        return sized::<256, 256, 514, 513>(lists, lengths, first, from, n, block, plan, lead);
    }
    // 4,096 pieces at a time are as much as the stack allows.
    sized::<2048, 4096, 4098, 4097>(lists, lengths, first, from, n, block, plan, lead)
}
