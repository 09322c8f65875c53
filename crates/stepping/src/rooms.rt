// Room to resolve a list in, for a piece that joins what several records give.
ghost use Rattle.std.specs.Prelude.{◌≡◌, ◌+◌, ◌<◌, ◌≤◌};
ghost use Rattle.slices.specs.Accepts.{Accepts};
ghost use Rattle.slices.specs.Limits.{chunk, max_records};
ghost use Rattle.slices.specs.Record.{count};
ghost use Rattle.files.specs.Inner.{Fits};
ghost use Rattle.stepping.specs.Inner.{EndsAt};

use crate::joins;
use plans::shifts::BlockSize;
use resolve::room::Room;
use slices::RECORD;

// Where a piece ends, and the record on top of its first position, counted from 1; 0 says that there is none.
#[derive(Clone, Copy)]
pub struct Ended {
    pub end: u32,
    pub top: u16,
}

// Resolves the list, and finds the piece that starts at position p.
fn end_in(list: &[u8], p: u32, end: u32, block: BlockSize, room: &mut Room) -> Ended
    requires resolvable { Fits room.old.records list.now }
    requires p_lt_end { (p < end) × (end ≤ chunk) }
    ensures { EndsAt block.bytes list.now p end result.top result.end }
{
    let segments = room.resolve(list);
    let r = room.resolved(list, segments);
    let k = r.find(p);
    Ended {
        end: joins::run_to(&r, k, p, end, block),
        top: r.tops[k],
    }
}

// In a room for at most N records.
pub(crate) fn sized<const N: usize, const MARKS: usize, const TOPS: usize>(
    list: &[u8],
    p: u32,
    end: u32,
    block: BlockSize,
) -> Ended
    requires accepts { Accepts list.now × (count list.now ≤ N) }
    requires p_lt_end { (p < end) × (end ≤ chunk) }
    requires room { (0 < N) × (N ≤ max_records) × (MARKS ≡ N + N + 2) × (TOPS ≡ N + N + 1) }
    ensures { EndsAt block.bytes list.now p end result.top result.end }
{
    let mut marks = [0u32; MARKS];
    let mut tops = [0u16; TOPS];
    let mut pos = [0u64; N];
    let mut ends = [0u32; N];
    let mut order = [0u16; N];
    let mut spare = [0u16; N];
    let mut room = Room {
        records: N,
        marks: &mut marks,
        tops: &mut tops,
        pos: &mut pos,
        ends: &mut ends,
        order: &mut order,
        spare: &mut spare,
    };
    end_in(list, p, end, block, &mut room)
}

// In the smaller room that does.
pub(crate) fn end_resolved(list: &[u8], p: u32, end: u32, block: BlockSize) -> Ended
    requires accepts { Accepts list.now }
    requires p_lt_end { (p < end) × (end ≤ chunk) }
    ensures { EndsAt block.bytes list.now p end result.top result.end }
{
    if list.len() / RECORD <= 256 {
        return sized::<256, 514, 513>(list, p, end, block);
    }
    sized::<2048, 4098, 4097>(list, p, end, block)
}
