// The piece of a file's lists that starts at a position.
ghost use Rattle.std.specs.Prelude.{◌≡◌, [], ◌+◌, ◌*◌, ◌/◌, ◌%◌, ◌^◌, ◌<◌, ◌≤◌, length, get_or};
ghost use Rattle.codec.specs.All.{All};
ghost use Rattle.slices.specs.Accepts.{Accepts};
ghost use Rattle.slices.specs.Limits.{chunk};
ghost use Rattle.slices.specs.Record.{records};
ghost use Rattle.joined.specs.Lists.{total, parts};
ghost use Rattle.files.specs.Limits.{max_lists};
ghost use Rattle.files.specs.File.{part_end};
ghost use Rattle.stepping.specs.Inner.{PieceFrom, Behind};

use crate::pieces;
use files::parts;
use plans::Piece;
use plans::shifts::BlockSize;
use slices::CHUNK;

// Where list k begins in the bytes of all lists.
fn begins(lists: &[u8], lengths: &[u64], k: usize) -> usize
    requires { (total lengths.now ≡ length lists.now) × (k < length lengths.now) }
    ensures { Behind lists.now lengths.now k result }
{
    let mut at = 0;
    for i in 0..k {
        at += lengths[i] as usize;
    }
    at
}

// The piece that starts at position p, counted from the first chunk's beginning, and ends with its chunk, or at `end`.
pub(crate) fn piece_in(
    lists: &[u8],
    lengths: &[u64],
    first: u32,
    place: u32,
    p: u32,
    end: u32,
    block: BlockSize,
) -> Piece
    requires lengths_value { (total lengths.now ≡ length lists.now) × All Accepts (parts lengths.now lists.now) }
    requires lengths_len_bound { (length lengths.now ≤ max_lists) × (first + length lengths.now ≤ 2 ^ 32) }
    requires p_lt_end { (p < end) × (end ≤ length lengths.now * chunk) }
    ensures { PieceFrom block.bytes (records (get_or (parts lengths.now lists.now) (p / chunk) [])) (first + p / chunk) place (p % chunk) (part_end end (p / chunk)) result }
{
    let k = p / CHUNK;
    let index = first + k;
    let part = parts::part(p, end, k);
    let stop = part.end;
    let from = begins(lists, lengths, k as usize);
    let to = from + lengths[k as usize] as usize;
    let list = &lists[from..to];
    if let Some(piece) = pieces::scanned_at(list, index, place, part.from, stop, block) {
        return piece;
    }
    pieces::resolved_at(list, index, place, part.from, stop, block)
}
