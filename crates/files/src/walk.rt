// The pieces of a plan, list by list: counted, and written.
ghost use Rattle.std.specs.Prelude.{◌≡◌, true, cond, ◌+◌, ◌^◌, ◌<◌, ◌≤◌, length};
ghost use Rattle.codec.specs.All.{All};
ghost use Rattle.codec.specs.Splice.{splice};
ghost use Rattle.slices.specs.Record.{records};
ghost use Rattle.joined.specs.Lists.{total, parts};
ghost use Rattle.plans.specs.Piece.{encode_pieces};
ghost use Rattle.files.specs.Limits.{max_lists};
ghost use Rattle.files.specs.File.{chunk_plan};
ghost use Rattle.files.specs.Inner.{Fits, bytes_of};

use crate::parts;
use plans::shifts::BlockSize;
use plans::walk;
use resolve::room::Room;

// Writes the pieces of the k-th chunk's positions into a buffer that has room for them, from `start` on, or only counts their bytes; where they end.
fn walk_list(
    list: &[u8],
    first: u32,
    k: u32,
    from: u32,
    end: u32,
    block: BlockSize,
    write: bool,
    out: &mut [u8],
    start: usize,
    room: &mut Room,
) -> usize
    requires resolvable { Fits room.old.records list.now }
    requires k_lt_max_lists { (k < max_lists) × (first + k < 2 ^ 32) × (start ≤ 2 ^ 40) }
    requires list_in_bounds { write ≡ true → start + length (encode_pieces (chunk_plan first block.bytes from end k (records list.now))) ≤ length out.old }
    ensures value { result ≡ start + length (encode_pieces (chunk_plan first block.bytes from end k (records list.now))) }
    ensures out_after { out.new ≡ cond write (splice out.old start (encode_pieces (chunk_plan first block.bytes from end k (records list.now)))) out.old }
    ensures room_after { room.new.records ≡ room.old.records }
{
    let part = parts::part(from, end, k);
    if part.end <= part.from {
        return start;
    }
    let segments = room.resolve(list);
    let front = (first + k) as u64 * 4294967296 + parts::places_before(from, k) as u64;
    let r = room.resolved(list, segments);
    walk::walk_pieces(&r, part.from, part.end, block, front, write, out, start)
}

// The same for all lists, to the front of the buffer; how many bytes the pieces have.
pub(crate) fn walk_lists(
    lists: &[u8],
    lengths: &[u64],
    first: u32,
    from: u32,
    end: u32,
    block: BlockSize,
    write: bool,
    out: &mut [u8],
    room: &mut Room,
) -> usize
    requires lengths_value { (total lengths.now ≡ length lists.now) × All (Fits room.old.records) (parts lengths.now lists.now) }
    requires lengths_len_bound { (length lengths.now ≤ max_lists) × (first + length lengths.now ≤ 2 ^ 32) }
    requires lists_in_bounds { write ≡ true → length (bytes_of first block.bytes from end 0 (parts lengths.now lists.now)) ≤ length out.old }
    ensures value { result ≡ length (bytes_of first block.bytes from end 0 (parts lengths.now lists.now)) }
    ensures out_after { out.new ≡ cond write (splice out.old 0 (bytes_of first block.bytes from end 0 (parts lengths.now lists.now))) out.old }
{
    let mut at = 0;
    let mut to = 0;
    for (k, len) in lengths.iter().enumerate() {
        let stop = at + *len as usize;
        to = walk_list(
            &lists[at..stop],
            first,
            k as u32,
            from,
            end,
            block,
            write,
            out,
            to,
            room,
        );
        at = stop;
    }
    to
}
