// Room to resolve the lists in, one after the other, and the answer.
ghost use Rattle.std.specs.Prelude.{◌≡◌, true, cond, ◌+◌, ◌-◌, ◌*◌, ◌/◌, ◌^◌, ◌<◌, ◌≤◌, length};
ghost use Rattle.codec.specs.All.{All};
ghost use Rattle.codec.specs.Splice.{splice};
ghost use Rattle.slices.specs.Accepts.{Accepts};
ghost use Rattle.slices.specs.Limits.{max_records, record_size};
ghost use Rattle.joined.specs.Lists.{total, parts};
ghost use Rattle.plans.specs.Piece.{piece_size};
ghost use Rattle.files.specs.Limits.{max_lists};
ghost use Rattle.files.specs.Calls.{AnswersFile, delivered_file};
ghost use Rattle.files.specs.Inner.{bytes_of};

use crate::walk;
use joined::ListRefusal;
use outcomes::Kind;
use plans::PIECE;
use plans::shifts::BlockSize;
use resolve::room::Room;
use slices::RECORD;

// Whether a buffer of so many bytes has room for all pieces that can come: four a record, two a list, and one a block.
fn roomy(bytes: usize, lists: usize, from: u32, end: u32, bits: u32, room: usize) -> bool
    requires { (lists ≤ max_lists) × (from ≤ end) × (bits < 32) }
    ensures { result ≡ true → (4 * (bytes / record_size) + 2 * lists + (end - from) / 2 ^ bits) * piece_size ≤ room }
{
    4 * (bytes / RECORD) + 2 * lists + ((end - from) >> bits) as usize <= room / PIECE
}

// Writes the pieces of the positions from `from` up to `end` to the front of a buffer that has room for them, or only counts their bytes; how many
// bytes they have. The lists have at most N records each.
fn sized<const N: usize, const MARKS: usize, const TOPS: usize>(
    lists: &[u8],
    lengths: &[u64],
    first: u32,
    from: u32,
    end: u32,
    block: BlockSize,
    write: bool,
    out: &mut [u8],
) -> usize
    requires lengths_value { (total lengths.now ≡ length lists.now) × All Accepts (parts lengths.now lists.now) }
    requires lists_len_bound { N < max_records → length lists.now ≤ N * record_size }
    requires lengths_len_bound { (length lengths.now ≤ max_lists) × (first + length lengths.now ≤ 2 ^ 32) }
    requires lists_in_bounds { write ≡ true → length (bytes_of first block.bytes from end 0 (parts lengths.now lists.now)) ≤ length out.old }
    requires room { (0 < N) × (N ≤ max_records) × (MARKS ≡ N + N + 2) × (TOPS ≡ N + N + 1) }
    ensures value { result ≡ length (bytes_of first block.bytes from end 0 (parts lengths.now lists.now)) }
    ensures out_after { out.new ≡ cond write (splice out.old 0 (bytes_of first block.bytes from end 0 (parts lengths.now lists.now))) out.old }
{
    let mut marks = [0u32; MARKS];
    let mut tops = [0u16; TOPS];
    let mut pos = [0u64; N];
    let mut ends = [0u32; N];
    let mut order = [0u16; N];
    let mut spare = [0u16; N];
    let mut room = Room {
        records: N,
        marks: &mut marks,
        tops: &mut tops,
        pos: &mut pos,
        ends: &mut ends,
        order: &mut order,
        spare: &mut spare,
    };
    walk::walk_lists(
        lists, lengths, first, from, end, block, write, out, &mut room,
    )
}

// The same in the smaller room that does. It has several callers, and so a frame of its own.
fn in_room(
    lists: &[u8],
    lengths: &[u64],
    first: u32,
    from: u32,
    end: u32,
    block: BlockSize,
    write: bool,
    out: &mut [u8],
) -> usize
    requires lengths_value { (total lengths.now ≡ length lists.now) × All Accepts (parts lengths.now lists.now) }
    requires lengths_len_bound { (length lengths.now ≤ max_lists) × (first + length lengths.now ≤ 2 ^ 32) }
    requires lists_in_bounds { write ≡ true → length (bytes_of first block.bytes from end 0 (parts lengths.now lists.now)) ≤ length out.old }
    ensures value { result ≡ length (bytes_of first block.bytes from end 0 (parts lengths.now lists.now)) }
    ensures out_after { out.new ≡ cond write (splice out.old 0 (bytes_of first block.bytes from end 0 (parts lengths.now lists.now))) out.old }
{
    if lists.len() <= 256 * RECORD {
        return sized::<256, 514, 513>(lists, lengths, first, from, end, block, write, out);
    }
    sized::<2048, 4098, 4097>(lists, lengths, first, from, end, block, write, out)
}

// Answers with these pieces. They are counted first only where they may have no room.
pub(crate) fn answer(
    lists: &[u8],
    lengths: &[u64],
    first: u32,
    from: u32,
    end: u32,
    block: BlockSize,
    out: &mut [u8],
) -> Result<usize, ListRefusal>
    requires lengths_value { (total lengths.now ≡ length lists.now) × All Accepts (parts lengths.now lists.now) }
    requires lengths_len_bound { (length lengths.now ≤ max_lists) × (first + length lengths.now ≤ 2 ^ 32) × (from ≤ end) }
    ensures { AnswersFile (delivered_file (bytes_of first block.bytes from end 0 (parts lengths.now lists.now)) (length out.old)) out.old result out.new }
{
    if roomy(lists.len(), lengths.len(), from, end, block.bits, out.len()) {
        return Ok(in_room(lists, lengths, first, from, end, block, true, out));
    }
    let need = in_room(lists, lengths, first, from, end, block, false, out);
    if out.len() < need {
        return Err(ListRefusal::from(Kind::ShortBuffer));
    }
    Ok(in_room(lists, lengths, first, from, end, block, true, out))
}
