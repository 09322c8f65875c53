// The pieces of a plan, from the first on: counted, and written.
ghost use Rattle.std.specs.Prelude.{◌≡◌, true, cond, ◌+◌, ◌-◌, ◌*◌, ◌/◌, ◌%◌, ◌^◌, ◌<◌, ◌≤◌, length};
ghost use Rattle.codec.specs.Splice.{splice};
ghost use Rattle.outcomes.specs.Answers.{Answers};
ghost use Rattle.outcomes.specs.Outcome.{delivered};
ghost use Rattle.slices.specs.Limits.{chunk};
ghost use Rattle.slices.specs.Record.{records};
ghost use Rattle.plans.specs.Inner.{front_bytes};
ghost use Rattle.plans.specs.Piece.{piece_size, chunk_bytes};
ghost use Rattle.plans.specs.Plan.{pieces};

use crate::shifts::BlockSize;
use crate::{PIECE, bytes, reach, shifts};
use outcomes::{Kind, Refusal};
use resolve::segments::Resolved;

// Writes the pieces of the positions from `from` up to `end` into a buffer that has room for them, from `start` on, or only counts their bytes;
// where they end. The halves of `front` are the index of the chunk and the places of the read before these.
pub fn walk_pieces(
    r: &Resolved,
    from: u32,
    end: u32,
    block: BlockSize,
    front: u64,
    write: bool,
    out: &mut [u8],
    start: usize,
) -> usize
    requires from_lt_end { (from < end) × (end ≤ chunk) }
    requires from_bound { (front % 2 ^ 32 + (end - from) ≤ 2 ^ 32) × (start ≤ 2 ^ 40) }
    requires from_in_bounds { write ≡ true → start + length (front_bytes front (pieces block.bytes (records r.now.list.now) from (end - from))) ≤ length out.old }
    ensures value { result ≡ start + length (front_bytes front (pieces block.bytes (records r.now.list.now) from (end - from))) }
    ensures out_after { out.new ≡ cond write (splice out.old start (front_bytes front (pieces block.bytes (records r.now.list.now) from (end - from)))) out.old }
{
    let mut p = from;
    let mut k = r.find(from);
    let mut to = start;
    while p < end {
        let top = r.tops[k];
        let run = reach::reach(r, k, p, end, block);
        let at = p;
        p = run.end;
        k = run.segment;
        bytes::put_if(
            write,
            r.list,
            top,
            at,
            front + (at - from) as u64,
            p - at,
            block,
            out,
            to,
        );
        to += PIECE;
    }
    to
}

// Whether a buffer of so many bytes has room for all pieces that can come: two a segment, and one a block.
fn roomy(m: usize, from: u32, end: u32, bits: u32, room: usize) -> bool
    requires { (m ≤ chunk) × (from ≤ end) × (bits < 32) }
    ensures { result ≡ true → (m + m + (end - from) / 2 ^ bits) * piece_size ≤ room }
{
    m + m + shifts::number_of(end - from, bits) as usize <= room / PIECE
}

// Answers with these pieces. They are counted first only where they may have no room.
pub(crate) fn answer(
    r: &Resolved,
    from: u32,
    end: u32,
    block: BlockSize,
    index: u32,
    out: &mut [u8],
) -> Result<usize, Refusal>
    requires { (from < end) × (end ≤ chunk) }
    ensures { Answers (delivered (chunk_bytes index 0 (pieces block.bytes (records r.now.list.now) from (end - from))) (length out.old)) out.old result out.new }
{
    let front = index as u64 * 4294967296;
    if roomy(r.segments, from, end, block.bits, out.len()) {
        return Ok(walk_pieces(r, from, end, block, front, true, out, 0));
    }
    let need = walk_pieces(r, from, end, block, front, false, out, 0);
    if out.len() < need {
        return Err(Refusal::from(Kind::ShortBuffer));
    }
    Ok(walk_pieces(r, from, end, block, front, true, out, 0))
}
