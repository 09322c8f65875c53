// A piece of a plan, read, and what its own numbers tell.
ghost use Rattle.std.specs.Prelude.{◌≡◌, not, ◌&&◌, ◌+◌, ◌^◌, ◌≤◌, eqb, length};
ghost use Rattle.plans.specs.Piece.{piece_size, decode_piece};
ghost use Rattle.judging.specs.Judge.{unknown_mark, number_set};
ghost use Rattle.judging.specs.Inner.{formed};

use codec::fixed;
use plans::{OBJECT, Piece, ZEROS};
use slices::CHUNK;

// The piece whose bytes start at `at`.
pub(crate) fn read_piece(plan: &[u8], at: usize) -> Piece
    requires { at + piece_size ≤ length plan.now }
    ensures { result ≡ decode_piece plan.now at }
{
    let mark = fixed::read_be16(plan, at);
    let index = fixed::read_be32(plan, at + 2);
    let place = fixed::read_be32(plan, at + 6);
    let id = fixed::read_be64(plan, at + 10);
    let block = fixed::read_be32(plan, at + 18);
    let length = fixed::read_be32(plan, at + 22);
    let in_block = fixed::read_be32(plan, at + 26);
    let len = fixed::read_be32(plan, at + 30);
    Piece {
        mark,
        index,
        place,
        id,
        block,
        length,
        at: in_block,
        len,
    }
}

// Whether one of the four numbers that an `RZ` has no use for is set.
fn some_set(p: Piece) -> bool
    ensures { result ≡ not (eqb p.id 0 && (eqb p.block 0 && (eqb p.length 0 && eqb p.at 0))) }
{
    p.id != 0 || p.block != 0 || p.length != 0 || p.at != 0
}

// Whether the mark is known, and numbers stand beside it that may.
fn is_marked(p: Piece) -> bool
    ensures { result ≡ not (unknown_mark p) && not (number_set p) }
{
    p.mark == OBJECT || (p.mark == ZEROS && !some_set(p))
}

// Whether a piece is one of a read of n bytes from `from` on, as far as its own numbers tell.
pub(crate) fn is_formed(p: Piece, first: u32, from: u32, n: u32) -> bool
    requires { from + n ≤ 2 ^ 30 }
    ensures { result ≡ formed first from n p }
{
    if p.len == 0 || !is_marked(p) || (n as u64) < p.place as u64 + p.len as u64 {
        return false;
    }
    let at = from + p.place;
    p.index as u64 == first as u64 + (at / CHUNK) as u64 && p.len <= CHUNK - at % CHUNK
}
