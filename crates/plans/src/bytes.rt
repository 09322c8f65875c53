// A piece as bytes. The list is read right before each number is written: so the compiler makes one store of each.
ghost use Rattle.std.specs.Prelude.{◌≡◌, true, cond, ◌≢◌, ◌++◌, ◌+◌, ◌*◌, ◌/◌, ◌%◌, ◌^◌, ◌<◌, ◌≤◌, length};
ghost use Rattle.codec.specs.All.{All};
ghost use Rattle.codec.specs.Fixed.{big_endian};
ghost use Rattle.codec.specs.Splice.{splice};
ghost use Rattle.slices.specs.Cover.{given};
ghost use Rattle.slices.specs.Limits.{record_size};
ghost use Rattle.slices.specs.Passes.{Passes};
ghost use Rattle.slices.specs.Record.{record_at, records};
ghost use Rattle.resolve.specs.Resolved.{OnTop};
ghost use Rattle.plans.specs.Inner.{object_bytes};
ghost use Rattle.plans.specs.Location.{location, location_at};
ghost use Rattle.plans.specs.Piece.{piece_size, piece_of, encode_piece};
ghost use Rattle.plans.specs.declared.Location.TheVariants.{Hole};

use crate::shifts::BlockSize;
use crate::{OBJECT, ZEROS, objects};
use codec::fixed;
use resolve::tops;
use slices::records;

// Writes the two bytes of a mark.
fn write_mark(out: &mut [u8], to: usize, mark: u16)
    requires { to + 2 ≤ length out.old }
    ensures { out.new ≡ splice out.old to (big_endian 2 mark) }
{
    out[to] = (mark / 256 % 256) as u8;
    out[to + 1] = (mark % 256) as u8;
}

// Puts the mark, and the chunk index and the place in the read, which are the halves of `front`.
fn put_front(mark: u16, front: u64, out: &mut [u8], to: usize)
    requires { to + 10 ≤ length out.old }
    ensures { out.new ≡ splice out.old to (big_endian 2 mark ++ big_endian 8 front) }
{
    fixed::write_be64(out, to + 2, front);
    write_mark(out, to, mark);
}

// Puts the numbers of a piece that lies in no object.
fn put_nothing(out: &mut [u8], to: usize)
    requires { to + 20 ≤ length out.old }
    ensures { out.new ≡ splice out.old to (object_bytes Hole) }
{
    fixed::write_be64(out, to, 0);
    fixed::write_be32(out, to + 8, 0);
    fixed::write_be32(out, to + 12, 0);
    fixed::write_be32(out, to + 16, 0);
}

// Puts the numbers of the object in which position p lies, which record i gives.
fn put_object(list: &[u8], i: usize, p: u32, block: BlockSize, out: &mut [u8], to: usize)
    requires record_size_in_bounds { (i * record_size + record_size ≤ length list.now) × (to + 20 ≤ length out.old) }
    requires passes { Passes (record_at list.now i) × ((record_at list.now i).id ≢ 0) }
    requires i_bound { ((record_at list.now i).pos ≤ p) × (p < (record_at list.now i).pos + (record_at list.now i).len) }
    ensures { out.new ≡ splice out.old to (object_bytes (location block.bytes (given (record_at list.now i) p))) }
{
    fixed::write_be64(out, to, records::read_id(list, i));
    fixed::write_be32(out, to + 8, objects::number_at(list, i, p, block.bits));
    fixed::write_be32(out, to + 12, objects::length_at(list, i, p, block));
    fixed::write_be32(out, to + 16, objects::place_at(list, i, p, block));
}

// Puts the piece of len positions from p on, where the record `top`, counted from 1, lies on top of p. The halves of `front` are the chunk index and
// the place in the read: so they go in one store.
fn put_piece(
    list: &[u8],
    top: u16,
    p: u32,
    front: u64,
    len: u32,
    block: BlockSize,
    out: &mut [u8],
    to: usize,
)
    requires all { All Passes (records list.now) }
    requires on_top { OnTop list.now top p (p + 1) }
    requires piece_size_in_bounds { to + piece_size ≤ length out.old }
    ensures { out.new ≡ splice out.old to (encode_piece (piece_of (front / 2 ^ 32) (front % 2 ^ 32) len (location_at block.bytes (records list.now) p))) }
{
    fixed::write_be32(out, to + 30, len);
    if tops::id_on(list, top) == 0 {
        put_front(ZEROS, front, out, to);
        put_nothing(out, to + 10);
        return;
    }
    put_front(OBJECT, front, out, to);
    put_object(list, tops::wide(top) - 1, p, block, out, to + 10);
}

// The same where it is to be written; else the buffer stays.
pub(crate) fn put_if(
    write: bool,
    list: &[u8],
    top: u16,
    p: u32,
    front: u64,
    len: u32,
    block: BlockSize,
    out: &mut [u8],
    to: usize,
)
    requires all { All Passes (records list.now) }
    requires on_top { OnTop list.now top p (p + 1) }
    requires piece_size_in_bounds { write ≡ true → to + piece_size ≤ length out.old }
    ensures { out.new ≡ cond write (splice out.old to (encode_piece (piece_of (front / 2 ^ 32) (front % 2 ^ 32) len (location_at block.bytes (records list.now) p)))) out.old }
{
    if write {
        put_piece(list, top, p, front, len, block, out, to);
    }
}
