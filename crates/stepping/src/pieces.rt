// The piece of a list that starts at a position.
ghost use Rattle.std.specs.Prelude.{◌≡◌, ◌+◌, ◌-◌, ◌<◌, ◌≤◌, IfSome};
ghost use Rattle.slices.specs.Accepts.{Accepts};
ghost use Rattle.slices.specs.Limits.{chunk};
ghost use Rattle.slices.specs.Record.{records};
ghost use Rattle.resolve.specs.Resolved.{OnTop};
ghost use Rattle.plans.specs.Location.{location_at};
ghost use Rattle.plans.specs.Piece.{piece_of};
ghost use Rattle.stepping.specs.Inner.{PieceFrom};

use crate::{ends, rooms};
use plans::shifts::BlockSize;
use plans::{Location, OBJECT, Piece, ZEROS, locations};
use resolve::tops;

// The piece of so many places of a chunk, by where its first byte lies.
fn piece_of(index: u32, place: u32, len: u32, first: Location) -> Piece
    ensures { result ≡ piece_of index place len first }
{
    match first {
        Location::Hole => Piece {
            mark: ZEROS,
            index,
            place,
            id: 0,
            block: 0,
            length: 0,
            at: 0,
            len,
        },
        Location::In {
            id,
            block,
            length,
            at,
        } => Piece {
            mark: OBJECT,
            index,
            place,
            id,
            block,
            length,
            at,
            len,
        },
    }
}

// The piece of the positions from p up to e, where the record `top`, counted from 1, lies on top of p.
fn piece_with(
    list: &[u8],
    top: u16,
    index: u32,
    place: u32,
    p: u32,
    e: u32,
    block: BlockSize,
) -> Piece
    requires accepts { Accepts list.now }
    requires on_top { OnTop list.now top p (p + 1) × (p ≤ e) }
    ensures { result ≡ piece_of index place (e - p) (location_at block.bytes (records list.now) p) }
{
    let first = locations::location_of(tops::source_of(list, top, p), block.bytes);
    piece_of(index, place, e - p, first)
}

// The piece that starts at position p, and ends at `end` at the latest, by one scan, if that tells.
pub(crate) fn scanned_at(
    list: &[u8],
    index: u32,
    place: u32,
    p: u32,
    end: u32,
    block: BlockSize,
) -> Option<Piece>
    requires accepts { Accepts list.now }
    requires p_lt_end { (p < end) × (end ≤ chunk) }
    ensures { IfSome result (λ piece. PieceFrom block.bytes (records list.now) index place p end piece) }
{
    let s = scanning::scan(list, p, end);
    let e = ends::end_of(list, s, p, end, block)?;
    Some(piece_with(list, s.top, index, place, p, e, block))
}

// The same by the whole list resolved. It has two callers, and so a frame of its own: a piece that the scan tells does not pay for the room.
pub(crate) fn resolved_at(
    list: &[u8],
    index: u32,
    place: u32,
    p: u32,
    end: u32,
    block: BlockSize,
) -> Piece
    requires accepts { Accepts list.now }
    requires p_lt_end { (p < end) × (end ≤ chunk) }
    ensures { PieceFrom block.bytes (records list.now) index place p end result }
{
    let r = rooms::end_resolved(list, p, end, block);
    piece_with(list, r.top, index, place, p, r.end, block)
}

// By the scan, or else resolved.
pub(crate) fn piece_at(
    list: &[u8],
    index: u32,
    place: u32,
    p: u32,
    end: u32,
    block: BlockSize,
) -> Piece
    requires accepts { Accepts list.now }
    requires p_lt_end { (p < end) × (end ≤ chunk) }
    ensures { PieceFrom block.bytes (records list.now) index place p end result }
{
    if let Some(piece) = scanned_at(list, index, place, p, end, block) {
        return piece;
    }
    resolved_at(list, index, place, p, end, block)
}
