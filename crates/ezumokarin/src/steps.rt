// The pieces of a read, one at a time.
ghost use Rattle.std.specs.Prelude.{◌≡◌};
ghost use Rattle.stepping.specs.Calls.{next_outcome, next_file_outcome};
ghost use Rattle.ezumokarin.specs.Steps.{no_piece, a_piece, in_file, stepped, stepped_file, plain_next, plain_file_next};

use crate::{FileNext, Next};
use joined::ListRefusal;
use outcomes::Refusal;
use plans::Piece;
use stepping::{Given, Place};

// No piece: a refusal's number and place, or that nothing is left.
fn no_piece(refusal: u64, place: u64, finished: u64, next: u64) -> Next
    ensures { result ≡ no_piece refusal place finished next }
{
    Next {
        refusal,
        place,
        finished,
        next,
        mark: 0,
        index: 0,
        at: 0,
        id: 0,
        block: 0,
        block_len: 0,
        in_block: 0,
        len: 0,
    }
}

// A piece, and the next place.
fn a_piece(p: Piece, next: u64) -> Next
    ensures { result ≡ a_piece p next }
{
    Next {
        refusal: 0,
        place: 0,
        finished: 0,
        next,
        mark: p.mark as u64,
        index: p.index as u64,
        at: p.place as u64,
        id: p.id,
        block: p.block as u64,
        block_len: p.length as u64,
        in_block: p.at as u64,
        len: p.len as u64,
    }
}

// The same with the chunk index of the refused list.
fn in_file(i: u64, n: Next) -> FileNext
    ensures { result ≡ in_file i n }
{
    FileNext {
        refusal: n.refusal,
        place: n.place,
        list_index: i,
        finished: n.finished,
        next: n.next,
        mark: n.mark,
        index: n.index,
        at: n.at,
        id: n.id,
        block: n.block,
        block_len: n.block_len,
        in_block: n.in_block,
        len: n.len,
    }
}

// What comes at the place `at` of a read of one chunk.
fn of_next(n: Result<Option<Given>, Refusal>, at: u64) -> Next
    ensures { result ≡ plain_next n at }
{
    match n {
        Ok(Some(g)) => a_piece(g.piece, g.next.at),
        Ok(None) => no_piece(0, 0, 1, at),
        Err(r) => no_piece(r.number() as u64, r.place() as u64, 0, 0),
    }
}

// What comes at the place `at` of a read across a file.
fn of_file_next(n: Result<Option<Given>, ListRefusal>, at: u64) -> FileNext
    ensures { result ≡ plain_file_next n at }
{
    match n {
        Ok(Some(g)) => in_file(0, a_piece(g.piece, g.next.at)),
        Ok(None) => in_file(0, no_piece(0, 0, 1, at)),
        Err(r) => in_file(
            r.index(),
            no_piece(r.number() as u64, r.place() as u64, 0, 0),
        ),
    }
}

// stepping::Place::next_piece.
#[unsafe(no_mangle)]
pub extern "C" fn ezk_next_piece(
    list: &[u8],
    index: u64,
    chunk_len: u64,
    block_size: u64,
    start: u64,
    count: u64,
    at: u64,
) -> Next
    ensures { result ≡ stepped (next_outcome list.now index chunk_len block_size start count at) at }
{
    let place = Place { at };
    of_next(
        place.next_piece(list, index, chunk_len, block_size, start, count),
        at,
    )
}

// stepping::Place::next_file_piece.
#[unsafe(no_mangle)]
pub extern "C" fn ezk_next_file_piece(
    lists: &[u8],
    lengths: &[u64],
    first_index: u64,
    file_len: u64,
    block_size: u64,
    start: u64,
    count: u64,
    at: u64,
) -> FileNext
    ensures { result ≡ stepped_file (next_file_outcome lists.now lengths.now first_index file_len block_size start count at) at }
{
    let place = Place { at };
    of_file_next(
        place.next_file_piece(
            lists,
            lengths,
            first_index,
            file_len,
            block_size,
            start,
            count,
        ),
        at,
    )
}
