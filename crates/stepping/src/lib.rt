// The pieces of a plan one at a time.
#![tactic(auto)]

mod chunks;
mod ends;
mod joins;
mod pieces;
mod rooms;

ghost use Rattle.std.specs.Prelude.{◌≡◌, ◌+◌, ◌-◌, ◌^◌, ◌<◌, ◌≤◌};
ghost use Rattle.stepping.specs.Calls.{next_outcome, next_answer, next_file_outcome, next_file_answer};

use blocks::block_allowed;
use joined::ListRefusal;
use outcomes::{Kind, Refusal};
use plans::shifts::BlockSize;
use plans::{Piece, Span};
use slices::{CHUNK, MAX_INDEX, check};

// A place in a read: how many of its bytes are already handed out.
#[derive(Clone, Copy)]
pub struct Place {
    pub at: u64,
}

// A piece that comes next in a read, and the place behind it.
#[derive(Clone, Copy)]
pub struct Given {
    pub piece: Piece,
    pub next: Place,
}

// How many bytes a read has.
fn bytes_of(read: Span) -> u64
    requires { read.from ≤ read.end }
    ensures { result ≡ read.end - read.from }
{
    (read.end - read.from) as u64
}

// The place behind a piece.
fn behind(at: u64, piece: Piece) -> Place
    requires { at < 2 ^ 32 }
    ensures { result.at ≡ at + piece.len }
{
    Place {
        at: at + piece.len as u64,
    }
}

impl Place {
    // The piece that comes next, if one is left, in a read of `count` bytes from `start`, for a chunk of the given index and length, with objects of the given block
    // size.
    pub fn next_piece(
        self,
        list: &[u8],
        index: u64,
        chunk_len: u64,
        block_size: u64,
        start: u64,
        count: u64,
    ) -> Result<Option<Given>, Refusal>
        ensures { result ≡ next_answer (next_outcome list.now index chunk_len block_size start count self.at) }
    {
        let at = self.at;
        if (CHUNK as u64) < chunk_len {
            return Err(Refusal::from(Kind::ChunkTooLong));
        }
        if MAX_INDEX < index {
            return Err(Refusal::from(Kind::WrongChunks));
        }
        if !block_allowed(block_size) {
            return Err(Refusal::from(Kind::BlockSize));
        }
        check::check_list(list)?;
        let read = plans::cut(chunk_len, start, count);
        if bytes_of(read) <= at {
            return Ok(None);
        }
        let piece = pieces::piece_at(
            list,
            index as u32,
            at as u32,
            read.from + at as u32,
            read.end,
            BlockSize::of(block_size as u32),
        );
        Ok(Some(Given {
            piece,
            next: behind(at, piece),
        }))
    }

    // The same for a read across the chunks of a file. The lists are those of the chunks from `first_index` on, one after the other, and `start` is
    // counted from the first one's beginning.
    pub fn next_file_piece(
        self,
        lists: &[u8],
        lengths: &[u64],
        first_index: u64,
        file_len: u64,
        block_size: u64,
        start: u64,
        count: u64,
    ) -> Result<Option<Given>, ListRefusal>
        ensures { result ≡ next_file_answer (next_file_outcome lists.now lengths.now first_index file_len block_size start count self.at) }
    {
        let at = self.at;
        if files::wrong_chunks(lists, lengths, first_index) {
            return Err(ListRefusal::from(Kind::WrongChunks));
        }
        if !block_allowed(block_size) {
            return Err(ListRefusal::from(Kind::BlockSize));
        }
        let n = joined::check_lists(lists, lengths, first_index)?;
        let read = plans::cut(files::file_end(first_index, file_len, n), start, count);
        if bytes_of(read) <= at {
            return Ok(None);
        }
        let piece = chunks::piece_in(
            lists,
            lengths,
            first_index as u32,
            at as u32,
            read.from + at as u32,
            read.end,
            BlockSize::of(block_size as u32),
        );
        Ok(Some(Given {
            piece,
            next: behind(at, piece),
        }))
    }
}
