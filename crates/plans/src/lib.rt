// Where the bytes of a read lie, in maximal pieces.
#![tactic(auto)]

mod bytes;
pub mod locations;
mod objects;
pub mod reach;
pub mod rooms;
pub mod shifts;
pub mod walk;

ghost use Rattle.std.specs.Prelude.{◌^◌, ◌<◌, length};
ghost use Rattle.outcomes.specs.Answers.{Answers};
ghost use Rattle.plans.specs.Calls.{read_outcome};
ghost use Rattle.plans.specs.Inner.{Cut};

use blocks::block_allowed;
use outcomes::{Kind, Refusal};
use shifts::BlockSize;
use slices::{CHUNK, MAX_INDEX, check};

// The bytes of a piece.
pub const PIECE: usize = 34;

// `RB`, the mark of a piece that lies in an object. Marks are numbers and no enum: a piece that was made elsewhere may have any (`unknown_mark` of `judging`).
pub const OBJECT: u16 = 0x5242;

// `RZ`, the mark of a piece that reads as zeros.
pub const ZEROS: u16 = 0x525a;

// Where a byte lies in the store: nowhere, so that it reads as zero, or in an object at a place in its block.
#[derive(Clone, Copy)]
pub enum Location {
    Hole,
    In {
        id: u64,
        block: u32,
        length: u32,
        at: u32,
    },
}

// A piece of a plan, as its 34 bytes say it.
#[derive(Clone, Copy)]
pub struct Piece {
    pub mark: u16,
    pub index: u32,
    pub place: u32,
    pub id: u64,
    pub block: u32,
    pub length: u32,
    pub at: u32,
    pub len: u32,
}

// The positions from `from` up to, but without, `end`.
#[derive(Clone, Copy)]
pub struct Span {
    pub from: u32,
    pub end: u32,
}

// The positions of a read of `count` bytes from `start`, where there are l bytes. The sum of start and count is never made.
pub fn cut(l: u64, start: u64, count: u64) -> Span
    requires { l < 2 ^ 32 }
    ensures { Cut l start count result.from result.end }
{
    if l <= start {
        return Span { from: 0, end: 0 };
    }
    if count < l - start {
        return Span {
            from: start as u32,
            end: (start + count) as u32,
        };
    }
    Span {
        from: start as u32,
        end: l as u32,
    }
}

// Writes the plan of a read of `count` bytes from `start`, for a chunk of the given index and length, with objects of the given block size.
pub fn read_plan(
    list: &[u8],
    index: u64,
    chunk_len: u64,
    block_size: u64,
    start: u64,
    count: u64,
    out: &mut [u8],
) -> Result<usize, Refusal>
    ensures { Answers (read_outcome list.now index chunk_len block_size start count (length out.old)) out.old result out.new }
{
    if (CHUNK as u64) < chunk_len {
        return Err(Refusal::from(Kind::ChunkTooLong));
    }
    if MAX_INDEX < index {
        return Err(Refusal::from(Kind::WrongChunks));
    }
    if !block_allowed(block_size) {
        return Err(Refusal::from(Kind::BlockSize));
    }
    let n = check::check_list(list)?;
    let read = cut(chunk_len, start, count);
    let block = BlockSize::of(block_size as u32);
    if n <= 32 {
        return rooms::sized::<32, 66, 65>(list, read.from, read.end, block, index as u32, out);
    }
    rooms::many(list, read.from, read.end, block, index as u32, out)
}
