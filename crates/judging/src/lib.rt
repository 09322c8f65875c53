// Plans that were made elsewhere: whether they give each byte of a read once, and from where it lies.
#![tactic(auto)]

mod leading;
mod pieces;
mod places;
mod rooms;
mod sifting;
mod verdicts;

ghost use Rattle.std.specs.Prelude.{◌≡◌};
ghost use Rattle.judging.specs.Calls.{judge_outcome, judge_answer};

use blocks::block_allowed;
use joined::ListRefusal;
use outcomes::Kind;
use plans::shifts::BlockSize;

// What is said of a plan: it is accepted; a piece, by its number from 0, is wrong in itself; a byte, by its place in the read, is missing or doubled.
#[derive(Clone, Copy)]
pub enum Judged {
    Accepted,
    WrongPiece(usize),
    WrongByte(u32),
}

// Says of a plan whether it is one for a read of `count` bytes from `start` across the chunks of a file, with objects of the given block size. The
// lists are those of the chunks from `first_index` on, one after the other, and `start` is counted from the first one's beginning.
pub fn judge(
    lists: &[u8],
    lengths: &[u64],
    first_index: u64,
    file_len: u64,
    block_size: u64,
    start: u64,
    count: u64,
    plan: &[u8],
) -> Result<Judged, ListRefusal>
    ensures { result ≡ judge_answer (judge_outcome lists.now lengths.now first_index file_len block_size start count plan.now) }
{
    if files::wrong_chunks(lists, lengths, first_index) {
        return Err(ListRefusal::from(Kind::WrongChunks));
    }
    if !block_allowed(block_size) {
        return Err(ListRefusal::from(Kind::BlockSize));
    }
    let n = joined::check_lists(lists, lengths, first_index)?;
    let read = plans::cut(files::file_end(first_index, file_len, n), start, count);
    if read.end <= read.from {
        return Ok(verdicts::of_empty(plan));
    }
    let bytes = read.end - read.from;
    let first = first_index as u32;
    let block = BlockSize::of(block_size as u32);
    Ok(verdicts::of_read(lists, lengths, first, read.from, bytes, block, plan))
}
