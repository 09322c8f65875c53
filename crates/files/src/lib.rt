// Reads across the chunks of a file.
#![tactic(auto)]

pub mod parts;
mod rooms;
mod walk;

ghost use Rattle.std.specs.Prelude.{◌≡◌, ◌≤◌, length};
ghost use Rattle.slices.specs.Limits.{max_index};
ghost use Rattle.files.specs.Limits.{max_lists};
ghost use Rattle.files.specs.File.{file_end};
ghost use Rattle.files.specs.Calls.{wrong_chunks, file_outcome, AnswersFile};

use blocks::block_allowed;
use joined::ListRefusal;
use outcomes::Kind;
use plans::shifts::BlockSize;
use slices::{CHUNK, MAX_INDEX};

// The most lists that a read may span.
pub const LISTS: usize = 16;

// Whether the lists are too many or none, their lengths do not add up, or an index is past 32 bits. No sum is made that could wrap.
pub fn wrong_chunks(lists: &[u8], lengths: &[u64], first: u64) -> bool
    ensures { result ≡ wrong_chunks lengths.now (length lists.now) first }
{
    let n = lengths.len();
    if n == 0 {
        return true;
    }
    if LISTS < n {
        return true;
    }
    if joined::adds_up(lengths, lists.len()) {
        return MAX_INDEX - (n as u64 - 1) < first;
    }
    true
}

// Where a read over so many lists ends at the latest: at the file's end, or at the last list's.
pub fn file_end(first: u64, file_len: u64, lists: usize) -> u64
    requires { (first ≤ max_index) × (lists ≤ max_lists) }
    ensures { result ≡ file_end first file_len lists }
{
    let before = first * CHUNK as u64;
    let all = lists as u64 * CHUNK as u64;
    if file_len <= before {
        return 0;
    }
    let left = file_len - before;
    if left < all { left } else { all }
}

// Writes the plan of a read of `count` bytes from `start` across the chunks of a file, with objects of the given block size. The lists are those of
// the chunks from `first_index` on, one after the other, and `start` is counted from the first one's beginning.
pub fn file_plan(
    lists: &[u8],
    lengths: &[u64],
    first_index: u64,
    file_len: u64,
    block_size: u64,
    start: u64,
    count: u64,
    out: &mut [u8],
) -> Result<usize, ListRefusal>
    ensures { AnswersFile (file_outcome lists.now lengths.now first_index file_len block_size start count (length out.old)) out.old result out.new }
{
    if wrong_chunks(lists, lengths, first_index) {
        return Err(ListRefusal::from(Kind::WrongChunks));
    }
    if !block_allowed(block_size) {
        return Err(ListRefusal::from(Kind::BlockSize));
    }
    let n = joined::check_lists(lists, lengths, first_index)?;
    let read = plans::cut(file_end(first_index, file_len, n), start, count);
    let first = first_index as u32;
    let block = BlockSize::of(block_size as u32);
    rooms::answer(lists, lengths, first, read.from, read.end, block, out)
}
