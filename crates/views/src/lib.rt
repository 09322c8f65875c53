// The resolved view and the tidied list of a slice list.
#![tactic(auto)]

mod bytes;
mod maximal;
mod rooms;
mod walk;

ghost use Rattle.std.specs.Prelude.{length};
ghost use Rattle.outcomes.specs.Answers.{Answers};
ghost use Rattle.views.specs.Calls.{view_outcome, tidy_outcome};

use outcomes::{Kind, Refusal};
use slices::{CHUNK, check};

// The most records that a tidied list may have.
pub const TIDIED: usize = 2048;

// Writes the resolved view of a list, for a chunk of the given length.
pub fn view(list: &[u8], chunk_len: u64, out: &mut [u8]) -> Result<usize, Refusal>
    ensures { Answers (view_outcome list.now chunk_len (length out.old)) out.old result out.new }
{
    if (CHUNK as u64) < chunk_len {
        return Err(Refusal::from(Kind::ChunkTooLong));
    }
    let n = check::check_list(list)?;
    let end = chunk_len as u32;
    if n <= 4 {
        return rooms::sized::<4, 10, 9>(list, end, true, out);
    }
    if n <= 32 {
        return rooms::sized::<32, 66, 65>(list, end, true, out);
    }
    rooms::many(list, end, true, out)
}

// Writes the tidied list: the view of the whole chunk without its uncovered runs.
pub fn tidy(list: &[u8], out: &mut [u8]) -> Result<usize, Refusal>
    ensures { Answers (tidy_outcome list.now (length out.old)) out.old result out.new }
{
    let n = check::check_list(list)?;
    if n <= 4 {
        return rooms::sized::<4, 10, 9>(list, CHUNK, false, out);
    }
    if n <= 32 {
        return rooms::sized::<32, 66, 65>(list, CHUNK, false, out);
    }
    rooms::many(list, CHUNK, false, out)
}
