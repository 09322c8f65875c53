// What the program prints for a list: its view in decimal, or its refusal.
#![tactic(auto)]

mod lines;

ghost use Rattle.std.specs.Prelude.{length, ◌≡◌};
ghost use Rattle.outcomes.specs.Answers.{Answers};
ghost use Rattle.listing.specs.Listing.{file_limit};
ghost use Rattle.listing.specs.Calls.{text_outcome};

use codec::decimal::DIGITS;
use outcomes::{Kind, Refusal};
use slices::{CHUNK, RECORD};

// The most bytes of a file, and of the view's buffer.
pub const FILE: usize = 65536;

// Room for the longest listing.
pub const TEXT: usize = 20 + FILE / RECORD * 5 * (DIGITS + 1);

// An empty buffer for a view.
fn blank() -> [u8; FILE]
    ensures { length result ≡ file_limit }
{
    [0; FILE]
}

// Writes the listing of a list; `longer` says that the file has more bytes than the list.
pub fn text(list: &[u8], longer: bool, out: &mut [u8]) -> Result<usize, Refusal>
    ensures { Answers (text_outcome longer list.now (length out.old)) out.old result out.new }
{
    if out.len() < TEXT {
        return Err(Refusal::from(Kind::ShortBuffer));
    }
    if longer {
        return Ok(lines::put_refused(out, Refusal::from(Kind::TooMany)));
    }
    let mut view = blank();
    match views::view(list, CHUNK as u64, &mut view) {
        Err(refusal) => Ok(lines::put_refused(out, refusal)),
        Ok(n) => Ok(lines::put_view(out, &view[..n])),
    }
}
