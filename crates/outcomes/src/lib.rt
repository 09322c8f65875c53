// What calls answer: bytes delivered into a lent buffer, or why they are refused.
#![tactic(auto)]

mod kind;
mod refusal;

ghost use Rattle.std.specs.Prelude.{length};
ghost use Rattle.outcomes.specs.Outcome.{delivered};
ghost use Rattle.outcomes.specs.Answers.{Answers};

use codec::put;
pub use kind::Kind;
pub use refusal::Refusal;

// Copies bytes to the front of out, if they fit there: how many they are.
pub fn deliver(bytes: &[u8], out: &mut [u8]) -> Result<usize, Refusal>
    ensures { Answers (delivered bytes.now (length out.old)) out.old result out.new }
{
    if out.len() < bytes.len() {
        return Err(Refusal::from(Kind::ShortBuffer));
    }
    Ok(put::put(out, 0, bytes))
}
