// What is said of a plan that was made elsewhere.
ghost use Rattle.std.specs.Prelude.{◌≡◌};
ghost use Rattle.judging.specs.Calls.{judge_outcome};
ghost use Rattle.ezumokarin.specs.Judges.{with_verdict, judged_plan, plain_judged};

use crate::Judged;
use joined::ListRefusal;

// The numbers of the verdicts: an answer to C is a struct of numbers.
const ACCEPTED: u64 = 1;

const WRONG_PIECE: u64 = 2;

const WRONG_BYTE: u64 = 3;

// A verdict, and the number of the wrong piece or the place of the byte.
fn with_verdict(verdict: u64, at: u64) -> Judged
    ensures { result ≡ with_verdict verdict at }
{
    Judged {
        refusal: 0,
        place: 0,
        index: 0,
        verdict,
        at,
    }
}

impl From<Result<judging::Judged, ListRefusal>> for Judged {
    ghost from_gives = { λ j p. p ≡ plain_judged j };

    fn from(j: Result<judging::Judged, ListRefusal>) -> Judged {
        match j {
            Ok(judging::Judged::Accepted) => with_verdict(ACCEPTED, 0),
            Ok(judging::Judged::WrongPiece(k)) => with_verdict(WRONG_PIECE, k as u64),
            Ok(judging::Judged::WrongByte(i)) => with_verdict(WRONG_BYTE, i as u64),
            Err(r) => Judged {
                refusal: r.number() as u64,
                place: r.place() as u64,
                index: r.index(),
                verdict: 0,
                at: 0,
            },
        }
    }
}

// judging::judge.
#[unsafe(no_mangle)]
pub extern "C" fn ezk_judge_plan(
    lists: &[u8],
    lengths: &[u64],
    first_index: u64,
    file_len: u64,
    block_size: u64,
    start: u64,
    count: u64,
    plan: &[u8],
) -> Judged
    ensures { result ≡ judged_plan (judge_outcome lists.now lengths.now first_index file_len block_size start count plan.now) }
{
    Judged::from(judging::judge(
        lists,
        lengths,
        first_index,
        file_len,
        block_size,
        start,
        count,
        plan,
    ))
}
