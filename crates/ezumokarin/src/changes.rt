// What is new in a list.
ghost use Rattle.std.specs.Prelude.{◌≡◌, length};
ghost use Rattle.history.specs.History.{history_outcome};
ghost use Rattle.ezumokarin.specs.Changes.{part_in};

use crate::{Part, answers};

// history::rewritten, with the place of the part that history::added hands back: the lists are checked and compared once.
#[unsafe(no_mangle)]
pub extern "C" fn ezk_added(older: &[u8], newer: &[u8]) -> Part
    ensures { result ≡ part_in (history_outcome older.now newer.now) (length older.now) (length newer.now) }
{
    let answer = history::rewritten(older, newer);
    let part = history::part(older, newer, &answer);
    let n = part.len();
    let offset = newer.len() - n;
    answers::of_rewritten(answer, offset as u64, n as u64)
}
