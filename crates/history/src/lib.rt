// What is new since last time: of an older and a newer list, what was added, and whether the list was rewritten.
#![tactic(auto)]

mod beginning;

ghost use Rattle.std.specs.Prelude.{◌≡◌};
ghost use Rattle.history.specs.History.{history_outcome, told, added_part};

use outcomes::Refusal;
use slices::check;

// Whether the older list is no beginning of the newer one. The older list is checked first.
pub fn rewritten(older: &[u8], newer: &[u8]) -> Result<bool, Refusal>
    ensures { result ≡ told (history_outcome older.now newer.now) }
{
    check::check_list(older)?;
    check::check_list(newer)?;
    Ok(!beginning::begins(older, newer))
}

// The part of the newer list that is new, where `answer` is what `rewritten` says of the two.
pub fn part<'a>(older: &[u8], newer: &'a [u8], answer: &Result<bool, Refusal>) -> &'a [u8]
    requires { answer.now ≡ told (history_outcome older.now newer.now) }
    ensures { result.now ≡ added_part older.now newer.now }
{
    match *answer {
        Ok(false) => &newer[older.len()..],
        Ok(true) => newer,
        Err(_) => &newer[..0],
    }
}

// The records that the newer list has behind the older one; all of it where the list was rewritten, none where a list is refused.
pub fn added<'a>(older: &[u8], newer: &'a [u8]) -> &'a [u8]
    ensures { result.now ≡ added_part older.now newer.now }
{
    let answer = rewritten(older, newer);
    part(older, newer, &answer)
}
