// Joined lists: several lists, one after the other, and their lengths.
#![tactic(auto)]

mod refusal;

ghost use Rattle.std.specs.Prelude.{◌≡◌, ◌+◌, ◌^◌, ◌<◌, eqb, length};
ghost use Rattle.joined.specs.Lists.{total, parts};
ghost use Rattle.joined.specs.Refusals.{lists_outcome, checked_lists};

pub use refusal::ListRefusal;
use slices::check;

// Whether the lengths add up to so many bytes. Each is taken from what is left, so that no sum wraps.
pub fn adds_up(lengths: &[u64], bytes: usize) -> bool
    ensures { result ≡ eqb (total lengths.now) bytes }
{
    let mut left = bytes as u64;
    for &n in lengths {
        if left < n {
            return false;
        }
        left -= n;
    }
    left == 0
}

// Checks each list in turn: how many lists there are, or the first refusal. The first list has the index `first`.
pub fn check_lists(lists: &[u8], lengths: &[u64], first: u64) -> Result<usize, ListRefusal>
    requires lengths_value { total lengths.now ≡ length lists.now }
    requires lengths_bound { first + length lengths.now < 2 ^ 64 }
    ensures { result ≡ checked_lists (lists_outcome first (parts lengths.now lists.now)) }
{
    let mut at = 0;
    for (k, n) in lengths.iter().enumerate() {
        let end = at + *n as usize;
        if let Err(refusal) = check::check_list(&lists[at..end]) {
            return Err(ListRefusal::of(first + k as u64, refusal));
        }
        at = end;
    }
    Ok(lengths.len())
}
