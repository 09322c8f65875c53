// How often pieces in any order hold each place of a read.
#![tactic(auto)]

mod chain;
mod keys;
mod windows;

ghost use Rattle.std.specs.Prelude.{◌≡◌, ◌≤◌, ◌<◌, ◌^◌, length};
ghost use Rattle.codec.specs.All.{All};
ghost use Rattle.plans.specs.Piece.{pieces_in};
ghost use Rattle.coverage.specs.Held.{first_not_once};
ghost use Rattle.coverage.specs.Inner.{Inside};

use sorting::sort_whole;

// The first place of a read of n bytes that is not in exactly one whole piece of a plan, in whatever order they stand; n where there is none. The read is
// gone over window by window, in room for some keys and for their order.
pub fn first_not_once(
    plan: &[u8],
    n: u32,
    keys: &mut [u64],
    order: &mut [u16],
    spare: &mut [u16],
) -> u32
    requires all { All (Inside n) (pieces_in plan.now) }
    requires n_bound { n ≤ 2 ^ 30 }
    requires keys_nonzero { (0 < length keys.old) × (length keys.old < 2 ^ 16) × (length keys.old ≤ length order.old) × (length keys.old ≤ length spare.old) }
    ensures { result ≡ first_not_once (pieces_in plan.now) n }
{
    let mut low = 0;
    let mut cur = 0;
    while low < n {
        let window = keys::collect(plan, low, n, keys);
        let high = window.high;
        if high <= low {
            return low;
        }
        sort_whole(keys, window.count, order, spare);
        cur = chain::chain(keys, order, window.count, cur);
        if cur < high {
            return cur;
        }
        low = high;
    }
    n
}
