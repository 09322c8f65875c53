// The pieces that begin in a window of places, as keys.
ghost use Rattle.std.specs.Prelude.{◌+◌, ◌≤◌, ◌<◌, ◌^◌, length};
ghost use Rattle.coverage.specs.Inner.{whole, Collected, Windowed};

use crate::windows;
use crate::windows::Window;
use codec::fixed::read_be32;
use plans::PIECE;

// A key has the place of a piece above its length, so that keys in order are pieces in order.
pub(crate) const ABOVE: u64 = 4294967296;

// Piece i is added to the keys of those before it where it begins in the window, which is narrowed where there is no room; it becomes empty where others begin
// at `low` too and fill the room.
fn put(plan: &[u8], i: usize, low: u32, high: u32, keys: &mut [u64], count: usize) -> Window
    requires i_bound { (i < whole plan.now) × (low < high) × (count ≤ length keys.old) }
    requires keys_nonzero { (0 < length keys.old) × (length keys.old < 2 ^ 16) }
    requires collected { Collected plan.now low high i keys.old count }
    ensures { Windowed plan.now low high (i + 1) keys.new result.high result.count }
{
    let at = i * PIECE;
    let start = read_be32(plan, at + 6);
    if start < low {
        return Window { high, count };
    }
    if high <= start {
        return Window { high, count };
    }
    let key = start as u64 * ABOVE + read_be32(plan, at + 30) as u64;
    if count < keys.len() {
        keys[count] = key;
        return Window {
            high,
            count: count + 1,
        };
    }
    let window = windows::narrow(keys, low, high);
    let edge = window.high;
    let kept = window.count;
    if edge <= start {
        return window;
    }
    if kept < keys.len() {
        keys[kept] = key;
        return Window {
            high: edge,
            count: kept + 1,
        };
    }
    Window {
        high: low,
        count: 0,
    }
}

// The window from `low` on, as wide as its pieces have room, and their keys; an empty one where more than one piece begins at `low`.
pub(crate) fn collect(plan: &[u8], low: u32, n: u32, keys: &mut [u64]) -> Window
    requires { (low < n) × (0 < length keys.old) × (length keys.old < 2 ^ 16) }
    ensures { Windowed plan.now low n (whole plan.now) keys.new result.high result.count }
{
    let mut high = n;
    let mut count = 0;
    for i in 0..plan.len() / PIECE {
        let window = put(plan, i, low, high, keys, count);
        high = window.high;
        count = window.count;
        if high <= low {
            return Window {
                high: low,
                count: 0,
            };
        }
    }
    Window { high, count }
}
