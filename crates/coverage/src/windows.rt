// The window of a read whose pieces have room, and how it is narrowed where they have none.
ghost use Rattle.std.specs.Prelude.{◌≡◌, ◌+◌, ◌/◌, ◌^◌, ◌≤◌, ◌<◌, ltb, length};
ghost use Rattle.coverage.specs.Inner.{above, one_if, Kept, Narrowed};

use crate::keys::ABOVE;

// A window goes up to `high`, and `count` pieces begin in it.
#[derive(Clone, Copy)]
pub(crate) struct Window {
    pub(crate) high: u32,
    pub(crate) count: usize,
}

// 1 where a key begins before `high`.
fn begins(key: u64, high: u32) -> usize
    ensures { (result ≡ one_if (ltb (key / above) high)) × (result ≤ 1) }
{
    (key / ABOVE < high as u64) as usize
}

// Moves the keys that begin before `high` to the front: how many they are.
fn keep(keys: &mut [u64], high: u32) -> usize
    ensures { Kept keys.old (length keys.old) high keys.new result }
{
    let mut kept = 0;
    for i in 0..keys.len() {
        let key = keys[i];
        keys[kept] = key;
        kept += begins(key, high);
    }
    kept
}

// The mean of the places at which keys begin. It bears on the time alone, so nothing is promised of it.
fn mean(keys: &[u64]) -> u64
    requires { (0 < length keys.now) × (length keys.now < 2 ^ 16) }
{
    let sum: u64 = keys.iter().map(|key| key / ABOVE).sum();
    sum / keys.len() as u64
}

// Where a window that goes up to `high` is cut: at the mean, which lies where the pieces crowd. Wherever it is cut, the answer is the same.
fn cut(keys: &[u64], low: u32, high: u32) -> u32
    requires { (low < high) × (0 < length keys.now) × (length keys.now < 2 ^ 16) }
    ensures { (low < result) × (result ≤ high) }
{
    let middle = mean(keys);
    if middle <= low as u64 {
        return low + 1;
    }
    if middle < high as u64 {
        return middle as u32;
    }
    high
}

// Narrows a window whose keys take all the room. Where the first cut leaves all of them, as it may where pieces begin at one place, its first place is left.
pub(crate) fn narrow(keys: &mut [u64], low: u32, high: u32) -> Window
    requires { (low < high) × (0 < length keys.old) × (length keys.old < 2 ^ 16) }
    ensures { Narrowed keys.old low high keys.new result.high result.count }
{
    let edge = cut(keys, low, high);
    let count = keep(keys, edge);
    if count < keys.len() {
        return Window { high: edge, count };
    }
    let least = low + 1;
    let left = keep(keys, least);
    Window {
        high: least,
        count: left,
    }
}
