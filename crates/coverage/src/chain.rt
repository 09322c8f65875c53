// Pieces that stand one behind the other.
ghost use Rattle.std.specs.Prelude.{◌≤◌, length};
ghost use Rattle.sorting.specs.Sorted.{Sorted};
ghost use Rattle.coverage.specs.Inner.{Lying, Chained};

use crate::keys::ABOVE;

// How far the first c keys, in order, go on from `cur` with neither a gap nor a place twice.
pub(crate) fn chain(keys: &[u64], order: &[u16], c: usize, cur: u32) -> u32
    requires { (c ≤ length keys.now) × (c ≤ length order.now) × Sorted keys.now c order.now × Lying keys.now c }
    ensures { Chained keys.now c cur result }
{
    let mut q = cur;
    for number in &order[..c] {
        let key = keys[*number as usize];
        let start = (key / ABOVE) as u32;
        if start < q {
            return start;
        }
        if q < start {
            return q;
        }
        q = start + (key % ABOVE) as u32;
    }
    q
}
