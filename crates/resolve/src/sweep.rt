// The sweep over the positions of a chunk, from the front, with the set of the records that have begun and may go on.
ghost use Rattle.std.specs.Prelude.{◌≡◌, ℕ, ◌+◌, ◌^◌, ◌≤◌, ◌<◌, length, get_or};
ghost use Rattle.slices.specs.Limits.{chunk};
ghost use Rattle.resolve.specs.Sorted.{Sorted};
ghost use Rattle.resolve.specs.Set.{most, has, Summed, High};
ghost use Rattle.resolve.specs.Sweep.{Begun, Next, Settled, Cleared, Topped, Extended, Lesser, Swept};

use crate::{set, tops};
use slices::CHUNK;

// The set's word of sums, how many records have begun, and where the next begins.
#[derive(Clone, Copy)]
struct Started {
    sum: u64,
    begun: usize,
    next: u32,
}

// The set's word of sums, the record on top, counted from 1, and where it ends.
#[derive(Clone, Copy)]
struct Highest {
    sum: u64,
    top: usize,
    end: u32,
}

fn narrow(x: u64) -> u32
    requires { x < 2 ^ 32 }
    ensures { result ≡ x }
{
    x as u32
}

// Puts the records that begin at q into the set.
fn begin(
    pos: &[u64],
    order: &[u16],
    n: usize,
    q: u32,
    from: usize,
    sum0: u64,
    words: &mut [u64],
) -> Started
    requires n_in_bounds { (n ≤ length pos.now) × (n ≤ length order.now) × (n ≤ most) × (from ≤ n) × (q < chunk) × ((i : ℕ) → i < n → get_or pos.now i 0 ≤ chunk) }
    requires by_index { (k : ℕ) → k < n → get_or order.now k 0 < n }
    requires summed { Summed words.old sum0 }
    ensures summed_2 { Summed words.new result.sum }
    ensures begun { Begun pos.now order.now n q words.old words.new from result.begun }
    ensures next { Next pos.now order.now n q result.begun result.next }
{
    let mut sum = sum0;
    for k in from..n {
        let v = tops::wide(order[k]);
        let at = pos[v];
        if (q as u64) < at {
            return Started {
                sum,
                begun: k,
                next: narrow(at),
            };
        }
        sum = set::put(words, sum, v);
    }
    Started {
        sum,
        begun: n,
        next: CHUNK,
    }
}

// What is left of a word of the set, the greatest number in it, and where that record ends.
#[derive(Clone, Copy)]
struct Left {
    rest: u64,
    last: usize,
    end: u32,
}

// Takes the records that end at q or before from the top of word a, the highest of the set that is not 0.
fn clear(words: &[u64], ends: &[u32], q: u32, sum: u64, a: usize) -> Left
    requires summed { Summed words.now sum }
    requires high { High sum a }
    requires by_index { (v : ℕ) → has words.now v ≡ 1 → v < length ends.now }
    ensures { Cleared ends.now q words.now sum a result.rest result.last result.end }
{
    let mut rest = words[a];
    while 0 < rest {
        let b = set::high(rest);
        let last = a * 64 + b;
        let end = ends[last];
        if q < end {
            return Left { rest, last, end };
        }
        rest -= set::unit(b);
    }
    Left {
        rest: 0,
        last: 0,
        end: 0,
    }
}

// Takes the records that end at q or before from the top of the set.
fn settle(ends: &[u32], q: u32, sum0: u64, words: &mut [u64]) -> Highest
    requires q_lt_chunk { q < chunk }
    requires summed { Summed words.old sum0 }
    requires by_index { (v : ℕ) → has words.old v ≡ 1 → v < length ends.now }
    ensures summed_2 { Summed words.new result.sum }
    ensures settled { Settled ends.now q words.old words.new }
    ensures topped { Topped ends.now q words.new result.top result.end }
{
    let mut sum = sum0;
    while 0 < sum {
        let a = set::high(sum);
        let left = clear(words, ends, q, sum, a);
        words[a] = left.rest;
        if 0 < left.rest {
            return Highest {
                sum,
                top: left.last + 1,
                end: left.end,
            };
        }
        sum -= set::unit(a);
    }
    Highest {
        sum,
        top: 0,
        end: CHUNK,
    }
}

pub(crate) fn lesser(a: u32, b: u32) -> u32
    ensures { Lesser a b result }
{
    if a < b { a } else { b }
}

// Puts a segment up to e behind the m segments, or prolongs the last of them; how many there are then.
fn extend(marks: &mut [u32], tops: &mut [u16], m: usize, top: u16, e: u32) -> usize
    requires { (m + 1 < length marks.old) × (m < length tops.old) }
    ensures { Extended marks.old tops.old m top e marks.new tops.new result }
{
    if 0 < m {
        if tops[m - 1] == top {
            marks[m] = e;
            return m;
        }
    }
    tops[m] = top;
    marks[m + 1] = e;
    m + 1
}

// The segments of n records, by their first and end positions and the order of their first ones; how many segments.
pub(crate) fn sweep(
    pos: &[u64],
    ends: &[u32],
    order: &[u16],
    n: usize,
    marks: &mut [u32],
    tops: &mut [u16],
) -> usize
    requires n_in_bounds { (n ≤ length pos.now) × (n ≤ length ends.now) × (n ≤ length order.now) × (n ≤ most) × ((i : ℕ) → i < n → get_or pos.now i 0 ≤ chunk) }
    requires n_in_bounds_2 { (n + n + 1 < length marks.old) × (n + n < length tops.old) }
    requires by_index { (i : ℕ) → i < n → get_or ends.now i 0 ≤ chunk }
    requires sorted { Sorted pos.now order.now n }
    ensures swept { Swept pos.now ends.now n marks.new tops.new result chunk }
    ensures upper_bound { result ≤ n + n + 1 }
{
    let mut words = [0u64; 32];
    let mut sum = 0;
    let mut k = 0;
    let mut q = 0;
    let mut m = 0;
    marks[0] = 0;
    while q < CHUNK {
        let started = begin(pos, order, n, q, k, sum, &mut words);
        k = started.begun;
        let highest = settle(ends, q, started.sum, &mut words);
        sum = highest.sum;
        q = lesser(started.next, highest.end);
        m = extend(marks, tops, m, highest.top as u16, q);
    }
    m
}
