// A slice list resolved once into segments, each with the record that lies on top of it.
#![tactic(auto)]

mod order;
pub mod room;
pub mod segments;
mod set;
mod sweep;
pub mod tops;

ghost use Rattle.std.specs.Prelude.{◌+◌, ◌≤◌, ◌<◌, length};
ghost use Rattle.codec.specs.All.{All};
ghost use Rattle.slices.specs.Passes.{Passes};
ghost use Rattle.slices.specs.Record.{records, count};
ghost use Rattle.resolve.specs.Resolved.{Ready};
ghost use Rattle.resolve.specs.Set.{most};
ghost use Rattle.resolve.specs.Sweep.{Bounds};

use slices::{RECORD, records};

// Where a run ends, and the segment that holds that position.
#[derive(Clone, Copy)]
pub struct Reached {
    pub end: u32,
    pub segment: usize,
}

// The first and the end position of each of the n records of a list.
fn bounds(list: &[u8], n: usize, pos: &mut [u64], ends: &mut [u32])
    requires all { All Passes (records list.now) }
    requires n_bound { (n ≤ count list.now) × (n ≤ length pos.old) × (n ≤ length ends.old) }
    ensures { Bounds list.now pos.new ends.new n }
{
    for i in 0..n {
        let first = records::read_pos(list, i);
        pos[i] = u64::from(first);
        ends[i] = first + records::read_len(list, i);
    }
}

// Resolves a list into segments: how many they are. Segment k has the positions from marks[k] up to marks[k + 1], and on top of it lies
// the record tops[k], counted from 1, or none where that is 0. The other slices are room to work in.
pub fn resolve(
    list: &[u8],
    marks: &mut [u32],
    tops: &mut [u16],
    pos: &mut [u64],
    ends: &mut [u32],
    order: &mut [u16],
    spare: &mut [u16],
) -> usize
    requires all { All Passes (records list.now) }
    requires list_bound { count list.now ≤ most }
    requires list_in_bounds { (count list.now + count list.now + 1 < length marks.old) × (count list.now + count list.now < length tops.old) }
    requires list_in_bounds_2 { (count list.now ≤ length pos.old) × (count list.now ≤ length ends.old) × (count list.now ≤ length order.old) × (count list.now ≤ length spare.old) }
    ensures { Ready list.now marks.new tops.new result }
{
    let n = list.len() / RECORD;
    bounds(list, n, pos, ends);
    order::sort(pos, n, order, spare);
    sweep::sweep(pos, ends, order, n, marks, tops)
}
