// Whether the bytes of a piece lie where it says, in a resolved list.
ghost use Rattle.std.specs.Prelude.{◌≡◌, ◌+◌, ◌-◌, ◌<◌, ◌≤◌, length, get_or, MatchOption};
ghost use Rattle.codec.specs.All.{All};
ghost use Rattle.slices.specs.Limits.{chunk};
ghost use Rattle.slices.specs.Passes.{Passes};
ghost use Rattle.slices.specs.Record.{records};
ghost use Rattle.resolve.specs.Resolved.{OnTop, Holds};
ghost use Rattle.plans.specs.Location.{location_at, onward};
ghost use Rattle.plans.specs.Piece.{location_of};
ghost use Rattle.plans.specs.declared.Location.TheVariants as locations;
ghost use Rattle.judging.specs.Judge.{same_location};
ghost use Rattle.judging.specs.Inner.{LiesAt, StraysAt};

use plans::shifts::BlockSize;
use plans::{Location, Piece, ZEROS, locations, reach};
use resolve::segments::Resolved;
use resolve::tops;

// Whether byte d of a piece lies in this object, at t.
fn in_object(p: Piece, d: u32, i: u64, b: u32, l: u32, t: u32) -> bool
    ensures { result ≡ same_location (onward (location_of p) d) (locations.In i b l t) }
{
    p.mark != ZEROS
        && p.id == i
        && p.block == b
        && p.length == l
        && p.at as u64 + d as u64 == t as u64
}

// Whether byte d of a piece lies where position q does, on top of which lies the record `top`, counted from 1.
fn same_at(list: &[u8], top: u16, q: u32, block: u32, p: Piece, d: u32) -> bool
    requires all { All Passes (records list.now) }
    requires block_nonzero { 0 < block }
    requires on_top { OnTop list.now top q (q + 1) }
    ensures { result ≡ same_location (onward (location_of p) d) (location_at block (records list.now) q) }
{
    match locations::location_of(tops::source_of(list, top, q), block) {
        Location::Hole => p.mark == ZEROS,
        Location::In {
            id,
            block,
            length,
            at,
        } => in_object(p, d, id, block, length, at),
    }
}

// The segment that holds q. The pieces of most plans follow each other, so that it is often `near` or the one behind it.
fn seek(r: &Resolved, near: usize, q: u32) -> usize
    requires { (near < r.now.segments) × (q < chunk) }
    ensures { Holds r.now.marks.now r.now.segments result q }
{
    if q < r.marks[near] {
        return r.find(q);
    }
    if q < r.marks[near + 1] {
        return near;
    }
    if near + 2 <= r.segments && q < r.marks[near + 2] {
        return near + 1;
    }
    r.find(q)
}

// The segment that holds e, where segment k ends at e or holds it.
fn following(marks: &[u32], k: usize, e: u32) -> usize
    requires { k + 1 < length marks.now }
    ensures { (e < get_or marks.now (k + 1) 0 → result ≡ k) × (get_or marks.now (k + 1) 0 ≤ e → result ≡ k + 1) }
{
    if e < marks[k + 1] {
        return k;
    }
    k + 1
}

// The segment from which to look for the next piece, if the positions from q up to `end` lie where a piece says, from its first byte on.
pub(crate) fn meet(
    r: &Resolved,
    near: usize,
    q: u32,
    end: u32,
    block: BlockSize,
    p: Piece,
) -> Option<usize>
    requires q_lt_end { (q < end) × (end ≤ chunk) × (near < r.now.segments) }
    ensures { MatchOption result (StraysAt block.bytes (records r.now.list.now) q (end - q) (location_of p)) (λ segment. LiesAt block.bytes (records r.now.list.now) q (end - q) (location_of p) × (segment < r.now.segments)) }
{
    let mut segment = seek(r, near, q);
    let mut at = q;
    loop {
        if same_at(r.list, r.tops[segment], at, block.bytes, p, at - q) {
            at = reach::same_block_to(r, segment, at, end, block);
            if end <= at {
                return Some(segment);
            }
            segment = following(r.marks, segment, at);
        } else {
            return None;
        }
    }
}
