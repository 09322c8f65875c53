// The runs of a list's cover, from the first on: counted, and written as records.
ghost use Rattle.std.specs.Prelude.{◌≡◌, true, cond, ◌≤◌, length};
ghost use Rattle.codec.specs.Splice.{splice};
ghost use Rattle.outcomes.specs.Answers.{Answers};
ghost use Rattle.slices.specs.Limits.{chunk};
ghost use Rattle.slices.specs.Record.{records, encode_all};
ghost use Rattle.views.specs.Inner.{shown, view_from, too_long, Roomy, runs_outcome};

use crate::{TIDIED, bytes, maximal};
use outcomes::{Kind, Refusal};
use resolve::segments::Resolved;
use slices::RECORD;

// Whether a call refuses so many records: only a tidied list has a limit.
fn too_long(all: bool, count: usize) -> bool
    ensures { result ≡ too_long all count }
{
    if all {
        return false;
    }
    TIDIED < count
}

// Whether m records are not too many, and have room in a buffer of so many bytes. So the runs, which are no more than the segments,
// need not be counted.
fn roomy(all: bool, m: usize, room: usize) -> bool
    ensures { result ≡ true → Roomy all m room }
{
    if too_long(all, m) {
        return false;
    }
    m <= room / RECORD
}

// Whether a run with the record `top` on top of its first position is written.
fn shown(all: bool, top: u16) -> bool
    ensures { result ≡ shown all top }
{
    if all {
        return true;
    }
    top != 0
}

// Writes the runs' records to the front of a buffer that has room for them, or only counts their bytes; how many bytes they have.
fn walk_runs(r: &Resolved, end: u32, all: bool, write: bool, out: &mut [u8]) -> usize
    requires end_le_chunk { end ≤ chunk }
    requires end_in_bounds { write ≡ true → length (encode_all (view_from all (records r.now.list.now) 0 end)) ≤ length out.old }
    ensures value { result ≡ length (encode_all (view_from all (records r.now.list.now) 0 end)) }
    ensures out_after { out.new ≡ cond write (splice out.old 0 (encode_all (view_from all (records r.now.list.now) 0 end))) out.old }
{
    let mut p = 0;
    let mut k = 0;
    let mut at = 0;
    while p < end {
        let top = r.tops[k];
        let run = maximal::reach(r, k, p, end);
        let from = p;
        p = run.end;
        k = run.segment;
        if shown(all, top) {
            bytes::put_if(write, r.list, top, from, p - from, out, at);
            at += RECORD;
        }
    }
    at
}

// Answers with the records of a resolved list's runs up to `end`: all of them, or those that are covered. They are counted first only
// where they may be too many, or have no room.
pub(crate) fn answer(r: &Resolved, end: u32, all: bool, out: &mut [u8]) -> Result<usize, Refusal>
    requires { end ≤ chunk }
    ensures { Answers (runs_outcome all r.now.list.now end (length out.old)) out.old result out.new }
{
    if roomy(all, r.segments, out.len()) {
        return Ok(walk_runs(r, end, all, true, out));
    }
    let need = walk_runs(r, end, all, false, out);
    if too_long(all, need / RECORD) {
        return Err(Refusal::from(Kind::TidiedTooLong));
    }
    if out.len() < need {
        return Err(Refusal::from(Kind::ShortBuffer));
    }
    Ok(walk_runs(r, end, all, true, out))
}
