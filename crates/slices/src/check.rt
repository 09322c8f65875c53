// Which lists are refused.
ghost use Rattle.std.specs.Prelude.{◌≡◌, ◌<◌, ◌≤◌};
ghost use Rattle.outcomes.specs.Kinds.{number_of, number_or_0};
ghost use Rattle.slices.specs.Limits.{max_records};
ghost use Rattle.slices.specs.Record.{count};
ghost use Rattle.slices.specs.Refusals.{check_outcome, checked};
ghost use Rattle.slices.specs.Inner.{fault, number_at, few, fell, Risen, Passed, Sound, FirstRefused};

use crate::{CHUNK, RECORD, RECORDS, Record, records, sizes, tree};
use outcomes::{Kind, Refusal};

// In a list of up to so many records, each is compared with all before it.
const FEW: usize = 16;

// Why a record by itself is refused, if it is.
fn check_record(r: Record) -> Option<Kind>
    ensures { number_or_0 result ≡ fault r }
{
    if (CHUNK as u64) < r.pos as u64 + r.len as u64 {
        return Some(Kind::PastChunk);
    }
    if CHUNK < r.size {
        return Some(Kind::TooLarge);
    }
    if r.id == 0 {
        if r.off != 0 {
            return Some(Kind::ZerosWithSlice);
        }
        if r.size == 0 {
            return None;
        }
        if r.size != r.len {
            return Some(Kind::ZerosWithSlice);
        }
        return None;
    }
    if (r.size as u64) < r.off as u64 + r.len as u64 {
        return Some(Kind::PastSlice);
    }
    None
}

// Why the record at a place is refused: by itself, or else as one of two sizes.
fn kind_at(list: &[u8], place: usize) -> Kind
    requires { place < count list.now }
    ensures { number_of result ≡ number_at list.now place }
{
    check_record(records::read_record(list, place)).unwrap_or(Kind::TwoSizes)
}

// A number of first records that are sound: each passes, and agrees with all before it. It goes over all pairs, so only few records are allowed.
fn sound(list: &[u8]) -> usize
    requires { count list.now ≤ few }
    ensures { Sound list.now result }
{
    let n = list.len() / RECORD;
    for i in 0..n {
        if check_record(records::read_record(list, i)).is_some() || !sizes::agrees(list, i) {
            return i;
        }
    }
    n
}

// The place of the first refused record, or the number of records, where those before `from` pass. Ids that rise from record to record need no search.
fn first_refused(list: &[u8], from: usize, highest: u64) -> usize
    requires list_bound { count list.now ≤ max_records }
    requires from_bound { from ≤ count list.now }
    requires passed { Passed list.now from }
    requires risen { highest < fell → Risen list.now from highest }
    ensures { FirstRefused list.now result }
{
    let n = list.len() / RECORD;
    let mut last = highest;
    for i in from..n {
        let r = records::read_record(list, i);
        if check_record(r).is_some() {
            return i;
        }
        last = sizes::risen(last, r.id);
    }
    if last < sizes::FELL {
        return n;
    }
    tree::two_sizes_at(list)
}

// The same of a whole list. `first_refused` is called from two places, so that it keeps a frame of its own: its tables would cost every short list some time.
fn refused_at(list: &[u8]) -> usize
    requires { count list.now ≤ max_records }
    ensures { FirstRefused list.now result }
{
    let n = list.len() / RECORD;
    if n <= FEW {
        let i = sound(list);
        if i == n {
            return n;
        }
        return first_refused(&list[..], i, sizes::FELL);
    }
    first_refused(&list[..], 0, 0)
}

// The number of records of a list, or its refusal.
pub fn check_list(list: &[u8]) -> Result<usize, Refusal>
    ensures { result ≡ checked (check_outcome list.now) }
{
    if list.len() % RECORD != 0 {
        return Err(Refusal::from(Kind::NotWhole));
    }
    let n = list.len() / RECORD;
    if RECORDS < n {
        return Err(Refusal::from(Kind::TooMany));
    }
    let place = refused_at(list);
    if place == n {
        return Ok(n);
    }
    Err(Refusal::at(kind_at(list, place), place))
}
