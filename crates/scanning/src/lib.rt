// What lies on top of one position, and how far, found by one scan from the last record down; what lies there, by a second one where it is asked for.
#![tactic(auto)]

ghost use Rattle.std.specs.Prelude.{◌≡◌, ◌+◌, ◌<◌, ◌≤◌, true, false, ◌==◌};
ghost use Rattle.codec.specs.All.{All};
ghost use Rattle.slices.specs.Cover.{covers};
ghost use Rattle.slices.specs.Limits.{chunk, max_records};
ghost use Rattle.slices.specs.Passes.{Passes};
ghost use Rattle.slices.specs.Record.{record_at, records, count};
ghost use Rattle.resolve.specs.Resolved.{OnTop};
ghost use Rattle.scanning.specs.Scan.{Scans, Clear, LastBefore, Nearest};

use slices::{RECORD, records};

// Half of the numbers of 32 bits.
const HALF: u32 = 0x80000000;

// The record `top`, counted from 1, lies on top of a position, and of those behind it up to `end`; 0 says that there is none. On top of position
// `end` lies one of the first `before` records, or none.
#[derive(Clone, Copy)]
pub struct Scanned {
    pub top: u16,
    pub end: u32,
    pub before: u16,
}

// The nearest position behind another that a record covers, and the record, counted from 1.
#[derive(Clone, Copy)]
pub struct Near {
    pub at: u32,
    pub top: u16,
}

// Whether record i covers p.
fn covers(list: &[u8], i: usize, p: u32) -> bool
    requires all { All Passes (records list.now) }
    requires i_bound { i < count list.now }
    ensures { result ≡ covers (record_at list.now i) p }
{
    // One comparison: a position in front of the record wraps to a distance past its end.
    let d = std::num::wrapping_sub_u32(p, records::read_pos(list, i));
    d < records::read_len(list, i)
}

// Of the records before i, the last that covers p, counted from 1; 0 where none does.
fn last_before(list: &[u8], i: usize, p: u32) -> u16
    requires all { All Passes (records list.now) }
    requires i_bound { (i ≤ count list.now) × (count list.now ≤ max_records) }
    ensures { LastBefore list.now i p result }
{
    for k in (0..i).rev() {
        if covers(list, k, p) {
            return (k + 1) as u16;
        }
    }
    0
}

// Whether a record of so many positions has none: one less wraps to more than any record has. For a test against 0 the compiler would read the number
// byte by byte.
fn is_empty(len: u32) -> bool
    requires { len ≤ chunk }
    ensures { result ≡ (len == 0) }
{
    HALF <= std::num::wrapping_sub_u32(len, 1)
}

// The nearest that the records from i on cover, by that of the records behind i. Record i does not cover p.
fn nearer(list: &[u8], i: usize, p: u32, end: u32, near: Near) -> Near
    requires all { All Passes (records list.now) }
    requires i_bound { (i < count list.now) × (count list.now ≤ max_records) }
    requires p_value { covers (record_at list.now i) p ≡ false }
    requires nearest { Nearest list.now (i + 1) p end near.at near.top }
    ensures { Nearest list.now i p end result.at result.top }
{
    let pos = records::read_pos(list, i);
    if pos <= p {
        return near;
    }
    if near.at <= pos {
        return near;
    }
    if is_empty(records::read_len(list, i)) {
        return near;
    }
    Near {
        at: pos,
        top: (i + 1) as u16,
    }
}

// Record i is the last that covers p.
fn found(list: &[u8], i: usize, p: u32, end: u32, near: Near) -> Scanned
    requires all { All Passes (records list.now) }
    requires i_bound { (i < count list.now) × (count list.now ≤ max_records) }
    requires p_value { covers (record_at list.now i) p ≡ true }
    requires nearest { Nearest list.now (i + 1) p end near.at near.top }
    ensures { Scans list.now p end result }
{
    let stop = records::read_pos(list, i) + records::read_len(list, i);
    let top = (i + 1) as u16;
    if stop < near.at {
        let before = i as u16;
        return Scanned {
            top,
            end: stop,
            before,
        };
    }
    Scanned {
        top,
        end: near.at,
        before: near.top,
    }
}

// Scans the list once for position p, and up to `end` for what lies behind it.
pub fn scan(list: &[u8], p: u32, end: u32) -> Scanned
    requires all { All Passes (records list.now) }
    requires list_bound { (count list.now ≤ max_records) × (p < end) }
    ensures { Scans list.now p end result }
{
    let mut near = Near { at: end, top: 0 };
    for i in (0..list.len() / RECORD).rev() {
        if covers(list, i, p) {
            return found(list, i, p, end, near);
        }
        near = nearer(list, i, p, end, near);
    }
    Scanned {
        top: 0,
        end: near.at,
        before: near.top,
    }
}

// The record on top of position e, counted from 1, by those before `before`: the others don't cover it. 0 says that there is none.
pub fn top_below(list: &[u8], before: u16, e: u32) -> u16
    requires all { All Passes (records list.now) }
    requires before_bound { (before ≤ count list.now) × (count list.now ≤ max_records) }
    requires clear { Clear list.now before (count list.now) e }
    ensures { OnTop list.now result e (e + 1) }
{
    last_before(list, before as usize, e)
}
