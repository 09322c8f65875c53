// The maximal run of the cover from a position.
ghost use Rattle.std.specs.Prelude.{◌≡◌, ◌+◌, ◌-◌, ◌<◌, ◌≤◌};
ghost use Rattle.codec.specs.All.{All};
ghost use Rattle.slices.specs.Passes.{Passes};
ghost use Rattle.slices.specs.Cover.{cover, is_nothing};
ghost use Rattle.slices.specs.Limits.{chunk};
ghost use Rattle.resolve.specs.Resolved.{OnTop, Holds};
ghost use Rattle.slices.specs.Record.{records};
ghost use Rattle.slices.specs.declared.Source.TheVariants as source;
ghost use Rattle.views.specs.View.{next};
ghost use Rattle.resolve.specs.Tops.{id_on};
ghost use Rattle.runs.specs.Inner.{Leads};
ghost use Rattle.views.specs.Inner.{shift};

use resolve::segments::Resolved;
use resolve::{Reached, tops};
use slices::Source;

fn is_nothing(a: Source) -> bool
    ensures { result ≡ is_nothing a }
{
    matches!(a, Source::Nothing)
}

fn is_zero(a: Source) -> bool
    ensures { result ≡ next a source.Zero }
{
    matches!(a, Source::Zero)
}

// Whether a byte of a slice goes on with a run whose first source, d positions before, is a.
fn follows(a: Source, d: u32, i: u64, s: u32, o: u32) -> bool
    requires { 0 < d }
    ensures { result ≡ next (shift a (d - 1)) (source.Byte i s o) }
{
    let Source::Byte { id, size, off } = a else {
        return false;
    };
    if id != i {
        return false;
    }
    if size != s {
        return false;
    }
    o as u64 == off as u64 + d as u64
}

// Whether b goes on with a run whose first source, d positions before, is a.
fn goes_on(a: Source, d: u32, b: Source) -> bool
    requires { 0 < d }
    ensures { result ≡ next (shift a (d - 1)) b }
{
    match b {
        Source::Nothing => is_nothing(a),
        Source::Zero => is_zero(a),
        Source::Byte { id, size, off } => follows(a, d, id, size, off),
    }
}

// Whether the run from p on, with the record a on top of p, goes on at e, with b on top of it; id is a's. Most often the ids tell.
fn joins(list: &[u8], id: u64, a: u16, p: u32, b: u16, e: u32) -> bool
    requires all { All Passes (records list.now) }
    requires p_lt_e { (p < e) × (id ≡ id_on list.now a) }
    requires on_top { OnTop list.now a p (p + 1) }
    requires on_top_2 { OnTop list.now b e (e + 1) }
    ensures { result ≡ next (shift (cover (records list.now) p) (e - p - 1)) (cover (records list.now) e) }
{
    if tops::id_on(list, b) != id {
        return false;
    }
    let first = tops::source_of(list, a, p);
    let s = tops::source_of(list, b, e);
    goes_on(first, e - p, s)
}

// Where the maximal run of the positions from p up to `end` that starts at p ends, and in which segment; segment k holds p.
pub(crate) fn reach(r: &Resolved, k: usize, p: u32, end: u32) -> Reached
    requires p_lt_end { (p < end) × (end ≤ chunk) }
    requires holds { Holds r.now.marks.now r.now.segments k p }
    ensures leads { Leads next (cover (records r.now.list.now)) p end (cover (records r.now.list.now) p) result.end }
    ensures holds_2 { result.end < end → Holds r.now.marks.now r.now.segments result.segment result.end }
{
    let top = r.tops[k];
    let id = tops::id_on(r.list, top);
    let mut segment = k;
    let mut e = r.until(k, end);
    while e < end {
        segment += 1;
        if joins(r.list, id, top, p, r.tops[segment], e) {
            e = r.until(segment, end);
        } else {
            return Reached { end: e, segment };
        }
    }
    Reached { end: e, segment }
}
