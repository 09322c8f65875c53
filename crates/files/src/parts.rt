// What of a read lies in one chunk.
ghost use Rattle.std.specs.Prelude.{◌≡◌, ◌-◌, ◌*◌, ◌<◌};
ghost use Rattle.slices.specs.Limits.{chunk};
ghost use Rattle.files.specs.Limits.{max_lists};
ghost use Rattle.files.specs.File.{part_from, part_end};

use plans::Span;
use slices::CHUNK;

// How far a position lies behind the beginning of chunk k; 0 where it lies before it.
fn past_start(p: u32, k: u32) -> u32
    requires { k < max_lists }
    ensures { result ≡ p - k * chunk }
{
    let low = k * CHUNK;
    if p < low { 0 } else { p - low }
}

// Of the positions from `from` up to `end`, those of chunk k, counted from its beginning.
pub fn part(from: u32, end: u32, k: u32) -> Span
    requires { k < max_lists }
    ensures { (result.from ≡ part_from from k) × (result.end ≡ part_end end k) }
{
    let start = past_start(from, k);
    let stop = past_start(end, k);
    if stop < CHUNK {
        return Span {
            from: start,
            end: stop,
        };
    }
    Span {
        from: start,
        end: CHUNK,
    }
}

// How many places of a read from `from` come before those of chunk k.
pub(crate) fn places_before(from: u32, k: u32) -> u32
    requires { k < max_lists }
    ensures { result ≡ k * chunk - from }
{
    let low = k * CHUNK;
    if from < low { low - from } else { 0 }
}
