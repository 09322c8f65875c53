// Where the positions of a chunk lie in the store, and how far in one run.
ghost use Rattle.std.specs.Prelude.{◌≡◌, ◌-◌, ◌<◌};
ghost use Rattle.codec.specs.All.{All};
ghost use Rattle.slices.specs.Cover.{cover};
ghost use Rattle.slices.specs.Passes.{Passes};
ghost use Rattle.slices.specs.Record.{records};
ghost use Rattle.runs.specs.Inner.{Unbroken, Leads};
ghost use Rattle.plans.specs.Location.{location, location_at, next_location, onward};
ghost use Rattle.plans.specs.Inner.{Inside, InBlock};
ghost use Rattle.plans.specs.declared.Location.TheVariants as locations;

use crate::Location;
use slices::Source;

// Where a source lies: only the bytes of a slice lie in an object.
pub fn location_of(s: Source, block: u32) -> Location
    requires inside { Inside s }
    requires block_nonzero { 0 < block }
    ensures { result ≡ location block s }
{
    let Source::Byte { id, size, off } = s else {
        return Location::Hole;
    };
    let number = off / block;
    let left = size - number * block;
    let at = off % block;
    let length = if left < block { left } else { block };
    Location::In {
        id,
        block: number,
        length,
        at,
    }
}

fn is_hole(a: Location) -> bool
    ensures { result ≡ next_location a locations.Hole }
{
    if let Location::Hole = a { true } else { false }
}

// Whether a location in an object goes on with a run whose first, d positions before, is a.
fn follows(a: Location, d: u32, i: u64, b: u32, l: u32, t: u32) -> bool
    requires { 0 < d }
    ensures { result ≡ next_location (onward a (d - 1)) (locations.In i b l t) }
{
    let Location::In {
        id,
        block,
        length,
        at,
    } = a
    else {
        return false;
    };
    if id != i {
        return false;
    }
    if block != b {
        return false;
    }
    if length != l {
        return false;
    }
    t as u64 == at as u64 + d as u64
}

// Whether b goes on with a run whose first location, d positions before, is a.
pub fn location_goes_on(a: Location, d: u32, b: Location) -> bool
    requires { 0 < d }
    ensures { result ≡ next_location (onward a (d - 1)) b }
{
    match b {
        Location::Hole => is_hole(a),
        Location::In {
            id,
            block,
            length,
            at,
        } => follows(a, d, id, block, length, at),
    }
}
