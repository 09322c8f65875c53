// The search in the bytes of a view.
ghost use Rattle.std.specs.Prelude.{◌≡◌, ◌≤◌};
ghost use Rattle.slices.specs.Record.{count, record_at};
ghost use Rattle.seeking.specs.Seek.{seek};

use crate::{Found, half};
use slices::records;

// The segment among the first n that holds the position.
pub(crate) fn seek(view: &[u8], n: usize, position: u64) -> Option<Found>
    requires { n ≤ count view.now }
    ensures { result ≡ seek (record_at view.now) n position }
{
    if n == 0 {
        return None;
    }
    let k = half::halve(|i| records::read_pos(view, i), n, position);
    half::if_held(position, k, records::read_record(view, k))
}
