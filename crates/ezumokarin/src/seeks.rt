// The segment of a view that holds a position.
ghost use Rattle.std.specs.Prelude.{◌≡◌};
ghost use Rattle.seeking.specs.Seek.{seek_view};
ghost use Rattle.ezumokarin.specs.Seeks.{found_in};

use crate::Found;

// seeking::find_in.
#[unsafe(no_mangle)]
pub extern "C" fn ezk_find(view: &[u8], segments: u64, position: u64) -> Found
    ensures { result ≡ found_in (seek_view view.now segments position) }
{
    Found::from(seeking::find_in(view, segments, position))
}
