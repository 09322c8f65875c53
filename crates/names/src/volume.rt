// The volume name that a full name begins with.
ghost use Rattle.std.specs.Prelude.{◌≡◌, ◌≤◌, length};
ghost use Rattle.names.specs.Volume.{volume_byte, volume_run, volume_at, volume_allowed};

use crate::limits;

// Early returns: with `matches!` writing a full name takes up to 11 in 100 more.
fn is_volume_byte(b: u8) -> bool
    ensures { result ≡ volume_byte b }
{
    if b'a' <= b {
        return b <= b'z';
    }
    if b'0' <= b {
        return b <= b'9';
    }
    b == b'-'
}

// How many bytes of a volume name the text begins with.
pub(crate) fn run(text: &[u8]) -> usize
    ensures { (result ≡ volume_run text.now) × (result ≤ length text.now) }
{
    for i in 0..text.len() {
        if !is_volume_byte(text[i]) {
            return i;
        }
    }
    text.len()
}

// The place behind the volume name at the front of a text, or the place at which the reading gives up.
pub(crate) fn read(text: &[u8]) -> Result<usize, usize>
    ensures { result ≡ volume_at text.now }
{
    let n = run(text);
    if n < 1 {
        return Err(0);
    }
    if limits::MAX_VOLUME < n {
        return Err(limits::MAX_VOLUME);
    }
    Ok(n)
}

// Whether a text is a volume name.
pub(crate) fn allowed(volume: &[u8]) -> bool
    ensures { result ≡ volume_allowed volume.now }
{
    let n = volume.len();
    1 <= n && n <= limits::MAX_VOLUME && run(volume) == n
}
