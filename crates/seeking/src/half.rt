// A search by halving, which is the same in bytes and in a row.
ghost use Rattle.std.specs.Prelude.{◌≡◌, ℕ, ◌<◌, min};
ghost use Rattle.slices.specs.Cover.{covers};
ghost use Rattle.seeking.specs.Seek.{halve, middle, if_held};

use crate::Found;
use slices::Record;

// The number of segments to look at: no more than there are.
pub(crate) fn fewer(segments: u64, count: usize) -> usize
    ensures { result ≡ min segments count }
{
    segments.min(count as u64) as usize
}

// The number in the middle.
pub(crate) fn middle(low: usize, high: usize) -> usize
    requires { low < high }
    ensures { result ≡ middle low high }
{
    low + (high - low) / 2
}

// The number of the segment at which halving ends, among the first n; `first` gives the position at which a segment starts.
pub(crate) fn halve<F: Fn(usize) -> u32>(first: F, n: usize, position: u64) -> usize
    requires n_nonzero { 0 < n }
    requires callable { (i : ℕ) → i < n → F.pre first i }
    ensures below { result < n }
    ensures value { (starts : ℕ → ℕ) → ((i r : ℕ) → i < n → F.post first i r → r ≡ starts i) → result ≡ halve starts position n 0 n }
{
    let mut low = 0;
    let mut high = n;
    while low + 1 < high {
        let mid = middle(low, high);
        if position < first(mid) as u64 {
            high = mid;
        } else {
            low = mid;
        }
    }
    low
}

// Whether a segment holds a position: its sum does not wrap.
fn holds(segment: Record, position: u64) -> bool
    ensures { result ≡ covers segment position }
{
    let pos = segment.pos as u64;
    let end = pos + segment.len as u64;
    pos <= position && position < end
}

// The segment that was found, tested before it is given.
pub(crate) fn if_held(position: u64, number: usize, segment: Record) -> Option<Found>
    ensures { result ≡ if_held position number segment }
{
    if holds(segment, position) {
        return Some(Found { number, segment });
    }
    None
}
