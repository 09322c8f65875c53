// The segments of a resolved list: where one ends, and the one that holds a position.
ghost use Rattle.std.specs.Prelude.{◌+◌, ◌≤◌, ◌<◌, length, get_or};
ghost use Rattle.slices.specs.Limits.{chunk};
ghost use Rattle.resolve.specs.Resolved.{Ready, Holds};
ghost use Rattle.resolve.specs.Sweep.{Lesser};

use crate::sweep;

// A list whose whole chunk is resolved: what `resolve` made of it.
#[derive(Clone, Copy)]
pub struct Resolved<'a> {
    pub list: &'a [u8],
    pub marks: &'a [u32],
    pub tops: &'a [u16],
    pub segments: usize,
    pub ghost ready: { ∥ Ready list.now marks.now tops.now segments ∥₁ },
}

impl Resolved<'_> {
    // Where segment k ends, or `end` where that comes first.
    pub fn until(&self, k: usize, end: u32) -> u32
        requires { k < self.now.segments }
        ensures { Lesser (get_or self.now.marks.now (k + 1) 0) end result }
    {
        until(self.marks, k, end)
    }

    // The segment that holds a position.
    pub fn find(&self, p: u32) -> usize
        requires { p < chunk }
        ensures { Holds self.now.marks.now self.now.segments result p }
    {
        find(self.marks, self.segments, p)
    }
}

// Where segment k ends, or `end` where that comes first.
pub fn until(marks: &[u32], k: usize, end: u32) -> u32
    requires { k + 1 < length marks.now }
    ensures { Lesser (get_or marks.now (k + 1) 0) end result }
{
    sweep::lesser(marks[k + 1], end)
}

// The segment that holds a position.
pub fn find(marks: &[u32], m: usize, p: u32) -> usize
    requires m_in_bounds { m < length marks.now }
    requires marks_bound { (get_or marks.now 0 0 ≤ p) × (p < get_or marks.now m 0) }
    ensures { Holds marks.now m result p }
{
    let mut low = 0;
    let mut high = m;
    while low + 1 < high {
        let mid = low + (high - low) / 2;
        if p < marks[mid] {
            high = mid;
        } else {
            low = mid;
        }
    }
    low
}
