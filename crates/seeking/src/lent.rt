// A lent row of segments, filled with the records of some bytes.
ghost use Rattle.std.specs.Prelude.{◌≡◌, ◌≤◌, length};
ghost use Rattle.slices.specs.Record.{count};
ghost use Rattle.seeking.specs.Inner.{filled};

use slices::{Record, records};

// Puts the first n records of some bytes to the front of a row.
pub(crate) fn fill(bytes: &[u8], n: usize, row: &mut [Record])
    requires { (n ≤ count bytes.now) × (n ≤ length row.old) }
    ensures { row.new ≡ filled bytes.now row.old n }
{
    for i in 0..n {
        row[i] = records::read_record(bytes, i);
    }
}
