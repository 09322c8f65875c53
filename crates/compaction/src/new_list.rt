// The new list of a compaction.
ghost use Rattle.std.specs.Prelude.{◌≡◌, ◌+◌, ◌-◌, ◌≤◌, ◌++◌, length, drop};
ghost use Rattle.codec.specs.Splice.{splice};
ghost use Rattle.slices.specs.Record.{encode_all};
ghost use Rattle.compaction.specs.Inner.{stand_for};

use codec::put;
use slices::{RECORD, Record, records};

// How many bytes the record takes that stands for the positions from `from` up to `end`.
pub(crate) fn stand_in_bytes(from: u32, end: u32, id: u64) -> usize
    ensures { result ≡ length (encode_all (stand_for from end id)) }
{
    if from < end {
        return RECORD;
    }
    0
}

// Writes that record to the front of a buffer that has room for it.
fn write_stand_in(from: u32, end: u32, id: u64, out: &mut [u8])
    requires { length (encode_all (stand_for from end id)) ≤ length out.old }
    ensures { out.new ≡ splice out.old 0 (encode_all (stand_for from end id)) }
{
    if from < end {
        let len = end - from;
        records::write_record(
            out,
            0,
            Record {
                pos: from,
                id,
                size: len,
                off: 0,
                len,
            },
        );
    }
}

// Writes that record, and behind it the list's bytes from `cut` on, to the front of a buffer that has room for both.
pub(crate) fn write_list(list: &[u8], cut: usize, from: u32, end: u32, id: u64, out: &mut [u8])
    requires cut_in_bounds { cut ≤ length list.now }
    requires cut_in_bounds_2 { length (encode_all (stand_for from end id)) + (length list.now - cut) ≤ length out.old }
    ensures { out.new ≡ splice out.old 0 (encode_all (stand_for from end id) ++ drop cut list.now) }
{
    write_stand_in(from, end, id, out);
    let at = stand_in_bytes(from, end, id);
    let rest = &list[cut..];
    put::put(out, at, rest);
}
