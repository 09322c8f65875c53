// The positions that a list covers, by its records' own numbers.
ghost use Rattle.std.specs.Prelude.{◌≡◌, cond, ◌+◌, ◌≤◌, min, max, eqb};
ghost use Rattle.codec.specs.All.{All};
ghost use Rattle.slices.specs.Limits.{chunk};
ghost use Rattle.slices.specs.Passes.{Passes};
ghost use Rattle.slices.specs.Record.{records};
ghost use Rattle.compaction.specs.Inner.{Ends};

use plans::Span;
use slices::{CHUNK, RECORD, records};

// The lower of a position and a record's first, if the record covers one.
fn lower(pos: u32, len: u32, low: u32) -> u32
    ensures { result ≡ cond (eqb len 0) low (min pos low) }
{
    if len == 0 { low } else { pos.min(low) }
}

// The higher of a position and the one after a record's last, if the record covers one.
fn higher(pos: u32, len: u32, high: u32) -> u32
    requires { pos + len ≤ chunk }
    ensures { result ≡ cond (eqb len 0) high (max (pos + len) high) }
{
    if len == 0 {
        high
    } else {
        (pos + len).max(high)
    }
}

// From the first position that the records cover up to the last; none where they cover nothing.
pub(crate) fn span(list: &[u8]) -> Span
    requires { All Passes (records list.now) }
    ensures { Ends (records list.now) result.from result.end }
{
    let mut low = CHUNK;
    let mut high = 0;
    for i in (0..list.len() / RECORD).rev() {
        let pos = records::read_pos(list, i);
        let len = records::read_len(list, i);
        low = lower(pos, len, low);
        high = higher(pos, len, high);
    }
    if low == CHUNK {
        return Span { from: 0, end: 0 };
    }
    Span {
        from: low,
        end: high,
    }
}
