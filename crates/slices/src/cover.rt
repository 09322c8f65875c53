// What a record gives to the positions that it covers.
ghost use Rattle.std.specs.Prelude.{◌≡◌, ◌+◌, ◌*◌, ◌≤◌, ◌<◌, length};
ghost use Rattle.slices.specs.Limits.{record_size};
ghost use Rattle.slices.specs.Record.{record_at};
ghost use Rattle.slices.specs.Cover.{given};
ghost use Rattle.slices.specs.Passes.{Passes};

use crate::{Source, records};

// The source that record i gives to the position d behind its first.
pub fn given(list: &[u8], i: usize, d: u32) -> Source
    requires record_size_in_bounds { i * record_size + record_size ≤ length list.now }
    requires passes { Passes (record_at list.now i) }
    requires d_bound { d < (record_at list.now i).len }
    ensures { result ≡ given (record_at list.now i) ((record_at list.now i).pos + d) }
{
    let r = records::read_record(list, i);
    if r.id == 0 {
        return Source::Zero;
    }
    Source::Byte {
        id: r.id,
        size: r.size,
        off: r.off + d,
    }
}
