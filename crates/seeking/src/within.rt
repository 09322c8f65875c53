// The view of a list, no longer than a row has room for.
ghost use Rattle.std.specs.Prelude.{length};
ghost use Rattle.seeking.specs.Load.{load_outcome};
ghost use Rattle.seeking.specs.Inner.{RoomFor, Within};

use outcomes::Refusal;
use slices::RECORD;

// The bytes that may be written, so that both the buffer and the row have room.
fn room_for(bytes: usize, rows: usize) -> usize
    ensures { RoomFor bytes rows result }
{
    if rows < bytes / RECORD {
        return rows * RECORD;
    }
    bytes
}

// Writes the view's bytes, if the buffer and a row of so many elements have room for the view.
pub(crate) fn view_within(
    list: &[u8],
    chunk_len: u64,
    rows: usize,
    bytes: &mut [u8],
) -> Result<usize, Refusal>
    ensures { Within (load_outcome list.now chunk_len (length bytes.old) rows) rows bytes.old result bytes.new }
{
    let room = room_for(bytes.len(), rows);
    let n = views::view(list, chunk_len, &mut bytes[..room])?;
    Ok(n / RECORD)
}
