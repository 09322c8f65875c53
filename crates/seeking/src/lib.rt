// Which segment of a view holds a position, found by halving: in the view's bytes, or in a lent row that it was loaded into.
#![tactic(auto)]

mod bytes;
mod half;
mod lent;
mod within;

ghost use Rattle.std.specs.Prelude.{◌≡◌, length};
ghost use Rattle.seeking.specs.Seek.{seek_row, seek_view, sought};
ghost use Rattle.seeking.specs.Load.{load_outcome, Loads};

use outcomes::{Kind, Refusal};
use slices::{RECORD, Record};

// The segment that holds a position, with its number in the row.
#[derive(Clone, Copy)]
pub struct Found {
    pub number: usize,
    pub segment: Record,
}

// The segment that holds a position, among the first `segments` of a view's bytes.
pub fn find_in(view: &[u8], segments: u64, position: u64) -> Result<Option<Found>, Refusal>
    ensures { result ≡ sought (seek_view view.now segments position) }
{
    if view.len() % RECORD != 0 {
        return Err(Refusal::from(Kind::NotWhole));
    }
    let n = half::fewer(segments, view.len() / RECORD);
    Ok(bytes::seek(view, n, position))
}

// The segment that holds a position, among the first `number` of a lent row.
pub fn find(row: &[Record], number: usize, position: u64) -> Option<Found>
    ensures { result ≡ seek_row row.now number position }
{
    let n = half::fewer(number as u64, row.len());
    if n == 0 {
        return None;
    }
    let k = half::halve(|i| row[i].pos, n, position);
    half::if_held(position, k, row[k])
}

// Loads a list's view into the front of a lent row: how many segments it has. `bytes` is lent for the view's bytes.
pub fn load(
    list: &[u8],
    chunk_len: u64,
    bytes: &mut [u8],
    row: &mut [Record],
) -> Result<usize, Refusal>
    ensures { Loads (load_outcome list.now chunk_len (length bytes.old) (length row.old)) bytes.old row.old result bytes.new row.new }
{
    let n = within::view_within(list, chunk_len, row.len(), bytes)?;
    lent::fill(bytes, n, row);
    Ok(n)
}
