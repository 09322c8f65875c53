// The part of a name that says which slice it is: the two quotients of its id, and the id.
ghost use Rattle.std.specs.Prelude.{◌≡◌, ◌++◌, ◌+◌, ◌-◌, ◌/◌, ◌%◌, ◌<◌, ◌≤◌, max, length};
ghost use Rattle.codec.specs.Decimal.{decimal};
ghost use Rattle.codec.specs.Inner.{Puts};
ghost use Rattle.codec.specs.Pairs.{pair, four};
ghost use Rattle.codec.specs.Splice.{splice};
ghost use Rattle.names.specs.Inner.{slice_path};

use codec::pairs::Pairs;
use codec::{decimal, pairs};
use texts::text;

// How many digits the whole thousandth of a number of so many digits has.
pub(crate) fn thousandth(width: usize) -> usize
    ensures { result ≡ max 1 (width - 3) }
{
    if width <= 3 {
        return 1;
    }
    width - 3
}

// Puts a slice of at most six digits, whose millions are 0, one number after the other.
fn put_short(out: &mut [u8], at: usize, id: u64, width: usize, table: Pairs) -> usize
    requires { (width ≤ 6) × (width ≡ length (decimal id)) × (at + length (slice_path id) ≤ length out.old) }
    ensures { Puts out.old at (slice_path id) (length (slice_path id)) result out.new }
{
    let thousands = thousandth(width);
    let a = text::put_word(out, at, b"0/");
    let b = text::put_number_word(out, a, id / 1000, thousands, table, b"/");
    decimal::put_digits(out, b, id, width, table)
}

// Puts the six digits that follow a slice's millions: all at `id`, and the first four at `thousands`. The fourth is one too many there, for two
// digits are moved at a time; the slash is stored in its place.
fn put_tails(out: &mut [u8], thousands: usize, id: usize, tail: u64, table: Pairs)
    requires { (tail < 1000000) × (thousands + 4 ≤ id) × (id + 6 ≤ length out.old) }
    ensures { out.new ≡ splice (splice out.old id (pair (tail / 10000) ++ four (tail % 10000))) thousands (four (tail / 100)) }
{
    let high = tail / 10000;
    let four = tail - high * 10000;
    let middle = four / 100;
    let low = four - middle * 100;
    pairs::put_pair(out, id, high, table);
    pairs::put_pair(out, id + 2, middle, table);
    pairs::put_pair(out, id + 4, low, table);
    pairs::put_pair(out, thousands, high, table);
    pairs::put_pair(out, thousands + 2, middle, table);
}

// Puts a slice of more than six digits: its millions are the first digits of all three numbers, and go to all three places at once.
fn put_long(out: &mut [u8], at: usize, id: u64, width: usize, table: Pairs) -> usize
    requires { (6 < width) × (width ≡ length (decimal id)) × (at + length (slice_path id) ≤ length out.old) }
    ensures { Puts out.old at (slice_path id) (length (slice_path id)) result out.new }
{
    let top = id / 1000000;
    // The places of the two slashes.
    let x = at + (width - 6);
    let y = x + 1 + (width - 3);
    decimal::put_thrice(out, at, x + 1, y + 1, top, width - 6, table);
    put_tails(out, y - 3, y + width - 5, id - top * 1000000, table);
    out[x] = b'/';
    out[y] = b'/';
    y + 1 + width
}

// Puts a slice into a buffer as it stands in names: its millions, its thousands and its id.
pub(crate) fn put(out: &mut [u8], at: usize, id: u64, width: usize, table: Pairs) -> usize
    requires { (width ≡ length (decimal id)) × (at + length (slice_path id) ≤ length out.old) }
    ensures { Puts out.old at (slice_path id) (length (slice_path id)) result out.new }
{
    if 6 < width {
        return put_long(out, at, id, width, table);
    }
    put_short(out, at, id, width, table)
}
