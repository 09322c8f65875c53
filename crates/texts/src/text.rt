// Making a text in a buffer.
ghost use Rattle.std.specs.Prelude.{◌≡◌, ◌++◌, ◌+◌, ◌≤◌, length};
ghost use Rattle.codec.specs.Decimal.{decimal};
ghost use Rattle.codec.specs.Inner.{Puts};

use codec::pairs::Pairs;
use codec::{decimal, put};

// Puts a word into a buffer.
pub fn put_word(out: &mut [u8], at: usize, word: &[u8]) -> usize
    requires { at + length word.now ≤ length out.old }
    ensures { Puts out.old at word.now (length word.now) result out.new }
{
    put::put(out, at, word)
}

// Puts n, which has so many digits, and the word after it, into a buffer.
pub fn put_number_word(
    out: &mut [u8],
    at: usize,
    n: u64,
    width: usize,
    table: Pairs,
    word: &[u8],
) -> usize
    requires { (width ≡ length (decimal n)) × (at + (width + length word.now) ≤ length out.old) }
    ensures { Puts out.old at (decimal n ++ word.now) (width + length word.now) result out.new }
{
    let end = decimal::put_digits(out, at, n, width, table);
    put_word(out, end, word)
}
