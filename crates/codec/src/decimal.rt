// Numbers as decimal text.
ghost use Rattle.std.specs.Prelude.{◌≡◌, ◌+◌, ◌≤◌, ◌<◌, length};
ghost use Rattle.codec.specs.Decimal.{max_digits, decimal};
ghost use Rattle.codec.specs.Inner.{Puts};
ghost use Rattle.codec.specs.Pairs.{pair};
ghost use Rattle.codec.specs.Splice.{splice};

use crate::pairs::Pairs;
use crate::{pairs, width};

// The digits of the largest 64-bit number.
pub const DIGITS: usize = 20;

// Puts a number below 100 into a buffer.
fn put_few(out: &mut [u8], at: usize, n: u64, table: Pairs)
    requires { (n < 100) × (at + length (decimal n) ≤ length out.old) }
    ensures { out.new ≡ splice out.old at (decimal n) }
{
    if 9 < n {
        pairs::put_pair(out, at, n, table);
        return;
    }
    out[at] = 48 + n as u8;
}

// Puts a number below 10,000 into a buffer, where it ends at `end`.
fn put_rest(out: &mut [u8], at: usize, end: usize, n: u64, table: Pairs)
    requires { (n < 10000) × (end ≡ at + length (decimal n)) × (end ≤ length out.old) }
    ensures { out.new ≡ splice out.old at (decimal n) }
{
    if n < 100 {
        put_few(out, at, n, table);
        return;
    }
    let next = n / 100;
    pairs::put_pair(out, end - 2, n - next * 100, table);
    put_few(out, at, next, table);
}

// Puts n, which has so many digits, into a buffer, and answers the place after it: four digits a turn, from the last. A turn divides twice,
// and what is left is divided once if it has more than two digits: once for each two digits.
pub fn put_digits(out: &mut [u8], at: usize, n: u64, width: usize, table: Pairs) -> usize
    requires { (width ≡ length (decimal n)) × (at + width ≤ length out.old) }
    ensures { Puts out.old at (decimal n) width result out.new }
{
    let mut end = at + width;
    let mut rest = n;
    while 9999 < rest {
        let next = rest / 10000;
        end -= 4;
        pairs::put_four(out, end, rest - next * 10000, table);
        rest = next;
    }
    put_rest(out, at, end, rest, table);
    at + width
}

// Puts the two digits of n, below 100, at three places of a buffer, each behind the one before.
fn put_pair_thrice(out: &mut [u8], a: usize, b: usize, c: usize, n: u64, table: Pairs)
    requires { (n < 100) × (a + 2 ≤ b) × (b + 2 ≤ c) × (c + 2 ≤ length out.old) }
    ensures { out.new ≡ splice (splice (splice out.old c (pair n)) b (pair n)) a (pair n) }
{
    pairs::put_pair(out, c, n, table);
    pairs::put_pair(out, b, n, table);
    pairs::put_pair(out, a, n, table);
}

// Puts n, which has so many digits, at three places of a buffer, each behind the one before: it is divided once for all three.
pub fn put_thrice(out: &mut [u8], a: usize, b: usize, c: usize, n: u64, width: usize, table: Pairs)
    requires { (width ≡ length (decimal n)) × (a + width ≤ b) × (b + width ≤ c) × (c + width ≤ length out.old) }
    ensures { out.new ≡ splice (splice (splice out.old c (decimal n)) b (decimal n)) a (decimal n) }
{
    let mut i = width;
    let mut rest = n;
    while 99 < rest {
        let next = rest / 100;
        i -= 2;
        put_pair_thrice(out, a + i, b + i, c + i, rest - next * 100, table);
        rest = next;
    }
    put_few(out, c, rest, table);
    put_few(out, b, rest, table);
    put_few(out, a, rest, table);
}

// Puts n in decimal into a buffer that has room for any number from `at` on, and answers the place after it.
pub fn put_decimal(out: &mut [u8], at: usize, n: u64) -> usize
    requires { at + max_digits ≤ length out.old }
    ensures { (result ≡ at + length (decimal n)) × (result ≤ at + max_digits) × (out.new ≡ splice out.old at (decimal n)) }
{
    let digits = pairs::table();
    let table = Pairs { digits: &digits };
    let width = width::digits(n);
    put_digits(out, at, n, width, table)
}
