// Two decimal digits at a time, from a table.
ghost use Rattle.std.specs.Prelude.{◌≡◌, ◌+◌, ◌<◌, ◌≤◌, length};
ghost use Rattle.codec.specs.Pairs.{pair, four, PairTable};
ghost use Rattle.codec.specs.Splice.{splice};

// The two digits of each number below 100, one pair behind the other.
const PAIRS: [u8; 200] =
    *b"00010203040506070809101112131415161718192021222324252627282930313233343536373839404142434445464748495051525354555657585960616263646566676869707172737475767778798081828384858687888990919293949596979899";

// The table. A call makes it once, and lends it for each number that it writes: an array is made on the stack, which takes time.
pub fn table() -> [u8; 200]
    ensures { PairTable result }
{
    PAIRS
}

// Bytes that are such a table, lent by whoever made it.
#[derive(Clone, Copy)]
pub struct Pairs<'a> {
    pub digits: &'a [u8],
    pub ghost table: { PairTable digits.now },
}

// Puts the two digits of n, below 100, into a buffer. Both are read before the first is stored, so that they are moved as one.
pub fn put_pair(out: &mut [u8], at: usize, n: u64, table: Pairs)
    requires { (n < 100) × (at + 2 ≤ length out.old) }
    ensures { out.new ≡ splice out.old at (pair n) }
{
    let k = 2 * n as usize;
    let tens = table.digits[k];
    let ones = table.digits[k + 1];
    out[at] = tens;
    out[at + 1] = ones;
}

// Puts the four digits of n, below 10,000, into a buffer.
pub(crate) fn put_four(out: &mut [u8], at: usize, n: u64, table: Pairs)
    requires { (n < 10000) × (at + 4 ≤ length out.old) }
    ensures { out.new ≡ splice out.old at (four n) }
{
    let high = n / 100;
    put_pair(out, at, high, table);
    put_pair(out, at + 2, n - high * 100, table);
}
