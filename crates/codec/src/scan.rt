// Reading decimal text from a place on, within bounds.
ghost use Rattle.std.specs.Prelude.{◌≡◌, ◌&&◌, ◌+◌, ◌*◌, min, drop, leb, ltb};
ghost use Rattle.codec.specs.Scan.{digit_at, decimal_at};

// A number that was read in a text, and the place after it.
#[derive(Clone, Copy)]
pub struct Parsed {
    pub at: usize,
    pub value: u64,
}

// What the digit at a place stands for, and 10 where there is none.
fn digit_at(text: &[u8], i: usize) -> u64
    ensures { result ≡ digit_at (drop i text.now) }
{
    if text.len() <= i {
        return 10;
    }
    let b = text[i];
    if !b.is_ascii_digit() {
        return 10;
    }
    // Not widened after the subtraction: that takes 1.2 to 1.5 times as long, of a whole name.
    u64::from(b) - 48
}

// Whether d may be a number's first digit.
fn opens(d: u64, least: u64, most: u64) -> bool
    ensures { result ≡ (ltb d 10 && (leb (min 1 least) d && leb d most)) }
{
    d < 10 && least.min(1) <= d && d <= most
}

// Whether value may be followed by the digit d.
fn extends(value: u64, d: u64, most: u64) -> bool
    ensures { result ≡ (leb 1 value && leb (value * 10 + d) most) }
{
    1 <= value && value <= most / 10 && d <= most - value * 10
}

// The decimal number at a place: one from least to most, without leading zeros. `Err` has the place at which the reading gives up.
// As a call of its own it would cost up to 22 in 100 of reading a name.
#[inline(always)]
pub fn read_decimal(text: &[u8], at: usize, least: u64, most: u64) -> Result<Parsed, usize>
    ensures { result ≡ decimal_at least most at (drop at text.now) }
{
    let mut value = digit_at(text, at);
    if !opens(value, least, most) {
        return Err(at);
    }
    // An index loop: a number ends at a byte that is no digit as it does at the text's end, and a `for` has to end it at two places.
    let mut i = at + 1;
    let mut d = digit_at(text, i);
    while d < 10 {
        if !extends(value, d, most) {
            return Err(i);
        }
        value = value * 10 + d;
        i += 1;
        d = digit_at(text, i);
    }
    if value < least {
        return Err(i);
    }
    Ok(Parsed { at: i, value })
}
