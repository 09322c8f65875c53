// The part of a name that says which object it is: all of a short name, and what follows the volume name of a full one.
ghost use Rattle.std.specs.Prelude.{◌≡◌, [], ◌+◌, ◌*◌, ◌≤◌, min, length};
ghost use Rattle.codec.specs.Decimal.{max_digits};
ghost use Rattle.codec.specs.Inner.{Puts};
ghost use Rattle.texts.specs.Inner.{read_by};
ghost use Rattle.texts.specs.Parts.{scan};
ghost use Rattle.names.specs.Inner.{name_length, name_of, Widths};
ghost use Rattle.names.specs.Names.{name_form, object_allowed, object_name};

use crate::{ObjectName, limits, slice};
use codec::decimal;
use codec::pairs::Pairs;
use codec::scan::read_decimal;
use texts::{MAX_NUMBER, scan, text};

// The largest number up to most whose thousandth part is at most q.
fn upper(q: u64, most: u64) -> u64
    ensures { result ≡ min (q * 1000 + 999) most }
{
    if most / 1000 <= q {
        return most;
    }
    q * 1000 + 999
}

// The object that the text names from a place on, or the place at which the reading gives up.
pub(crate) fn read(text: &[u8], at: usize) -> Result<ObjectName, usize>
    ensures { result ≡ read_by name_of (scan name_form text.now [] at) }
{
    let at = scan::word(text, at, b"chunks/")?;
    let first = read_decimal(text, at, 0, MAX_NUMBER / 1000 / 1000)?;
    let at = scan::word(text, first.at, b"/")?;
    let top = upper(first.value, MAX_NUMBER / 1000);
    let second = read_decimal(text, at, first.value * 1000, top)?;
    let at = scan::word(text, second.at, b"/")?;
    let least = (second.value * 1000).max(1);
    let id = read_decimal(text, at, least, upper(second.value, MAX_NUMBER))?;
    let at = scan::word(text, id.at, b"_")?;
    let block = read_decimal(text, at, 0, limits::MAX_BLOCK)?;
    let at = scan::word(text, block.at, b"_")?;
    let size = read_decimal(text, at, 1, limits::MAX_LENGTH)?;
    scan::end(text, size.at)?;
    Ok(ObjectName {
        id: id.value,
        block: block.value,
        length: size.value,
    })
}

// Whether the numbers are those of an object that has a name.
pub(crate) fn allowed(id: u64, block: u64, size: u64) -> bool
    ensures { result ≡ object_allowed id block size }
{
    1 <= id && block <= limits::MAX_BLOCK && 1 <= size && size <= limits::MAX_LENGTH
}

// How many bytes a name has whose id, block and size have i, b and s digits.
pub(crate) fn length(i: usize, b: usize, s: usize) -> usize
    requires { (i ≤ max_digits) × (b ≤ max_digits) × (s ≤ max_digits) }
    ensures { (result ≡ name_length i b s) × (result ≤ 11 + 5 * max_digits) }
{
    let thousands = slice::thousandth(i);
    let millions = slice::thousandth(thousands);
    limits::WORDS + millions + thousands + i + b + s
}

// Puts the name of an object into a buffer. Its id, block and size have i, b and s digits.
pub(crate) fn put(
    out: &mut [u8],
    at: usize,
    id: u64,
    block: u64,
    size: u64,
    i: usize,
    b: usize,
    s: usize,
    table: Pairs,
) -> usize
    requires { Widths id block size i b s × (at + length (object_name id block size) ≤ length out.old) }
    ensures { Puts out.old at (object_name id block size) (length (object_name id block size)) result out.new }
{
    let next = text::put_word(out, at, b"chunks/");
    let bar = slice::put(out, next, id, i, table);
    let second = text::put_word(out, bar, b"_");
    let third = text::put_number_word(out, second, block, b, table, b"_");
    decimal::put_digits(out, third, size, s, table)
}
