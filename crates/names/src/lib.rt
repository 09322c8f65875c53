// Object names: short ones, and full ones with a volume name in front.
#![tactic(auto)]

mod block;
mod limits;
mod slice;
mod volume;

ghost use Rattle.std.specs.Prelude.{◌≡◌, ◌≤◌, length};
ghost use Rattle.codec.specs.Inner.{Puts};
ghost use Rattle.outcomes.specs.Answers.{Answers};
ghost use Rattle.texts.specs.Inner.{read_by};
ghost use Rattle.names.specs.Inner.{Widths, name_of};
ghost use Rattle.names.specs.Names.{read_object, object_answer, write_object, full_scan, read_full, full_answer, volume_part, write_full, full_name};

use codec::pairs::Pairs;
use codec::{pairs, width};
use outcomes::{Kind, Refusal};
use texts::{scan, text};

// What an object name names: a block of a slice.
#[derive(Clone, Copy)]
pub struct ObjectName {
    pub id: u64,
    pub block: u64,
    pub length: u64,
}

// Writes the name of an object.
pub fn write_object_name(id: u64, block: u64, size: u64, out: &mut [u8]) -> Result<usize, Refusal>
    ensures { Answers (write_object id block size (length out.old)) out.old result out.new }
{
    if !block::allowed(id, block, size) {
        return Err(Refusal::from(Kind::NotOfForm));
    }
    let i = width::digits(id);
    let b = width::digits(block);
    let s = width::digits(size);
    let n = block::length(i, b, s);
    if out.len() < n {
        return Err(Refusal::from(Kind::ShortBuffer));
    }
    let digits = pairs::table();
    let table = Pairs { digits: &digits };
    Ok(block::put(out, 0, id, block, size, i, b, s, table))
}

// The object that a short name names.
pub fn read_object_name(name: &[u8]) -> Result<ObjectName, Refusal>
    ensures { result ≡ object_answer (read_object name.now) }
{
    block::read(name, 0).map_err(|_| Refusal::from(Kind::NotOfForm))
}

// Puts a full name to the front of a buffer. Its id, block and size have i, b and s digits.
fn put_full(
    out: &mut [u8],
    volume: &[u8],
    id: u64,
    block: u64,
    size: u64,
    i: usize,
    b: usize,
    s: usize,
) -> usize
    requires { Widths id block size i b s × (length (full_name volume.now id block size) ≤ length out.old) }
    ensures { Puts out.old 0 (full_name volume.now id block size) (length (full_name volume.now id block size)) result out.new }
{
    let digits = pairs::table();
    let table = Pairs { digits: &digits };
    let slash = text::put_word(out, 0, volume);
    let at = text::put_word(out, slash, b"/");
    block::put(out, at, id, block, size, i, b, s, table)
}

// Writes the full name of an object: its volume's name, a slash and its short name.
pub fn write_full_name(
    volume: &[u8],
    id: u64,
    block: u64,
    size: u64,
    out: &mut [u8],
) -> Result<usize, Refusal>
    ensures { Answers (write_full volume.now id block size (length out.old)) out.old result out.new }
{
    if !volume::allowed(volume) {
        return Err(Refusal::from(Kind::NotOfForm));
    }
    if !block::allowed(id, block, size) {
        return Err(Refusal::from(Kind::NotOfForm));
    }
    let i = width::digits(id);
    let b = width::digits(block);
    let s = width::digits(size);
    let n = block::length(i, b, s);
    if out.len() < volume.len() + (1 + n) {
        return Err(Refusal::from(Kind::ShortBuffer));
    }
    Ok(put_full(out, volume, id, block, size, i, b, s))
}

// The object that a full name names, or the place at which the reading gives up.
fn read_full_parts(name: &[u8]) -> Result<ObjectName, usize>
    ensures { result ≡ read_by name_of (full_scan name.now) }
{
    let slash = volume::read(name)?;
    let at = scan::word(name, slash, b"/")?;
    block::read(name, at)
}

// The object that a full name names.
pub fn read_full_name(name: &[u8]) -> Result<ObjectName, Refusal>
    ensures { result ≡ full_answer (read_full name.now) }
{
    read_full_parts(name).map_err(|_| Refusal::from(Kind::NotOfForm))
}

// The volume name of a full name that was read as `named`, as a part of it; an empty part where the name is refused.
pub fn volume_part<'a>(name: &'a [u8], named: &Result<ObjectName, Refusal>) -> &'a [u8]
    requires { named.now ≡ full_answer (read_full name.now) }
    ensures { result.now ≡ volume_part (read_full name.now) }
{
    if let Err(_) = named {
        return &name[..0];
    }
    let n = volume::run(name);
    &name[..n]
}

// The volume name of a full name, as a part of it; an empty part where the name is refused.
pub fn volume_of(name: &[u8]) -> &[u8]
    ensures { result.now ≡ volume_part (read_full name.now) }
{
    let named = read_full_name(name);
    volume_part(name, &named)
}
