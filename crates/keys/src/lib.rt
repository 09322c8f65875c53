// Chunk keys: those of Redis, which are text, and those of the TKV engines, which are 14 bytes.
#![tactic(auto)]

mod limits;

ghost use Rattle.std.specs.Prelude.{◌≡◌, [], ◌≤◌, length};
ghost use Rattle.codec.specs.Decimal.{decimal};
ghost use Rattle.codec.specs.Splice.{splice};
ghost use Rattle.codec.specs.Inner.{Puts};
ghost use Rattle.outcomes.specs.Answers.{Answers};
ghost use Rattle.texts.specs.Inner.{read_by};
ghost use Rattle.texts.specs.Parts.{scan};
ghost use Rattle.keys.specs.Limits.{tkv_size};
ghost use Rattle.keys.specs.Inner.{key_of, redis_length};
ghost use Rattle.keys.specs.Keys.{redis_key, redis_form, read_redis, write_redis, tkv_key, tkv_shape, read_tkv, write_tkv, chunk_answer};

use codec::pairs::Pairs;
use codec::scan::read_decimal;
use codec::{decimal, fixed, little, pairs, width};
use outcomes::{Kind, Refusal};
use slices::MAX_INDEX;
use texts::{MAX_NUMBER, scan, text};

// What a chunk key names: a chunk of a file.
#[derive(Clone, Copy)]
pub struct ChunkKey {
    pub inode: u64,
    pub index: u64,
}

// Puts a Redis key to the front of a buffer; its numbers have so many digits.
fn put_redis(out: &mut [u8], inode: u64, index: u64, i: usize, j: usize) -> usize
    requires { (i ≡ length (decimal inode)) × (j ≡ length (decimal index)) × (redis_length i j ≤ length out.old) }
    ensures { Puts out.old 0 (redis_key inode index) (redis_length i j) result out.new }
{
    let digits = pairs::table();
    let table = Pairs { digits: &digits };
    let a = text::put_word(out, 0, b"c");
    let b = text::put_number_word(out, a, inode, i, table, b"_");
    decimal::put_digits(out, b, index, j, table)
}

// Writes the Redis key of a chunk.
pub fn write_redis_key(inode: u64, index: u64, out: &mut [u8]) -> Result<usize, Refusal>
    ensures { Answers (write_redis inode index (length out.old)) out.old result out.new }
{
    if MAX_INDEX < index {
        return Err(Refusal::from(Kind::NotOfForm));
    }
    let i = width::digits(inode);
    let j = width::digits(index);
    if out.len() < limits::REDIS_WORDS + (i + j) {
        return Err(Refusal::from(Kind::ShortBuffer));
    }
    Ok(put_redis(out, inode, index, i, j))
}

// The chunk that a Redis key names, or the place at which the reading gives up.
fn read_redis_parts(key: &[u8]) -> Result<ChunkKey, usize>
    ensures { result ≡ read_by key_of (scan redis_form key.now [] 0) }
{
    let at = scan::word(key, 0, b"c")?;
    let inode = read_decimal(key, at, 0, MAX_NUMBER)?;
    let at = scan::word(key, inode.at, b"_")?;
    let index = read_decimal(key, at, 0, MAX_INDEX)?;
    scan::end(key, index.at)?;
    Ok(ChunkKey {
        inode: inode.value,
        index: index.value,
    })
}

// The chunk that a Redis key names.
pub fn read_redis_key(key: &[u8]) -> Result<ChunkKey, Refusal>
    ensures { result ≡ chunk_answer (read_redis key.now) }
{
    read_redis_parts(key).map_err(|_| Refusal::from(Kind::NotOfForm))
}

// Puts a TKV key into a line.
fn put_tkv(line: &mut [u8], inode: u64, index: u32)
    requires { tkv_size ≤ length line.old }
    ensures { line.new ≡ splice line.old 0 (tkv_key inode index) }
{
    line[0] = b'A';
    little::write_le64(line, 1, inode);
    line[9] = b'C';
    fixed::write_be32(line, 10, index);
}

// Writes the TKV key of a chunk.
pub fn write_tkv_key(inode: u64, index: u64, out: &mut [u8]) -> Result<usize, Refusal>
    ensures { Answers (write_tkv inode index (length out.old)) out.old result out.new }
{
    if MAX_INDEX < index {
        return Err(Refusal::from(Kind::NotOfForm));
    }
    let mut line = [0u8; limits::TKV];
    put_tkv(&mut line, inode, index as u32);
    outcomes::deliver(&line, out)
}

// Whether a key has the length and the two letters of a TKV key.
fn tkv_shape(key: &[u8]) -> bool
    ensures { result ≡ tkv_shape key.now }
{
    key.len() == limits::TKV && key[0] == b'A' && key[9] == b'C'
}

// The chunk that a TKV key names.
pub fn read_tkv_key(key: &[u8]) -> Result<ChunkKey, Refusal>
    ensures { result ≡ chunk_answer (read_tkv key.now) }
{
    if !tkv_shape(key) {
        return Err(Refusal::from(Kind::NotOfForm));
    }
    Ok(ChunkKey {
        inode: little::read_le64(key, 1),
        index: fixed::read_be32(key, 10) as u64,
    })
}
