// Records in a list's bytes.
ghost use Rattle.std.specs.Prelude.{◌≡◌, ◌+◌, ◌*◌, ◌≤◌, length};
ghost use Rattle.codec.specs.Splice.{splice};
ghost use Rattle.slices.specs.Limits.{record_size};
ghost use Rattle.slices.specs.Record.{encode, record_at};

use crate::{RECORD, Record};
use codec::fixed;

// The first position of record i.
pub fn read_pos(list: &[u8], i: usize) -> u32
    requires { i * record_size + record_size ≤ length list.now }
    ensures { result ≡ (record_at list.now i).pos }
{
    fixed::read_be32(list, i * RECORD)
}

// The id of record i.
pub fn read_id(list: &[u8], i: usize) -> u64
    requires { i * record_size + record_size ≤ length list.now }
    ensures { result ≡ (record_at list.now i).id }
{
    fixed::read_be64(list, i * RECORD + 4)
}

// The size of record i's slice.
pub fn read_size(list: &[u8], i: usize) -> u32
    requires { i * record_size + record_size ≤ length list.now }
    ensures { result ≡ (record_at list.now i).size }
{
    fixed::read_be32(list, i * RECORD + 12)
}

// The slice offset of record i's first byte.
pub fn read_off(list: &[u8], i: usize) -> u32
    requires { i * record_size + record_size ≤ length list.now }
    ensures { result ≡ (record_at list.now i).off }
{
    fixed::read_be32(list, i * RECORD + 16)
}

// The number of positions of record i.
pub fn read_len(list: &[u8], i: usize) -> u32
    requires { i * record_size + record_size ≤ length list.now }
    ensures { result ≡ (record_at list.now i).len }
{
    fixed::read_be32(list, i * RECORD + 20)
}

// Record i.
pub fn read_record(list: &[u8], i: usize) -> Record
    requires { i * record_size + record_size ≤ length list.now }
    ensures { result ≡ record_at list.now i }
{
    let pos = read_pos(list, i);
    let id = read_id(list, i);
    let size = read_size(list, i);
    let off = read_off(list, i);
    let len = read_len(list, i);
    Record {
        pos,
        id,
        size,
        off,
        len,
    }
}

// Writes a record's bytes from `at`.
pub fn write_record(out: &mut [u8], at: usize, r: Record)
    requires { at + record_size ≤ length out.old }
    ensures { out.new ≡ splice out.old at (encode r) }
{
    fixed::write_be32(out, at, r.pos);
    fixed::write_be64(out, at + 4, r.id);
    fixed::write_be32(out, at + 12, r.size);
    fixed::write_be32(out, at + 16, r.off);
    fixed::write_be32(out, at + 20, r.len);
}
