// The record on top of a position, by its number counted from 1; 0 says that there is none. No Option: a table of segments has two bytes for each, so that it fits the stack
// that a call may use.
ghost use Rattle.std.specs.Prelude.{◌≡◌, ℕ, suc, ◌+◌, ◌-◌, ◌*◌, ◌<◌, ◌≤◌, length};
ghost use Rattle.codec.specs.All.{All};
ghost use Rattle.slices.specs.Cover.{cover};
ghost use Rattle.slices.specs.Limits.{record_size};
ghost use Rattle.slices.specs.Passes.{Passes};
ghost use Rattle.slices.specs.Record.{record_at, records, count};
ghost use Rattle.resolve.specs.Resolved.{OnTop};
ghost use Rattle.resolve.specs.Tops.{id_on, size_at, off_at};

use slices::{Source, cover, records};

// A number from an array, as an index.
pub fn wide(x: u16) -> usize
    ensures { result ≡ x }
{
    x as usize
}

// The id of the record on top, counted from 1; 0 where there is none.
pub fn id_on(list: &[u8], top: u16) -> u64
    requires { (i : ℕ) → top ≡ suc i → i < count list.now }
    ensures { result ≡ id_on list.now top }
{
    if top == 0 {
        return 0;
    }
    records::read_id(list, usize::from(top) - 1)
}

// The size that record i gives to the positions that it covers; 0 where it covers them with zeros.
pub fn size_at(list: &[u8], i: usize) -> u32
    requires { i * record_size + record_size ≤ length list.now }
    ensures { result ≡ size_at (record_at list.now i) }
{
    let size = records::read_size(list, i);
    if records::read_id(list, i) == 0 {
        return 0;
    }
    size
}

// How far p lies behind a position. The test, which never holds, keeps the compiler from taking the position apart into bytes.
fn behind(p: u32, pos: u32) -> u32
    requires { pos ≤ p }
    ensures { result ≡ p - pos }
{
    if p < pos {
        return 0;
    }
    p - pos
}

// Its slice offset at a position p that it covers, where it has a slice.
pub fn off_in(list: &[u8], i: usize, p: u32) -> u32
    requires record_size_in_bounds { i * record_size + record_size ≤ length list.now }
    requires passes { Passes (record_at list.now i) }
    requires i_bound { ((record_at list.now i).pos ≤ p) × (p < (record_at list.now i).pos + (record_at list.now i).len) }
    ensures { result ≡ (record_at list.now i).off + (p - (record_at list.now i).pos) }
{
    records::read_off(list, i) + behind(p, records::read_pos(list, i))
}

// The slice offset that record i gives to a position p that it covers; 0 where it covers it with zeros.
pub fn off_at(list: &[u8], i: usize, p: u32) -> u32
    requires record_size_in_bounds { i * record_size + record_size ≤ length list.now }
    requires passes { Passes (record_at list.now i) }
    requires i_bound { ((record_at list.now i).pos ≤ p) × (p < (record_at list.now i).pos + (record_at list.now i).len) }
    ensures { result ≡ off_at (record_at list.now i) p }
{
    let off = off_in(list, i, p);
    if records::read_id(list, i) == 0 {
        return 0;
    }
    off
}

// The source of a position on top of which lies the record `top`, counted from 1.
pub fn source_of(list: &[u8], top: u16, p: u32) -> Source
    requires all { All Passes (records list.now) }
    requires on_top { OnTop list.now top p (p + 1) }
    ensures { result ≡ cover (records list.now) p }
{
    if top == 0 {
        return Source::Nothing;
    }
    let i = usize::from(top) - 1;
    let d = p - records::read_pos(list, i);
    cover::given(list, i, d)
}
