// The record of a run as bytes: what the list has of it is copied, field by field, with a read before each write. So the compiler makes
// one store of each field.
ghost use Rattle.std.specs.Prelude.{◌≡◌, true, cond, ◌+◌, ◌*◌, ◌<◌, ◌≤◌, length};
ghost use Rattle.codec.specs.All.{All};
ghost use Rattle.codec.specs.Splice.{splice};
ghost use Rattle.slices.specs.Cover.{cover};
ghost use Rattle.slices.specs.Limits.{record_size};
ghost use Rattle.slices.specs.Passes.{Passes};
ghost use Rattle.slices.specs.Record.{record_at, records, encode};
ghost use Rattle.resolve.specs.Resolved.{OnTop};
ghost use Rattle.views.specs.View.{as_record};
ghost use Rattle.resolve.specs.Tops.{size_at, off_at};
ghost use Rattle.views.specs.Inner.{head};

use codec::fixed;
use resolve::tops;
use slices::records;

// Puts the record of uncovered positions from p on, but for its len.
fn put_hole(p: u32, len: u32, out: &mut [u8], at: usize)
    requires { at + record_size ≤ length out.old }
    ensures { out.new ≡ splice out.old at (head p 0 len 0) }
{
    fixed::write_be32(out, at, p);
    fixed::write_be64(out, at + 4, 0);
    fixed::write_be32(out, at + 12, len);
    fixed::write_be32(out, at + 16, 0);
}

// Puts the record of positions from p on that record i gives, but for its len.
fn put_given(list: &[u8], i: usize, p: u32, out: &mut [u8], at: usize)
    requires record_size_in_bounds { i * record_size + record_size ≤ length list.now }
    requires passes { Passes (record_at list.now i) }
    requires i_bound { ((record_at list.now i).pos ≤ p) × (p < (record_at list.now i).pos + (record_at list.now i).len) }
    requires record_size_in_bounds_2 { at + record_size ≤ length out.old }
    ensures { out.new ≡ splice out.old at (head p (record_at list.now i).id (size_at (record_at list.now i)) (off_at (record_at list.now i) p)) }
{
    fixed::write_be32(out, at, p);
    fixed::write_be64(out, at + 4, records::read_id(list, i));
    fixed::write_be32(out, at + 12, tops::size_at(list, i));
    fixed::write_be32(out, at + 16, tops::off_at(list, i, p));
}

// Puts the record of a run of len positions from p on, where the record `top`, counted from 1, lies on top of p.
fn put_run(list: &[u8], top: u16, p: u32, len: u32, out: &mut [u8], at: usize)
    requires all { All Passes (records list.now) }
    requires on_top { OnTop list.now top p (p + 1) }
    requires record_size_in_bounds { at + record_size ≤ length out.old }
    ensures { out.new ≡ splice out.old at (encode (as_record p len (cover (records list.now) p))) }
{
    fixed::write_be32(out, at + 20, len);
    if top == 0 {
        put_hole(p, len, out, at);
        return;
    }
    put_given(list, tops::wide(top) - 1, p, out, at);
}

// The same where it is to be written; else the buffer stays.
pub(crate) fn put_if(
    write: bool,
    list: &[u8],
    top: u16,
    p: u32,
    len: u32,
    out: &mut [u8],
    at: usize,
)
    requires all { All Passes (records list.now) }
    requires on_top { OnTop list.now top p (p + 1) }
    requires record_size_in_bounds { write ≡ true → at + record_size ≤ length out.old }
    ensures { out.new ≡ cond write (splice out.old at (encode (as_record p len (cover (records list.now) p)))) out.old }
{
    if write {
        put_run(list, top, p, len, out, at);
    }
}
