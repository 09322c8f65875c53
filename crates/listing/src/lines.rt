// Lines of text: a record's, a refusal's, and those of a view.
ghost use Rattle.std.specs.Prelude.{◌≡◌, ◌++◌, ◌+◌, ◌*◌, ◌/◌, ◌≤◌, length};
ghost use Rattle.codec.specs.Splice.{splice};
ghost use Rattle.slices.specs.Limits.{record_size};
ghost use Rattle.slices.specs.Record.{records};
ghost use Rattle.listing.specs.Listing.{file_limit, header, field, line, lines, refused_line};
ghost use Rattle.listing.specs.Calls.{field_room, line_room, text_room};

use codec::{decimal, put};
use outcomes::Refusal;
use slices::{RECORD, Record, records};

// Puts n in decimal and a byte after it.
fn put_field(out: &mut [u8], at: usize, n: u64, after: u8) -> usize
    requires { at + field_room ≤ length out.old }
    ensures { (result ≡ at + length (field n after)) × (result ≤ at + field_room) × (out.new ≡ splice out.old at (field n after)) }
{
    let end = decimal::put_decimal(out, at, n);
    out[end] = after;
    end + 1
}

// Puts a record's line.
fn put_line(out: &mut [u8], at: usize, r: Record) -> usize
    requires { at + line_room ≤ length out.old }
    ensures { (result ≡ at + length (line r)) × (result ≤ at + line_room) × (out.new ≡ splice out.old at (line r)) }
{
    let a = put_field(out, at, r.pos as u64, b' ');
    let b = put_field(out, a, r.id, b' ');
    let c = put_field(out, b, r.size as u64, b' ');
    let d = put_field(out, c, r.off as u64, b' ');
    put_field(out, d, r.len as u64, b'\n')
}

// Puts the header and the lines of a view, and answers how many bytes they are.
pub(crate) fn put_view(out: &mut [u8], view: &[u8]) -> usize
    requires view_len_bound { length view.now ≤ file_limit }
    requires text_room_in_bounds { text_room ≤ length out.old }
    ensures { (result ≡ length (header ++ lines (records view.now))) × (out.new ≡ splice out.old 0 (header ++ lines (records view.now))) }
{
    let start = put::put(out, 0, b"pos id size off len\n");
    put_lines(out, start, view)
}

// Puts the lines of a view from `at`, and answers the place after them.
fn put_lines(out: &mut [u8], start: usize, view: &[u8]) -> usize
    requires { start + length view.now / record_size * line_room ≤ length out.old }
    ensures { (result ≡ start + length (lines (records view.now))) × (out.new ≡ splice out.old start (lines (records view.now))) }
{
    let n = view.len() / RECORD;
    let mut at = start;
    for i in 0..n {
        at = put_line(out, at, records::read_record(view, i));
    }
    at
}

// Puts a refusal's line, and answers how many bytes it is.
pub(crate) fn put_refused(out: &mut [u8], r: Refusal) -> usize
    requires { text_room ≤ length out.old }
    ensures { (result ≡ length (refused_line r)) × (out.new ≡ splice out.old 0 (refused_line r)) }
{
    let a = put::put(out, 0, b"refused ");
    let b = decimal::put_decimal(out, a, r.number() as u64);
    let c = put::put(out, b, b" at ");
    put_field(out, c, r.place() as u64, b'\n')
}
