// Prints the view of the slice list in the file list.bin, or why there is none.
#![tactic(auto)]

ghost use Rattle.std.specs.Prelude.{length, ◌≡◌};
ghost use Rattle.listing.specs.Calls.{text_room};
ghost use Rattle.listing.specs.Listing.{file_limit};
ghost use Rattle.show.specs.Inner.{Within, Holds};

use std::fs::File;
use std::io;
use std::io::Read;

// Reads a whole file into a buffer, and asks for one byte more once the buffer is full: how many bytes it has, or none where these are more than the
// buffer holds.
fn read_file<R: Read>(file: &mut R, buf: &mut [u8]) -> io::Result<Option<usize>>
    ensures within { Within (length buf.new) result }
    ensures bytes { Holds (R.remaining file.old) buf.new result }
{
    let mut done = 0;
    while done < buf.len() {
        let n = file.read(&mut buf[done..])?;
        if n == 0 {
            return Ok(Some(done));
        }
        done += n;
    }
    let mut more = [0u8; 1];
    match file.read(&mut more)? {
        0 => Ok(Some(done)),
        _ => Ok(None),
    }
}

// A buffer for a list.
fn list_buffer() -> [u8; listing::FILE]
    ensures { file_limit ≡ length result }
{
    [0; listing::FILE]
}

// A buffer for a listing. The `ensures` gives only the length, which lending the array as a slice needs.
fn text_buffer() -> [u8; listing::TEXT]
    ensures { text_room ≡ length result }
{
    [0; listing::TEXT]
}

// Writes a text to standard output. The program ends with status 0, so where not all of it could be written, a line on standard error says so.
fn put(rt: &(impl Print + Eprint), text: &[u8]) {
    if rt.write_all(text).is_err() {
        let _ = rt.eprintln("not all of the view could be written");
    }
}

// Prints the listing of a list, by way of a buffer for its text.
fn print(rt: &(impl Print + Eprint), list: &[u8], longer: bool, text: &mut [u8]) {
    if let Ok(n) = listing::text(list, longer, text) {
        if n <= text.len() {
            put(rt, &text[..n]);
        }
    }
}

fn main(rt: HostRuntime) {
    let mut file = match File::open(&rt, "list.bin") {
        Ok(file) => file,
        Err(_) => return put(&rt, b"no list\n"),
    };
    let mut list = list_buffer();
    let input = read_file(&mut file, &mut list);
    drop(file);
    let mut text = text_buffer();
    match input {
        Ok(Some(n)) => print(&rt, &list[..n], false, &mut text),
        Ok(None) => print(&rt, &list, true, &mut text),
        Err(_) => put(&rt, b"no list\n"),
    }
}
