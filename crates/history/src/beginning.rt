// Whether a list is a beginning of another.
ghost use Rattle.std.specs.Prelude.{◌≡◌, ◌&&◌, ◌*◌, ◌<◌, ◌≤◌, eqb, length};
ghost use Rattle.slices.specs.Limits.{record_size};
ghost use Rattle.history.specs.History.{begins};
ghost use Rattle.history.specs.Inner.{UpTo};

use slices::RECORD;

// So many of the first records are compared one by one.
const FIRST: usize = 8;

// 0 as long as no two bytes differ.
fn differing(so_far: u8, a: u8, b: u8) -> u8
    ensures { eqb result 0 ≡ (eqb so_far 0 && eqb a b) }
{
    if a != b {
        return 1;
    }
    so_far
}

// Whether a text begins with the given bytes. It looks at all of them, so that the compiler can take many at a time. The library's `starts_with` reads some bytes twice.
fn same(bytes: &[u8], text: &[u8]) -> bool
    requires { length bytes.now ≤ length text.now }
    ensures { result ≡ begins bytes.now text.now }
{
    let n = bytes.len();
    let mut differ = 0u8;
    for i in 0..n {
        differ = differing(differ, bytes[i], text[i]);
    }
    differ == 0
}

// Up to where the bytes from i on are compared next: each time more than all before, so that not much is read behind a difference.
fn next_end(i: usize, n: usize) -> usize
    requires { i < n }
    ensures { (i < result) × (result ≤ n) }
{
    if n - i <= FIRST * RECORD {
        return n;
    }
    if n - i - FIRST * RECORD <= i {
        return n;
    }
    i + i + FIRST * RECORD
}

// How many of a list's first records are compared one by one.
fn few(records: usize) -> usize
    ensures { result ≤ records }
{
    records.min(FIRST)
}

// Whether the first m records are the same, one by one: the compiler knows the length of a record, so that short lists are quick.
fn first_same(older: &[u8], newer: &[u8], m: usize) -> bool
    requires record_size_in_bounds { m * record_size ≤ length older.now }
    requires older_in_bounds { length older.now ≤ length newer.now }
    ensures { UpTo older.now newer.now 0 (m * record_size) result }
{
    for k in 0..m {
        let i = k * RECORD;
        if !same(&older[i..i + RECORD], &newer[i..]) {
            return false;
        }
    }
    true
}

// Whether the older list is a beginning of the newer one.
pub(crate) fn begins(older: &[u8], newer: &[u8]) -> bool
    ensures { result ≡ begins older.now newer.now }
{
    let n = older.len();
    if newer.len() < n {
        return false;
    }
    let m = few(n / RECORD);
    if !first_same(older, newer, m) {
        return false;
    }
    let mut i = m * RECORD;
    while i < n {
        let j = next_end(i, n);
        if same(&older[i..j], &newer[i..]) {
            i = j;
        } else {
            return false;
        }
    }
    true
}
