// A search tree of a list's records by their ids.
//
// A table holds it: first the roots, one for each number that the low bits of an id can be, then eight children for each record. An entry is a record's number
// plus 1, or 0. The search for an id begins at its root and goes on at the child of each record that the id's next three bits say, until it comes to the id or
// to no record. Most ids are alone at their root; those that meet there are told apart on the way down.
ghost use Rattle.std.specs.Prelude.{◌≡◌, ◌<◌, ◌≤◌};
ghost use Rattle.slices.specs.Limits.{max_records};
ghost use Rattle.slices.specs.Record.{record_at, count};
ghost use Rattle.slices.specs.Inner.{FirstOther};
ghost use Rattle.slices.specs.Tree.{root_of, Ends, Room, Entered};

use crate::{RECORD, records};

// A table for up to 256 records, with 512 roots.
const SOME: usize = 256;

const SOME_ROOTS: u64 = 512;

const SOME_TABLE: usize = 2560;

// A table for as many records as a list may have, with 4,096 roots.
const MANY_ROOTS: u64 = 4096;

const MANY_TABLE: usize = 20480;

// Where a search ends: at the record with the id, or at an entry that is 0. An enum of its own, as std's `Entry` is: neither case is a failure.
#[derive(Clone, Copy)]
pub enum Spot {
    Node(usize),
    Free(usize),
}

// The root of an id, by its low bits where the number of roots is a power of two.
fn root_of(roots: u64, id: u64) -> usize
    requires { 0 < roots }
    ensures { (result ≡ root_of roots id) × (result < roots) }
{
    (id & (roots - 1)) as usize
}

// Searches the first i records for an id.
fn search(list: &[u8], table: &[u16], roots: u64, i: usize, id: u64) -> Spot
    requires i_bound { i ≤ count list.now }
    requires room { Room list.now table.now roots i }
    ensures { Ends (record_at list.now) table.now roots i id result }
{
    let mut s = root_of(roots, id);
    // Behind the bits that tell the roots of the smaller table.
    let mut left = id / 512;
    loop {
        let entry = usize::from(table[s]);
        if entry == 0 {
            return Spot::Free(s);
        }
        let node = entry - 1;
        if records::read_id(list, node) == id {
            return Spot::Node(node);
        }
        s = roots as usize + node * 8 + (left % 8) as usize;
        left = left / 8;
    }
}

// Whether record i agrees with the earlier ones. If it does, it is entered into the tree.
fn enter(list: &[u8], table: &mut [u16], roots: u64, i: usize) -> bool
    requires i_bound { i < count list.now }
    requires room { Room list.now table.old roots i }
    ensures { Entered list.now table.new roots i result }
{
    let id = records::read_id(list, i);
    if id == 0 {
        return true;
    }
    match search(list, table, roots, i, id) {
        Spot::Node(node) => records::read_size(list, node) == records::read_size(list, i),
        Spot::Free(s) => {
            table[s] = (i + 1) as u16;
            true
        }
    }
}

// The place of the first record that disagrees with an earlier one, or the number of records, with an empty tree.
fn search_with(list: &[u8], table: &mut [u16], roots: u64) -> usize
    requires { Room list.now table.old roots 0 }
    ensures { FirstOther list.now result }
{
    let n = list.len() / RECORD;
    for i in 0..n {
        if !enter(list, table, roots, i) {
            return i;
        }
    }
    n
}

fn search_some(list: &[u8]) -> usize
    requires { count list.now ≤ 256 }
    ensures { FirstOther list.now result }
{
    let mut table = [0u16; SOME_TABLE];
    search_with(list, &mut table, SOME_ROOTS)
}

fn search_many(list: &[u8]) -> usize
    requires { count list.now ≤ max_records }
    ensures { FirstOther list.now result }
{
    let mut table = [0u16; MANY_TABLE];
    search_with(list, &mut table, MANY_ROOTS)
}

// The same, in a table of the list's size: no large one is cleared for a short list.
pub(crate) fn two_sizes_at(list: &[u8]) -> usize
    requires { count list.now ≤ max_records }
    ensures { FirstOther list.now result }
{
    if list.len() / RECORD <= SOME {
        return search_some(list);
    }
    search_many(list)
}
