// One slice, one size: what a record has to be compared with.
ghost use Rattle.std.specs.Prelude.{◌≡◌, true, ◌⊎◌, ◌+◌, ◌<◌, ◌≤◌};
ghost use Rattle.slices.specs.Record.{count};
ghost use Rattle.slices.specs.Inner.{Agreed, FirstWith, fell};

use crate::records;

// Stands for the highest id of the records so far, once an id has not risen above those before it. With an `Option` in its place the check of rising ids took
// 6 to 13 % more instructions.
pub(crate) const FELL: u64 = 18446744073709551615;

// The highest id with one record more. Zeros are of no slice, so id 0 may stand anywhere.
pub(crate) fn risen(last: u64, id: u64) -> u64
    ensures { result < fell → (last ≤ result) × (id ≤ result) × ((id ≡ 0) ⊎ (last < id)) }
{
    if last < id {
        return id;
    }
    if id == 0 {
        return last;
    }
    FELL
}

// The first of the records before i that has the id, or i.
fn first_with(list: &[u8], i: usize, id: u64) -> usize
    requires { i ≤ count list.now }
    ensures { FirstWith list.now i id result }
{
    for j in 0..i {
        if records::read_id(list, j) == id {
            return j;
        }
    }
    i
}

// Whether record i has the size of the first record of its slice, and so agrees with all before it if they agree.
pub(crate) fn agrees(list: &[u8], i: usize) -> bool
    requires { i < count list.now }
    ensures { result ≡ true → Agreed list.now i → Agreed list.now (i + 1) }
{
    let id = records::read_id(list, i);
    if id == 0 {
        return true;
    }
    let first = first_with(list, i, id);
    records::read_size(list, first) == records::read_size(list, i)
}
