// The C interface: each call under a C name, with its answer as a struct of numbers. On success `refusal` is 0; a field without
// meaning is 0.
#![tactic(auto)]

mod answers;
mod changes;
mod compacting;
mod filing;
mod judges;
mod lists;
mod naming;
mod reading;
mod seeks;
mod steps;

// What a call that counts or writes answers.
#[repr(C)]
#[derive(Clone, Copy)]
pub struct Plain {
    pub refusal: u64,
    pub place: u64,
    pub count: u64,
}

// What a plan across a file answers: `index` is the chunk index of the refused list.
#[repr(C)]
#[derive(Clone, Copy)]
pub struct Filed {
    pub refusal: u64,
    pub place: u64,
    pub index: u64,
    pub count: u64,
}

// What is said of a plan: `verdict` is 1 where it is accepted, 2 where a piece is wrong in itself and 3 where a byte is missing or doubled; `at` is the
// number of that piece, or the place of that byte, and `index` the chunk index of the refused list.
#[repr(C)]
#[derive(Clone, Copy)]
pub struct Judged {
    pub refusal: u64,
    pub place: u64,
    pub index: u64,
    pub verdict: u64,
    pub at: u64,
}

// What comes next in a read of one chunk: `finished` is 1 where nothing is left, and `next` is the next place; the others are the piece.
#[repr(C)]
#[derive(Clone, Copy)]
pub struct Next {
    pub refusal: u64,
    pub place: u64,
    pub finished: u64,
    pub next: u64,
    pub mark: u64,
    pub index: u64,
    pub at: u64,
    pub id: u64,
    pub block: u64,
    pub block_len: u64,
    pub in_block: u64,
    pub len: u64,
}

// The same for a read across a file: `list_index` is the chunk index of the refused list.
#[repr(C)]
#[derive(Clone, Copy)]
pub struct FileNext {
    pub refusal: u64,
    pub place: u64,
    pub list_index: u64,
    pub finished: u64,
    pub next: u64,
    pub mark: u64,
    pub index: u64,
    pub at: u64,
    pub id: u64,
    pub block: u64,
    pub block_len: u64,
    pub in_block: u64,
    pub len: u64,
}

// What compaction answers: the counts of the plan's bytes and of the new list's.
#[repr(C)]
#[derive(Clone, Copy)]
pub struct Compact {
    pub refusal: u64,
    pub place: u64,
    pub plan: u64,
    pub list: u64,
}

// What an object name names; `volume` is the length of the volume name at its front, 0 for a short name.
#[repr(C)]
#[derive(Clone, Copy)]
pub struct Object {
    pub refusal: u64,
    pub place: u64,
    pub id: u64,
    pub block: u64,
    pub length: u64,
    pub volume: u64,
}

// What a chunk key names.
#[repr(C)]
#[derive(Clone, Copy)]
pub struct Chunk {
    pub refusal: u64,
    pub place: u64,
    pub inode: u64,
    pub index: u64,
}

// The segment of a view that holds a position: `found` is 1 where there is one, and then `segment` is its number in the view.
#[repr(C)]
#[derive(Clone, Copy)]
pub struct Found {
    pub refusal: u64,
    pub place: u64,
    pub found: u64,
    pub segment: u64,
    pub pos: u64,
    pub id: u64,
    pub size: u64,
    pub off: u64,
    pub len: u64,
}

// What is new in a list: `rewritten` is 1 where it was rewritten; `offset` and `length` are the part of the newer list.
#[repr(C)]
#[derive(Clone, Copy)]
pub struct Part {
    pub refusal: u64,
    pub place: u64,
    pub rewritten: u64,
    pub offset: u64,
    pub length: u64,
}
