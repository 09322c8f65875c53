// Slice records of a chunk, which lists of them are refused, and where each byte of the chunk comes from.
#![tactic(auto)]

pub mod check;
pub mod cover;
pub mod ids;
pub mod records;
pub mod sizes;
pub mod tree;

// The bytes of a record.
pub const RECORD: usize = 24;

// The most records that a list may have.
pub const RECORDS: usize = 2048;

// The positions of a chunk.
pub const CHUNK: u32 = 67108864;

// The largest index of a chunk.
pub const MAX_INDEX: u64 = 4294967295;

// A slice record, as JuiceFS metadata v1 stores it.
#[derive(Clone, Copy)]
pub struct Record {
    pub pos: u32,
    pub id: u64,
    pub size: u32,
    pub off: u32,
    pub len: u32,
}

// Where a byte of the chunk comes from. The requirements name the three cases, and that they are an enum.
#[derive(Clone, Copy)]
pub enum Source {
    Nothing,
    Zero,
    Byte { id: u64, size: u32, off: u32 },
}
