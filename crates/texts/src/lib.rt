// Texts of a fixed form: made in a buffer, and read part by part.
#![tactic(auto)]

pub mod scan;
pub mod text;

// The largest 64-bit number: of ids and inodes.
pub const MAX_NUMBER: u64 = 18446744073709551615;
