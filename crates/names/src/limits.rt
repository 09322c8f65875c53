// The limits on names.
// The largest number of a block.
pub(crate) const MAX_BLOCK: u64 = 1023;

// The most bytes of a block.
pub(crate) const MAX_LENGTH: u64 = 16777216;

// The most bytes of a volume name.
pub(crate) const MAX_VOLUME: usize = 63;

// The bytes of the words of an object name: `chunks/`, and four words of one byte.
pub(crate) const WORDS: usize = 11;
