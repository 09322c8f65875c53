// The lengths of chunk keys.
// The bytes of the two words of a Redis key.
pub(crate) const REDIS_WORDS: usize = 2;

// The bytes of a TKV key.
pub(crate) const TKV: usize = 14;
