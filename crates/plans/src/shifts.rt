// The blocks of a slice by shifting: a block has 2 ^ bits bytes.
ghost use Rattle.std.specs.Prelude.{◌≡◌, true, ◌-◌, ◌/◌, ◌%◌, ◌^◌, ◌<◌, ◌≤◌, eqb};
ghost use Rattle.blocks.specs.Blocks.{block_allowed, block_length};
ghost use Rattle.plans.specs.Inner.{Shifts};

use blocks::bits_of;

// The number of the block that holds a slice offset.
pub(crate) fn number_of(off: u32, bits: u32) -> u32
    requires { bits < 32 }
    ensures { result ≡ off / 2 ^ bits }
{
    off >> bits
}

// The size of a block, and of which power of two it is.
#[derive(Clone, Copy)]
pub struct BlockSize {
    pub bytes: u32,
    pub bits: u32,
    pub ghost shifts: { Shifts bytes bits },
}

impl BlockSize {
    // An allowed block size.
    pub fn of(bytes: u32) -> BlockSize
        requires { block_allowed bytes ≡ true }
        ensures { result.bytes ≡ bytes }
    {
        BlockSize {
            bytes,
            bits: bits_of(bytes),
        }
    }

    // Whether an id is 0. It is set beside a number that the compiler does not know to be 1: for a test against 0 it would read the id byte by byte.
    pub(crate) fn is_none(self, id: u64) -> bool
        ensures { result ≡ eqb id 0 }
    {
        id < number_of(self.bytes, self.bits) as u64
    }

    // The place of a slice offset in its block.
    pub(crate) fn place_of(self, off: u32) -> u32
        ensures { result ≡ off % self.bytes }
    {
        off - number_of(off, self.bits) * self.bytes
    }

    // The length of the block that holds an offset of a slice of the given size.
    pub(crate) fn length_of(self, size: u32, off: u32) -> u32
        requires off_lt_size { off < size }
        ensures { result ≡ block_length self.bytes size (off / self.bytes) }
    {
        let left = size - number_of(off, self.bits) * self.bytes;
        if left < self.bytes { left } else { self.bytes }
    }

    // Of the d bytes from a slice offset on, those that lie in one block with it.
    pub(crate) fn in_block(self, off: u32, d: u32) -> u32
        requires d_nonzero { 0 < d }
        ensures { (0 < result) × (result ≤ d) × (result ≤ self.bytes - off % self.bytes) × (result < d → result ≡ self.bytes - off % self.bytes) }
    {
        let left = self.bytes - self.place_of(off);
        if left < d { left } else { d }
    }
}
