// The blocks of a slice.
#![tactic(auto)]

ghost use Rattle.std.specs.Prelude.{◌≡◌, true, ◌^◌, ◌<◌};
ghost use Rattle.blocks.specs.Blocks.{block_allowed};

// The smallest and the largest block size.
pub const SMALLEST: u64 = 65536;

pub const LARGEST: u64 = 16777216;

// Whether a block size is allowed. The largest is a power of two, so that the powers of two up to it are its divisors.
pub fn block_allowed(block: u64) -> bool
    ensures { result ≡ block_allowed block }
{
    SMALLEST <= block && block <= LARGEST && LARGEST % block == 0
}

// Of which power of two an allowed block size is.
pub fn bits_of(block: u32) -> u32
    requires { block_allowed block ≡ true }
    ensures { (block ≡ 2 ^ result) × (result < 32) }
{
    block.ilog2()
}
