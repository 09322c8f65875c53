// The object of a position that a record gives, number by number.
ghost use Rattle.std.specs.Prelude.{◌≡◌, ◌≢◌, ◌+◌, ◌*◌, ◌/◌, ◌%◌, ◌^◌, ◌<◌, ◌≤◌, length};
ghost use Rattle.blocks.specs.Blocks.{block_length};
ghost use Rattle.slices.specs.Limits.{record_size};
ghost use Rattle.slices.specs.Passes.{Passes};
ghost use Rattle.slices.specs.Record.{record_at};
ghost use Rattle.plans.specs.Inner.{offset_in};

use crate::shifts;
use crate::shifts::BlockSize;
use resolve::tops;
use slices::records;

// The number of the block.
pub(crate) fn number_at(list: &[u8], i: usize, p: u32, bits: u32) -> u32
    requires record_size_in_bounds { (i * record_size + record_size ≤ length list.now) × (bits < 32) }
    requires passes { Passes (record_at list.now i) }
    requires i_bound { ((record_at list.now i).pos ≤ p) × (p < (record_at list.now i).pos + (record_at list.now i).len) }
    ensures { result ≡ offset_in (record_at list.now i) p / 2 ^ bits }
{
    shifts::number_of(tops::off_in(list, i, p), bits)
}

// The length of the block.
pub(crate) fn length_at(list: &[u8], i: usize, p: u32, block: BlockSize) -> u32
    requires record_size_in_bounds { i * record_size + record_size ≤ length list.now }
    requires passes { Passes (record_at list.now i) × ((record_at list.now i).id ≢ 0) }
    requires i_bound { ((record_at list.now i).pos ≤ p) × (p < (record_at list.now i).pos + (record_at list.now i).len) }
    ensures { result ≡ block_length block.bytes (record_at list.now i).size (offset_in (record_at list.now i) p / block.bytes) }
{
    let size = records::read_size(list, i);
    block.length_of(size, tops::off_in(list, i, p))
}

// The place in the block.
pub(crate) fn place_at(list: &[u8], i: usize, p: u32, block: BlockSize) -> u32
    requires record_size_in_bounds { i * record_size + record_size ≤ length list.now }
    requires passes { Passes (record_at list.now i) × ((record_at list.now i).id ≢ 0) }
    requires i_bound { ((record_at list.now i).pos ≤ p) × (p < (record_at list.now i).pos + (record_at list.now i).len) }
    ensures { result ≡ offset_in (record_at list.now i) p % block.bytes }
{
    block.place_of(tops::off_in(list, i, p))
}
