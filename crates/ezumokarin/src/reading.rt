// The read plan.
ghost use Rattle.std.specs.Prelude.{◌≡◌, length};
ghost use Rattle.outcomes.specs.Answers.{buffer};
ghost use Rattle.plans.specs.Calls.{read_outcome};
ghost use Rattle.ezumokarin.specs.Plain.{wrote};

use crate::Plain;

// plans::read_plan.
#[unsafe(no_mangle)]
pub extern "C" fn ezk_read_plan(
    list: &[u8],
    index: u64,
    chunk_len: u64,
    block_size: u64,
    start: u64,
    count: u64,
    out: &mut [u8],
) -> Plain
    ensures value { result ≡ wrote (read_outcome list.now index chunk_len block_size start count (length out.old)) }
    ensures out_after { out.new ≡ buffer (read_outcome list.now index chunk_len block_size start count (length out.old)) out.old }
{
    Plain::from(plans::read_plan(list, index, chunk_len, block_size, start, count, out))
}
