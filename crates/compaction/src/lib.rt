// Compaction: the first records of a list give way to one record of a new slice.
#![tactic(auto)]

mod ends;
mod ids;
mod new_list;

ghost use Rattle.std.specs.Prelude.{◌-◌, ◌≤◌, length};
ghost use Rattle.codec.specs.All.{All};
ghost use Rattle.outcomes.specs.Answers.{Answers};
ghost use Rattle.outcomes.specs.Outcome.{done, first_of, delivered};
ghost use Rattle.plans.specs.Piece.{chunk_bytes};
ghost use Rattle.plans.specs.Plan.{pieces};
ghost use Rattle.slices.specs.Accepts.{Accepts};
ghost use Rattle.slices.specs.Limits.{chunk, max_records};
ghost use Rattle.slices.specs.Passes.{Passes};
ghost use Rattle.slices.specs.Record.{count, records};
ghost use Rattle.compaction.specs.Calls.{both, delivered_both, later_rows, compact_outcome, Compacts};

use blocks::block_allowed;
use outcomes::{Kind, Refusal};
use plans::rooms;
use plans::shifts::BlockSize;
use slices::{MAX_INDEX, RECORD, check};

// What was written: the numbers of bytes of the plan and of the new list.
#[derive(Clone, Copy)]
pub struct Compacted {
    pub plan: usize,
    pub list: usize,
}

// Answers with the pieces of the positions from `from` up to `end` of a list, each with the index of its chunk.
fn planned(
    list: &[u8],
    from: u32,
    end: u32,
    block: BlockSize,
    index: u32,
    plan: &mut [u8],
) -> Result<usize, Refusal>
    requires all { All Passes (records list.now) }
    requires list_bound { (count list.now ≤ max_records) × (from ≤ end) × (end ≤ chunk) }
    ensures { Answers (delivered (chunk_bytes index 0 (pieces block.bytes (records list.now) from (end - from))) (length plan.old)) plan.old result plan.new }
{
    let n = list.len() / RECORD;
    if n <= 32 {
        return rooms::sized::<32, 66, 65>(list, from, end, block, index, plan);
    }
    rooms::many(list, from, end, block, index, plan)
}

// Answers with the plan and the new list of a compaction that is not refused before: both lengths are known before either buffer is touched.
fn compact_first(
    list: &[u8],
    index: u32,
    block: BlockSize,
    k: usize,
    new_id: u64,
    plan: &mut [u8],
    new_list: &mut [u8],
) -> Result<Compacted, Refusal>
    requires accepts { Accepts list.now }
    requires k_bound { k ≤ count list.now }
    ensures { Compacts (delivered_both (both index block.bytes (records list.now) k new_id) (length plan.old) (length new_list.old)) plan.old new_list.old result plan.new new_list.new }
{
    let cut = k * RECORD;
    let firsts = &list[..cut];
    let span = ends::span(firsts);
    let from = span.from;
    let end = span.end;
    let list_bytes = new_list::stand_in_bytes(from, end, new_id) + (list.len() - cut);
    if new_list.len() < list_bytes {
        return Err(Refusal::from(Kind::ShortBuffer));
    }
    let plan_bytes = planned(firsts, from, end, block, index, plan)?;
    new_list::write_list(list, cut, from, end, new_id, new_list);
    Ok(Compacted {
        plan: plan_bytes,
        list: list_bytes,
    })
}

// Compacts an accepted list.
fn compact_accepted(
    list: &[u8],
    index: u32,
    block: BlockSize,
    k: u64,
    new_id: u64,
    plan: &mut [u8],
    new_list: &mut [u8],
) -> Result<Compacted, Refusal>
    requires accepts { Accepts list.now }
    ensures { Compacts (first_of (later_rows (records list.now) index block.bytes k new_id (length plan.old) (length new_list.old)) (done (both index block.bytes (records list.now) k new_id))) plan.old new_list.old result plan.new new_list.new }
{
    if ((list.len() / RECORD) as u64) < k {
        return Err(Refusal::from(Kind::TooFew));
    }
    if ids::in_use(list, new_id) {
        return Err(Refusal::from(Kind::IdInUse));
    }
    compact_first(list, index, block, k as usize, new_id, plan, new_list)
}

// Writes the plan by which the first k records of a list, of the chunk with the given index, are copied into a new slice, with objects of the given
// block size, and the new list, in which one record of that slice stands for them.
pub fn compact(
    list: &[u8],
    index: u64,
    block_size: u64,
    k: u64,
    new_id: u64,
    plan: &mut [u8],
    new_list: &mut [u8],
) -> Result<Compacted, Refusal>
    ensures { Compacts (compact_outcome list.now index block_size k new_id (length plan.old) (length new_list.old)) plan.old new_list.old result plan.new new_list.new }
{
    if MAX_INDEX < index {
        return Err(Refusal::from(Kind::WrongChunks));
    }
    if !block_allowed(block_size) {
        return Err(Refusal::from(Kind::BlockSize));
    }
    check::check_list(list)?;
    let block = BlockSize::of(block_size as u32);
    compact_accepted(list, index as u32, block, k, new_id, plan, new_list)
}
