// Room to resolve a list in: few records take little of it.
ghost use Rattle.std.specs.Prelude.{◌≡◌, ◌+◌, ◌-◌, ◌≤◌, length};
ghost use Rattle.codec.specs.All.{All};
ghost use Rattle.outcomes.specs.Answers.{Answers};
ghost use Rattle.outcomes.specs.Outcome.{delivered};
ghost use Rattle.slices.specs.Limits.{chunk, max_records};
ghost use Rattle.slices.specs.Passes.{Passes};
ghost use Rattle.slices.specs.Record.{records, count};
ghost use Rattle.plans.specs.Piece.{chunk_bytes};
ghost use Rattle.plans.specs.Plan.{pieces};

use crate::shifts::BlockSize;
use crate::walk;
use outcomes::Refusal;
use resolve::segments::Resolved;
use slices::RECORD;

// Resolves the list in a room for at most N records, and answers with the pieces of the positions from `from` up to `end`.
pub fn sized<const N: usize, const MARKS: usize, const TOPS: usize>(
    list: &[u8],
    from: u32,
    end: u32,
    block: BlockSize,
    index: u32,
    out: &mut [u8],
) -> Result<usize, Refusal>
    requires all { All Passes (records list.now) }
    requires list_bound { (count list.now ≤ N) × (from ≤ end) × (end ≤ chunk) }
    requires room { (N ≤ max_records) × (MARKS ≡ N + N + 2) × (TOPS ≡ N + N + 1) }
    ensures { Answers (delivered (chunk_bytes index 0 (pieces block.bytes (records list.now) from (end - from))) (length out.old)) out.old result out.new }
{
    if end <= from {
        return Ok(0);
    }
    let mut marks = [0u32; MARKS];
    let mut tops = [0u16; TOPS];
    let mut pos = [0u64; N];
    let mut ends = [0u32; N];
    let mut order = [0u16; N];
    let mut spare = [0u16; N];
    let segments = resolve::resolve(
        list, &mut marks, &mut tops, &mut pos, &mut ends, &mut order, &mut spare,
    );
    let r = Resolved {
        list,
        marks: &marks,
        tops: &tops,
        segments,
    };
    walk::answer(&r, from, end, block, index, out)
}

// For more than 32 records, or as many as you like.
pub fn many(
    list: &[u8],
    from: u32,
    end: u32,
    block: BlockSize,
    index: u32,
    out: &mut [u8],
) -> Result<usize, Refusal>
    requires all { All Passes (records list.now) }
    requires list_bound { (count list.now ≤ max_records) × (from ≤ end) × (end ≤ chunk) }
    ensures { Answers (delivered (chunk_bytes index 0 (pieces block.bytes (records list.now) from (end - from))) (length out.old)) out.old result out.new }
{
    let n = list.len() / RECORD;
    if n <= 256 {
        return sized::<256, 514, 513>(list, from, end, block, index, out);
    }
    sized::<2048, 4098, 4097>(list, from, end, block, index, out)
}
