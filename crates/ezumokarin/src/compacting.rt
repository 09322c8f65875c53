// Compaction.
ghost use Rattle.std.specs.Prelude.{◌≡◌, length};
ghost use Rattle.compaction.specs.Calls.{compact_outcome};
ghost use Rattle.ezumokarin.specs.Compact.{wrote_both, plan_buffer, list_buffer};

use crate::Compact;

// compaction::compact.
#[unsafe(no_mangle)]
pub extern "C" fn ezk_compact(
    list: &[u8],
    index: u64,
    block_size: u64,
    k: u64,
    new_id: u64,
    plan: &mut [u8],
    new_list: &mut [u8],
) -> Compact
    ensures value { result ≡ wrote_both (compact_outcome list.now index block_size k new_id (length plan.old) (length new_list.old)) }
    ensures plan_after { plan.new ≡ plan_buffer (compact_outcome list.now index block_size k new_id (length plan.old) (length new_list.old)) plan.old }
    ensures new_list_after { new_list.new ≡ list_buffer (compact_outcome list.now index block_size k new_id (length plan.old) (length new_list.old)) new_list.old }
{
    Compact::from(compaction::compact(list, index, block_size, k, new_id, plan, new_list))
}
