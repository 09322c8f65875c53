// Whether an id is free for a new slice.
ghost use Rattle.std.specs.Prelude.{◌≡◌};
ghost use Rattle.slices.specs.Record.{records};
ghost use Rattle.compaction.specs.Calls.{id_in_use};

use slices::ids;

// Whether an id is 0 or stands in a record of the list.
pub(crate) fn in_use(list: &[u8], id: u64) -> bool
    ensures { result ≡ id_in_use id (records list.now) }
{
    id == 0 || ids::stands(list, id)
}
