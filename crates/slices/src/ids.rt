// The ids of a list.
ghost use Rattle.std.specs.Prelude.{◌≡◌};
ghost use Rattle.slices.specs.Ids.{stands};
ghost use Rattle.slices.specs.Record.{records};

use crate::{RECORD, records};

// Whether an id stands in a record of the list.
pub fn stands(list: &[u8], id: u64) -> bool
    ensures { result ≡ stands id (records list.now) }
{
    let n = list.len() / RECORD;
    (0..n).any(|i| records::read_id(list, i) == id)
}
