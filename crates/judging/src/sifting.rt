// The first piece of a plan that is wrong in itself, in whatever order the pieces stand: list by list, so that each is resolved once.
ghost use Rattle.std.specs.Prelude.{◌≡◌, false, ◌+◌, ◌/◌, ◌^◌, ◌<◌, ◌≤◌, length};
ghost use Rattle.slices.specs.Record.{records};
ghost use Rattle.plans.specs.Piece.{piece_size};
ghost use Rattle.codec.specs.All.{All};
ghost use Rattle.joined.specs.Lists.{total, parts};
ghost use Rattle.files.specs.Inner.{Fits};
ghost use Rattle.files.specs.Limits.{max_lists};
ghost use Rattle.judging.specs.Inner.{piece_at, formed, Formed, Sifts, Sifted};

use crate::{pieces, places};
use files::parts;
use plans::PIECE;
use plans::shifts::BlockSize;
use resolve::room::Room;
use resolve::segments::Resolved;
use slices::CHUNK;

// The number of the first piece whose own numbers tell that it is wrong; as many as there are whole ones where there is none.
pub(crate) fn first_misformed(plan: &[u8], first: u32, from: u32, n: u32) -> usize
    requires { from + n ≤ 2 ^ 30 }
    ensures upper_bound { (result ≤ length plan.now / piece_size) × Formed first from n plan.now result }
    ensures result_value { result < length plan.now / piece_size → formed first from n (piece_at plan.now result) ≡ false }
{
    let whole = plan.len() / PIECE;
    for i in 0..whole {
        if !pieces::is_formed(pieces::read_piece(plan, i * PIECE), first, from, n) {
            return i;
        }
    }
    whole
}

// Of the pieces below `limit`, all of them formed, the first of chunk k that does not lie in its resolved list where it says; `limit` where there is
// none.
fn sift_on(
    r: &Resolved,
    k: u32,
    first: u32,
    from: u32,
    n: u32,
    block: BlockSize,
    plan: &[u8],
    limit: usize,
) -> usize
    requires n_bound { (from + n ≤ 2 ^ 30) }
    requires limit_in_bounds { (limit ≤ length plan.now / piece_size) × Formed first from n plan.now limit }
    ensures { Sifts from block.bytes k (records r.now.list.now) plan.now limit result }
{
    let mut near = 0;
    for i in 0..limit {
        let p = pieces::read_piece(plan, i * PIECE);
        let at = from + p.place;
        if at / CHUNK == k {
            let q = at % CHUNK;
            if let Some(segment) = places::meet(r, near, q, q + p.len, block, p) {
                near = segment;
            } else {
                return i;
            }
        }
    }
    limit
}

// The same over the list as it is. It is resolved only where the read has bytes of chunk k.
fn sift_list(
    list: &[u8],
    k: u32,
    first: u32,
    from: u32,
    n: u32,
    block: BlockSize,
    plan: &[u8],
    limit: usize,
    room: &mut Room,
) -> usize
    requires resolvable { Fits room.old.records list.now }
    requires k_lt_max_lists { (k < max_lists) × (from + n ≤ 2 ^ 30) }
    requires limit_in_bounds { (limit ≤ length plan.now / piece_size) × Formed first from n plan.now limit }
    ensures sifts { Sifts from block.bytes k (records list.now) plan.now limit result }
    ensures room_after { room.new.records ≡ room.old.records }
{
    let part = parts::part(from, from + n, k);
    if part.end <= part.from {
        return limit;
    }
    let segments = room.resolve(list);
    let r = room.resolved(list, segments);
    sift_on(&r, k, first, from, n, block, plan, limit)
}

// The same over all lists.
pub(crate) fn sift_all(
    lists: &[u8],
    lengths: &[u64],
    first: u32,
    from: u32,
    n: u32,
    block: BlockSize,
    plan: &[u8],
    limit: usize,
    room: &mut Room,
) -> usize
    requires lengths_value { (total lengths.now ≡ length lists.now) × All (Fits room.old.records) (parts lengths.now lists.now) }
    requires lengths_len_bound { (length lengths.now ≤ max_lists) × (from + n ≤ 2 ^ 30) }
    requires limit_in_bounds { (limit ≤ length plan.now / piece_size) × Formed first from n plan.now limit }
    ensures { Sifted first from n block.bytes (parts lengths.now lists.now) plan.now limit result }
{
    let mut left = limit;
    let mut at = 0;
    for (k, len) in lengths.iter().enumerate() {
        let stop = at + *len as usize;
        left = sift_list(
            &lists[at..stop],
            k as u32,
            first,
            from,
            n,
            block,
            plan,
            left,
            room,
        );
        at = stop;
    }
    left
}
