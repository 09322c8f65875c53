// The pieces at the front of a plan that stand in order and lie where they say: of most plans that is all of them.
ghost use Rattle.std.specs.Prelude.{◌≡◌, true, ◌+◌, ◌/◌, ◌^◌, ◌≤◌, length};
ghost use Rattle.slices.specs.Record.{records};
ghost use Rattle.coverage.specs.Inner.{InOrder};
ghost use Rattle.plans.specs.Piece.{piece_size};
ghost use Rattle.codec.specs.All.{All};
ghost use Rattle.joined.specs.Lists.{total, parts};
ghost use Rattle.files.specs.Inner.{Fits};
ghost use Rattle.files.specs.Limits.{max_lists};
ghost use Rattle.judging.specs.Inner.{formed, chunk_of, Led, Leads};

use crate::{pieces, places};
use plans::shifts::BlockSize;
use plans::{PIECE, Piece};
use resolve::room::Room;
use resolve::segments::Resolved;
use slices::CHUNK;

// How many pieces they are, and the place behind the last of them.
#[derive(Clone, Copy)]
pub(crate) struct Lead {
    pub(crate) number: usize,
    pub(crate) place: u32,
}

// Whether a piece is the one of chunk k that begins at `place`.
fn comes_next(p: Piece, place: u32, k: u32, first: u32, from: u32, n: u32) -> bool
    requires { from + n ≤ 2 ^ 30 }
    ensures { result ≡ true → (formed first from n p ≡ true) × (p.place ≡ place) × (chunk_of from p ≡ k) }
{
    pieces::is_formed(p, first, from, n) && p.place == place && (from + p.place) / CHUNK == k
}

// Whether piece `number` of a plan is such a piece. It spares a list that is not needed, and nothing is promised of it.
fn is_next(plan: &[u8], number: usize, place: u32, k: u32, first: u32, from: u32, n: u32) -> bool
    requires { (number ≤ length plan.now / piece_size) × (from + n ≤ 2 ^ 30) }
{
    number < plan.len() / PIECE
        && comes_next(
            pieces::read_piece(plan, number * PIECE),
            place,
            k,
            first,
            from,
            n,
        )
}

// Those of chunk k, from piece `number` and `place` on, over its resolved list.
fn lead_on(
    r: &Resolved,
    k: u32,
    first: u32,
    from: u32,
    n: u32,
    block: BlockSize,
    plan: &[u8],
    start: Lead,
) -> Lead
    requires n_bound { (from + n ≤ 2 ^ 30) }
    requires number_in_bounds { (start.number ≤ length plan.now / piece_size) × (start.place ≤ n) × InOrder plan.now start.number start.place }
    ensures { Leads first from n block.bytes k (records r.now.list.now) plan.now start.number result.number result.place }
{
    let whole = plan.len() / PIECE;
    let mut place = start.place;
    let mut near = 0;
    for number in start.number..whole {
        let p = pieces::read_piece(plan, number * PIECE);
        if !comes_next(p, place, k, first, from, n) {
            return Lead { number, place };
        }
        let q = (from + place) % CHUNK;
        let Some(segment) = places::meet(r, near, q, q + p.len, block, p) else {
            return Lead { number, place };
        };
        near = segment;
        place += p.len;
    }
    Lead {
        number: whole,
        place,
    }
}

// The same over the list of chunk k as it is. It is resolved only where a piece is found for it.
fn lead_list(
    list: &[u8],
    k: u32,
    first: u32,
    from: u32,
    n: u32,
    block: BlockSize,
    plan: &[u8],
    start: Lead,
    room: &mut Room,
) -> Lead
    requires resolvable { Fits room.old.records list.now }
    requires n_bound { (from + n ≤ 2 ^ 30) }
    requires number_in_bounds { (start.number ≤ length plan.now / piece_size) × (start.place ≤ n) × InOrder plan.now start.number start.place }
    ensures leads { Leads first from n block.bytes k (records list.now) plan.now start.number result.number result.place }
    ensures room_after { room.new.records ≡ room.old.records }
{
    if is_next(plan, start.number, start.place, k, first, from, n) {
        let segments = room.resolve(list);
        let r = room.resolved(list, segments);
        return lead_on(&r, k, first, from, n, block, plan, start);
    }
    start
}

// Those of all chunks.
pub(crate) fn lead_all(
    lists: &[u8],
    lengths: &[u64],
    first: u32,
    from: u32,
    n: u32,
    block: BlockSize,
    plan: &[u8],
    room: &mut Room,
) -> Lead
    requires lengths_value { (total lengths.now ≡ length lists.now) × All (Fits room.old.records) (parts lengths.now lists.now) }
    requires lengths_len_bound { (length lengths.now ≤ max_lists) × (from + n ≤ 2 ^ 30) }
    ensures { Led first from n block.bytes (parts lengths.now lists.now) plan.now result.number result.place }
{
    let mut led = Lead {
        number: 0,
        place: 0,
    };
    let mut at = 0;
    for (k, len) in lengths.iter().enumerate() {
        let stop = at + *len as usize;
        led = lead_list(
            &lists[at..stop],
            k as u32,
            first,
            from,
            n,
            block,
            plan,
            led,
            room,
        );
        at = stop;
    }
    led
}
