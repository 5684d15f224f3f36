// The payloads of the queued messages in one lent table of 32,768 bytes: of each peer an area of 4,096, in which they
// stand one behind another from its start, in the order of its queue.

#![tactic(auto)]

ghost use Rattle.std.specs.Prelude.{◌≡◌, ◌+◌, ◌*◌, ◌<◌, ◌≤◌, length};
ghost use Rattle.rings.specs.Lent.{viewed};
ghost use Rattle.rings.specs.Rings.{peers, ring_size, rings_of, QueueTables, length_of, queue_of};
ghost use Rattle.pool.specs.Pool.{area_size, pool_size, piece_of, appended, closed, bytes_in, kept, kept_piece, kept_pieces};

use ids::{AREA, Peer};
use rings::{DESTROYED, Entry, Match, RELEASED, RingView};

// The n bytes from a place of a peer's area on.
#[tactic(auto, unfolding(crate::specs::Pool::piece_of))]
pub fn piece(pool: &[u8], p: Peer, at: usize, n: usize) -> &[u8]
    requires { (length pool.now ≡ pool_size) × (p.0 < peers) × (at + n ≤ area_size) }
    ensures { result.now ≡ piece_of pool.now p.0 at n }
{
    let from = p.0 * AREA + at;
    &pool[from..from + n]
}

// A payload stored behind the bytes that a peer's area uses.
#[tactic(auto, unfolding(crate::specs::Pool::appended))]
pub fn append(pool: &mut [u8], p: Peer, used: usize, bytes: &[u8])
    requires { (p.0 < peers) × (used ≤ area_size) }
    ensures { pool.new ≡ appended pool.old p.0 used bytes.now }
{
    copies::put(pool, p.0 * AREA + used, bytes);
}

// The n bytes from a place on taken out of those used: what stands behind them moves down.
#[tactic(auto, unfolding(crate::specs::Pool::closed, crate::specs::Pool::piece_of))]
pub fn close(pool: &mut [u8], p: Peer, at: usize, n: usize, used: usize)
    requires { (p.0 < peers) × (at + n ≤ used) × (used ≤ area_size) }
    ensures { pool.new ≡ closed pool.old p.0 at n used }
{
    let to = p.0 * AREA + at;
    copies::down(pool, to, to + n, used - (at + n));
}

// The payload bytes of an entry: a notice has none.
#[tactic(auto, unfolding(crate::specs::Pool::bytes_in))]
fn bytes_in(e: Entry) -> usize
    ensures { (result ≡ bytes_in e) × (result < 65536) }
{
    match e.kind {
        DESTROYED | RELEASED => 0,
        _ => usize::from(e.nb),
    }
}

// The payload of one entry moves behind those that stay, unless the entry is taken out. The place behind those that stay now.
#[tactic(auto, unfolding(crate::specs::Pool::kept_piece, crate::specs::Pool::piece_of))]
fn keep_piece(pool: &mut [u8], p: Peer, read: usize, at: usize, e: Entry, m: Match) -> usize
    requires { (p.0 < peers) × (at ≤ read) × (read ≤ ring_size * 65535) }
    ensures { kept result pool.new ≡ kept_piece pool.old p.0 read at m e }
{
    if rings::is_match(m, e) {
        return at;
    }
    let n = bytes_in(e);
    let base = p.0 * AREA;
    copies::down(pool, base + at, base + read, n);
    at + n
}

// The payloads of the entries that a removal takes out of a queue are taken out; the others move down, in order. How many bytes stay.
pub fn remove(pool: &mut [u8], rings: &RingView<'_>, p: Peer, m: Match) -> usize
    requires { (p.0 < peers) × (length_of rings.now.ends.now p.0 ≤ ring_size) }
    ensures { let queues = viewed rings.now in
        kept result pool.new ≡ kept_pieces pool.old p.0 0 0 m (queue_of queues p.0) }
{
    let head = rings.head(p);
    let len = rings.len(p);
    let mut read = 0;
    let mut stays = 0;
    for i in 0..len {
        let row = rings::row_of(p, head, i);
        let e = rings.entry(row);
        stays = keep_piece(pool, p, read, stays, e, m);
        read += bytes_in(e);
    }
    stays
}
