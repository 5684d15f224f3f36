// Notices: which nodes they are about, in which order, and at which peers they are queued. A set of a peer's slots is a
// number with a bit for each of the 16.

#![tactic(auto)]

ghost use Rattle.std.specs.Prelude.{◌≡◌, ◌<◌, ◌≤◌, ℕ, Bool, length};
ghost use Rattle.rings.specs.Lent.{lent, viewed, SameTables};
ghost use Rattle.laws.specs.Bits.{bits};
ghost use Rattle.rings.specs.Rings.{ring_size, rings_of, one_slot, QueueTables, released_bit};
ghost use Rattle.tables.specs.Handles.{handles_size};
ghost use Rattle.tables.specs.Charges.{charges_size};
ghost use Rattle.notices.specs.Notices.{notice_of, falls_at, above_at, Fair, asks, set_of, lower_of, least_at, posted_to, tells_at};
ghost use Rattle.notices.specs.Notices.{addressees as addressees_bits, addressees_at, addressees_of, told, dead_all, Destroyed};
ghost use Rattle.notices.specs.Notices.{destroyed_of, destroyed_set, told_owners, expired, expired_shown, expired_place, expired_all};
ghost use Rattle.ids.specs.Sizes.{peers as peer_count, nodes_size, slots, most_ids};
ghost use Rattle.model.specs.Numbers.{nodes as node_count};

use ids::{INVALID, NODES, PEERS, Peer, RING, SLOTS};
use rings::{DESTROYED, DESTROYED_BIT, Entry, Match, RELEASED, RELEASED_BIT, RingTables, RingView};

// Which of a peer's slots are asked for: those whose nodes live; those whose sum of counts falls to 1 when a peer's handle
// goes; those of a set whose IDs are above the one of a place.
// An enum, no closure: other crates ask by it, and the contract of `set_of` and its definition `asks` are in its words.
#[derive(Clone, Copy)]
pub enum Asked {
    Living,
    Falling(Peer),
    Above(u16, usize),
}

// A notice about a slot.
pub fn notice(kind: u16, s: usize, n: u64) -> Entry
    requires { s < node_count }
    ensures { result ≡ notice_of kind s n }
{
    Entry {
        kind,
        slot: s as u16,
        user: 0,
        nb: 0,
        nh: 0,
        carried: [0u8; 8],
        number: n,
    }
}

// Does the sum of counts of a live node fall to 1 when the peer's handle goes?
fn falls(nodes: &[u64], handles: &[u64], p: Peer, s: usize) -> bool
    requires { (length nodes.now ≡ nodes_size) × (length handles.now ≡ handles_size) × (p.0 < peer_count) × (s < node_count) }
    ensures { result ≡ falls_at nodes.now handles.now p.0 s }
{
    if !tables::is_live(nodes, s) {
        return false;
    }
    let c = tables::count_of(handles, p, s);
    if c == 0 {
        return false;
    }
    tables::total(handles, s) == c + 1
}

// Is the ID of the peer's own slot at the place k above the one at the place j, and k in the set?
fn is_above(handles: &[u64], q: Peer, set: u16, j: usize, k: usize) -> bool
    requires { (length handles.now ≡ handles_size) × (q.0 < peer_count) × (k < slots) }
    ensures { result ≡ above_at handles.now q.0 set j k }
{
    if !rings::bit(usize::from(set), k) {
        return false;
    }
    let low = tables::id_of(handles, q, q.0 * SLOTS + j % SLOTS);
    let id = tables::id_of(handles, q, q.0 * SLOTS + k);
    low.0 < id.0
}

// Is the slot of the peer q at the place k asked for?
fn is_asked(nodes: &[u64], handles: &[u64], q: Peer, a: Asked, k: usize) -> bool
    requires { (length nodes.now ≡ nodes_size) × (length handles.now ≡ handles_size) × (q.0 < peer_count) × (k < slots) × Fair a }
    ensures { result ≡ asks nodes.now handles.now q.0 a k }
{
    match a {
        Asked::Living => tables::is_live(nodes, q.0 * SLOTS + k),
        Asked::Falling(p) => falls(nodes, handles, p, q.0 * SLOTS + k),
        Asked::Above(set, j) => is_above(handles, q, set, j, k),
    }
}

// The set of those of the first n numbers that pass the test: a bit for each.
fn set_where<F: Fn(usize) -> bool>(n: usize, test: F) -> u16
    requires few { n ≤ slots }
    requires callable { (k : ℕ) → k < n → F.pre test k }
    ensures { (t : ℕ → Bool) → ((k : ℕ) → k < n → (b : Bool) → F.post test k b → b ≡ t k) → result ≡ bits t n }
{
    let mut set = 0;
    for k in 0..n {
        if test(k) {
            set += 1 << k;
        }
    }
    set
}

// The slots of the peer q that are asked for.
pub fn set_of(nodes: &[u64], handles: &[u64], q: Peer, a: Asked) -> u16
    requires { (length nodes.now ≡ nodes_size) × (length handles.now ≡ handles_size) × (q.0 < peer_count) × Fair a }
    ensures { result ≡ set_of nodes.now handles.now q.0 a }
{
    set_where(SLOTS, |k| is_asked(nodes, handles, q, a, k))
}

// Of a place that was found and the place k the one with the lower ID.
fn lower(handles: &[u64], q: Peer, found: Option<usize>, k: usize) -> Option<usize>
    requires { (length handles.now ≡ handles_size) × (q.0 < peer_count) × (k < slots) }
    ensures { result ≡ lower_of handles.now q.0 found k }
{
    let Some(j) = found else {
        return Some(k);
    };
    let least = tables::id_of(handles, q, q.0 * SLOTS + j % SLOTS);
    let id = tables::id_of(handles, q, q.0 * SLOTS + k);
    if id.0 < least.0 {
        return Some(k);
    }
    Some(j)
}

// The place in the set of the peer's own slot with the least ID.
fn least_id(handles: &[u64], q: Peer, set: u16) -> Option<usize>
    requires { (length handles.now ≡ handles_size) × (q.0 < peer_count) }
    ensures { result ≡ least_at handles.now q.0 set slots }
{
    let mut found = None;
    for k in 0..SLOTS {
        if rings::bit(usize::from(set), k) {
            found = lower(handles, q, found, k);
        }
    }
    found
}

// The entry queued at each peer of a set, in ascending order.
fn post(rings: &mut RingTables<'_>, set: u8, e: Entry)
    ensures same { SameTables rings.old rings.new }
    ensures done { let before = lent rings.old in
        let after = lent rings.new in
        after ≡ posted_to before e set peer_count }
{
    let mut rest = set;
    for _ in 0..PEERS {
        if rest == 0 {
            return;
        }
        let q = tables::lowest(rest) % PEERS;
        queues::enter(rings, Peer(q), e);
        rest = tables::without(rest, q);
    }
}

// Does the destruction of the slot's node by the command n concern the peer? It holds a handle, or an earlier queued message
// carries the node.
fn concerns(
    handles: &[u64],
    charges: &[u16],
    rings: &RingView<'_>,
    o: Peer,
    s: usize,
    n: u64,
) -> bool
    requires { (length handles.now ≡ handles_size) × (length charges.now ≡ charges_size) × (o.0 < peer_count) × (s < node_count) }
    ensures { let queues = viewed rings.now in
        result ≡ tells_at handles.now charges.now queues s n o.0 }
{
    if tables::count_of(handles, o, s) != 0 {
        return true;
    }
    queues::carried_before(charges, rings, o, s, n)
}

// Who is told of the destruction: one bit for each peer.
fn addressees(handles: &[u64], charges: &[u16], rings: &RingView<'_>, s: usize, n: u64) -> u8
    requires { (length handles.now ≡ handles_size) × (length charges.now ≡ charges_size) × (s < node_count) }
    ensures { let queues = viewed rings.now in
        result ≡ addressees_bits handles.now charges.now queues s n }
{
    set_where(PEERS, |o| {
        concerns(handles, charges, rings, Peer(o), s, n)
    }) as u8
}

// The same of the peer's own slot at the place k, where it is in the set; else nobody.
fn addressees_at(
    handles: &[u64],
    charges: &[u16],
    rings: &RingView<'_>,
    p: Peer,
    set: u16,
    n: u64,
    k: usize,
) -> u8
    requires { (length handles.now ≡ handles_size) × (length charges.now ≡ charges_size) × (p.0 < peer_count) × (k < slots) }
    ensures { let queues = viewed rings.now in
        result ≡ addressees_at handles.now charges.now queues p.0 set n k }
{
    if !rings::bit(usize::from(set), k) {
        return 0;
    }
    let s = p.0 * SLOTS + k;
    addressees(handles, charges, rings, s, n)
}

// The same of each place of the peer's own slots.
fn addressees_of(
    handles: &[u64],
    charges: &[u16],
    rings: &RingView<'_>,
    p: Peer,
    set: u16,
    n: u64,
) -> [u8; 16]
    requires { (length handles.now ≡ handles_size) × (length charges.now ≡ charges_size) × (p.0 < peer_count) }
    ensures { let queues = viewed rings.now in
        result ≡ addressees_of handles.now charges.now queues p.0 set n }
{
    let mut to = [0u8; 16];
    for k in 0..SLOTS {
        to[k] = addressees_at(handles, charges, rings, p, set, n, k);
    }
    to
}

// The notices of a kind about the peer's own nodes in the set, by ascending ID; of each place a byte says who is told.
pub fn tell(
    nodes: &[u64],
    handles: &[u64],
    rings: &mut RingTables<'_>,
    q: Peer,
    set: u16,
    to: [u8; 16],
    kind: u16,
    n: u64,
)
    requires { (length nodes.now ≡ nodes_size) × (length handles.now ≡ handles_size) × (q.0 < peer_count) }
    ensures same { SameTables rings.old rings.new }
    ensures done { let before = lent rings.old in
        let after = lent rings.new in
        after ≡ told handles.now to q.0 kind n before set slots }
{
    let mut rest = set;
    for _ in 0..SLOTS {
        let Some(j) = least_id(handles, q, rest) else {
            return;
        };
        let s = q.0 * SLOTS + j % SLOTS;
        let e = notice(kind, s, n);
        post(rings, to[j % SLOTS], e);
        rest = set_of(nodes, handles, q, Asked::Above(rest, j));
    }
}

// The nodes of the peer's own slots in the set are dead since the command n.
fn bury(nodes: &mut [u64], p: Peer, set: u16, n: u64)
    requires { (length nodes.old ≡ nodes_size) × (p.0 < peer_count) }
    ensures { nodes.new ≡ dead_all nodes.old p.0 set n slots }
{
    for k in 0..SLOTS {
        if rings::bit(usize::from(set), k) {
            tables::set_dead(nodes, p.0 * SLOTS + k, n);
        }
    }
}

// The peer's own nodes in the set are destroyed: their release notices are withdrawn, and whom it concerns is told. Who
// that is, is worked out before anything is queued.
pub fn destroy_set(
    nodes: &mut [u64],
    handles: &[u64],
    charges: &[u16],
    rings: &mut RingTables<'_>,
    p: Peer,
    set: u16,
    n: u64,
)
    requires { (length nodes.old ≡ nodes_size) × (length handles.now ≡ handles_size)
        × (length charges.now ≡ charges_size) × (p.0 < peer_count) }
    ensures same { SameTables rings.old rings.new }
    ensures done { let before = lent rings.old in
        let after = lent rings.new in
        destroyed_of nodes.new after
        ≡ destroyed_set nodes.old handles.now charges.now before p.0 set n }
{
    let to = addressees_of(handles, charges, &rings.view(), p, set, n);
    let m = Match {
        kinds: RELEASED_BIT,
        first: p.0 * SLOTS,
        mask: set,
    };
    queues::withdraw(rings, p, m);
    bury(nodes, p, set, n);
    tell(nodes, handles, rings, p, set, to, DESTROYED, n);
}

// Of the peer's own nodes the one at the slot's place is destroyed: the set of that one bit.
pub fn destroy_one(
    nodes: &mut [u64],
    handles: &[u64],
    charges: &[u16],
    rings: &mut RingTables<'_>,
    p: Peer,
    s: usize,
    n: u64,
)
    requires { (length nodes.old ≡ nodes_size) × (length handles.now ≡ handles_size)
        × (length charges.now ≡ charges_size) × (p.0 < peer_count) }
    ensures same { SameTables rings.old rings.new }
    ensures done { let before = lent rings.old in
        let after = lent rings.new in
        destroyed_of nodes.new after
        ≡ destroyed_set nodes.old handles.now charges.now before p.0 (one_slot released_bit s).mask n }
{
    let own = p.0 * SLOTS + s % SLOTS;
    let to = addressees(handles, charges, &rings.view(), own, n);
    let m = Match::one_slot(RELEASED_BIT, own);
    queues::withdraw(rings, p, m);
    tables::set_dead(nodes, own, n);
    let e = notice(DESTROYED, own, n);
    post(rings, to, e);
}

// The release notices at every owner, when all handles of the peer go.
pub fn tell_owners(nodes: &[u64], handles: &[u64], rings: &mut RingTables<'_>, p: Peer, n: u64)
    requires { (length nodes.now ≡ nodes_size) × (length handles.now ≡ handles_size) × (p.0 < peer_count) }
    ensures same { SameTables rings.old rings.new }
    ensures done { let before = lent rings.old in
        let after = lent rings.new in
        after ≡ told_owners nodes.now handles.now p.0 n before peer_count }
{
    for q in 0..PEERS {
        let set = set_of(nodes, handles, Peer(q), Asked::Falling(p));
        tell(
            nodes,
            handles,
            rings,
            Peer(q),
            set,
            [1u8 << q; 16],
            RELEASED,
            n,
        );
    }
}

// The peer's notice that the slot's node was destroyed goes where nothing keeps it: "withdrawn as soon as the peer holds no
// handle and no earlier message carrying the node is left". None stands of a live node.
pub fn expire(
    nodes: &[u64],
    handles: &[u64],
    charges: &[u16],
    rings: &mut RingTables<'_>,
    p: Peer,
    s: usize,
)
    requires { (length nodes.now ≡ nodes_size) × (length handles.now ≡ handles_size)
        × (length charges.now ≡ charges_size) × (p.0 < peer_count) × (s < node_count) }
    ensures same { SameTables rings.old rings.new }
    ensures done { let before = lent rings.old in
        let after = lent rings.new in
        after ≡ expired nodes.now handles.now charges.now p.0 before s }
{
    if tables::is_live(nodes, s) {
        return;
    }
    let n = tables::died_at(nodes, s);
    if concerns(handles, charges, &rings.view(), p, s, n) {
        return;
    }
    let m = Match::one_slot(DESTROYED_BIT, s);
    queues::withdraw(rings, p, m);
}

// The same of the peer's own slots among the first nh that a message carried, where the invalid ID was shown.
pub fn expire_shown(
    nodes: &[u64],
    handles: &[u64],
    charges: &[u16],
    rings: &mut RingTables<'_>,
    p: Peer,
    slots: [u8; 8],
    ids: [u64; 8],
    nh: usize,
)
    requires { (length nodes.now ≡ nodes_size) × (length handles.now ≡ handles_size)
        × (length charges.now ≡ charges_size) × (p.0 < peer_count) × (nh ≤ most_ids) }
    ensures same { SameTables rings.old rings.new }
    ensures done { let before = lent rings.old in
        let after = lent rings.new in
        after ≡ expired_shown nodes.now handles.now charges.now p.0 slots ids before nh }
{
    for k in 0..nh {
        if ids[k] == INVALID {
            let s = usize::from(slots[k]) % NODES;
            if s / SLOTS == p.0 {
                expire(nodes, handles, charges, rings, p, s);
            }
        }
    }
}

// The same of the slot of a destroy notice at the i-th place of the peer's queue.
fn expire_at(
    nodes: &[u64],
    handles: &[u64],
    charges: &[u16],
    rings: &mut RingTables<'_>,
    p: Peer,
    i: usize,
)
    requires { (length nodes.now ≡ nodes_size) × (length handles.now ≡ handles_size)
        × (length charges.now ≡ charges_size) × (p.0 < peer_count) × (i ≤ ring_size) }
    ensures same { SameTables rings.old rings.new }
    ensures done { let before = lent rings.old in
        let after = lent rings.new in
        after ≡ expired_place nodes.now handles.now charges.now p.0 before i }
{
    let head = rings.head(p);
    let row = rings::row_of(p, head, i);
    let e = rings.entry(row);
    if e.kind != DESTROYED {
        return;
    }
    let s = usize::from(e.slot) % NODES;
    expire(nodes, handles, charges, rings, p, s);
}

// The same of every destroy notice in the peer's queue, the last first, so that none is passed over where entries
// move up.
pub fn expire_all(
    nodes: &[u64],
    handles: &[u64],
    charges: &[u16],
    rings: &mut RingTables<'_>,
    p: Peer,
)
    requires { (length nodes.now ≡ nodes_size) × (length handles.now ≡ handles_size)
        × (length charges.now ≡ charges_size) × (p.0 < peer_count) }
    ensures same { SameTables rings.old rings.new }
    ensures done { let before = lent rings.old in
        let after = lent rings.new in
        after ≡ expired_all nodes.now handles.now charges.now p.0 before }
{
    let len = rings.len(p);
    if RING < len {
        return;
    }
    for i in (0..len).rev() {
        expire_at(nodes, handles, charges, rings, p, i);
    }
}
