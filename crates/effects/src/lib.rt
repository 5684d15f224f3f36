// What each order does to the tables. The command is counted first; no order fails.

#![tactic(auto)]

ghost use Rattle.std.specs.Prelude.{◌≡◌, ◌-◌, ◌<◌, ◌≤◌, length, take};
ghost use Rattle.rings.specs.Lent.{lent, SameTables};
ghost use Rattle.queues.specs.Queued.{queued};
ghost use Rattle.rings.specs.Rings.{rings_of, ends_size, length_of, ring_size, QueueTables};
ghost use Rattle.pool.specs.Pool.{pool_size};
ghost use Rattle.answers.specs.Answer.{answer_after, outcome_of};
ghost use Rattle.queues.specs.Queues.{queues_of};
ghost use Rattle.view.specs.View.{bus_of};
ghost use Rattle.grants.specs.Grants.{given_of};
ghost use Rattle.tables.specs.Handles.{handles_size};
ghost use Rattle.effects.specs.Effects.{counted_of, counted, opened_peers, created_of, created, destroys_of, destroys, dropped, dropped_of};
ghost use Rattle.effects.specs.Effects.{forgotten_own, forgotten, notified, releases_of, releases, transfers, message_to, sent_to, sends};
ghost use Rattle.effects.specs.Effects.{sends_of, disconnects_of, disconnects, message_answer, shown_ids, shown_bytes, received_message};
ghost use Rattle.effects.specs.Effects.{notice_taken, notice_taken_of, received, received_of, replaced, seed_answer, shown_of, shows};
ghost use Rattle.ids.specs.Sizes.{peers as peer_count, peers_size, nodes_size, seeds_size, most_ids};
ghost use Rattle.model.specs.Numbers.{nodes as node_count};
ghost use Rattle.tables.specs.Charges.{charges_size};
ghost use Rattle.seeds.specs.Seeds.{bytes_at, piece_at};

use answers::{Answer, Header, Outcome, Received};
use frames::Sizes;
use ids::{HandleId, INVALID, MOST_IDS, NODES, Peer, SLOTS, USERS, User};
use judges::Places;
use notices::Asked;
use rings::{Entry, Match, RingTables};

// The command is counted: its number.
fn next_number(peers: &mut [u64]) -> u64
    requires { length peers.old ≡ peers_size }
    ensures { counted_of result peers.new ≡ counted peers.old }
{
    tables::count_command(peers);
    tables::accepted(peers)
}

pub fn open_peer(peers: &mut [u64], p: Peer, u: User)
    requires { (length peers.old ≡ peers_size) × (p.0 < peer_count) }
    ensures { peers.new ≡ opened_peers peers.old p.0 u.0 }
{
    tables::count_command(peers);
    tables::set_open(peers, p, u);
}

pub fn create(
    peers: &mut [u64],
    nodes: &mut [u64],
    handles: &mut [u64],
    p: Peer,
    i: HandleId,
    s: usize,
)
    requires { (length peers.old ≡ peers_size) × (length nodes.old ≡ nodes_size) × (length handles.old ≡ handles_size)
        × (p.0 < peer_count) × (s < node_count) }
    ensures { created_of peers.new nodes.new handles.new
        ≡ created peers.old nodes.old handles.old p.0 i.0 s }
{
    tables::count_command(peers);
    tables::set_live(nodes, s);
    tables::put_handle(handles, p, s, i, 1);
}

pub fn destroy(
    peers: &mut [u64],
    nodes: &mut [u64],
    handles: &[u64],
    charges: &[u16],
    rings: &mut RingTables<'_>,
    p: Peer,
    s: usize,
)
    requires { (length peers.old ≡ peers_size) × (length nodes.old ≡ nodes_size) × (length handles.now ≡ handles_size)
        × (length charges.now ≡ charges_size) × (p.0 < peer_count) }
    ensures same { SameTables rings.old rings.new }
    ensures done { let before = lent rings.old in
        let after = lent rings.new in
        destroys_of peers.new nodes.new after
        ≡ destroys peers.old nodes.old handles.now charges.now before p.0 s }
{
    let n = next_number(peers);
    notices::destroy_one(nodes, handles, charges, rings, p, s, n);
}

// The peer's handle to its own node is gone: the messages for the node go, and the destroy notices that nothing keeps then. In
// a queue without attached handles that is the one of the node.
fn forget_own(
    nodes: &[u64],
    handles: &[u64],
    charges: &mut [u16],
    rings: &mut RingTables<'_>,
    pool: &mut [u8],
    p: Peer,
    s: usize,
)
    requires { (length nodes.now ≡ nodes_size) × (length handles.now ≡ handles_size)
        × (length charges.old ≡ charges_size) × (p.0 < peer_count) }
    ensures same { SameTables rings.old rings.new }
    ensures done { let before = queued charges.old rings.old pool.old in
        let after = queued charges.new rings.new pool.new in
        after ≡ forgotten_own nodes.now handles.now before p.0 s }
{
    if queues::attached(tables::load(charges, p)) == 0 {
        let m = Match::one_slot(rings::ALL_BITS, s);
        queues::remove(charges, rings, pool, p, m);
        return;
    }
    let m = Match::one_slot(rings::MESSAGE_BIT + rings::RELEASED_BIT, s);
    queues::remove(charges, rings, pool, p, m);
    notices::expire_all(nodes, handles, charges, rings, p);
}

// The peer's handle to the slot's node is gone.
fn forget(
    nodes: &[u64],
    handles: &[u64],
    charges: &mut [u16],
    rings: &mut RingTables<'_>,
    pool: &mut [u8],
    p: Peer,
    s: usize,
)
    requires { (length nodes.now ≡ nodes_size) × (length handles.now ≡ handles_size)
        × (length charges.old ≡ charges_size) × (p.0 < peer_count) × (s < node_count) }
    ensures same { SameTables rings.old rings.new }
    ensures done { let before = queued charges.old rings.old pool.old in
        let after = queued charges.new rings.new pool.new in
        after ≡ forgotten nodes.now handles.now before p.0 s }
{
    if s / SLOTS == p.0 {
        forget_own(nodes, handles, charges, rings, pool, p, s);
        return;
    }
    notices::expire(nodes, handles, charges, rings, p, s);
}

// One reference of the peer to the slot's node less: how many are left.
fn drop_reference(handles: &mut [u64], p: Peer, s: usize) -> u64
    requires { (length handles.old ≡ handles_size) × (p.0 < peer_count) × (s < node_count) }
    ensures { dropped_of result handles.new ≡ dropped handles.old p.0 s }
{
    tables::reduce(handles, p, s)
}

// The release notice at the owner, where the slot's node lives and the sum of counts is 1.
fn notify(nodes: &[u64], handles: &[u64], rings: &mut RingTables<'_>, s: usize, n: u64)
    requires { (length nodes.now ≡ nodes_size) × (length handles.now ≡ handles_size) × (s < node_count) }
    ensures same { SameTables rings.old rings.new }
    ensures done { let before = lent rings.old in
        let after = lent rings.new in
        after ≡ notified nodes.now handles.now before s n }
{
    if !tables::is_live(nodes, s) {
        return;
    }
    if tables::total(handles, s) == 1 {
        let e = notices::notice(rings::RELEASED, s, n);
        queues::enter(rings, Peer(s / SLOTS), e);
    }
}

pub fn release(
    peers: &mut [u64],
    nodes: &[u64],
    handles: &mut [u64],
    charges: &mut [u16],
    rings: &mut RingTables<'_>,
    pool: &mut [u8],
    p: Peer,
    s: usize,
)
    requires { (length peers.old ≡ peers_size) × (length nodes.now ≡ nodes_size) × (length handles.old ≡ handles_size)
        × (length charges.old ≡ charges_size) × (p.0 < peer_count) × (s < node_count) }
    ensures same { SameTables rings.old rings.new }
    ensures done { let before = queued charges.old rings.old pool.old in
        let after = queued charges.new rings.new pool.new in
        releases_of peers.new handles.new after
        ≡ releases peers.old nodes.now handles.old before p.0 s }
{
    let n = next_number(peers);
    let left = drop_reference(handles, p, s);
    if left == 0 {
        forget(nodes, handles, charges, rings, pool, p, s);
    }
    notify(nodes, handles, rings, s, n);
}

pub fn transfer(
    peers: &mut [u64],
    nodes: &[u64],
    handles: &mut [u64],
    rings: &mut RingTables<'_>,
    q: Peer,
    s: usize,
) -> HandleId
    requires { (length peers.old ≡ peers_size) × (length nodes.now ≡ nodes_size) × (length handles.old ≡ handles_size)
        × (q.0 < peer_count) × (s < node_count) }
    ensures same { SameTables rings.old rings.new }
    ensures done { let before = lent rings.old in
        let after = lent rings.new in
        given_of result.0 peers.new handles.new after
        ≡ transfers peers.old nodes.now handles.old before q.0 s }
{
    let n = next_number(peers);
    HandleId(grants::give(peers, nodes, handles, rings, q, n, s))
}

// The message of a send to a slot. The remainders cut its numbers to their widths, as the definition does.
fn message_to(s: usize, u: User, nb: usize, nh: usize, slots: [u8; 8], n: u64) -> Entry
    requires { s < node_count }
    ensures { result ≡ message_to s u.0 nb nh slots n }
{
    Entry {
        kind: rings::MESSAGE,
        slot: s as u16,
        user: (u.0 % USERS) as u16,
        nb: (nb % 65536) as u16,
        nh: (nh % 65536) as u16,
        carried: slots,
        number: n,
    }
}

// A message for each destination, in order.
fn deliver(
    charges: &mut [u16],
    rings: &mut RingTables<'_>,
    pool: &mut [u8],
    u: User,
    z: Sizes,
    w: Places,
    payload: &[u8],
    n: u64,
)
    requires { (length charges.old ≡ charges_size) × (z.nd ≤ most_ids) }
    ensures same { SameTables rings.old rings.new }
    ensures done { let before = queued charges.old rings.old pool.old in
        let after = queued charges.new rings.new pool.new in
        after ≡ sent_to before u.0 z.nh w payload.now n z.nd }
{
    let slots = w.carried;
    for to in &w.to[..z.nd] {
        let s = usize::from(*to) % NODES;
        let e = message_to(s, u, payload.len(), z.nh, slots, n);
        queues::enqueue(charges, rings, pool, Peer(s / SLOTS), e, payload);
    }
}

pub fn send(
    peers: &mut [u64],
    charges: &mut [u16],
    rings: &mut RingTables<'_>,
    pool: &mut [u8],
    p: Peer,
    z: Sizes,
    w: Places,
    payload: &[u8],
)
    requires { (length peers.old ≡ peers_size) × (length charges.old ≡ charges_size) × (p.0 < peer_count) × (z.nd ≤ most_ids) }
    ensures same { SameTables rings.old rings.new }
    ensures done { let before = queued charges.old rings.old pool.old in
        let after = queued charges.new rings.new pool.new in
        sends_of peers.new after ≡ sends peers.old before p.0 z w payload.now }
{
    let n = next_number(peers);
    let u = tables::user_of(peers, p);
    deliver(charges, rings, pool, u, z, w, payload, n);
}

// A send with no destinations replaces the peer's own seed.
pub fn replace_seed(seeds: &mut [u8], p: Peer, z: Sizes, w: Places, payload: &[u8])
    requires { (length seeds.old ≡ seeds_size) × (p.0 < peer_count) }
    ensures { seeds.new ≡ replaced seeds.old p.0 z w payload.now }
{
    if z.nd == 0 {
        seeds::put(seeds, p, z.nh, w.carried, payload);
    }
}

pub fn disconnect(
    peers: &mut [u64],
    nodes: &mut [u64],
    handles: &mut [u64],
    charges: &mut [u16],
    rings: &mut RingTables<'_>,
    p: Peer,
)
    requires { (length peers.old ≡ peers_size) × (length nodes.old ≡ nodes_size) × (length handles.old ≡ handles_size)
        × (length charges.old ≡ charges_size) × (p.0 < peer_count) }
    ensures same { SameTables rings.old rings.new }
    ensures done { let before = lent rings.old in
        let after = lent rings.new in
        disconnects_of peers.new nodes.new handles.new charges.new after
        ≡ disconnects peers.old nodes.old handles.old charges.old before p.0 }
{
    let n = next_number(peers);
    let set = notices::set_of(nodes, handles, p, Asked::Living);
    notices::destroy_set(nodes, handles, charges, rings, p, set, n);
    queues::empty(charges, rings.ends, p);
    notices::tell_owners(nodes, handles, rings, p, n);
    tables::clear_peer(handles, p);
    tables::set_disconnected(peers, p);
}

// The answer of a message: its payload is read from the pool before it is taken out there.
fn write_message(
    out: &mut [u8],
    charges: &[u16],
    pool: &[u8],
    p: Peer,
    to: HandleId,
    flag: bool,
    e: Entry,
    ids: [u64; 8],
) -> Outcome
    requires { (length charges.now ≡ charges_size) × (length pool.now ≡ pool_size) × (p.0 < peer_count) }
    ensures { let a = message_answer charges.now p.0 to flag e in
        let bytes = shown_bytes charges.now pool.now p.0 e in
        (result ≡ outcome_of a (shown_ids e ids) bytes out.old)
        × (out.new ≡ answer_after a (shown_ids e ids) bytes out.old) }
{
    let c = tables::load(charges, p);
    let all = queues::used(c);
    let nb = usize::from(e.nb).min(all);
    let nh = usize::from(e.nh).min(MOST_IDS);
    let h = Header {
        to,
        user: User(usize::from(e.user)),
        flag,
        nb,
        nh,
    };
    answers::write_answer(
        out,
        Answer::Received(Received::Message(h)),
        &ids[..nh],
        pool::piece(pool, p, 0, nb),
    )
}

// The oldest message is taken out, and what it carries is given as of its own number.
fn receive_message(
    peers: &mut [u64],
    nodes: &[u64],
    handles: &mut [u64],
    charges: &mut [u16],
    rings: &mut RingTables<'_>,
    pool: &mut [u8],
    p: Peer,
    e: Entry,
    out: &mut [u8],
) -> Outcome
    requires { (length peers.old ≡ peers_size) × (length nodes.now ≡ nodes_size) × (length handles.old ≡ handles_size)
        × (length charges.old ≡ charges_size) × (length pool.old ≡ pool_size) × (p.0 < peer_count)
        × (length_of rings.old.ends.now p.0 ≤ ring_size) }
    ensures same { SameTables rings.old rings.new }
    ensures done { let before = queued charges.old rings.old pool.old in
        let after = queued charges.new rings.new pool.new in
        received_of result out.new peers.new handles.new after
        ≡ received_message peers.old nodes.now handles.old before p.0 e out.old }
{
    let flag = queues::follows(&rings.view(), p, e.number);
    let to = grants::id_or_invalid(handles, p, usize::from(e.slot) % NODES);
    rings::pop(rings.ends, p);
    let slots = e.carried;
    let nh = usize::from(e.nh).min(MOST_IDS);
    let ids = grants::give_all(peers, nodes, handles, rings, p, e.number, slots, nh);
    let o = write_message(out, charges, pool, p, to, flag, e, ids);
    queues::settle(charges, pool, p, e);
    notices::expire_shown(nodes, handles, charges, rings, p, slots, ids, nh);
    o
}

// The oldest notice is taken out.
fn receive_notice(handles: &[u64], ends: &mut [u16], p: Peer, e: Entry, out: &mut [u8]) -> Outcome
    requires { (length handles.now ≡ handles_size) × (length ends.old ≡ ends_size) × (p.0 < peer_count) }
    ensures { notice_taken_of result out.new ends.new
        ≡ notice_taken handles.now ends.old p.0 e out.old }
{
    let id = grants::id_or_invalid(handles, p, usize::from(e.slot) % NODES);
    rings::pop(ends, p);
    if e.kind == rings::DESTROYED {
        return answers::write_received(out, Received::Destroyed(id));
    }
    answers::write_received(out, Received::Released(id))
}

// The oldest entry is taken out and shown.
pub fn receive(
    peers: &mut [u64],
    nodes: &[u64],
    handles: &mut [u64],
    charges: &mut [u16],
    rings: &mut RingTables<'_>,
    pool: &mut [u8],
    p: Peer,
    out: &mut [u8],
) -> Outcome
    requires { (length peers.old ≡ peers_size) × (length nodes.now ≡ nodes_size) × (length handles.old ≡ handles_size)
        × (length charges.old ≡ charges_size) × (length pool.old ≡ pool_size) × (p.0 < peer_count)
        × (length_of rings.old.ends.now p.0 ≤ ring_size) }
    ensures same { SameTables rings.old rings.new }
    ensures done { let before = queued charges.old rings.old pool.old in
        let after = queued charges.new rings.new pool.new in
        received_of result out.new peers.new handles.new after
        ≡ received peers.old nodes.now handles.old before p.0 out.old }
{
    tables::count_command(peers);
    let e = rings.first(p);
    if !queues::is_message(e) {
        return receive_notice(handles, rings.ends, p, e, out);
    }
    receive_message(peers, nodes, handles, charges, rings, pool, p, e, out)
}

// The answer of a seed: no destination, the peer's own user, no flag.
fn write_seed(
    out: &mut [u8],
    seeds: &[u8],
    p: Peer,
    user: User,
    nh: usize,
    ids: [u64; 8],
) -> Outcome
    requires { (length seeds.now ≡ seeds_size) × (p.0 < peer_count) × (nh ≤ most_ids) }
    ensures { let nb = bytes_at seeds.now p.0 in
        let a = seed_answer user.0 nb nh in
        let bytes = piece_at seeds.now p.0 nb in
        (result ≡ outcome_of a (take nh ids) bytes out.old)
        × (out.new ≡ answer_after a (take nh ids) bytes out.old) }
{
    let nb = seeds::nb_of(seeds, p);
    let h = Header {
        to: HandleId(INVALID),
        user,
        flag: false,
        nb,
        nh,
    };
    answers::write_seed(out, h, &ids[..nh], seeds::piece(seeds, p, nb))
}

// The peer's seed is shown and stays: what it carries is given, each time anew, as of this command.
pub fn show_seed(
    peers: &mut [u64],
    nodes: &[u64],
    handles: &mut [u64],
    rings: &mut RingTables<'_>,
    seeds: &[u8],
    p: Peer,
    out: &mut [u8],
) -> Outcome
    requires { (length peers.old ≡ peers_size) × (length nodes.now ≡ nodes_size) × (length handles.old ≡ handles_size)
        × (length seeds.now ≡ seeds_size) × (p.0 < peer_count) }
    ensures same { SameTables rings.old rings.new }
    ensures done { let before = lent rings.old in
        let after = lent rings.new in
        shown_of result out.new peers.new handles.new after
        ≡ shows peers.old nodes.now handles.old before seeds.now p.0 out.old }
{
    let n = next_number(peers);
    let user = tables::user_of(peers, p);
    let slots = seeds::slots_of(seeds, p);
    let nh = seeds::nh_of(seeds, p);
    let ids = grants::give_all(peers, nodes, handles, rings, p, n, slots, nh);
    write_seed(out, seeds, p, user, nh, ids)
}
