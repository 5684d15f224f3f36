// What the bus says to a command, before anything is changed: its refusal, or the order that carries it out, in which
// each ID is the slot that the acting peer knows by it.

#![tactic(auto)]

ghost use Rattle.std.specs.Prelude.{◌≡◌, [], ◌+◌, ◌*◌, ◌<◌, ◌≤◌, length, take};
ghost use Rattle.rings.specs.Lent.{viewed};
ghost use Rattle.frames.specs.Frame.{payload_of};
ghost use Rattle.frames.specs.Legal.{Legal, Sized as Sent};
ghost use Rattle.rings.specs.Rings.{rings_of, QueueTables};
ghost use Rattle.model.specs.Numbers.{slots};
ghost use Rattle.model.specs.Requests.{destinations, attached};
ghost use Rattle.model.specs.Refusals.{places_at, pinned as is_pinned, refuses_open, refuses_disconnect, create_by, destroy_by};
ghost use Rattle.model.specs.Refusals.{release_by, transfer_by, send_by, refuses_receive, refuses_quota, holders_by, refuses_seed};
ghost use Rattle.tables.specs.Handles.{handles_size, find_at};
ghost use Rattle.queues.specs.Queues.{Short};
ghost use Rattle.judges.specs.Orders.{places_of, ruled, placed, unless, unless_at, plainly, ruling_of, seen, seen_with, sight};
ghost use Rattle.judges.specs.Orders.{counts_at, free_at};
ghost use Rattle.judges.specs.Orders.{no_rings, starts_at, place_found, ids_from, slots_at, living_at, allowed_at, affordable_at, too_large};
ghost use Rattle.judges.specs.declared.Order.TheVariants as order;
ghost use Rattle.ids.specs.Refusals.{refused};
ghost use Rattle.ids.specs.Sizes.{peers as peer_count, peers_size, nodes_size, most_ids, most_bytes, seeds_size};
ghost use Rattle.model.specs.Numbers.{nodes as node_count};
ghost use Rattle.tables.specs.Charges.{charges_size};

use frames::{Command, Sizes};
use ids::{HandleId, MOST_COMMANDS, MOST_IDS, NODES, PEERS, Peer, Refusal, SLOTS, User};
use quota::Charge;
use rings::{Entry, RingView};
use tables::Status;

// A send's slots: its destinations and what it carries, 0 behind them and for every other command.
#[derive(Clone, Copy)]
pub struct Places {
    pub to: [u8; 8],
    pub carried: [u8; 8],
}

// What is to be done. A refusal is its number here, since the theorems of bus_model and journal_model speak of order.Refuse at numbers.
#[derive(Clone, Copy)]
pub enum Order {
    Refuse(u8),
    Open(Peer, User),
    Disconnect(Peer),
    Create(Peer, HandleId, usize),
    Destroy(Peer, usize),
    Release(Peer, usize),
    Transfer(Peer, usize),
    Send(Peer, Sizes),
    Receive(Peer),
    ShowSeed(Peer),
    Quota(Peer, User),
    Holders(usize),
}

// What the bus says: the order, and a send's slots.
#[derive(Clone, Copy)]
pub struct Ruling {
    pub order: Order,
    pub places: Places,
}

// What was judged, without slots.
fn plain(judged: Result<Order, Refusal>) -> Ruling
    ensures { result ≡ plainly (ruled judged) }
{
    let order = match judged {
        Ok(order) => order,
        Err(refusal) => Order::Refuse(u8::from(refusal)),
    };
    Ruling {
        order,
        places: Places {
            to: [0; 8],
            carried: [0; 8],
        },
    }
}

// The refusal of a counted command before its IDs are looked up.
fn starts(peers: &[u64], p: Peer) -> Result<(), Refusal>
    requires { (length peers.now ≡ peers_size) × (p.0 < peer_count) }
    ensures { refused result ≡ starts_at peers.now p.0 }
{
    if tables::accepted(peers) < MOST_COMMANDS {
        return tables::standing(peers, p);
    }
    Err(Refusal::EOVERFLOW)
}

fn judge_open(peers: &[u64], p: Peer, u: User) -> Result<Order, Refusal>
    requires { (length peers.now ≡ peers_size) × (p.0 < peer_count) }
    ensures { ruled result ≡ unless (refuses_open (seen peers.now [] [] [] no_rings) p.0) (order.Open p u) }
{
    if MOST_COMMANDS <= tables::accepted(peers) {
        return Err(Refusal::EOVERFLOW);
    }
    match tables::status_of(peers, p) {
        Status::Unopened => Ok(Order::Open(p, u)),
        Status::Open => Err(Refusal::EEXIST),
        Status::Disconnected => Err(Refusal::ESHUTDOWN),
    }
}

fn judge_disconnect(peers: &[u64], p: Peer) -> Result<Order, Refusal>
    requires { (length peers.now ≡ peers_size) × (p.0 < peer_count) }
    ensures { ruled result ≡ unless (refuses_disconnect (seen peers.now [] [] [] no_rings) p.0) (order.Disconnect p) }
{
    starts(peers, p)?;
    Ok(Order::Disconnect(p))
}

// Does the slot's node count against its owner?
fn counts(
    nodes: &[u64],
    handles: &[u64],
    charges: &[u16],
    rings: &RingView<'_>,
    seeds: &[u8],
    s: usize,
) -> bool
    requires { (length nodes.now ≡ nodes_size) × (length handles.now ≡ handles_size)
        × (length charges.now ≡ charges_size) × Short rings.now.ends.now × (length seeds.now ≡ seeds_size) × (s < node_count) }
    ensures { let queues = viewed rings.now in
        result ≡ counts_at nodes.now handles.now charges.now queues seeds.now s }
{
    if tables::is_live(nodes, s) {
        return true;
    }
    if tables::holders(handles, s) != 0 {
        return true;
    }
    if queues::named(charges, rings, s) {
        return true;
    }
    seeds::names(seeds, s)
}

// The first slot of a peer whose node does not count.
fn free_slot(
    nodes: &[u64],
    handles: &[u64],
    charges: &[u16],
    rings: &RingView<'_>,
    seeds: &[u8],
    p: Peer,
) -> Option<usize>
    requires { (length nodes.now ≡ nodes_size) × (length handles.now ≡ handles_size)
        × (length charges.now ≡ charges_size) × Short rings.now.ends.now × (length seeds.now ≡ seeds_size) × (p.0 < peer_count) }
    ensures { let queues = viewed rings.now in
        let free = free_at nodes.now handles.now charges.now queues seeds.now p.0 in
        result ≡ place_found p.0 free }
{
    for k in 0..SLOTS {
        let s = p.0 * SLOTS + k;
        if !counts(nodes, handles, charges, rings, seeds, s) {
            return Some(s);
        }
    }
    None
}

fn judge_create(
    peers: &[u64],
    nodes: &[u64],
    handles: &[u64],
    charges: &[u16],
    rings: &RingView<'_>,
    seeds: &[u8],
    p: Peer,
    i: HandleId,
) -> Result<Order, Refusal>
    requires { (length peers.now ≡ peers_size) × (length nodes.now ≡ nodes_size) × (length handles.now ≡ handles_size)
        × (length charges.now ≡ charges_size) × Short rings.now.ends.now × (length seeds.now ≡ seeds_size) × (p.0 < peer_count) }
    ensures { let queues = viewed rings.now in
        let tables = seen peers.now [] [] [] no_rings in
        let find = find_at handles.now p.0 in
        let free = free_at nodes.now handles.now charges.now queues seeds.now p.0 in
        ruled result ≡ unless (create_by find free tables p.0 i.0) (order.Create p i (p.0 * slots + free)) }
{
    starts(peers, p)?;
    let None = tables::find(handles, p, i) else {
        return Err(Refusal::EEXIST);
    };
    let Some(s) = free_slot(nodes, handles, charges, rings, seeds, p) else {
        return Err(Refusal::ENOSPC);
    };
    Ok(Order::Create(p, i, s))
}

fn judge_destroy(
    peers: &[u64],
    nodes: &[u64],
    handles: &[u64],
    p: Peer,
    i: HandleId,
) -> Result<Order, Refusal>
    requires { (length peers.now ≡ peers_size) × (length nodes.now ≡ nodes_size) × (length handles.now ≡ handles_size)
        × (p.0 < peer_count) }
    ensures { let tables = seen peers.now nodes.now handles.now [] no_rings in
        let find = find_at handles.now p.0 in
        ruled result ≡ unless (destroy_by find tables p.0 i.0) (order.Destroy p (find i.0)) }
{
    starts(peers, p)?;
    let Some(s) = tables::find(handles, p, i) else {
        return Err(Refusal::ENXIO);
    };
    if s / SLOTS != p.0 {
        return Err(Refusal::EPERM);
    }
    if !tables::is_live(nodes, s) {
        return Err(Refusal::EHOSTUNREACH);
    }
    Ok(Order::Destroy(p, s))
}

// Is the handle the last one of a live node's owner?
fn pinned(nodes: &[u64], handles: &[u64], p: Peer, s: usize) -> bool
    requires { (length nodes.now ≡ nodes_size) × (length handles.now ≡ handles_size) × (p.0 < peer_count) × (s < node_count) }
    ensures { result ≡ is_pinned (seen [] nodes.now handles.now [] no_rings) p.0 s }
{
    tables::is_live(nodes, s) && s / SLOTS == p.0 && tables::count_of(handles, p, s) == 1
}

fn judge_release(
    peers: &[u64],
    nodes: &[u64],
    handles: &[u64],
    p: Peer,
    i: HandleId,
) -> Result<Order, Refusal>
    requires { (length peers.now ≡ peers_size) × (length nodes.now ≡ nodes_size) × (length handles.now ≡ handles_size)
        × (p.0 < peer_count) }
    ensures { let tables = seen peers.now nodes.now handles.now [] no_rings in
        let find = find_at handles.now p.0 in
        ruled result ≡ unless (release_by find tables p.0 i.0) (order.Release p (find i.0)) }
{
    starts(peers, p)?;
    let Some(s) = tables::find(handles, p, i) else {
        return Err(Refusal::ENXIO);
    };
    if pinned(nodes, handles, p, s) {
        return Err(Refusal::EPERM);
    }
    Ok(Order::Release(p, s))
}

fn judge_transfer(
    peers: &[u64],
    nodes: &[u64],
    handles: &[u64],
    p: Peer,
    i: HandleId,
    q: Peer,
) -> Result<Order, Refusal>
    requires { (length peers.now ≡ peers_size) × (length nodes.now ≡ nodes_size) × (length handles.now ≡ handles_size)
        × (p.0 < peer_count) × (q.0 < peer_count) }
    ensures { let tables = seen peers.now nodes.now handles.now [] no_rings in
        let find = find_at handles.now p.0 in
        ruled result ≡ unless (transfer_by find tables p.0 i.0 q.0) (order.Transfer q (find i.0)) }
{
    starts(peers, p)?;
    tables::standing(peers, q)?;
    let Some(s) = tables::find(handles, p, i) else {
        return Err(Refusal::ENXIO);
    };
    if !tables::is_live(nodes, s) {
        return Err(Refusal::EHOSTUNREACH);
    }
    Ok(Order::Transfer(q, s))
}

// The slots of the n IDs from the place `from` of a send's lists on.
fn slots_of(
    handles: &[u64],
    frame: &[u8],
    p: Peer,
    from: usize,
    n: usize,
) -> Result<[u8; 8], Refusal>
    requires { (length handles.now ≡ handles_size) × (p.0 < peer_count) × (from ≤ most_ids) × (n ≤ most_ids) }
    ensures { result ≡ slots_at handles.now p.0 (ids_from frame.now from n) }
{
    let mut at = [0; 8];
    for k in 0..n {
        let Some(s) = tables::find(handles, p, frames::send_id(frame, from + k)) else {
            return Err(Refusal::ENXIO);
        };
        at[k] = s as u8;
    }
    Ok(at)
}

// Do the nodes of the slots live?
fn living(nodes: &[u64], to: &[u8]) -> bool
    requires { length nodes.now ≡ nodes_size }
    ensures { result ≡ living_at nodes.now to.now }
{
    to.iter()
        .all(|s| tables::is_live(nodes, usize::from(*s) % NODES))
}

// How many of the slots the peer owns.
fn places_at(to: &[u8], p: Peer) -> u16
    requires { length to.now ≤ most_ids }
    ensures { (result ≡ places_at p.0 to.now) × (result ≤ most_ids) }
{
    to.iter()
        .filter(|s| usize::from(**s) / SLOTS == p.0)
        .count() as u16
}

// Does quota allow what a send to the slots adds at the peer?
fn allowed_at(charges: &[u16], u: User, to: &[u8], z: Sizes, p: Peer) -> bool
    requires { (length charges.now ≡ charges_size) × (length to.now ≤ most_ids) × (z.nh ≤ most_ids) × (z.nb ≤ most_bytes)
        × (p.0 < peer_count) }
    ensures { result ≡ allowed_at charges.now u to.now z.nb z.nh p.0 }
{
    let m = places_at(to, p);
    let c = tables::load(charges, p);
    c.allows(
        u,
        Charge {
            messages: m,
            bytes: m * z.nb as u16,
            handles: m * z.nh as u16,
        },
    )
}

// Does quota allow what a send to the slots adds at each of their owners?
fn affordable(charges: &[u16], u: User, to: &[u8], z: Sizes) -> bool
    requires { (length charges.now ≡ charges_size) × (length to.now ≤ most_ids) × (z.nh ≤ most_ids) × (z.nb ≤ most_bytes) }
    ensures { result ≡ affordable_at charges.now u to.now z.nb z.nh }
{
    to.iter().all(|s| allowed_at(charges, u, to, z, Peer(usize::from(*s) / SLOTS % PEERS)))
}

fn judge_send(
    peers: &[u64],
    nodes: &[u64],
    handles: &[u64],
    charges: &[u16],
    frame: &[u8],
    p: Peer,
    z: Sizes,
) -> Result<Places, Refusal>
    requires { (length peers.now ≡ peers_size) × (length nodes.now ≡ nodes_size) × (length handles.now ≡ handles_size)
        × (length charges.now ≡ charges_size) × (p.0 < peer_count) × Sent frame.now z }
    ensures { let tables = seen peers.now nodes.now handles.now charges.now no_rings in
        let find = find_at handles.now p.0 in
        let bytes = frame.now in
        placed (order.Send p z) result
        ≡ unless_at (send_by find tables p.0 (destinations bytes z) (attached bytes z) (length (payload_of bytes)))
        (order.Send p z) (places_of find bytes z) }
{
    starts(peers, p)?;
    let to = slots_of(handles, frame, p, 0, z.nd)?;
    let carried = slots_of(handles, frame, p, z.nd, z.nh)?;
    if !living(nodes, &to[..z.nd]) {
        return Err(Refusal::EHOSTUNREACH);
    }
    let u = tables::user_of(peers, p);
    if !affordable(charges, u, &to[..z.nd], z) {
        return Err(Refusal::EDQUOT);
    }
    Ok(Places { to, carried })
}

// Does the entry need more room than there is?
fn too_large(e: Entry, room: usize) -> bool
    ensures { result ≡ too_large e room }
{
    queues::is_message(e) && room < usize::from(e.nb) + 8 * usize::from(e.nh).min(MOST_IDS)
}

fn judge_receive(
    peers: &[u64],
    rings: &RingView<'_>,
    p: Peer,
    room: usize,
) -> Result<Order, Refusal>
    requires { (length peers.now ≡ peers_size) × (p.0 < peer_count) }
    ensures { let queues = viewed rings.now in
        ruled result ≡ unless (refuses_receive (seen peers.now [] [] [] queues) p.0 room) (order.Receive p) }
{
    starts(peers, p)?;
    if rings.len(p) == 0 {
        return Err(Refusal::EAGAIN);
    }
    if too_large(rings.first(p), room) {
        return Err(Refusal::ERANGE);
    }
    Ok(Order::Receive(p))
}

fn judge_quota(peers: &[u64], p: Peer, u: User) -> Result<Order, Refusal>
    requires { (length peers.now ≡ peers_size) × (p.0 < peer_count) }
    ensures { ruled result ≡ unless (refuses_quota (seen peers.now [] [] [] no_rings) p.0) (order.Quota p u) }
{
    tables::standing(peers, p)?;
    Ok(Order::Quota(p, u))
}

fn judge_holders(peers: &[u64], handles: &[u64], p: Peer, i: HandleId) -> Result<Order, Refusal>
    requires { (length peers.now ≡ peers_size) × (length handles.now ≡ handles_size) × (p.0 < peer_count) }
    ensures { let tables = seen peers.now [] handles.now [] no_rings in
        let find = find_at handles.now p.0 in
        ruled result ≡ unless (holders_by find tables p.0 i.0) (order.Holders (find i.0)) }
{
    tables::standing(peers, p)?;
    let Some(s) = tables::find(handles, p, i) else {
        return Err(Refusal::ENXIO);
    };
    if s / SLOTS != p.0 {
        return Err(Refusal::EPERM);
    }
    Ok(Order::Holders(s))
}

// 0c: 11 where no seed is set, then the room test of a receive (02 No. 1).
fn judge_seed(peers: &[u64], seeds: &[u8], p: Peer, room: usize) -> Result<Order, Refusal>
    requires { (length peers.now ≡ peers_size) × (length seeds.now ≡ seeds_size) × (p.0 < peer_count) }
    ensures { let tables = seen_with peers.now [] [] [] no_rings seeds.now in
        ruled result ≡ unless (refuses_seed tables p.0 room) (order.ShowSeed p) }
{
    starts(peers, p)?;
    if !seeds::is_set(seeds, p) {
        return Err(Refusal::EAGAIN);
    }
    if room < seeds::nb_of(seeds, p) + 8 * seeds::nh_of(seeds, p) {
        return Err(Refusal::ERANGE);
    }
    Ok(Order::ShowSeed(p))
}

// What the bus says to a command. `ps`, `ns`, `hs` and `cs` are the tables of peers, nodes, handles and charges.
pub fn judge(
    ps: &[u64],
    ns: &[u64],
    hs: &[u64],
    cs: &[u16],
    rings: &RingView<'_>,
    seeds: &[u8],
    frame: &[u8],
    c: Command,
) -> Ruling
    requires { (length ps.now ≡ peers_size) × (length ns.now ≡ nodes_size) × (length hs.now ≡ handles_size)
        × (length cs.now ≡ charges_size) × Short rings.now.ends.now × (length seeds.now ≡ seeds_size) × Legal frame.now c }
    ensures { let queues = viewed rings.now in
        let tables = sight ps.now ns.now hs.now cs.now queues seeds.now in
        result ≡ ruling_of tables frame.now c }
{
    match c {
        Command::Open(p, u) => plain(judge_open(ps, p, u)),
        Command::Disconnect(p) => plain(judge_disconnect(ps, p)),
        Command::Create(p, i) => { plain(judge_create(ps, ns, hs, cs, rings, seeds, p, i)) }
        Command::Destroy(p, i) => plain(judge_destroy(ps, ns, hs, p, i)),
        Command::Release(p, i) => plain(judge_release(ps, ns, hs, p, i)),
        Command::Transfer(p, i, q) => plain(judge_transfer(ps, ns, hs, p, i, q)),
        Command::Send(p, z) => match judge_send(ps, ns, hs, cs, frame, p, z) {
            Ok(places) => Ruling {
                order: Order::Send(p, z),
                places,
            },
            Err(refusal) => plain(Err(refusal)),
        },
        Command::Receive(p, room) => { plain(judge_receive(ps, rings, p, room)) }
        Command::Quota(p, u) => plain(judge_quota(ps, p, u)),
        Command::Holders(p, i) => plain(judge_holders(ps, hs, p, i)),
        Command::ShowSeed(p, room) => plain(judge_seed(ps, seeds, p, room)),
    }
}
