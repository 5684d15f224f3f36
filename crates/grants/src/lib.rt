// Handles given to a peer: the IDs shown, the counts, and the release notice that is withdrawn.

#![tactic(auto)]

ghost use Rattle.std.specs.Prelude.{◌≡◌, ◌<◌, ◌≤◌, length};
ghost use Rattle.rings.specs.Lent.{lent, SameTables};
ghost use Rattle.rings.specs.Rings.{rings_of, QueueTables};
ghost use Rattle.tables.specs.Handles.{handles_size};
ghost use Rattle.grants.specs.Grants.{numbered, numbered_of, shown_to, referenced_of, referenced};
ghost use Rattle.grants.specs.Grants.{valid_at, given_of, given_to, gives_of, gives_to, id_or_invalid};
ghost use Rattle.ids.specs.Sizes.{peers as peer_count, peers_size, nodes_size, most_ids};
ghost use Rattle.model.specs.Numbers.{nodes as node_count};

use ids::{HandleId, INVALID, NODES, Peer, SLOTS};
use rings::{Match, RingTables};

// A new ID for the peer.
fn next_id(peers: &mut [u64], p: Peer) -> HandleId
    requires { (length peers.old ≡ peers_size) × (p.0 < peer_count) }
    ensures { numbered_of result.0 peers.new ≡ numbered peers.old p.0 }
{
    let n = tables::given_of(peers, p) + 1;
    tables::set_given(peers, p, n);
    HandleId(4 * n + 3)
}

// The ID of the peer's handle to the slot's node, a new one where it has none.
fn shown_id(peers: &mut [u64], handles: &[u64], p: Peer, s: usize) -> HandleId
    requires { (length peers.old ≡ peers_size) × (length handles.now ≡ handles_size) × (p.0 < peer_count) × (s < node_count) }
    ensures { numbered_of result.0 peers.new ≡ shown_to peers.old handles.now p.0 s }
{
    if tables::count_of(handles, p, s) == 0 {
        return next_id(peers, p);
    }
    tables::id_of(handles, p, s)
}

// One more reference of the peer to the slot's node: the ID.
fn add_reference(peers: &mut [u64], handles: &mut [u64], p: Peer, s: usize) -> u64
    requires { (length peers.old ≡ peers_size) × (length handles.old ≡ handles_size) × (p.0 < peer_count) × (s < node_count) }
    ensures { referenced_of result peers.new handles.new
        ≡ referenced peers.old handles.old p.0 s }
{
    let id = shown_id(peers, handles, p, s);
    tables::raise(handles, p, s, id);
    id.0
}

// Is the handle to the slot's node shown to the peer by what the command n queued? "invalid only if the destruction came
// before the message"; "An owner whose own handle is gone is still shown the invalid ID".
fn valid(nodes: &[u64], handles: &[u64], n: u64, p: Peer, s: usize) -> bool
    requires { (length nodes.now ≡ nodes_size) × (length handles.now ≡ handles_size) × (p.0 < peer_count) × (s < node_count) }
    ensures { result ≡ valid_at nodes.now handles.now n p.0 s }
{
    if tables::is_live(nodes, s) {
        return true;
    }
    if tables::died_at(nodes, s) <= n {
        return false;
    }
    if s / SLOTS != p.0 {
        return true;
    }
    tables::count_of(handles, p, s) != 0
}

// A handle to the slot's node is given to the peer as of the command n: the ID shown. The release notice, which stands only
// where the sum of counts is 1, is withdrawn.
pub fn give(
    peers: &mut [u64],
    nodes: &[u64],
    handles: &mut [u64],
    rings: &mut RingTables<'_>,
    p: Peer,
    n: u64,
    s: usize,
) -> u64
    requires { (length peers.old ≡ peers_size) × (length nodes.now ≡ nodes_size) × (length handles.old ≡ handles_size)
        × (p.0 < peer_count) × (s < node_count) }
    ensures same { SameTables rings.old rings.new }
    ensures done { let before = lent rings.old in
        let after = lent rings.new in
        given_of result peers.new handles.new after
        ≡ given_to nodes.now peers.old handles.old before p.0 n s }
{
    if !valid(nodes, handles, n, p, s) {
        return INVALID;
    }
    if tables::total(handles, s) == 1 {
        queues::withdraw(
            rings,
            Peer(s / SLOTS),
            Match::one_slot(rings::RELEASED_BIT, s),
        );
    }
    add_reference(peers, handles, p, s)
}

// The first nh of the slots that a message carries, given in order as of the command n: the IDs shown.
pub fn give_all(
    peers: &mut [u64],
    nodes: &[u64],
    handles: &mut [u64],
    rings: &mut RingTables<'_>,
    p: Peer,
    n: u64,
    slots: [u8; 8],
    nh: usize,
) -> [u64; 8]
    requires { (length peers.old ≡ peers_size) × (length nodes.now ≡ nodes_size) × (length handles.old ≡ handles_size)
        × (p.0 < peer_count) × (nh ≤ most_ids) }
    ensures same { SameTables rings.old rings.new }
    ensures done { let before = lent rings.old in
        let after = lent rings.new in
        gives_of result peers.new handles.new after
        ≡ gives_to nodes.now peers.old handles.old before p.0 n slots nh }
{
    let mut ids = [0u64; 8];
    for k in 0..nh {
        let s = usize::from(slots[k]) % NODES;
        ids[k] = give(peers, nodes, handles, rings, p, n, s);
    }
    ids
}

// The ID of the peer's handle to the slot's node, all ones where it has none.
pub fn id_or_invalid(handles: &[u64], p: Peer, s: usize) -> HandleId
    requires { (length handles.now ≡ handles_size) × (p.0 < peer_count) × (s < node_count) }
    ensures { result ≡ record { 0 = id_or_invalid handles.now p.0 s } }
{
    if tables::count_of(handles, p, s) == 0 {
        return HandleId(INVALID);
    }
    tables::id_of(handles, p, s)
}
