// The lent tables of peers, nodes, handles and charges, each read and written by small functions of one table. A function
// requires the size of the table that it is lent and bounds of the indices; any contents have a meaning.

#![tactic(auto)]

ghost use Rattle.std.specs.Prelude.{◌≡◌, ◌+◌, ◌-◌, ◌*◌, ◌^◌, ◌<◌, ◌≤◌, min, length, get_or};
ghost use Rattle.std.specs.Int.Count.{count_trailing_zeros};
ghost use Rattle.tables.specs.Peers.{modulus, accepted_at, status_of, status_at, standing_at, user_at};
ghost use Rattle.tables.specs.Peers.{given_at, set_open, set_disconnected, set_given, count_command};
ghost use Rattle.tables.specs.Nodes.{live_at, died_at, set_live, set_dead};
ghost use Rattle.ids.specs.Refusals.{refused};
ghost use Rattle.ids.specs.Sizes.{peers as peer_count, slots, peers_size, nodes_size};
ghost use Rattle.model.specs.Numbers.{nodes as node_count};
ghost use Rattle.quota.specs.Charges.{users};
ghost use Rattle.tables.specs.Handles.{list_block, length_block, handles_size, most_reads, halvings, list_reads};
ghost use Rattle.tables.specs.Handles.{handle_row, id_at, count_at, has_in, found_own, list_length, word_at};
ghost use Rattle.tables.specs.Handles.{guess, place_in, entry_of, lookup, total_at, holders_at};
ghost use Rattle.tables.specs.Handles.{put_handle, clear_peer, enlisted, shifted, taken_out, unlisted, raised, reduced};
ghost use Rattle.tables.specs.Charges.{charges_size, charge_at, charges_at, put_charge, put_charges};

use ids::{
    CHARGE_FIELDS, HANDLE_FIELDS, HandleId, NODE_FIELDS, NODES, PEER_FIELDS, PEERS, Peer, Refusal,
    SLOTS, USERS, User,
};
use quota::{Charge, Charges};
use std::array;

// Numbers that count up are read modulo 2^60, so that what is added to them fits.
const MODULUS: u64 = 1 << 60;

// The table of handles is in blocks of 128 records of two numbers: a block for the handles of each peer, behind these a
// block for the list of each peer, and behind these the lengths of the lists.
const BLOCK: usize = HANDLE_FIELDS * NODES;

const LISTS: usize = PEERS;

const LENGTHS: usize = 2 * PEERS;

// From the handles of one peer to its own nodes to those of the next: a block and the slots of one owner.
const OWN_STEP: usize = BLOCK + HANDLE_FIELDS * SLOTS;

// A peer was never opened, is open, or has disconnected; in the table as these numbers, any other as the first.
#[derive(Clone, Copy)]
pub enum Status {
    Unopened = 0,
    Open = 1,
    Disconnected = 2,
}

impl From<u64> for Status {
    ghost from_gives = { λ x r. r ≡ status_of x };

    fn from(state: u64) -> Status {
        match state {
            1 => Status::Open,
            2 => Status::Disconnected,
            _ => Status::Unopened,
        }
    }
}

// The slot that a search found, if any, and how many records of the table it read.
#[derive(Clone, Copy)]
pub struct Sought {
    pub found: Option<usize>,
    pub reads: usize,
}

// A record of the table of handles: an ID, and a count or a slot.
#[derive(Clone, Copy)]
struct Record {
    id: u64,
    word: u64,
}

// An entry of a peer's list: its place, and the slot that it names.
#[derive(Clone, Copy)]
struct Entry {
    place: usize,
    slot: usize,
}

// How many commands were accepted.
pub fn accepted(peers: &[u64]) -> u64
    requires { length peers.now ≡ peers_size }
    ensures { (result ≡ accepted_at peers.now) × (result < modulus) }
{
    peers[0] % MODULUS
}

// The status of a peer.
#[tactic(auto, unfolding(crate::specs::Peers::status_at))]
pub fn status_of(peers: &[u64], p: Peer) -> Status
    requires { (length peers.now ≡ peers_size) × (p.0 < peer_count) }
    ensures { result ≡ status_at peers.now p.0 }
{
    Status::from(peers[1 + PEER_FIELDS * p.0])
}

// The refusal of a peer that is not open.
#[tactic(auto, unfolding(crate::specs::Peers::standing_at))]
pub fn standing(peers: &[u64], p: Peer) -> Result<(), Refusal>
    requires { (length peers.now ≡ peers_size) × (p.0 < peer_count) }
    ensures { refused result ≡ standing_at peers.now p.0 }
{
    match status_of(peers, p) {
        Status::Open => Ok(()),
        Status::Disconnected => Err(Refusal::ESHUTDOWN),
        Status::Unopened => Err(Refusal::EBADF),
    }
}

// The user of a peer that was opened.
pub fn user_of(peers: &[u64], p: Peer) -> User
    requires { (length peers.now ≡ peers_size) × (p.0 < peer_count) }
    ensures { result ≡ record { 0 = user_at peers.now p.0 } }
{
    User(peers[1 + PEER_FIELDS * p.0 + 1] as usize)
}

// How many IDs the bus has given to a peer.
pub fn given_of(peers: &[u64], p: Peer) -> u64
    requires { (length peers.now ≡ peers_size) × (p.0 < peer_count) }
    ensures { (result ≡ given_at peers.now p.0) × (result < modulus) }
{
    peers[1 + PEER_FIELDS * p.0 + 2] % MODULUS
}

// The peer is open and belongs to the user.
#[tactic(auto, unfolding(crate::specs::Peers::set_open))]
pub fn set_open(peers: &mut [u64], p: Peer, u: User)
    requires { (length peers.old ≡ peers_size) × (p.0 < peer_count) }
    ensures { peers.new ≡ set_open peers.old p.0 u.0 }
{
    let at = 1 + PEER_FIELDS * p.0;
    peers[at] = Status::Open as u64;
    peers[at + 1] = u.0 as u64;
}

// The peer has disconnected.
#[tactic(auto, unfolding(crate::specs::Peers::set_disconnected))]
pub fn set_disconnected(peers: &mut [u64], p: Peer)
    requires { (length peers.old ≡ peers_size) × (p.0 < peer_count) }
    ensures { peers.new ≡ set_disconnected peers.old p.0 }
{
    peers[1 + PEER_FIELDS * p.0] = Status::Disconnected as u64;
}

// The bus has given n IDs to the peer.
#[tactic(auto, unfolding(crate::specs::Peers::set_given))]
pub fn set_given(peers: &mut [u64], p: Peer, n: u64)
    requires { (length peers.old ≡ peers_size) × (p.0 < peer_count) }
    ensures { peers.new ≡ set_given peers.old p.0 n }
{
    peers[1 + PEER_FIELDS * p.0 + 2] = n;
}

// One more command is accepted.
#[tactic(auto, unfolding(crate::specs::Peers::count_command))]
pub fn count_command(peers: &mut [u64])
    requires { length peers.old ≡ peers_size }
    ensures { peers.new ≡ count_command peers.old }
{
    peers[0] = peers[0] % MODULUS + 1;
}

// Does the slot's node live?
pub fn is_live(nodes: &[u64], s: usize) -> bool
    requires { (length nodes.now ≡ nodes_size) × (s < node_count) }
    ensures { result ≡ live_at nodes.now s }
{
    nodes[NODE_FIELDS * s] == 1
}

// The number of the command that destroyed the slot's node, where it does not live.
pub fn died_at(nodes: &[u64], s: usize) -> u64
    requires { (length nodes.now ≡ nodes_size) × (s < node_count) }
    ensures { result ≡ died_at nodes.now s }
{
    nodes[NODE_FIELDS * s + 1]
}

// The slot has a live node.
#[tactic(auto, unfolding(crate::specs::Nodes::set_live))]
pub fn set_live(nodes: &mut [u64], s: usize)
    requires { (length nodes.old ≡ nodes_size) × (s < node_count) }
    ensures { nodes.new ≡ set_live nodes.old s }
{
    nodes[NODE_FIELDS * s] = 1;
}

// The slot's node was destroyed by the command of the number n.
#[tactic(auto, unfolding(crate::specs::Nodes::set_dead))]
pub fn set_dead(nodes: &mut [u64], s: usize, n: u64)
    requires { (length nodes.old ≡ nodes_size) × (s < node_count) }
    ensures { nodes.new ≡ set_dead nodes.old s n }
{
    let at = NODE_FIELDS * s;
    nodes[at] = 0;
    nodes[at + 1] = n;
}

// Where a record of a block begins.
fn row_of(block: usize, k: usize) -> usize
    requires { handle_row block k < handles_size }
    ensures { result ≡ handle_row block k }
{
    block * BLOCK + HANDLE_FIELDS * k
}

// The count of a peer's handle to a slot's node, 0 where it has none.
pub fn count_of(handles: &[u64], p: Peer, s: usize) -> u64
    requires { (length handles.now ≡ handles_size) × (p.0 < peer_count) × (s < node_count) }
    ensures { (result ≡ count_at handles.now p.0 s) × (result < modulus) }
{
    handles[row_of(p.0, s) + 1] % MODULUS
}

// The ID of a peer's handle to a slot's node.
pub fn id_of(handles: &[u64], p: Peer, s: usize) -> HandleId
    requires { (length handles.now ≡ handles_size) × (p.0 < peer_count) × (s < node_count) }
    ensures { result ≡ record { 0 = id_at handles.now p.0 s } }
{
    HandleId(handles[row_of(p.0, s)])
}

// The record at a place; one more was read. A search reads the table by this function alone.
fn look(handles: &[u64], at: usize, reads: &mut usize) -> Record
    requires { (length handles.now ≡ handles_size) × (at + 1 < handles_size) × (reads.old < most_reads) }
    ensures { (result.id ≡ get_or handles.now at 0)
        × (result.word ≡ get_or handles.now (at + 1) 0) × (reads.new ≡ reads.old + 1) }
{
    *reads += 1;
    Record {
        id: handles[at],
        word: handles[at + 1],
    }
}

// Is the handle whose ID stands at this place held, under this ID?
#[tactic(auto, unfolding(crate::specs::Handles::has_in))]
fn holds(handles: &[u64], at: usize, id: HandleId, reads: &mut usize) -> bool
    requires { (length handles.now ≡ handles_size) × (at + 1 < handles_size) × (reads.old < most_reads) }
    ensures { (result ≡ has_in handles.now id.0 at) × (reads.new ≡ reads.old + 1) }
{
    let r = look(handles, at, reads);
    r.id == id.0 && r.word % MODULUS != 0
}

// The first of the peer's own slots that it knows by this ID.
fn seek_own(handles: &[u64], p: Peer, id: HandleId, reads: &mut usize) -> Option<usize>
    requires { (length handles.now ≡ handles_size) × (p.0 < peer_count) × (reads.old + slots ≤ most_reads) }
    ensures { (result ≡ found_own handles.now p.0 id.0) × (reads.new ≤ reads.old + slots) }
{
    let base = p.0 * OWN_STEP;
    for k in 0..SLOTS {
        if holds(handles, base + HANDLE_FIELDS * k, id, reads) {
            return Some(p.0 * SLOTS + k);
        }
    }
    None
}

// A record of a block: an entry of a list, or its length.
fn record_at(handles: &[u64], block: usize, k: usize, reads: &mut usize) -> Record
    requires { (length handles.now ≡ handles_size) × (handle_row block k + 1 < handles_size) × (reads.old < most_reads) }
    ensures { (result.id ≡ id_at handles.now block k)
        × (result.word ≡ word_at handles.now block k) × (reads.new ≡ reads.old + 1) }
{
    look(handles, row_of(block, k), reads)
}

// The first of the n entries of the peer's list whose ID is at least this one.
// A `while`: no search of the library says how many entries it reads, and the clause on `reads` bounds that.
fn place_in(handles: &[u64], p: Peer, id: HandleId, n: usize, reads: &mut usize) -> usize
    requires { (length handles.now ≡ handles_size) × (p.0 < peer_count) × (n ≤ node_count) × (reads.old + halvings < most_reads) }
    ensures { (result ≡ place_in handles.now p.0 id.0 n) × (reads.new ≤ reads.old + halvings) }
{
    let mut low = 0;
    let mut high = n;
    while low < high {
        let mid = (low + high) / 2;
        if id.0 <= record_at(handles, LISTS + p.0, mid, reads).id {
            high = mid;
        } else {
            low = mid + 1;
        }
    }
    low
}

// The place that is as far before the last of n as the ID is before the last one. IDs that the bus gives a peer are 4 apart.
fn guess_place(last: u64, id: u64, n: usize) -> usize
    requires { (0 < n) × (n ≤ node_count) }
    ensures { (result ≡ guess last id n) × (result < n) }
{
    (n - 1).saturating_sub((last.saturating_sub(id) / 4) as usize)
}

// A length, at most that of a list with every node.
fn at_most(x: u64) -> usize
    ensures { result ≡ min x node_count }
{
    x.min(NODES as u64) as usize
}

// The entry of this ID in the peer's list: at the guessed place, or else by halving.
#[tactic(auto, unfolding(crate::specs::Handles::entry_of, crate::specs::Handles::spot))]
fn find_entry(handles: &[u64], p: Peer, id: HandleId, reads: &mut usize) -> Option<Entry>
    requires { (length handles.now ≡ handles_size) × (p.0 < peer_count) × (reads.old + list_reads ≤ most_reads) }
    ensures { (result ≡ entry_of handles.now p.0 id.0) × (reads.new ≤ reads.old + list_reads) }
{
    let l = record_at(handles, LENGTHS, p.0, reads);
    let n = at_most(l.id);
    if n == 0 {
        return None;
    }
    let g = guess_place(l.word, id.0, n);
    let f = record_at(handles, LISTS + p.0, g, reads);
    if f.id == id.0 {
        return Some(Entry {
            place: g,
            slot: (f.word % NODES as u64) as usize,
        });
    }
    let k = place_in(handles, p, id, n, reads);
    if n <= k {
        return None;
    }
    let e = record_at(handles, LISTS + p.0, k, reads);
    if e.id != id.0 {
        return None;
    }
    Some(Entry {
        place: k,
        slot: (e.word % NODES as u64) as usize,
    })
}

// The slot that the peer knows by this ID, and how many records were read. An ID whose two low bits are clear was chosen: it
// names one of the peer's own nodes, or none. Any other was given: it is in the peer's list, or nowhere.
#[tactic(auto, unfolding(crate::specs::Handles::lookup))]
pub fn seek(handles: &[u64], p: Peer, id: HandleId) -> Sought
    requires { (length handles.now ≡ handles_size) × (p.0 < peer_count) }
    ensures { (result.found ≡ lookup handles.now p.0 id.0) × (result.reads ≤ most_reads) }
{
    let mut reads = 0;
    let found = if id.0 % 4 == 0 {
        seek_own(handles, p, id, &mut reads)
    } else {
        find_entry(handles, p, id, &mut reads).map(|e| e.slot)
    };
    Sought { found, reads }
}

// The slot that the peer knows by this ID.
pub fn find(handles: &[u64], p: Peer, id: HandleId) -> Option<usize>
    requires { (length handles.now ≡ handles_size) × (p.0 < peer_count) }
    ensures { result ≡ lookup handles.now p.0 id.0 }
{
    seek(handles, p, id).found
}

// The peer's handle to the slot's node has this ID and this count; at 0 there is none.
pub fn put_handle(handles: &mut [u64], p: Peer, s: usize, id: HandleId, count: u64)
    requires { (length handles.old ≡ handles_size) × (p.0 < peer_count) × (s < node_count) }
    ensures { handles.new ≡ put_handle handles.old p.0 s id.0 count }
{
    put_record(handles, p.0, s, id.0, count);
}

// The sum of the counts over all peers.
#[tactic(auto, unfolding(crate::specs::Handles::total_below, crate::specs::Handles::total_at, laws::specs::Sums::sum_to))]
pub fn total(handles: &[u64], s: usize) -> u64
    requires { (length handles.now ≡ handles_size) × (s < node_count) }
    ensures { result ≡ total_at handles.now s }
{
    let mut sum = 0;
    for q in 0..PEERS {
        sum += count_of(handles, Peer(q), s);
    }
    sum
}

// One bit for each peer that holds a handle to the slot's node.
pub fn holders(handles: &[u64], s: usize) -> u8
    requires { (length handles.now ≡ handles_size) × (s < node_count) }
    ensures { result ≡ holders_at handles.now s }
{
    let mut set = 0;
    for q in 0..PEERS {
        if count_of(handles, Peer(q), s) != 0 {
            set |= 1u8 << q;
        }
    }
    set
}

// The lowest place of a set of bits, 8 where it is empty.
pub fn lowest(set: u8) -> usize
    ensures { (result ≡ count_trailing_zeros 8 set) × (result ≤ 8) }
{
    set.trailing_zeros() as usize
}

// The set with the bit of the place q taken off.
pub fn without(set: u8, q: usize) -> u8
    requires { q < 8 }
    ensures { result ≡ set - 2 ^ q }
{
    set.saturating_sub(1 << q)
}

// All handles of the peer are gone.
pub fn clear_peer(handles: &mut [u64], p: Peer)
    requires { (length handles.old ≡ handles_size) × (p.0 < peer_count) }
    ensures { handles.new ≡ clear_peer handles.old p.0 }
{
    let start = row_of(p.0, 0);
    let block = &mut handles[start..start + BLOCK];
    block.fill(0);
    put_record(handles, LENGTHS, p.0, 0, 0);
}

// A record of a block has these two numbers.
#[tactic(auto, unfolding(crate::specs::Handles::put_handle))]
fn put_record(handles: &mut [u64], block: usize, k: usize, x: u64, y: u64)
    requires { (length handles.old ≡ handles_size) × (block ≤ length_block) × (handle_row block k + 1 < handles_size) }
    ensures { handles.new ≡ put_handle handles.old block k x y }
{
    let at = row_of(block, k);
    handles[at] = x;
    handles[at + 1] = y;
}

// How many entries the peer's list has.
fn list_length(handles: &[u64], p: Peer) -> usize
    requires { (length handles.now ≡ handles_size) × (p.0 < peer_count) }
    ensures { result ≡ list_length handles.now p.0 }
{
    at_most(handles[row_of(LENGTHS, p.0)])
}

// A new entry behind the last of the peer's list.
#[tactic(auto, unfolding(crate::specs::Handles::enlisted))]
fn enlist(handles: &mut [u64], p: Peer, id: HandleId, s: usize)
    requires { (length handles.old ≡ handles_size) × (p.0 < peer_count) }
    ensures { handles.new ≡ enlisted handles.old p.0 id.0 s }
{
    let n = list_length(handles, p);
    put_record(handles, LISTS + p.0, n, id.0, s as u64);
    put_record(handles, LENGTHS, p.0, n as u64 + 1, id.0);
}

// The entries behind the place k of a list of n, each one place down.
fn shift(handles: &mut [u64], p: Peer, k: usize, n: usize)
    requires { (length handles.old ≡ handles_size) × (p.0 < peer_count) × (k < n) × (n ≤ node_count) }
    ensures { handles.new ≡ shifted handles.old p.0 k (n - 1 - k) }
{
    let list = LISTS + p.0;
    // Record by record, so that the archive asks nothing of its host but `memset`: `copy_within` of a length that varies calls `memmove`.
    for m in 0..n - 1 - k {
        let from = row_of(list, k + m + 1);
        let (id, word) = (handles[from], handles[from + 1]);
        put_record(handles, list, k + m, id, word);
    }
}

// The entry at the place k of the peer's list is gone.
#[tactic(auto, unfolding(crate::specs::Handles::taken_out))]
fn take_out(handles: &mut [u64], p: Peer, k: usize)
    requires { (length handles.old ≡ handles_size) × (p.0 < peer_count) × (k < list_length handles.old p.0) }
    ensures { handles.new ≡ taken_out handles.old p.0 k (list_length handles.old p.0) }
{
    let n = list_length(handles, p);
    shift(handles, p, k, n);
    let last = handles[row_of(LISTS + p.0, (n - 1).saturating_sub(1))];
    put_record(handles, LENGTHS, p.0, n as u64 - 1, last);
}

// The entry of this ID in the peer's list is gone, where there is one.
#[tactic(auto, unfolding(crate::specs::Handles::unlisted, crate::specs::Handles::entry_of))]
fn unlist(handles: &mut [u64], p: Peer, id: HandleId)
    requires { (length handles.old ≡ handles_size) × (p.0 < peer_count) }
    ensures { handles.new ≡ unlisted handles.old p.0 id.0 }
{
    if id.0 % 4 == 0 {
        return;
    }
    let mut reads = 0;
    if let Some(e) = find_entry(handles, p, id, &mut reads) {
        take_out(handles, p, e.place);
    }
}

// One more reference of the peer to the slot's node, under this ID: the first enters it in the peer's list.
#[tactic(auto, unfolding(crate::specs::Handles::raised))]
pub fn raise(handles: &mut [u64], p: Peer, s: usize, id: HandleId)
    requires { (length handles.old ≡ handles_size) × (p.0 < peer_count) × (s < node_count) }
    ensures { handles.new ≡ raised handles.old p.0 s id.0 }
{
    let c = count_of(handles, p, s);
    put_handle(handles, p, s, id, c + 1);
    if c == 0 {
        enlist(handles, p, id, s);
    }
}

// One reference of the peer to the slot's node less: how many are left. The last takes its entry out of the peer's list.
#[tactic(auto, unfolding(crate::specs::Handles::reduced))]
pub fn reduce(handles: &mut [u64], p: Peer, s: usize) -> u64
    requires { (length handles.old ≡ handles_size) × (p.0 < peer_count) × (s < node_count) }
    ensures { (result ≡ count_at handles.old p.0 s - 1) × (handles.new ≡ reduced handles.old p.0 s) }
{
    let left = count_of(handles, p, s).saturating_sub(1);
    let id = id_of(handles, p, s);
    put_handle(handles, p, s, id, left);
    if left == 0 {
        unlist(handles, p, id);
    }
    left
}

// The charge in a row of the table: three fields by name, for which a part of the row is no plainer.
fn charge_at(charges: &[u16], row: usize) -> Charge
    requires { (length charges.now ≡ charges_size) × (row < peer_count * users) }
    ensures { result ≡ charge_at charges.now row }
{
    let at = CHARGE_FIELDS * row;
    Charge {
        messages: charges[at],
        bytes: charges[at + 1],
        handles: charges[at + 2],
    }
}

// The four users' charges at a peer.
pub fn load(charges: &[u16], p: Peer) -> Charges
    requires { (length charges.now ≡ charges_size) × (p.0 < peer_count) }
    ensures { result ≡ charges_at charges.now p.0 }
{
    let row = USERS * p.0;
    Charges {
        by: array::from_fn(|u| charge_at(charges, row + u)),
    }
}

#[tactic(auto, unfolding(crate::specs::Charges::put_charge))]
fn put_charge(charges: &mut [u16], row: usize, c: Charge)
    requires { (length charges.old ≡ charges_size) × (row < peer_count * users) }
    ensures { charges.new ≡ put_charge charges.old row c }
{
    let at = CHARGE_FIELDS * row;
    charges[at] = c.messages;
    charges[at + 1] = c.bytes;
    charges[at + 2] = c.handles;
}

// The four users' charges at the peer are these.
#[tactic(auto, unfolding(crate::specs::Charges::put_charges, crate::specs::Charges::put_below))]
pub fn store(charges: &mut [u16], p: Peer, c: Charges)
    requires { (length charges.old ≡ charges_size) × (p.0 < peer_count) }
    ensures { charges.new ≡ put_charges charges.old p.0 c }
{
    let row = USERS * p.0;
    for u in 0..USERS {
        put_charge(charges, row + u, c.by[u]);
    }
}
