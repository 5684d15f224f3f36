// The seeds of the eight peers in one lent table: of each peer a row (whether a seed is set, how many slots it carries, its
// payload's length in two bytes, eight slots), and behind the rows the payload of each. Any contents have a meaning.

#![tactic(auto)]

ghost use Rattle.std.specs.Prelude.{◌≡◌, ◌+◌, ◌<◌, ◌≤◌, length, take, eqb};
ghost use Rattle.std.proofs.lemmas.List.Edits.{sets};
ghost use Rattle.laws.specs.Rows.{row_in};
ghost use Rattle.ids.specs.Sizes.{peers, most_ids, most_bytes, seeds_size};
ghost use Rattle.model.specs.Lists.{any};
ghost use Rattle.model.specs.State.{seed_carries, seeded};
ghost use Rattle.seeds.specs.Seeds.{row_at, set_at, count_at, bytes_at, slots_at, piece_at, head_of, stored, dropped, seed_v};

use ids::{MOST_BYTES, MOST_IDS, NODES, PEERS, Peer, SEED_BYTES, SEED_FIELDS};

// The first byte of the row of a seed that is set: a byte of the lent table, and any other says that none is (`set_at`).
const SET: u8 = 1;

// A slot is read modulo the slots of all peers.
const MODULUS: u8 = 128;

// Has the peer a seed?
pub fn is_set(seeds: &[u8], p: Peer) -> bool
    requires { (length seeds.now ≡ seeds_size) × (p.0 < peers) }
    ensures { result ≡ set_at seeds.now p.0 }
{
    seeds[SEED_FIELDS * p.0] == SET
}

// How many slots the peer's seed carries.
pub fn nh_of(seeds: &[u8], p: Peer) -> usize
    requires { (length seeds.now ≡ seeds_size) × (p.0 < peers) }
    ensures { (result ≡ count_at seeds.now p.0) × (result ≤ most_ids) }
{
    usize::from(seeds[SEED_FIELDS * p.0 + 1]).min(MOST_IDS)
}

// How many bytes of payload it has.
pub fn nb_of(seeds: &[u8], p: Peer) -> usize
    requires { (length seeds.now ≡ seeds_size) × (p.0 < peers) }
    ensures { (result ≡ bytes_at seeds.now p.0) × (result ≤ most_bytes) }
{
    let a = SEED_FIELDS * p.0;
    usize::from(u16::from_be_bytes([seeds[a + 2], seeds[a + 3]])).min(MOST_BYTES)
}

// Its eight slots, of which it carries the first. Written out: through `array::from_fn` the proof did not close.
#[tactic(auto, unfolding(crate::specs::Seeds::slots_at, laws::specs::Build::build))]
pub fn slots_of(seeds: &[u8], p: Peer) -> [u8; 8]
    requires { (length seeds.now ≡ seeds_size) × (p.0 < peers) }
    ensures { result ≡ slots_at seeds.now p.0 }
{
    let a = SEED_FIELDS * p.0 + 4;
    [
        seeds[a] % MODULUS,
        seeds[a + 1] % MODULUS,
        seeds[a + 2] % MODULUS,
        seeds[a + 3] % MODULUS,
        seeds[a + 4] % MODULUS,
        seeds[a + 5] % MODULUS,
        seeds[a + 6] % MODULUS,
        seeds[a + 7] % MODULUS,
    ]
}

// The first nb bytes of its payload.
pub fn piece(seeds: &[u8], p: Peer, nb: usize) -> &[u8]
    requires { (length seeds.now ≡ seeds_size) × (p.0 < peers) × (nb ≤ most_bytes) }
    ensures { result.now ≡ piece_at seeds.now p.0 nb }
{
    let from = SEED_BYTES + MOST_BYTES * p.0;
    &seeds[from..from + nb]
}

// The first four bytes of a row: a seed is set, and its sizes.
#[tactic(auto, using(crate::specs::Code::stores4))]
fn put_head(seeds: &mut [u8], p: Peer, nh: usize, nb: usize)
    requires { (length seeds.old ≡ seeds_size) × (p.0 < peers) × (nb ≤ most_bytes) }
    ensures { seeds.new ≡ sets seeds.old (row_at p.0) (head_of nh nb) }
{
    let a = SEED_FIELDS * p.0;
    let n = nh.min(MOST_IDS) as u8;
    let [high, low] = (nb as u16).to_be_bytes();
    // Store by store: `copy_from_slice` of the four goes through the stack (see `rings::put_fields`).
    seeds[a] = SET;
    seeds[a + 1] = n;
    seeds[a + 2] = high;
    seeds[a + 3] = low;
}

#[tactic(auto, using(laws::specs::Rows::array_stored))]
fn put_slots(seeds: &mut [u8], p: Peer, v: [u8; 8])
    requires { (length seeds.old ≡ seeds_size) × (p.0 < peers) }
    ensures { seeds.new ≡ sets seeds.old (row_at p.0 + 4) (row_in most_ids v 0) }
{
    let a = SEED_FIELDS * p.0 + 4;
    seeds[a..a + MOST_IDS].copy_from_slice(&v);
}

// The peer's seed, set anew. Of a longer payload the first MOST_BYTES count, of the slots the first nh, at most MOST_IDS.
#[tactic(auto, unfolding(crate::specs::Seeds::stored))]
pub fn put(seeds: &mut [u8], p: Peer, nh: usize, slots: [u8; 8], payload: &[u8])
    requires { (length seeds.old ≡ seeds_size) × (p.0 < peers) }
    ensures { seeds.new ≡ stored seeds.old p.0 nh slots payload.now }
{
    let nb = payload.len().min(MOST_BYTES);
    put_head(seeds, p, nh, nb);
    put_slots(seeds, p, slots);
    copies::put(seeds, SEED_BYTES + MOST_BYTES * p.0, &payload[0..nb]);
}

// The peer has no seed.
#[tactic(auto, unfolding(crate::specs::Seeds::dropped))]
pub fn drop_seed(seeds: &mut [u8], p: Peer)
    requires { (length seeds.old ≡ seeds_size) × (p.0 < peers) }
    ensures { seeds.new ≡ dropped seeds.old p.0 }
{
    let a = SEED_FIELDS * p.0;
    seeds[a] = 0;
}

// Is the slot among the first n of the peer's row?
fn is_among(seeds: &[u8], p: Peer, n: usize, s: usize) -> bool
    requires { (length seeds.now ≡ seeds_size) × (p.0 < peers) × (n ≤ most_ids) }
    ensures { result ≡ any (eqb s) (take n (slots_at seeds.now p.0)) }
{
    let a = SEED_FIELDS * p.0 + 4;
    for k in 0..n {
        if usize::from(seeds[a + k]) % NODES == s {
            return true;
        }
    }
    false
}

// Does the peer's seed name the slot?
fn names_at(seeds: &[u8], p: Peer, s: usize) -> bool
    requires { (length seeds.now ≡ seeds_size) × (p.0 < peers) }
    ensures { result ≡ any (eqb s) (seed_carries (seed_v seeds.now p.0)) }
{
    is_set(seeds, p) && is_among(seeds, p, nh_of(seeds, p), s)
}

// Does a seed name the slot? A function of its own in the archive: put into a command, its loops read the table's place from the stack at
// each slot, and a create beside seeds takes a seventh more time.
#[inline(never)]
pub fn names(seeds: &[u8], s: usize) -> bool
    requires { length seeds.now ≡ seeds_size }
    ensures { result ≡ seeded (seed_v seeds.now) s }
{
    for q in 0..PEERS {
        if names_at(seeds, Peer(q), s) {
            return true;
        }
    }
    false
}
