// The bus: a fresh one, and one command in, one answer out, over ten lent tables and an answer buffer.

#![tactic(auto)]

ghost use Rattle.std.specs.Prelude.{◌≡◌, ◌<◌, ◌≤◌, length};
ghost use Rattle.answers.specs.Answer.{answer_size};
ghost use Rattle.frames.specs.Legal.{Legal};
ghost use Rattle.view.specs.View.{bus_of, Shape};
ghost use Rattle.queues.specs.Queues.{Short};
ghost use Rattle.judges.specs.Orders.{sight, ruling_of};
ghost use Rattle.rings.specs.Rings.{rings_of};
ghost use Rattle.ids.specs.Sizes.{peers as peer_count, peers_size, ends_size};
ghost use Rattle.bus_model.specs.Command.{sized_ok, peer_ok, ranges_ok, sound_ok, done_of, carried_out, command_of, fresh_of, fresh_number};
ghost use Rattle.bus.specs.Lent.{lent, SameTables};

mod lent;

use answers::Outcome;
use frames::Command;
use ids::{
    ACCEPTED_END, ANSWER_SIZE, CARRIED_SIZE, CHARGES_SIZE, EINVAL, EIO, END_FIELDS, ENDS_SIZE,
    ENTRIES_SIZE, GIVEN_END, HANDLES_SIZE, NODES_SIZE, NUMBERS_SIZE, PEER_FIELDS, PEERS,
    PEERS_SIZE, POOL_SIZE, RING, SEEDS_SIZE,
};
pub use lent::BusTables;
use rings::RingTables;

// The rows of a ring as a number of the table of heads and lengths.
const RING_ROWS: u16 = RING as u16;

// Have the bus buffers their lengths?
#[tactic(auto, unfolding(bus_model::specs::Command::sized_ok))]
fn sized(
    peers: &[u64],
    nodes: &[u64],
    handles: &[u64],
    charges: &[u16],
    ends: &[u16],
    entries: &[u16],
    carried: &[u8],
    numbers: &[u64],
    pool: &[u8],
    seeds: &[u8],
) -> bool
    ensures { let bus = bus_of peers.now nodes.now handles.now charges.now
        ends.now entries.now carried.now numbers.now pool.now seeds.now in
        result ≡ sized_ok bus }
{
    peers.len() == PEERS_SIZE
        && nodes.len() == NODES_SIZE
        && handles.len() == HANDLES_SIZE
        && charges.len() == CHARGES_SIZE
        && ends.len() == ENDS_SIZE
        && entries.len() == ENTRIES_SIZE
        && carried.len() == CARRIED_SIZE
        && numbers.len() == NUMBERS_SIZE
        && pool.len() == POOL_SIZE
        && seeds.len() == SEEDS_SIZE
}

// Are the numbers of a peer in their ranges?
#[tactic(auto, unfolding(bus_model::specs::Command::peer_ok))]
fn peer_in_range(peers: &[u64], ends: &[u16], p: usize) -> bool
    requires { (length peers.now ≡ peers_size) × (length ends.now ≡ ends_size) × (p < peer_count) }
    ensures { result ≡ peer_ok peers.now ends.now p }
{
    let at = 1 + PEER_FIELDS * p;
    peers[at] <= 2
        && peers[at + 1] <= 3
        && peers[at + 2] < GIVEN_END
        && ends[p * END_FIELDS] < RING_ROWS
        && ends[p * END_FIELDS + 1] <= RING_ROWS
}

// Are the numbers that steer everything in their ranges?
fn in_range(peers: &[u64], ends: &[u16]) -> bool
    requires { (length peers.now ≡ peers_size) × (length ends.now ≡ ends_size) }
    ensures { result ≡ ranges_ok peers.now ends.now }
{
    for p in 0..PEERS {
        if !peer_in_range(peers, ends, p) {
            return false;
        }
    }
    peers[0] < ACCEPTED_END
}

// Have the buffers their lengths and their numbers their ranges?
#[tactic(auto, unfolding(bus_model::specs::Command::sound_ok))]
pub fn is_sound(
    peers: &[u64],
    nodes: &[u64],
    handles: &[u64],
    charges: &[u16],
    ends: &[u16],
    entries: &[u16],
    carried: &[u8],
    numbers: &[u64],
    pool: &[u8],
    seeds: &[u8],
) -> bool
    ensures { let bus = bus_of peers.now nodes.now handles.now charges.now
        ends.now entries.now carried.now numbers.now pool.now seeds.now in
        result ≡ sound_ok bus }
{
    sized(
        peers, nodes, handles, charges, ends, entries, carried, numbers, pool, seeds,
    ) && in_range(peers, ends)
}

// From here to `obey` the tables peers, nodes, handles and charges are ps, ns, hs and cs, and the frame is f, as in the
// specs.

// A command judged and carried out.
fn execute(
    ps: &mut [u64],
    ns: &mut [u64],
    hs: &mut [u64],
    cs: &mut [u16],
    ends: &mut [u16],
    entries: &mut [u16],
    carried: &mut [u8],
    numbers: &mut [u64],
    pool: &mut [u8],
    seeds: &mut [u8],
    f: &[u8],
    c: Command,
    out: &mut [u8],
) -> Outcome
    requires { Shape (bus_of ps.old ns.old hs.old cs.old ends.old entries.old carried.old numbers.old pool.old seeds.old)
        × Short ends.old × Legal f.now c }
    ensures { let before = bus_of ps.old ns.old hs.old cs.old
        ends.old entries.old carried.old numbers.old pool.old seeds.old in
        let after = bus_of ps.new ns.new hs.new cs.new
        ends.new entries.new carried.new numbers.new pool.new seeds.new in
        let rings = rings_of ends.old entries.old carried.old numbers.old in
        let tables = sight ps.old ns.old hs.old cs.old rings seeds.old in
        done_of result after out.new
        ≡ carried_out before f.now out.old (ruling_of tables f.now c) }
{
    let mut rings = RingTables {
        ends,
        entries,
        carried,
        numbers,
    };
    let r = judges::judge(ps, ns, hs, cs, &rings.view(), seeds, f, c);
    execution::carry_out(ps, ns, hs, cs, &mut rings, pool, seeds, f, r, out)
}

// A command into an answer buffer that is long enough.
fn obey(
    ps: &mut [u64],
    ns: &mut [u64],
    hs: &mut [u64],
    cs: &mut [u16],
    ends: &mut [u16],
    entries: &mut [u16],
    carried: &mut [u8],
    numbers: &mut [u64],
    pool: &mut [u8],
    seeds: &mut [u8],
    f: &[u8],
    out: &mut [u8],
) -> Outcome
    requires { answer_size ≤ length out.old }
    ensures { let before = bus_of ps.old ns.old hs.old cs.old
        ends.old entries.old carried.old numbers.old pool.old seeds.old in
        let after = bus_of ps.new ns.new hs.new cs.new
        ends.new entries.new carried.new numbers.new pool.new seeds.new in
        done_of result after out.new ≡ command_of before f.now out.old }
{
    if !is_sound(ps, ns, hs, cs, ends, entries, carried, numbers, pool, seeds) {
        return answers::write_refusal(out, EIO);
    }
    match frames::parse(f) {
        Err(refusal) => answers::write_refusal(out, u8::from(refusal)),
        Ok(c) => execute(
            ps, ns, hs, cs, ends, entries, carried, numbers, pool, seeds, f, c, out,
        ),
    }
}

// One command. Its answer is written into the answer buffer; the number, 0 or the refusal, and the answer's length come
// back.
#[tactic(auto, unfolding(bus_model::specs::Command::command_of))]
pub fn command(
    peers: &mut [u64],
    nodes: &mut [u64],
    handles: &mut [u64],
    charges: &mut [u16],
    ends: &mut [u16],
    entries: &mut [u16],
    carried: &mut [u8],
    numbers: &mut [u64],
    pool: &mut [u8],
    seeds: &mut [u8],
    frame: &[u8],
    out: &mut [u8],
) -> Outcome
    ensures { let before = bus_of peers.old nodes.old handles.old charges.old
        ends.old entries.old carried.old numbers.old pool.old seeds.old in
        let after = bus_of peers.new nodes.new handles.new charges.new
        ends.new entries.new carried.new numbers.new pool.new seeds.new in
        done_of result after out.new ≡ command_of before frame.now out.old }
{
    if out.len() < ANSWER_SIZE {
        return Outcome {
            number: EINVAL,
            len: 0,
        };
    }
    obey(
        peers, nodes, handles, charges, ends, entries, carried, numbers, pool, seeds, frame, out,
    )
}

// A fresh bus, no peer opened. The number is 0, or 5 where a buffer lacks its length: then nothing is written. A number, since C gets
// it back and `fresh_number` says it.
pub fn fresh(
    peers: &mut [u64],
    nodes: &mut [u64],
    handles: &mut [u64],
    charges: &mut [u16],
    ends: &mut [u16],
    entries: &mut [u16],
    carried: &mut [u8],
    numbers: &mut [u64],
    pool: &mut [u8],
    seeds: &mut [u8],
) -> u8
    ensures { let before = bus_of peers.old nodes.old handles.old charges.old
        ends.old entries.old carried.old numbers.old pool.old seeds.old in
        let after = bus_of peers.new nodes.new handles.new charges.new
        ends.new entries.new carried.new numbers.new pool.new seeds.new in
        (result ≡ fresh_number before) × (after ≡ fresh_of before) }
{
    if !sized(
        peers, nodes, handles, charges, ends, entries, carried, numbers, pool, seeds,
    ) {
        return EIO;
    }
    peers.fill(0);
    nodes.fill(0);
    handles.fill(0);
    charges.fill(0);
    ends.fill(0);
    entries.fill(0);
    carried.fill(0);
    numbers.fill(0);
    pool.fill(0);
    seeds.fill(0);
    0
}

impl BusTables<'_> {
    // One command on the bus of these tables.
    pub fn command(&mut self, frame: &[u8], out: &mut [u8]) -> Outcome
        ensures same { SameTables self.old self.new }
        ensures done { done_of result (lent self.new) out.new ≡ command_of (lent self.old) frame.now out.old }
    {
        command(
            self.peers,
            self.nodes,
            self.handles,
            self.charges,
            self.ends,
            self.entries,
            self.carried,
            self.numbers,
            self.pool,
            self.seeds,
            frame,
            out,
        )
    }

    // A fresh bus in these tables. A number, as the contract of the function `fresh` says (`fresh_number`), which C reads
    // too.
    pub fn fresh(&mut self) -> u8
        ensures same { SameTables self.old self.new }
        ensures done { (result ≡ fresh_number (lent self.old)) × (lent self.new ≡ fresh_of (lent self.old)) }
    {
        fresh(
            self.peers,
            self.nodes,
            self.handles,
            self.charges,
            self.ends,
            self.entries,
            self.carried,
            self.numbers,
            self.pool,
            self.seeds,
        )
    }
}
