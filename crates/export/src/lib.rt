// What C calls of the bus, as a library, over which the theorems stand: its two functions under their C names, each with the contract of
// the function that it calls, and the version by which a header is compared with the archive. `export_c` exports them.

#![tactic(auto)]

ghost use Rattle.std.specs.Prelude.{◌≡◌};
ghost use Rattle.view.specs.View.{bus_of};
ghost use Rattle.bus_model.specs.Command.{done_of, command_of, fresh_of, fresh_number};

use answers::Outcome;

// What comes back of a command: the number, 0 or the refusal, and the answer's length.
#[repr(C)]
#[derive(Clone, Copy)]
pub struct BusOutcome {
    pub number: u8,
    pub len: usize,
}

impl From<Outcome> for BusOutcome {
    ghost from_gives = { λ o r. (r.number ≡ o.number) × (r.len ≡ o.len) };

    fn from(o: Outcome) -> BusOutcome {
        BusOutcome {
            number: o.number,
            len: o.len,
        }
    }
}

// Version 0.6.0: 10,000 times the first part, 100 times the second, and the third.
const VERSION: u32 = 600;

pub fn eikelzwier_version() -> u32
    ensures { result ≡ 600 }
{
    VERSION
}

// A fresh bus, no peer opened. The number is 0, or 5 where a buffer lacks its length: then nothing is written.
pub fn eikelzwier_fresh(
    peers: &mut [u64],
    nodes: &mut [u64],
    handles: &mut [u64],
    charges: &mut [u16],
    ends: &mut [u16],
    entries: &mut [u16],
    carried: &mut [u8],
    numbers: &mut [u64],
    pool: &mut [u8],
    seeds: &mut [u8],
) -> u8
    ensures { let before = bus_of peers.old nodes.old handles.old charges.old
        ends.old entries.old carried.old numbers.old pool.old seeds.old in
        let after = bus_of peers.new nodes.new handles.new charges.new
        ends.new entries.new carried.new numbers.new pool.new seeds.new in
        (result ≡ fresh_number before) × (after ≡ fresh_of before) }
{
    bus::fresh(
        peers, nodes, handles, charges, ends, entries, carried, numbers, pool, seeds,
    )
}

// One command. Its answer is written into the answer buffer.
pub fn eikelzwier_command(
    peers: &mut [u64],
    nodes: &mut [u64],
    handles: &mut [u64],
    charges: &mut [u16],
    ends: &mut [u16],
    entries: &mut [u16],
    carried: &mut [u8],
    numbers: &mut [u64],
    pool: &mut [u8],
    seeds: &mut [u8],
    frame: &[u8],
    out: &mut [u8],
) -> BusOutcome
    ensures { let before = bus_of peers.old nodes.old handles.old charges.old
        ends.old entries.old carried.old numbers.old pool.old seeds.old in
        let after = bus_of peers.new nodes.new handles.new charges.new
        ends.new entries.new carried.new numbers.new pool.new seeds.new in
        done_of (record { number = result.number; len = result.len }) after out.new
        ≡ command_of before frame.now out.old }
{
    let o = bus::command(
        peers, nodes, handles, charges, ends, entries, carried, numbers, pool, seeds, frame, out,
    );
    BusOutcome::from(o)
}
