// The bus for C and Rust on x86-64 to link, as a static library: each function of `export` under its C name, with its clauses.

#![tactic(auto)]

ghost use Rattle.std.specs.Prelude.{◌≡◌};
ghost use Rattle.view.specs.View.{bus_of};
ghost use Rattle.bus_model.specs.Command.{done_of, command_of, fresh_of, fresh_number};

use export::BusOutcome;

#[unsafe(no_mangle)]
pub extern "C" fn eikelzwier_version() -> u32
    ensures { result ≡ 600 }
{
    export::eikelzwier_version()
}

// A fresh bus, no peer opened. The number is 0, or 5 where a buffer lacks its length: then nothing is written.
#[unsafe(no_mangle)]
pub extern "C" fn eikelzwier_fresh(
    peers: &mut [u64],
    nodes: &mut [u64],
    handles: &mut [u64],
    charges: &mut [u16],
    ends: &mut [u16],
    entries: &mut [u16],
    carried: &mut [u8],
    numbers: &mut [u64],
    pool: &mut [u8],
    seeds: &mut [u8],
) -> u8
    ensures { let before = bus_of peers.old nodes.old handles.old charges.old
        ends.old entries.old carried.old numbers.old pool.old seeds.old in
        let after = bus_of peers.new nodes.new handles.new charges.new
        ends.new entries.new carried.new numbers.new pool.new seeds.new in
        (result ≡ fresh_number before) × (after ≡ fresh_of before) }
{
    export::eikelzwier_fresh(
        peers, nodes, handles, charges, ends, entries, carried, numbers, pool, seeds,
    )
}

// One command. Its answer is written into the answer buffer.
#[unsafe(no_mangle)]
pub extern "C" fn eikelzwier_command(
    peers: &mut [u64],
    nodes: &mut [u64],
    handles: &mut [u64],
    charges: &mut [u16],
    ends: &mut [u16],
    entries: &mut [u16],
    carried: &mut [u8],
    numbers: &mut [u64],
    pool: &mut [u8],
    seeds: &mut [u8],
    frame: &[u8],
    out: &mut [u8],
) -> BusOutcome
    ensures { let before = bus_of peers.old nodes.old handles.old charges.old
        ends.old entries.old carried.old numbers.old pool.old seeds.old in
        let after = bus_of peers.new nodes.new handles.new charges.new
        ends.new entries.new carried.new numbers.new pool.new seeds.new in
        done_of (record { number = result.number; len = result.len }) after out.new
        ≡ command_of before frame.now out.old }
{
    export::eikelzwier_command(
        peers, nodes, handles, charges, ends, entries, carried, numbers, pool, seeds, frame, out,
    )
}
