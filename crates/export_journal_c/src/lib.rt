// A command with a journal for C and Rust on x86-64 to link, as a static library: the function of `export_journal` under its C name, with
// its clauses. It is a static library of its own, so that each of the exported functions has the core compiled into it.

#![tactic(auto)]

ghost use Rattle.std.specs.Prelude.{◌≡◌};
ghost use Rattle.view.specs.View.{bus_of};
ghost use Rattle.journal_model.specs.Journal.{returned_with, command_with};

use export_journal::BusReport;

// One command with a journal, of which `used` bytes are used.
#[unsafe(no_mangle)]
pub extern "C" fn eikelzwier_command_with_journal(
    peers: &mut [u64],
    nodes: &mut [u64],
    handles: &mut [u64],
    charges: &mut [u16],
    ends: &mut [u16],
    entries: &mut [u16],
    carried: &mut [u8],
    numbers: &mut [u64],
    pool: &mut [u8],
    seeds: &mut [u8],
    frame: &[u8],
    out: &mut [u8],
    journal: &mut [u8],
    used: usize,
) -> BusReport
    ensures { let before = bus_of peers.old nodes.old handles.old charges.old
        ends.old entries.old carried.old numbers.old pool.old seeds.old in
        let after = bus_of peers.new nodes.new handles.new charges.new
        ends.new entries.new carried.new numbers.new pool.new seeds.new in
        returned_with (record { number = result.number; len = result.len; used = result.used }) after out.new journal.new
        ≡ command_with before frame.now out.old journal.old used }
{
    export_journal::eikelzwier_command_with_journal(
        peers, nodes, handles, charges, ends, entries, carried, numbers, pool, seeds, frame, out,
        journal, used,
    )
}
