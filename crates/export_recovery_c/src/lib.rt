// Recovery for C and Rust on x86-64 to link, as a static library: the function of `export_recovery` under its C name, with its clauses. It
// is a static library of its own, so that each of the exported functions has the core compiled into it.

#![tactic(auto)]

ghost use Rattle.std.specs.Prelude.{◌≡◌};
ghost use Rattle.view.specs.View.{bus_of};
ghost use Rattle.journal_model.specs.Journal.{recovered, told_from, told_of};

use export_recovery::BusRecovery;

// The bus after the whole lines of the bytes kept of a journal, or a fresh one where a line stopped it.
#[unsafe(no_mangle)]
pub extern "C" fn eikelzwier_recover(
    peers: &mut [u64],
    nodes: &mut [u64],
    handles: &mut [u64],
    charges: &mut [u16],
    ends: &mut [u16],
    entries: &mut [u16],
    carried: &mut [u8],
    numbers: &mut [u64],
    pool: &mut [u8],
    seeds: &mut [u8],
    kept: &[u8],
) -> BusRecovery
    ensures { let before = bus_of peers.old nodes.old handles.old charges.old
        ends.old entries.old carried.old numbers.old pool.old seeds.old in
        let after = bus_of peers.new nodes.new handles.new charges.new
        ends.new entries.new carried.new numbers.new pool.new seeds.new in
        told_from result.number result.line result.place result.used after ≡ told_of (recovered before kept.now) }
{
    export_recovery::eikelzwier_recover(
        peers, nodes, handles, charges, ends, entries, carried, numbers, pool, seeds, kept,
    )
}
