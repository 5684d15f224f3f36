// A command with a journal under its C name, as a library, over which the theorems stand: with the contract of the function that it
// calls. `export_journal_c` exports it.

#![tactic(auto)]

ghost use Rattle.std.specs.Prelude.{◌≡◌};
ghost use Rattle.view.specs.View.{bus_of};
ghost use Rattle.journal_model.specs.Journal.{returned_with, command_with};

use journal_model::JournalOutcome;

// What comes back of a command with a journal: the number, the answer's length and the journal's used length.
#[repr(C)]
#[derive(Clone, Copy)]
pub struct BusReport {
    pub number: u8,
    pub len: usize,
    pub used: usize,
}

impl From<JournalOutcome> for BusReport {
    ghost from_gives = { λ o r. (r.number ≡ o.number) × (r.len ≡ o.len) × (r.used ≡ o.used) };

    fn from(o: JournalOutcome) -> BusReport {
        BusReport {
            number: o.number,
            len: o.len,
            used: o.used,
        }
    }
}

// One command with a journal, of which `used` bytes are used.
pub fn eikelzwier_command_with_journal(
    peers: &mut [u64],
    nodes: &mut [u64],
    handles: &mut [u64],
    charges: &mut [u16],
    ends: &mut [u16],
    entries: &mut [u16],
    carried: &mut [u8],
    numbers: &mut [u64],
    pool: &mut [u8],
    seeds: &mut [u8],
    frame: &[u8],
    out: &mut [u8],
    journal: &mut [u8],
    used: usize,
) -> BusReport
    ensures { let before = bus_of peers.old nodes.old handles.old charges.old
        ends.old entries.old carried.old numbers.old pool.old seeds.old in
        let after = bus_of peers.new nodes.new handles.new charges.new
        ends.new entries.new carried.new numbers.new pool.new seeds.new in
        returned_with (record { number = result.number; len = result.len; used = result.used }) after out.new journal.new
        ≡ command_with before frame.now out.old journal.old used }
{
    let o = journal::command_with_journal(
        peers, nodes, handles, charges, ends, entries, carried, numbers, pool, seeds, frame, out,
        journal, used,
    );
    BusReport::from(o)
}
