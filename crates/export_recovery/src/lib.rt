// Recovery under its C name, as a library, over which the theorems stand: with the contract of the function that it calls.
// `export_recovery_c` exports it.

#![tactic(auto)]

ghost use Rattle.std.specs.Prelude.{◌≡◌};
ghost use Rattle.view.specs.View.{bus_of};
ghost use Rattle.journal_model.specs.Journal.{recovered, number_in, line_in, place_in, used_in, told_from, told_of};

use ids::EIO;
use journal_model::Recovered;

// What comes back of a recovery: 0 or 5; how many lines were carried out, or the line that stopped it, from 1, or 0; the
// place of its fault, or all ones where the line reader refused none; and the used length.
#[repr(C)]
#[derive(Clone, Copy)]
pub struct BusRecovery {
    pub number: u8,
    pub line: usize,
    pub place: usize,
    pub used: usize,
}

const NO_PLACE: usize = usize::MAX;

impl From<Recovered> for BusRecovery {
    ghost from_gives = { λ r b. (b.number ≡ number_in r) × (b.line ≡ line_in r) × (b.place ≡ place_in r) × (b.used ≡ used_in r) };

    fn from(r: Recovered) -> BusRecovery {
        match r {
            Recovered::Whole(n, used) => BusRecovery {
                number: 0,
                line: n,
                place: NO_PLACE,
                used,
            },
            Recovered::Stopped(n) => BusRecovery {
                number: EIO,
                line: n,
                place: NO_PLACE,
                used: 0,
            },
            Recovered::Unread(n, place) => BusRecovery {
                number: EIO,
                line: n,
                place,
                used: 0,
            },
            Recovered::WrongLength => BusRecovery {
                number: EIO,
                line: 0,
                place: NO_PLACE,
                used: 0,
            },
        }
    }
}

// The bus after the whole lines of the bytes kept of a journal, or a fresh one where a line stopped it.
pub fn eikelzwier_recover(
    peers: &mut [u64],
    nodes: &mut [u64],
    handles: &mut [u64],
    charges: &mut [u16],
    ends: &mut [u16],
    entries: &mut [u16],
    carried: &mut [u8],
    numbers: &mut [u64],
    pool: &mut [u8],
    seeds: &mut [u8],
    kept: &[u8],
) -> BusRecovery
    ensures { let before = bus_of peers.old nodes.old handles.old charges.old
        ends.old entries.old carried.old numbers.old pool.old seeds.old in
        let after = bus_of peers.new nodes.new handles.new charges.new
        ends.new entries.new carried.new numbers.new pool.new seeds.new in
        told_from result.number result.line result.place result.used after ≡ told_of (recovered before kept.now) }
{
    let r = recovery::recover(
        peers, nodes, handles, charges, ends, entries, carried, numbers, pool, seeds, kept,
    );
    BusRecovery::from(r)
}
