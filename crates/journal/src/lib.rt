// A journal: every accepted command kept as its line before it is carried out.

#![tactic(auto)]

ghost use Rattle.std.specs.Prelude.{◌≡◌, ◌≤◌, length};
ghost use Rattle.answers.specs.Answer.{answer_size};
ghost use Rattle.frames.specs.Legal.{Legal};
ghost use Rattle.view.specs.View.{bus_of, Shape};
ghost use Rattle.queues.specs.Queues.{Short};
ghost use Rattle.judges.specs.Orders.{sight, ruling_of};
ghost use Rattle.rings.specs.Rings.{rings_of};
ghost use Rattle.journal_model.specs.Journal.{outcome_with, returned_with, obeyed_with, command_with};
ghost use Rattle.journal_model.specs.Counted.{changing};
ghost use Rattle.journal.specs.Steps.{append_written, journal_after, executed_with};

use answers::Outcome;
use frames::Command;
use ids::{ANSWER_SIZE, EFBIG, EINVAL, EIO};
use journal_model::JournalOutcome;
use judges::Order;
use rings::RingTables;

// An outcome with the journal's used length. It joins two values into a type of `journal_model`: `From` of a pair is no
// plainer, as `(answers::write_refusal(out, EFBIG), used).into()` shows.
fn with_used(o: Outcome, used: usize) -> JournalOutcome
    ensures { result ≡ outcome_with o used }
{
    JournalOutcome {
        number: o.number,
        len: o.len,
        used,
    }
}

// Is it an order that changes the bus: neither a refusal nor a question?
#[tactic(auto, unfolding(journal_model::specs::Counted::changing))]
fn is_change(order: Order) -> bool
    ensures { result ≡ changing order }
{
    !matches!(
        order,
        Order::Refuse(_) | Order::Quota(_, _) | Order::Holders(_)
    )
}

// The line of a command whose order changes the bus, appended to the journal; a refusal and a question are not kept.
fn append_line(journal: &mut [u8], used: usize, f: &[u8], order: Order) -> Option<usize>
    ensures { (result ≡ append_written order journal.old used f.now)
        × (journal.new ≡ journal_after order journal.old used f.now) }
{
    if !is_change(order) {
        return Some(used);
    }
    lines::write_line(journal, used, f)
}

// Between the checks and the changes stands the journal: a command is judged, its line is written whole, and only then is
// the bus changed and the answer written.
fn execute(
    ps: &mut [u64],
    ns: &mut [u64],
    hs: &mut [u64],
    cs: &mut [u16],
    ends: &mut [u16],
    es: &mut [u16],
    carried: &mut [u8],
    numbers: &mut [u64],
    pool: &mut [u8],
    seeds: &mut [u8],
    f: &[u8],
    c: Command,
    out: &mut [u8],
    journal: &mut [u8],
    used: usize,
) -> JournalOutcome
    requires { Shape (bus_of ps.old ns.old hs.old cs.old ends.old es.old carried.old numbers.old pool.old seeds.old)
        × Short ends.old × Legal f.now c × (answer_size ≤ length out.old) }
    ensures { let before = bus_of ps.old ns.old hs.old cs.old
        ends.old es.old carried.old numbers.old pool.old seeds.old in
        let after = bus_of ps.new ns.new hs.new cs.new
        ends.new es.new carried.new numbers.new pool.new seeds.new in
        let rings = rings_of ends.old es.old carried.old numbers.old in
        let tables = sight ps.old ns.old hs.old cs.old rings seeds.old in
        returned_with result after out.new journal.new
        ≡ executed_with before f.now out.old (ruling_of tables f.now c) journal.old used }
{
    let mut rings = RingTables {
        ends,
        entries: es,
        carried,
        numbers,
    };
    let r = judges::judge(ps, ns, hs, cs, &rings.view(), seeds, f, c);
    let Some(next) = append_line(journal, used, f, r.order) else {
        return with_used(answers::write_refusal(out, EFBIG), used);
    };
    let o = execution::carry_out(ps, ns, hs, cs, &mut rings, pool, seeds, f, r, out);
    with_used(o, next)
}

// A command into an answer buffer that is long enough, with a journal whose used part lies in it.
fn obey(
    ps: &mut [u64],
    ns: &mut [u64],
    hs: &mut [u64],
    cs: &mut [u16],
    ends: &mut [u16],
    es: &mut [u16],
    carried: &mut [u8],
    numbers: &mut [u64],
    pool: &mut [u8],
    seeds: &mut [u8],
    f: &[u8],
    out: &mut [u8],
    journal: &mut [u8],
    used: usize,
) -> JournalOutcome
    requires { answer_size ≤ length out.old }
    ensures { let before = bus_of ps.old ns.old hs.old cs.old
        ends.old es.old carried.old numbers.old pool.old seeds.old in
        let after = bus_of ps.new ns.new hs.new cs.new
        ends.new es.new carried.new numbers.new pool.new seeds.new in
        returned_with result after out.new journal.new
        ≡ obeyed_with before f.now out.old journal.old used }
{
    if journal.len() < used
        || !bus::is_sound(ps, ns, hs, cs, ends, es, carried, numbers, pool, seeds)
    {
        return with_used(answers::write_refusal(out, EIO), used);
    }
    match frames::parse(f) {
        Err(refusal) => with_used(answers::write_refusal(out, u8::from(refusal)), used),
        Ok(c) => execute(
            ps, ns, hs, cs, ends, es, carried, numbers, pool, seeds, f, c, out, journal, used,
        ),
    }
}

// One command with a journal, of which `used` bytes are used: an accepted command that is no question is appended to it as
// its line before it is carried out. 27 where the line has no room, the last of all checks; 5 where more is used than the
// journal has.
pub fn command_with_journal(
    ps: &mut [u64],
    ns: &mut [u64],
    hs: &mut [u64],
    cs: &mut [u16],
    ends: &mut [u16],
    es: &mut [u16],
    carried: &mut [u8],
    numbers: &mut [u64],
    pool: &mut [u8],
    seeds: &mut [u8],
    f: &[u8],
    out: &mut [u8],
    journal: &mut [u8],
    used: usize,
) -> JournalOutcome
    ensures { let before = bus_of ps.old ns.old hs.old cs.old
        ends.old es.old carried.old numbers.old pool.old seeds.old in
        let after = bus_of ps.new ns.new hs.new cs.new
        ends.new es.new carried.new numbers.new pool.new seeds.new in
        returned_with result after out.new journal.new
        ≡ command_with before f.now out.old journal.old used }
{
    if out.len() < ANSWER_SIZE {
        return JournalOutcome {
            number: EINVAL,
            len: 0,
            used,
        };
    }
    obey(
        ps, ns, hs, cs, ends, es, carried, numbers, pool, seeds, f, out, journal, used,
    )
}
