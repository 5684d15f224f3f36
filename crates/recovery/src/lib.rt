// The bus found again from the bytes that were kept of a journal.

#![tactic(auto)]

ghost use Rattle.std.specs.Prelude.{◌≡◌, ◌+◌, ◌≤◌, length};
ghost use Rattle.answers.specs.Answer.{answer_size};
ghost use Rattle.frames.specs.Frame.{parse};
ghost use Rattle.frames.specs.Lengths.{longest_frame};
ghost use Rattle.view.specs.View.{bus_of};
ghost use Rattle.bus.specs.Lent.{lent, SameTables};
ghost use Rattle.journal_model.specs.Journal.{is_question, wholly, recovery_from, recovered};
ghost use Rattle.recovery.specs.Steps.{tried_of, tried, stepped_of, read_step, line_step, halted_at, replay_from};

use bus::BusTables;
use frames::Command;
use ids::{ANSWER_SIZE, FRAME_SIZE};
use journal_model::Recovered;
use lines::LineRead;

// Is the frame a question?
fn is_question(f: &[u8]) -> bool
    ensures { result ≡ is_question (parse f.now) }
{
    matches!(
        frames::parse(f),
        Ok(Command::Quota(_, _)) | Ok(Command::Holders(_, _))
    )
}

// A frame of a journal carried out. Where it is refused or a question, nothing is done and the result is false. The answer
// is nobody's.
fn replay_frame(bus: &mut BusTables<'_>, f: &[u8], out: &mut [u8]) -> bool
    requires { length out.old ≡ answer_size }
    ensures same { SameTables bus.old bus.new }
    ensures done { tried_of result (lent bus.new) ≡ tried (lent bus.old) f.now }
{
    if is_question(f) {
        return false;
    }
    let o = bus.command(f, out);
    o.number == 0
}

// What halts a replay at a line: there is no whole line; it was refused, or is a question; or it is no frame, with the place
// of its fault.
#[derive(Clone, Copy, Debug, PartialEq, Eq)]
pub enum Halt {
    End,
    Refused,
    Unread(usize),
}

// What was read carried out: where the next line starts, as characters from this one, or what halts the replay.
fn replay_read(
    bus: &mut BusTables<'_>,
    frame: &[u8],
    read: LineRead,
    out: &mut [u8],
) -> Result<usize, Halt>
    requires { (length frame.now ≡ longest_frame) × (length out.old ≡ answer_size) }
    ensures same { SameTables bus.old bus.new }
    ensures done { stepped_of result (lent bus.new) ≡ read_step (lent bus.old) frame.now read }
{
    match read {
        LineRead::Frame(m, next) => {
            let part = &frame[..m.min(FRAME_SIZE)];
            if replay_frame(bus, part, out) {
                Ok(next)
            } else {
                Err(Halt::Refused)
            }
        }
        LineRead::Bad(place, _) => Err(Halt::Unread(place)),
        LineRead::Piece(_) => Err(Halt::End),
    }
}

// The first line of s read and carried out.
fn replay_line(
    bus: &mut BusTables<'_>,
    s: &[u8],
    frame: &mut [u8; FRAME_SIZE],
    out: &mut [u8],
) -> Result<usize, Halt>
    requires { length out.old ≡ answer_size }
    ensures same { SameTables bus.old bus.new }
    ensures done { stepped_of result (lent bus.new) ≡ line_step (lent bus.old) s.now }
{
    let read = lines::read_line(s, frame);
    replay_read(bus, frame, read, out)
}

// Where a replay halts behind n lines that end at `at`.
fn halted(halt: Halt, n: usize, at: usize) -> Recovered
    requires { n + 1 ≤ 18446744073709551615 }
    ensures { result ≡ halted_at halt n at }
{
    match halt {
        Halt::End => Recovered::Whole(n, at),
        Halt::Refused => Recovered::Stopped(n + 1),
        Halt::Unread(place) => Recovered::Unread(n + 1, place),
    }
}

// The lines of `kept` carried out one after another, at most `most`, up to the first that stops it.
fn replay_lines(
    bus: &mut BusTables<'_>,
    kept: &[u8],
    frame: &mut [u8; FRAME_SIZE],
    out: &mut [u8],
    most: usize,
) -> Recovered
    requires { length out.old ≡ answer_size }
    ensures same { SameTables bus.old bus.new }
    ensures done { recovery_from result (lent bus.new) ≡ replay_from most 0 0 (lent bus.old) kept.now }
{
    let mut at = 0;
    for n in 0..most {
        let rest = &kept[at..];
        match replay_line(bus, rest, frame, out) {
            Ok(next) => at += next,
            Err(halt) => return halted(halt, n, at),
        }
    }
    Recovered::Whole(most, at)
}

// The same with buffers of its own for a frame and for its answer.
pub fn replay(bus: &mut BusTables<'_>, kept: &[u8], most: usize) -> Recovered
    ensures same { SameTables bus.old bus.new }
    ensures done { recovery_from result (lent bus.new) ≡ replay_from most 0 0 (lent bus.old) kept.now }
{
    let mut frame = [0u8; FRAME_SIZE];
    let mut out = [0u8; ANSWER_SIZE];
    replay_lines(bus, kept, &mut frame, &mut out, most)
}

fn is_whole(r: Recovered) -> bool
    ensures { result ≡ wholly r }
{
    matches!(r, Recovered::Whole(_, _))
}

// The bus after the whole lines of the bytes kept of a journal, from a fresh one. A line that is no frame, that is refused
// or that is a question stops it, and leaves a fresh bus. The journal is only read.
pub fn recover(
    ps: &mut [u64],
    ns: &mut [u64],
    hs: &mut [u64],
    cs: &mut [u16],
    ends: &mut [u16],
    es: &mut [u16],
    carried: &mut [u8],
    numbers: &mut [u64],
    pool: &mut [u8],
    seeds: &mut [u8],
    kept: &[u8],
) -> Recovered
    ensures { let before = bus_of ps.old ns.old hs.old cs.old ends.old es.old carried.old numbers.old pool.old seeds.old in
        let after = bus_of ps.new ns.new hs.new cs.new ends.new es.new carried.new numbers.new pool.new seeds.new in
        recovery_from result after ≡ recovered before kept.now }
{
    let mut bus = BusTables {
        peers: ps,
        nodes: ns,
        handles: hs,
        charges: cs,
        ends,
        entries: es,
        carried,
        numbers,
        pool,
        seeds,
    };
    if bus.fresh() != 0 {
        return Recovered::WrongLength;
    }
    let r = replay(&mut bus, kept, kept.len());
    if is_whole(r) {
        return r;
    }
    bus.fresh();
    r
}
