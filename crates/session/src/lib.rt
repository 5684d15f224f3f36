// Lines answered: from the lines of a chunk of input to the text of their answers, each line on the bus as the line
// before left it. Reading the input and writing the text are the program's.

#![tactic(auto)]

ghost use Rattle.std.specs.Prelude.{◌≡◌, ◌+◌, ◌*◌, ◌≤◌, [], ◌∷◌, length};
ghost use Rattle.std.proofs.lemmas.List.Edits.{sets};
ghost use Rattle.lines.specs.Line.{answer_line};
ghost use Rattle.lines.specs.Chunks.{Found.frame, Found.bad};
ghost use Rattle.frames.specs.Lengths.{longest_frame};
ghost use Rattle.answers.specs.Answer.{answer_size};
ghost use Rattle.bus.specs.Lent.{lent, SameTables};
ghost use Rattle.session.specs.Session.{longest, Served, Stopped, Put, PutRead, Holds, used_by, Turned};

use bus::BusTables;
use ids::{ANSWER_SIZE, EINVAL, FRAME_SIZE};
use lines::LineRead;

// The longest answer line: the digits of 591 bytes, and its LF.
const LONGEST: usize = 2 * ANSWER_SIZE + 1;

// Writes the answer line of some bytes from `at` on, for which there is room. Where the next one goes.
fn put_line(text: &mut [u8], at: usize, bytes: &[u8]) -> usize
    requires { at + (2 * length bytes.now + 1) ≤ length text.old }
    ensures { (text.new ≡ sets text.old at (answer_line bytes.now))
        × (result ≡ at + (2 * length bytes.now + 1)) }
{
    lines::write_line(text, at, bytes).unwrap()
}

// The command of a frame, and the line of its answer. Where the next line goes.
fn answer_frame(
    bus: &mut BusTables<'_>,
    f: &[u8],
    out: &mut [u8],
    text: &mut [u8],
    at: usize,
) -> usize
    requires { (length out.old ≡ answer_size) × (at + longest ≤ length text.old) }
    ensures same { SameTables bus.old bus.new }
    ensures done { Put (lent bus.old) (frame f.now) text.old at (lent bus.new) text.new result }
{
    let o = bus.command(f, out);
    put_line(text, at, &out[..o.len])
}

// The answer line of a line that is no frame.
fn refuse(text: &mut [u8], at: usize) -> usize
    requires { at + longest ≤ length text.old }
    ensures { (text.new ≡ sets text.old at (answer_line (22 ∷ []))) × (result ≡ at + 3) }
{
    put_line(text, at, &[EINVAL])
}

// The answer line of what was read, or nothing where its LF is missing. Where the next line goes.
fn answer_read(
    bus: &mut BusTables<'_>,
    f: &[u8],
    read: LineRead,
    out: &mut [u8],
    text: &mut [u8],
    at: usize,
) -> usize
    requires { (length out.old ≡ answer_size) × (at + longest ≤ length text.old) × (length f.now ≡ longest_frame) × Holds read }
    ensures same { SameTables bus.old bus.new }
    ensures done { PutRead (lent bus.old) f.now read text.old at (lent bus.new) text.new result }
{
    match read {
        LineRead::Frame(m, _) => answer_frame(bus, &f[..m], out, text, at),
        LineRead::Bad(_, _) => refuse(text, at),
        LineRead::Piece(_) => at,
    }
}

// How many characters a line took, none where its LF is missing.
fn used_by(read: LineRead) -> Option<usize>
    ensures { result ≡ used_by read }
{
    match read {
        LineRead::Frame(_, next) => Some(next),
        LineRead::Bad(_, next) => Some(next),
        LineRead::Piece(_) => None,
    }
}

// Where a line starts, and where its answer line goes.
#[derive(Clone, Copy)]
struct Turn {
    from: usize,
    at: usize,
}

// The line that starts at the turn's place answered: the turn of the next one. None, and nothing is done, where its LF is
// missing.
fn answer_line(
    bus: &mut BusTables<'_>,
    s: &[u8],
    f: &mut [u8; FRAME_SIZE],
    out: &mut [u8],
    text: &mut [u8],
    t: Turn,
) -> Option<Turn>
    requires { (t.from ≤ length s.now) × (length out.old ≡ answer_size) × (t.at + longest ≤ length text.old) }
    ensures same { SameTables bus.old bus.new }
    ensures done { Turned (lent bus.old) s.now t text.old (lent bus.new) text.new result }
{
    let from = t.from;
    let read = lines::read_line(&s[from..], f);
    let at = answer_read(bus, f, read, out, text, t.at);
    let next = from + used_by(read)?;
    Some(Turn { from: next, at })
}

// How far the answering came: where the next line starts, where the text ends, and whether there is more to answer, for
// which the text has to be written out first. `more` is a flag, since both places hold in either case.
#[derive(Clone, Copy)]
pub struct Progress {
    pub from: usize,
    pub at: usize,
    pub more: bool,
}

// The whole lines of s from `from` on answered, as far as their answers have room: the text of the answers stands at the
// front of the text buffer.
pub fn answer_lines(bus: &mut BusTables<'_>, s: &[u8], from: usize, text: &mut [u8]) -> Progress
    requires { from ≤ length s.now }
    ensures same { SameTables bus.old bus.new }
    ensures done { Served (lent bus.old) s.now from 0 text.old (lent bus.new) text.new result.from result.at
        × Stopped s.now text.old result.from result.at result.more }
{
    let mut f = [0u8; FRAME_SIZE];
    let mut out = [0u8; ANSWER_SIZE];
    let mut t = Turn { from, at: 0 };
    while LONGEST <= text.len() - t.at {
        let Some(next) = answer_line(bus, s, &mut f, &mut out, text, t) else {
            return Progress {
                from: t.from,
                at: t.at,
                more: false,
            };
        };
        t = next;
    }
    Progress {
        from: t.from,
        at: t.at,
        more: true,
    }
}
