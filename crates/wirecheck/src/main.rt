// Runs the readers and writers of the wire format and the quota rule: for each line of standard input one answer line.
// It is no bus. A line that is not hexadecimal is answered 16 and the place of its fault (2 bytes), a frame that is
// refused its number, and a command that is read:
//   01, 02, 03   00
//   04           the destroy notice of its ID
//   05           the release notice of its ID
//   06           00 and its ID
//   07           charged to the user with its peer's number modulo 4: 7a, or its message, with the first ID as destination;
//                with nd 0 its seed, not charged
//   08           takes a message of as many bytes as its room says off the charge of that user: 00
//   09           the balance of its user
//   0a           the last byte of its ID as holder byte
//   0c           00

#![tactic(auto)]

ghost use Rattle.std.specs.Prelude.{◌≡◌, ◌+◌, ◌<◌, ◌≤◌, length, IfSome};

use answers::{Answer, Header, Received};
use frames::Command;
use ids::{ANSWER_SIZE, EINVAL, FRAME_SIZE, HandleId, INVALID, MOST_IDS, Peer, Refusal, User};
use lines::LineRead;
use quota::{Charge, Charges};
use std::io::Read;

// The longest line: the digits of an answer, and its LF.
const LINE_SIZE: usize = 2 * ANSWER_SIZE + 1;

fn user_of(p: Peer) -> User {
    User(p.0 % 4)
}

fn message(nb: usize, nh: usize) -> Charge {
    Charge {
        messages: 1,
        bytes: (nb % 65536) as u16,
        handles: (nh % 65536) as u16,
    }
}

// From here to `judge` an answer stands with the charges after it.
fn send(
    p: Peer,
    frame: &[u8],
    nd: usize,
    nh: usize,
    nb: usize,
    charges: Charges,
) -> (Answer, Charges) {
    let u = user_of(p);
    let a = message(nb, nh);
    if !charges.allows(u, a) {
        return (Answer::Refused(u8::from(Refusal::EDQUOT)), charges);
    }
    let h = Header {
        to: frames::send_id(frame, 0),
        user: u,
        flag: 1 < nd,
        nb,
        nh,
    };
    (Answer::Received(Received::Message(h)), charges.charge(u, a))
}

fn seed(p: Peer, nh: usize, nb: usize) -> Answer {
    let h = Header {
        to: HandleId(INVALID),
        user: user_of(p),
        flag: false,
        nb,
        nh,
    };
    Answer::Received(Received::Seed(h))
}

fn send_or_seed(
    p: Peer,
    frame: &[u8],
    nd: usize,
    nh: usize,
    nb: usize,
    charges: Charges,
) -> (Answer, Charges) {
    if nd == 0 {
        (seed(p, nh, nb), charges)
    } else {
        send(p, frame, nd, nh, nb, charges)
    }
}

fn carry_out(c: Command, frame: &[u8], charges: Charges) -> (Answer, Charges) {
    match c {
        Command::Destroy(_, i) => (Answer::Received(Received::Destroyed(i)), charges),
        Command::Release(_, i) => (Answer::Received(Received::Released(i)), charges),
        Command::Transfer(_, i, _) => (Answer::Transferred(i), charges),
        Command::Send(p, z) => send_or_seed(p, frame, z.nd, z.nh, z.nb, charges),
        Command::Receive(p, room) => (
            Answer::Done,
            charges.discharge(user_of(p), message(room, 0)),
        ),
        Command::Quota(_, u) => (Answer::Quota(charges.balance(u)), charges),
        Command::Holders(_, i) => (Answer::Holders((i.0 % 256) as u8), charges),
        _ => (Answer::Done, charges),
    }
}

// The attached IDs of a send; of another frame, IDs that its answer does not show.
fn attached(frame: &[u8], nd: usize) -> [u64; MOST_IDS] {
    let mut ids = [0u64; MOST_IDS];
    for k in 0..MOST_IDS {
        ids[k] = frames::send_id(frame, nd % 256 + k).0;
    }
    ids
}

fn first_list(frame: &[u8]) -> usize {
    if frame.len() < 3 {
        0
    } else {
        usize::from(frame[2])
    }
}

// How many IDs an answer shows.
fn ids_shown(answer: Answer) -> usize
    ensures { result ≤ 8 }
{
    match answer {
        Answer::Received(Received::Message(h)) => h.nh.min(MOST_IDS),
        Answer::Received(Received::Seed(h)) => h.nh.min(MOST_IDS),
        _ => 0,
    }
}

// Writes an answer line. A write that failed is not told of.
fn say(rt: &impl Print, bytes: &[u8]) {
    let mut line = [0u8; LINE_SIZE];
    if let Some(n) = lines::write_line(&mut line, 0, bytes) {
        let _ = rt.write_all(&line[..n.min(LINE_SIZE)]);
    }
}

fn say_fault(rt: &impl Print, place: usize) {
    let [high, low] = ((place % 65536) as u16).to_be_bytes();
    say(rt, &[EINVAL, high, low]);
}

fn judge(frame: &[u8], charges: Charges) -> (Answer, Charges) {
    match frames::parse(frame) {
        Err(refusal) => (Answer::Refused(u8::from(refusal)), charges),
        Ok(c) => carry_out(c, frame, charges),
    }
}

// Answers one frame, and returns the charges after it.
fn answer_frame(rt: &impl Print, frame: &[u8], charges: Charges) -> Charges {
    let (answer, after) = judge(frame, charges);
    let list = attached(frame, first_list(frame));
    let mut out = [0u8; ANSWER_SIZE];
    let o = answers::write_answer(
        &mut out,
        answer,
        &list[..ids_shown(answer)],
        frames::payload(frame),
    );
    say(rt, &out[..o.len.min(ANSWER_SIZE)]);
    after
}

// One line answered: how many characters it took, and the charges after it. None where its LF is missing.
fn answer_line(rt: &impl Print, s: &[u8], charges: Charges) -> Option<(usize, Charges)>
    ensures { IfSome result (λ taken. (0 < taken.0) × (taken.0 ≤ length s.now)) }
{
    let mut frame = [0u8; FRAME_SIZE];
    match lines::read_line(s, &mut frame) {
        LineRead::Frame(m, next) => Some((
            next,
            answer_frame(rt, &frame[..m.min(FRAME_SIZE)], charges),
        )),
        LineRead::Bad(place, next) => {
            say_fault(rt, place);
            Some((next, charges))
        }
        LineRead::Piece(_) => None,
    }
}

// The lines of the input answered: where the piece behind the last LF starts, and the charges.
fn answer_lines(rt: &impl Print, s: &[u8], mut charges: Charges) -> (usize, Charges)
    ensures { result.0 ≤ length s.now }
{
    let mut at = 0;
    while let Some((used, after)) = answer_line(rt, &s[at..], charges) {
        charges = after;
        at += used;
    }
    (at, charges)
}

// The piece at the end of the input, which lacks its LF.
fn answer_end(rt: &impl Print, s: &[u8]) {
    let mut frame = [0u8; FRAME_SIZE];
    if s.is_empty() {
        return;
    }
    if let LineRead::Piece(place) = lines::read_line(s, &mut frame) {
        say_fault(rt, place);
    }
}

// A chunk answered: how many characters are carried over, and the charges. None at the end of the input.
fn answer_chunk(
    rt: &impl Print,
    input: &mut impl Read,
    buf: &mut [u8],
    held: usize,
    charges: Charges,
) -> Option<(usize, Charges)>
    requires { (held ≤ 1293) × (length buf.old ≡ 65536) }
    ensures { IfSome result (λ over. over.0 ≤ 1293) }
{
    let n = read_behind(input, buf, held);
    if n == 0 {
        answer_end(rt, &buf[..held]);
        return None;
    }
    let end = held + n;
    let (at, after) = answer_lines(rt, &buf[..end], charges);
    Some((lines::carry_over(buf, at, end), after))
}

// One read. Where it fails there is no more to read.
fn read_behind(input: &mut impl Read, buf: &mut [u8], held: usize) -> usize
    requires { held ≤ length buf.old }
    ensures { held + result ≤ length buf.old }
{
    input.read(&mut buf[held..]).unwrap_or(0)
}

// The turns are counted, up to a number that no run uses up.
fn main(rt: HostRuntime) {
    let mut input = rt.stdin();
    let mut buf = [0u8; 65536];
    let mut held = 0;
    let mut charges = Charges::fresh();
    for _turn in 0..u64::MAX {
        let Some((rest, after)) = answer_chunk(&rt, &mut input, &mut buf, held, charges) else {
            break;
        };
        held = rest;
        charges = after;
    }
}
