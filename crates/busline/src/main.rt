// The line program: for each line of standard input one answer line on standard output. It reads a chunk, calls
// `session::answer_lines` and writes the text, so every whole line that was read is answered before more is read. After
// a write or a read that failed for good it writes nothing more, says so in one line on descriptor 2, and ends.

#![tactic(auto)]

ghost use Rattle.std.specs.Prelude.{◌≡◌, ◌+◌, ◌≤◌, length, take, IfOk, IfSome};
ghost use Rattle.lines.specs.Line.{most_carried};
ghost use Rattle.bus.specs.Lent.{lent, SameTables};
ghost use Rattle.session.specs.Session.{longest, Sent, Underway};
ghost use Rattle.bus_model.specs.Command.{fresh_bus};

use bus::BusTables;
use ids::{
    CARRIED_SIZE, CHARGES_SIZE, ENDS_SIZE, ENTRIES_SIZE, HANDLES_SIZE, NODES_SIZE, NUMBERS_SIZE,
    PEERS_SIZE, POOL_SIZE, SEEDS_SIZE,
};
use std::io::{ErrorKind, Read, Write};
use std::rt::Clock;
use std::time::Duration;
use std::{io, thread};

// Waits a millisecond.
fn pause(rt: &impl Clock) {
    thread::sleep(rt, Duration::from_millis(1));
}

// Is the call that failed with this error to be made again? At once, where a signal interrupted it, and after a short
// wait, where it would block.
fn try_again(rt: &impl Clock, error: &io::Error) -> bool {
    match error.kind() {
        ErrorKind::Interrupted => true,
        ErrorKind::WouldBlock => {
            pause(rt);
            true
        }
        _ => false,
    }
}

// One read. Its tries are counted, up to a number that no run uses up.
fn read_some(rt: &impl Clock, input: &mut impl Read, part: &mut [u8]) -> io::Result<usize>
    ensures { IfOk result (λ got. got ≤ length part.old) }
{
    for _ in 0..u64::MAX {
        match input.read(part) {
            Ok(got) => {
                return Ok(got);
            }
            Err(error) => {
                if !try_again(rt, &error) {
                    return Err(error);
                }
            }
        }
    }
    Err(io::Error::from(ErrorKind::Interrupted))
}

// One write, its tries counted likewise. How many bytes it took.
fn write_some(rt: &impl Clock, output: &mut impl Write, bytes: &[u8]) -> io::Result<usize>
    ensures { IfOk result (λ put. put ≤ length bytes.now) }
{
    for _ in 0..u64::MAX {
        match output.write(bytes) {
            Ok(put) => {
                return Ok(put);
            }
            Err(error) => {
                if !try_again(rt, &error) {
                    return Err(error);
                }
            }
        }
    }
    Err(io::Error::from(ErrorKind::Interrupted))
}

// Writes all the bytes, or stops at a write that failed or took nothing.
fn write_text(rt: &impl Clock, output: &mut impl Write, bytes: &[u8]) -> io::Result<()> {
    let mut rest = bytes;
    while !rest.is_empty() {
        let put = write_some(rt, output, rest)?;
        if put == 0 {
            return Err(io::Error::from(ErrorKind::WriteZero));
        }
        rest = &rest[put..];
    }
    Ok(())
}

fn say_not_read(rt: &impl Eprint) {
    let _ = rt.eprint("busline: cannot read the input\n");
}

fn say_not_written(rt: &impl Eprint) {
    let _ = rt.eprint("busline: cannot write the output\n");
}

// The whole lines of a chunk answered, and their answers written: as many texts as they fill. Where its piece
// starts. None after a write that failed: then nothing more of the chunk is answered.
fn answer_chunk(
    rt: &impl Clock,
    output: &mut impl Write,
    bus: &mut BusTables<'_>,
    s: &[u8],
    text: &mut [u8],
) -> Option<usize>
    requires { longest ≤ length text.old }
    ensures same { SameTables bus.old bus.new }
    ensures done { Sent (lent bus.old) s.now (lent bus.new) result }
{
    let mut from = 0;
    loop {
        let p = session::answer_lines(bus, s, from, text);
        if write_text(rt, output, &text[..p.at]).is_err() {
            return None;
        }
        if !p.more {
            return Some(p.from);
        }
        from = p.from;
    }
}

fn read_behind(
    rt: &impl Clock,
    input: &mut impl Read,
    buf: &mut [u8],
    held: usize,
) -> io::Result<usize>
    requires { held ≤ length buf.old }
    ensures { IfOk result (λ got. held + got ≤ length buf.old) × (take held buf.new ≡ take held buf.old) }
{
    read_some(rt, input, &mut buf[held..])
}

// The piece at the end of the input, which lacks its LF.
fn answer_piece(rt: &(impl Clock + Eprint), output: &mut impl Write, held: usize) {
    if held == 0 {
        return;
    }
    if write_text(rt, output, b"16\n").is_err() {
        say_not_written(rt);
    }
}

// A chunk read behind what is held: how many characters, none where there is no more to read. Then the piece that is held
// is answered, or the failure is told.
fn next_chunk(
    rt: &(impl Clock + Eprint),
    input: &mut impl Read,
    output: &mut impl Write,
    buf: &mut [u8],
    held: usize,
) -> Option<usize>
    requires { held ≤ length buf.old }
    ensures { IfSome result (λ got. held + got ≤ length buf.old) × (take held buf.new ≡ take held buf.old) }
{
    match read_behind(rt, input, buf, held) {
        Ok(0) => {
            answer_piece(rt, output, held);
            None
        }
        Ok(got) => Some(got),
        Err(_) => {
            say_not_read(rt);
            None
        }
    }
}

// One chunk read behind what is held, answered, and its piece carried over: how many characters, none where there is no
// more to read or an answer is not written. Where it goes on, the chunks so far, the bus, what is carried over and what was
// written are those of a session (session/specs/Session.antt).
fn take_turn(
    rt: &(impl Clock + Eprint),
    input: &mut impl Read,
    output: &mut impl Write,
    bus: &mut BusTables<'_>,
    buf: &mut [u8],
    held: usize,
    text: &mut [u8],
) -> Option<usize>
    requires { (held ≤ most_carried) × (length buf.old ≡ 65536) × (longest ≤ length text.old)
        × Underway (lent bus.old) (take held buf.old) }
    ensures same { SameTables bus.old bus.new }
    ensures done { IfSome result (λ rest. (rest ≤ most_carried) × Underway (lent bus.new) (take rest buf.new)) }
{
    let got = next_chunk(rt, input, output, buf, held)?;
    let end = held + got;
    let chunk = &buf[..end];
    let Some(from) = answer_chunk(rt, output, bus, chunk, text) else {
        say_not_written(rt);
        return None;
    };
    Some(lines::carry_over(buf, from, end))
}

// The turns are counted, up to a number that no run uses up.
fn run(
    rt: &(impl Clock + Eprint),
    input: &mut impl Read,
    output: &mut impl Write,
    bus: &mut BusTables<'_>,
    buf: &mut [u8],
    text: &mut [u8],
)
    requires { (length buf.old ≡ 65536) × (longest ≤ length text.old) × (lent bus.old ≡ fresh_bus) }
    ensures same { SameTables bus.old bus.new }
{
    let mut held = 0;
    for _turn in 0..u64::MAX {
        let Some(rest) = take_turn(rt, input, output, bus, buf, held, text) else {
            return;
        };
        held = rest;
    }
}

fn main(rt: HostRuntime) {
    let mut input = rt.stdin();
    let mut output = rt.stdout();
    let mut peers = [0u64; PEERS_SIZE];
    let mut nodes = [0u64; NODES_SIZE];
    let mut handles = [0u64; HANDLES_SIZE];
    let mut charges = [0u16; CHARGES_SIZE];
    let mut ends = [0u16; ENDS_SIZE];
    let mut entries = [0u16; ENTRIES_SIZE];
    let mut carried = [0u8; CARRIED_SIZE];
    let mut numbers = [0u64; NUMBERS_SIZE];
    let mut pool = [0u8; POOL_SIZE];
    let mut seeds = [0u8; SEEDS_SIZE];
    let mut buf = [0u8; 65536];
    let mut text = [0u8; 65536];
    let mut bus = BusTables {
        peers: &mut peers,
        nodes: &mut nodes,
        handles: &mut handles,
        charges: &mut charges,
        ends: &mut ends,
        entries: &mut entries,
        carried: &mut carried,
        numbers: &mut numbers,
        pool: &mut pool,
        seeds: &mut seeds,
    };
    bus.fresh();
    run(&rt, &mut input, &mut output, &mut bus, &mut buf, &mut text);
}
