// The frame reader: a frame's bytes to a command with its numbers, or the refusal.
// A send's IDs are read at their places in the frame, and its payload is a part of the frame.

#![tactic(auto)]

ghost use Rattle.std.specs.Prelude.{◌≡◌, ◌+◌, ◌*◌, ◌<◌, ◌≤◌, length};
ghost use Rattle.frames.specs.Frame.{oversized as too_large, short_at, id_at, parse_send, frame_length, parse_create, parse_rest, parse_other, known, parse as parsed, send_id, payload_of};

use ids::{HandleId, INVALID, MOST_BYTES, MOST_IDS, Peer, Refusal, User};

// The numbers of a send: destinations, attached handles, payload bytes.
#[derive(Clone, Copy)]
pub struct Sizes {
    pub nd: usize,
    pub nh: usize,
    pub nb: usize,
}

// The eleven commands. The first peer is the acting one.
#[derive(Clone, Copy)]
pub enum Command {
    Open(Peer, User),
    Disconnect(Peer),
    Create(Peer, HandleId),
    Destroy(Peer, HandleId),
    Release(Peer, HandleId),
    Transfer(Peer, HandleId, Peer),
    Send(Peer, Sizes),
    Receive(Peer, usize),
    Quota(Peer, User),
    Holders(Peer, HandleId),
    ShowSeed(Peer, usize),
}

fn short_at(f: &[u8], at: usize) -> usize
    requires { at + 2 ≤ length f.now }
    ensures { (result ≡ short_at f.now at) × (result < 65536) }
{
    usize::from(u16::from_be_bytes([f[at], f[at + 1]]))
}

fn id_at(f: &[u8], at: usize) -> HandleId
    requires { at + 8 ≤ length f.now }
    ensures { result ≡ id_at f.now at }
{
    HandleId(u64::from_be_bytes(f[at..at + 8].try_into().unwrap()))
}

fn oversized(z: Sizes) -> bool
    ensures { result ≡ too_large z.nd z.nh z.nb }
{
    MOST_IDS < z.nd || MOST_IDS < z.nh || MOST_BYTES < z.nb
}

fn parse_send(f: &[u8]) -> Result<Command, Refusal>
    ensures { result ≡ parse_send f.now }
{
    if f.len() < 6 {
        return Err(Refusal::EINVAL);
    }
    let peer = Peer::try_from(f[1])?;
    let sizes = Sizes {
        nd: usize::from(f[2]),
        nh: usize::from(f[3]),
        nb: short_at(f, 4),
    };
    if oversized(sizes) {
        return Err(Refusal::EMSGSIZE);
    }
    if f.len() != 6 + 8 * (sizes.nd + sizes.nh) + sizes.nb {
        return Err(Refusal::EINVAL);
    }
    Ok(Command::Send(peer, sizes))
}

fn frame_length(op: u8) -> usize
    ensures { result ≡ frame_length op }
{
    match op {
        2 => 2,
        1 | 9 => 3,
        8 | 12 => 4,
        6 => 11,
        _ => 10,
    }
}

fn parse_create(p: Peer, i: HandleId) -> Result<Command, Refusal>
    ensures { result ≡ parse_create p i }
{
    if i.0 % 4 != 0 {
        return Err(Refusal::EINVAL);
    }
    Ok(Command::Create(p, i))
}

fn parse_rest(op: u8, p: Peer, f: &[u8]) -> Result<Command, Refusal>
    requires { length f.now ≡ frame_length op }
    ensures { result ≡ parse_rest op p f.now }
{
    match op {
        1 => Ok(Command::Open(p, User::try_from(f[2])?)),
        2 => Ok(Command::Disconnect(p)),
        3 => parse_create(p, id_at(f, 2)),
        4 => Ok(Command::Destroy(p, id_at(f, 2))),
        5 => Ok(Command::Release(p, id_at(f, 2))),
        6 => Ok(Command::Transfer(p, id_at(f, 2), Peer::try_from(f[10])?)),
        8 => Ok(Command::Receive(p, short_at(f, 2))),
        9 => Ok(Command::Quota(p, User::try_from(f[2])?)),
        12 => Ok(Command::ShowSeed(p, short_at(f, 2))),
        _ => Ok(Command::Holders(p, id_at(f, 2))),
    }
}

fn parse_other(f: &[u8]) -> Result<Command, Refusal>
    requires { 0 < length f.now }
    ensures { result ≡ parse_other f.now }
{
    let op = f[0];
    if f.len() != frame_length(op) {
        return Err(Refusal::EINVAL);
    }
    parse_rest(op, Peer::try_from(f[1])?, f)
}

fn known(op: u8) -> bool
    ensures { result ≡ known op }
{
    op != 0 && op != 11 && op <= 12
}

// The frame's command, or its refusal.
pub fn parse(frame: &[u8]) -> Result<Command, Refusal>
    ensures { result ≡ parsed frame.now }
{
    if frame.is_empty() {
        return Err(Refusal::EINVAL);
    }
    let op = frame[0];
    if !known(op) {
        return Err(Refusal::ENOTTY);
    }
    if op == 7 {
        return parse_send(frame);
    }
    parse_other(frame)
}

// The ID at the place k of a send's two lists, destinations first; all ones past the frame's end.
pub fn send_id(frame: &[u8], k: usize) -> HandleId
    ensures { result ≡ send_id frame.now k }
{
    let n = frame.len();
    if n < 14 || (n - 14) / 8 < k {
        return HandleId(INVALID);
    }
    id_at(frame, 6 + 8 * k)
}

// A send's payload, a part of the frame.
pub fn payload(frame: &[u8]) -> &[u8]
    ensures { result.now ≡ payload_of frame.now }
{
    let n = frame.len();
    if n < 6 {
        return &frame[n..];
    }
    let at = 6 + 8 * (usize::from(frame[2]) + usize::from(frame[3]));
    &frame[at.min(n)..]
}
