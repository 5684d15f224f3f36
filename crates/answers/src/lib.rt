// The kinds of answer, and the writer of their bytes into the caller's answer buffer.

#![tactic(auto)]

ghost use Rattle.std.specs.Prelude.{◌≡◌, ℕ, List, [], ◌∷◌, ◌+◌, ◌*◌, ◌<◌, ◌≤◌, min, length, take};
ghost use Rattle.std.proofs.lemmas.List.Edits.{sets};
ghost use Rattle.std.specs.Fn.{FnOnceReturnsAtMut};
ghost use Rattle.laws.specs.Bytes.{be};
ghost use Rattle.answers.specs.Answer.{id_bytes, header_bytes, message_bytes, notice_bytes, received_bytes, charge_bytes, balance_bytes, holder_bytes, contents_of, number_of, answer_after, outcome_of};
ghost use Rattle.answers.specs.declared.Answer.{Answer};
ghost use Rattle.answers.specs.declared.Answer.TheVariants as answer;
ghost use Rattle.answers.specs.declared.Received.TheVariants as received;

use ids::{ANSWER_SIZE, EINVAL, HandleId, MOST_BYTES, MOST_IDS, User};
use quota::{Balance, Charge};

// A message's numbers. Its IDs and its payload stand beside it.
#[derive(Clone, Copy)]
pub struct Header {
    pub to: HandleId,
    pub user: User,
    pub flag: bool,
    pub nb: usize,
    pub nh: usize,
}

// What a receive takes out: a message, or the notice that a node was destroyed or released. And the seed that 0c shows.
#[derive(Clone, Copy)]
pub enum Received {
    Message(Header),
    Destroyed(HandleId),
    Released(HandleId),
    Seed(Header),
}

#[derive(Clone, Copy)]
pub enum Answer {
    Refused(u8),
    Done,
    Transferred(HandleId),
    Received(Received),
    Quota(Balance),
    Holders(u8),
}

// The number that a command returns, 0 or its refusal, and how many bytes of answer were written. A number, since it is what C gets
// back and what the theorems on numbers speak of (`outcome_of`).
#[derive(Clone, Copy, Debug, PartialEq, Eq)]
pub struct Outcome {
    pub number: u8,
    pub len: usize,
}

// Writes the bytes from the place on, and gives the place behind them.
fn put(out: &mut [u8], at: usize, bytes: &[u8]) -> usize
    requires { at + length bytes.now ≤ length out.old }
    ensures { (result ≡ at + length bytes.now) × (out.new ≡ sets out.old at bytes.now) }
{
    copies::put(out, at, bytes);
    at + bytes.len()
}

// Two bytes, as `put_id` eight: of a constant length, which `copy_from_slice` writes as plain stores.
#[tactic(auto, using(crate::proofs::Laws::bytes))]
fn put_short(out: &mut [u8], at: usize, x: u16) -> usize
    requires { at + 2 ≤ length out.old }
    ensures { (result ≡ at + 2) × (out.new ≡ sets out.old at (be 2 x)) }
{
    out[at..at + 2].copy_from_slice(&x.to_be_bytes());
    at + 2
}

#[tactic(auto, using(crate::proofs::Laws::bytes))]
fn put_id(out: &mut [u8], at: usize, x: u64) -> usize
    requires { at + 8 ≤ length out.old }
    ensures { (result ≡ at + 8) × (out.new ≡ sets out.old at (be 8 x)) }
{
    out[at..at + 8].copy_from_slice(&x.to_be_bytes());
    at + 8
}

fn put_ids(out: &mut [u8], at: usize, ids: &[u64]) -> usize
    requires { at + 8 * length ids.now ≤ length out.old }
    ensures { (result ≡ at + 8 * length ids.now) × (out.new ≡ sets out.old at (id_bytes ids.now)) }
{
    let mut end = at;
    for id in ids {
        end = put_id(out, end, *id);
    }
    end
}

#[tactic(auto, using(crate::proofs::Laws::stores))]
fn put_charge(out: &mut [u8], at: usize, c: Charge) -> usize
    requires { at + 6 ≤ length out.old }
    ensures { (result ≡ at + 6) × (out.new ≡ sets out.old at (charge_bytes c)) }
{
    let a = put_short(out, at, c.messages);
    let b = put_short(out, a, c.bytes);
    put_short(out, b, c.handles)
}

// The numbers of a message, from the place 1 on.
fn put_header(out: &mut [u8], kind: u8, h: Header) -> usize
    requires { 15 ≤ length out.old }
    ensures { (result ≡ 15) × (out.new ≡ sets out.old 1 (header_bytes kind h)) }
{
    out[1] = kind;
    let at = put_id(out, 2, h.to.0);
    out[at] = (h.user.0 % 256) as u8;
    out[at + 1] = u8::from(h.flag);
    let end = put_short(out, at + 2, (h.nb % 65536) as u16);
    out[end] = (h.nh % 256) as u8;
    end + 1
}

fn put_message(out: &mut [u8], kind: u8, h: Header, ids: &[u64], payload: &[u8]) -> usize
    requires { 591 ≤ length out.old }
    ensures { (result ≡ 1 + length (message_bytes kind h ids.now payload.now)) × (out.new ≡ sets out.old 1 (message_bytes kind h ids.now payload.now)) }
{
    let at = put_header(out, kind, h);
    let n = ids.len().min(MOST_IDS);
    let end = put_ids(out, at, &ids[..n]);
    let m = payload.len().min(MOST_BYTES);
    put(out, end, &payload[..m])
}

#[tactic(auto, unfolding(crate::specs::Answer::notice_bytes))]
fn put_notice(out: &mut [u8], kind: u8, id: HandleId) -> usize
    requires { 10 ≤ length out.old }
    ensures { (result ≡ 10) × (out.new ≡ sets out.old 1 (notice_bytes kind id)) }
{
    out[1] = kind;
    put_id(out, 2, id.0)
}

// Each kind's byte stands here once, beside its variant, as in `received_bytes`.
#[tactic(auto, using(crate::proofs::Laws::lengths), unfolding(crate::specs::Answer::received_bytes))]
fn put_received(out: &mut [u8], r: Received, ids: &[u64], payload: &[u8]) -> usize
    requires { 591 ≤ length out.old }
    ensures { (result ≡ 1 + length (received_bytes r ids.now payload.now)) × (out.new ≡ sets out.old 1 (received_bytes r ids.now payload.now)) }
{
    match r {
        Received::Message(h) => put_message(out, 1, h, ids, payload),
        Received::Destroyed(id) => put_notice(out, 2, id),
        Received::Released(id) => put_notice(out, 3, id),
        Received::Seed(h) => put_message(out, 4, h, ids, payload),
    }
}

#[tactic(auto, using(crate::proofs::Laws::stores))]
fn put_balance(out: &mut [u8], b: Balance) -> usize
    requires { 591 ≤ length out.old }
    ensures { (result ≡ 13) × (out.new ≡ sets out.old 1 (balance_bytes b)) }
{
    let at = put_charge(out, 1, b.queued);
    put_charge(out, at, b.left)
}

#[tactic(auto, unfolding(crate::specs::Answer::holder_bytes))]
fn put_holders(out: &mut [u8], h: u8) -> usize
    requires { 591 ≤ length out.old }
    ensures { (result ≡ 3) × (out.new ≡ sets out.old 1 (holder_bytes h)) }
{
    out[1] = h;
    out[2] = h.count_ones() as u8;
    3
}

// The contents of an answer that shows no message.
#[tactic(auto, using(crate::proofs::Laws::lengths), unfolding(crate::specs::Answer::contents_of, crate::specs::Answer::holder_bytes))]
fn put_plain(out: &mut [u8], a: Answer) -> usize
    requires { 591 ≤ length out.old }
    ensures { (result ≡ 1 + length (contents_of a [] [])) × (out.new ≡ sets out.old 1 (contents_of a [] [])) }
{
    match a {
        Answer::Refused(_) | Answer::Done => 1,
        Answer::Transferred(id) => put_id(out, 1, id.0),
        Answer::Received(r) => put_received(out, r, &[], &[]),
        Answer::Quota(b) => put_balance(out, b),
        Answer::Holders(h) => put_holders(out, h),
    }
}

#[tactic(auto, using(crate::proofs::Laws::lengths), unfolding(crate::specs::Answer::contents_of))]
fn put_contents(out: &mut [u8], a: Answer, ids: &[u64], payload: &[u8]) -> usize
    requires { 591 ≤ length out.old }
    ensures { (result ≡ 1 + length (contents_of a ids.now payload.now)) × (out.new ≡ sets out.old 1 (contents_of a ids.now payload.now)) }
{
    match a {
        Answer::Received(r) => put_received(out, r, ids, payload),
        _ => put_plain(out, a),
    }
}

fn number_of(a: Answer) -> u8
    ensures { result ≡ number_of a }
{
    match a {
        Answer::Refused(n) => n,
        _ => 0,
    }
}

// Writes the number and what stands behind it; into a buffer under 591 bytes nothing.
fn write<F: FnOnce(&mut [u8]) -> usize>(out: &mut [u8], number: u8, contents: F) -> Outcome
    requires { (o : _) → 591 ≤ length o.now → F.pre contents o }
    ensures { (a : Answer) (is bs : List ℕ) → number ≡ number_of a
        → ((o o' : List ℕ) (n : ℕ) → FnOnceReturnsAtMut F.FnOnce contents o n o'
        → (n ≡ 1 + length (contents_of a is bs)) × (o' ≡ sets o 1 (contents_of a is bs)))
        → (result ≡ outcome_of a is bs out.old) × (out.new ≡ answer_after a is bs out.old) }
{
    if out.len() < ANSWER_SIZE {
        return Outcome {
            number: EINVAL,
            len: 0,
        };
    }
    out[0] = number;
    let len = contents(out);
    Outcome { number, len }
}

// Writes the answer's bytes at the start of the buffer and leaves the rest of it alone; into a buffer under 591 bytes it
// writes nothing.
pub fn write_answer(out: &mut [u8], a: Answer, ids: &[u64], payload: &[u8]) -> Outcome
    ensures { (result ≡ outcome_of a ids.now payload.now out.old) × (out.new ≡ answer_after a ids.now payload.now out.old) }
{
    write(out, number_of(a), |out| put_contents(out, a, ids, payload))
}

// Writes what a receive took out, without IDs and payload: a notice.
#[tactic(auto, unfolding(crate::specs::Answer::contents_of))]
pub fn write_received(out: &mut [u8], r: Received) -> Outcome
    ensures { (result ≡ outcome_of (answer.Received r) [] [] out.old) × (out.new ≡ answer_after (answer.Received r) [] [] out.old) }
{
    write(out, 0, |out| put_received(out, r, &[], &[]))
}

// Writes a seed with its IDs and its payload. Apart from `write_answer`, so that this one has one caller, a message's, and
// is compiled into it.
#[tactic(auto, unfolding(crate::specs::Answer::contents_of))]
pub fn write_seed(out: &mut [u8], h: Header, ids: &[u64], payload: &[u8]) -> Outcome
    ensures { let a = answer.Received (received.Seed h) in
        let is = ids.now in
        let bytes = payload.now in
        (result ≡ outcome_of a is bytes out.old) × (out.new ≡ answer_after a is bytes out.old) }
{
    write(
        out,
        0,
        |out| put_received(out, Received::Seed(h), ids, payload),
    )
}

// Writes a refusal, one byte, into a buffer that is long enough.
pub fn write_refusal(out: &mut [u8], n: u8) -> Outcome
    requires { 591 ≤ length out.old }
    ensures { (result ≡ outcome_of (answer.Refused n) [] [] out.old) × (out.new ≡ answer_after (answer.Refused n) [] [] out.old) }
{
    out[0] = n;
    Outcome { number: n, len: 1 }
}

// Writes an answer that shows no message. A refusal and a bare 00 are one byte.
pub fn write_plain(out: &mut [u8], a: Answer) -> Outcome
    ensures { (result ≡ outcome_of a [] [] out.old) × (out.new ≡ answer_after a [] [] out.old) }
{
    if out.len() < ANSWER_SIZE {
        return Outcome {
            number: EINVAL,
            len: 0,
        };
    }
    match a {
        Answer::Refused(n) => write_refusal(out, n),
        Answer::Done => write_refusal(out, 0),
        _ => write(out, number_of(a), |out| put_plain(out, a)),
    }
}
