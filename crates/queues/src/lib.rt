// The queues with what belongs to their messages: a queue's rows, its payloads in the pool, and the users' charges at
// its peer change together. A function requires the sizes of the tables that it is lent and that the peer is one of the
// eight; any contents have a meaning.

#![tactic(auto)]

ghost use Rattle.std.specs.Prelude.{◌≡◌, false, Bool, List, ℕ, ◌*◌, ◌<◌, ◌≤◌, length, take, eqb};
ghost use Rattle.rings.specs.Lent.{lent, viewed, SameTables};
ghost use Rattle.queues.specs.Queued.{queued};
ghost use Rattle.laws.specs.Rows.{row_in};
ghost use Rattle.rings.specs.Rings.{peers, ring_size, row_count, carried_fields, ends_size, entries_size, carried_size};
ghost use Rattle.rings.specs.Rings.{rows_of, Sized, rings_of, QueueTables, entry_at, length_of, queue_of, cleared};
ghost use Rattle.pool.specs.Pool.{area_size, kept_pieces};
ghost use Rattle.tables.specs.Charges.{charges_size};
ghost use Rattle.model.specs.Lists.{any};
ghost use Rattle.queues.specs.Queues.{queues_of, Short, sum_users, used_of, message_kind, is_message, charge_in, entered, enqueued};
ghost use Rattle.queues.specs.Queues.{settled_charges, settled_pool, lessened, lessened_all, lessened_charges, withdrawn, removed_from};
ghost use Rattle.queues.specs.Queues.{emptied_charges, follows_in, names_in, attached_of, carries_in, named_in, brings_in, carried_before};

use ids::{AREA, CARRIED_FIELDS, ENTRY_FIELDS, MOST_IDS, PEERS, Peer, RING, User};
use quota::{Charge, Charges};
use rings::{Entry, Match, RingTables, RingView};

// The sum over the users of one number of what each has queued at a peer.
fn total<F: Fn(Charge) -> u16>(c: Charges, number: F) -> usize
    requires { F.IsAlwaysCallable number }
    ensures { (f : Charge → ℕ) → ((x : Charge) (n : ℕ) → F.post number x n → n ≡ f x) → result ≡ sum_users f c }
{
    let [a, b, c, d] = c.by;
    usize::from(number(a))
        + usize::from(number(b))
        + usize::from(number(c))
        + usize::from(number(d))
}

// The payload bytes that a peer's area uses: what the users have queued there.
pub fn used(c: Charges) -> usize
    ensures { (result ≡ used_of c) × (result ≤ area_size) }
{
    total(c, |x| x.bytes).min(AREA)
}

// Is the kind a message's, and no notice's?
fn is_message_kind(kind: u16) -> bool
    ensures { result ≡ message_kind kind }
{
    !matches!(kind, rings::DESTROYED | rings::RELEASED)
}

// Is the entry a message, and no notice?
pub fn is_message(e: Entry) -> bool
    ensures { result ≡ is_message e }
{
    is_message_kind(e.kind)
}

// What a message counts under its sender's user.
fn charge_of(e: Entry) -> Charge
    ensures { result ≡ charge_in e }
{
    Charge {
        messages: 1,
        bytes: e.nb,
        handles: e.nh.min(MOST_IDS as u16),
    }
}

// An entry appended to a queue; to a full one, nothing.
pub fn enter(rings: &mut RingTables<'_>, p: Peer, e: Entry)
    requires { (p.0 < peers) }
    ensures same { SameTables rings.old rings.new }
    ensures done { let before = lent rings.old in
        let after = lent rings.new in
        after ≡ entered before p.0 e }
{
    if rings.len(p) < RING {
        rings.push(p, e);
    }
}

// A message appended to a queue with its payload, and charged.
pub fn enqueue(
    charges: &mut [u16],
    rings: &mut RingTables<'_>,
    pool: &mut [u8],
    p: Peer,
    e: Entry,
    payload: &[u8],
)
    requires { (length charges.old ≡ charges_size) × (p.0 < peers) }
    ensures same { SameTables rings.old rings.new }
    ensures done { let before = queued charges.old rings.old pool.old in
        let after = queued charges.new rings.new pool.new in
        after ≡ enqueued before p.0 e payload.now }
{
    let c = tables::load(charges, p);
    pool::append(pool, p, used(c), payload);
    enter(rings, p, e);
    tables::store(
        charges,
        p,
        c.charge(User(usize::from(e.user)), charge_of(e)),
    );
}

// The oldest message's payload taken out of the pool, and its charge taken off.
pub fn settle(charges: &mut [u16], pool: &mut [u8], p: Peer, e: Entry)
    requires { (length charges.old ≡ charges_size) × (p.0 < peers) }
    ensures { (charges.new ≡ settled_charges charges.old p.0 e)
        × (pool.new ≡ settled_pool charges.old pool.old p.0 e) }
{
    let c = tables::load(charges, p);
    let all = used(c);
    let n = usize::from(e.nb).min(all);
    pool::close(pool, p, 0, n, all);
    tables::store(
        charges,
        p,
        c.discharge(User(usize::from(e.user)), charge_of(e)),
    );
}

// The charges after an entry, if it is a message that a removal takes out.
fn lessen(c: Charges, e: Entry, m: Match) -> Charges
    ensures { result ≡ lessened c m e }
{
    if !is_message(e) {
        return c;
    }
    if !rings::is_match(m, e) {
        return c;
    }
    c.discharge(User(usize::from(e.user)), charge_of(e))
}

// The charges after all messages of a queue that a removal takes out.
fn lessen_all(c: Charges, rings: &RingView<'_>, p: Peer, m: Match) -> Charges
    requires { (p.0 < peers) × (length_of rings.now.ends.now p.0 ≤ ring_size) }
    ensures { let queues = viewed rings.now in
        result ≡ lessened_all c m (queue_of queues p.0) }
{
    let head = rings.head(p);
    let mut rest = c;
    for i in 0..rings.len(p) {
        let row = rings::row_of(p, head, i);
        let e = rings.entry(row);
        rest = lessen(rest, e, m);
    }
    rest
}

// Every entry that matches taken out of a queue, no payload and no charge with it: notices alone.
pub fn withdraw(rings: &mut RingTables<'_>, p: Peer, m: Match)
    requires { (p.0 < peers) }
    ensures same { SameTables rings.old rings.new }
    ensures done { let before = lent rings.old in
        let after = lent rings.new in
        after ≡ withdrawn before p.0 m }
{
    if rings.len(p) <= RING {
        rings.remove(p, m);
    }
}

// The charges and the payloads of the messages that a removal takes out of a queue, taken off; where it takes out no
// message, both tables stay, and neither is read.
fn remove_messages(charges: &mut [u16], rings: &RingView<'_>, pool: &mut [u8], p: Peer, m: Match)
    requires { (length charges.old ≡ charges_size) × (p.0 < peers) × (length_of rings.now.ends.now p.0 ≤ ring_size) }
    ensures { let queues = viewed rings.now in
        (charges.new ≡ lessened_charges charges.old p.0 m (queue_of queues p.0))
        × (pool.new ≡ (kept_pieces pool.old p.0 0 0 m (queue_of queues p.0)).table) }
{
    if m.kinds % 2 == 0 {
        return;
    }
    let head = rings.head(p);
    let len = rings.len(p);
    let messages = Match {
        kinds: rings::MESSAGE_BIT,
        first: m.first,
        mask: m.mask,
    };
    if rings.first_match(p, head, len, messages) == len {
        return;
    }
    let c = tables::load(charges, p);
    let d = lessen_all(c, rings, p, m);
    tables::store(charges, p, d);
    pool::remove(pool, rings, p, m);
}

// Every entry that matches taken out of a queue, with its payload and its charge.
pub fn remove(charges: &mut [u16], rings: &mut RingTables<'_>, pool: &mut [u8], p: Peer, m: Match)
    requires { (length charges.old ≡ charges_size) × (p.0 < peers) }
    ensures same { SameTables rings.old rings.new }
    ensures done { let before = queued charges.old rings.old pool.old in
        let after = queued charges.new rings.new pool.new in
        after ≡ removed_from before p.0 m }
{
    if RING < rings.len(p) {
        return;
    }
    remove_messages(charges, &rings.view(), pool, p, m);
    rings.remove(p, m);
}

// All entries of a queue dropped, with their charges.
pub fn empty(charges: &mut [u16], ends: &mut [u16], p: Peer)
    requires { (length charges.old ≡ charges_size) × (length ends.old ≡ ends_size) × (p.0 < peers) }
    ensures { (charges.new ≡ emptied_charges charges.old p.0)
        × (ends.new ≡ cleared ends.old p.0) }
{
    tables::store(charges, p, Charges::fresh());
    rings::clear(ends, p);
}

// Behind the oldest entry, is there another message that the command of the number n queued? A queue is in the order of
// these numbers.
pub fn follows(rings: &RingView<'_>, p: Peer, n: u64) -> bool
    requires { (p.0 < peers) × (length_of rings.now.ends.now p.0 ≤ ring_size) }
    ensures { let queues = viewed rings.now in
        result ≡ follows_in queues p.0 n }
{
    let head = rings.head(p);
    for i in 1..rings.len(p) {
        let row = rings::row_of(p, head, i);
        let e = rings.entry(row);
        if e.number != n {
            return false;
        }
        if is_message(e) {
            return true;
        }
    }
    false
}

// Does the entry in one of the rows of the peer's queue pass the test?
fn any_row<F: Fn(usize) -> bool>(ends: &[u16], p: Peer, test: F) -> bool
    requires queue { (length ends.now ≡ ends_size) × (p.0 < peers) × (length_of ends.now p.0 ≤ ring_size) }
    requires callable { (row : ℕ) → row < row_count → F.pre test row }
    ensures { (entries carried numbers : List ℕ) (t : Entry → Bool) → (let rows = rows_of entries carried numbers in
        (row : ℕ) → row < row_count → (b : Bool) → F.post test row b → b ≡ t (entry_at rows row)) →
        result ≡ any t (queue_of (rings_of ends.now entries carried numbers) p.0) }
{
    let head = rings::head_of(ends, p);
    for i in 0..rings::len_of(ends, p) {
        if test(rings::row_of(p, head, i)) {
            return true;
        }
    }
    false
}

// Is the slot among the first n that the row carries?
fn is_among(carried: &[u8], row: usize, n: usize, s: usize) -> bool
    requires { (length carried.now ≡ carried_size) × (row < row_count) × (n ≤ carried_fields) }
    ensures { result ≡ any (eqb s) (take n (row_in carried_fields carried.now row)) }
{
    let a = CARRIED_FIELDS * row;
    // A loop: by `iter().any` each row costs 14 instructions more, in every create and destroy that looks through a queue.
    for k in 0..n {
        if usize::from(carried[a + k]) == s {
            return true;
        }
    }
    false
}

// Is the entry in the row a message that names the slot, as destination or attached? Whatever its number is.
fn names(entries: &[u16], carried: &[u8], row: usize, s: usize) -> bool
    requires { (length entries.now ≡ entries_size) × (length carried.now ≡ carried_size) × (row < row_count) }
    ensures { (n : List ℕ) → result ≡ names_in s (entry_at (rows_of entries.now carried.now n) row) }
{
    let a = ENTRY_FIELDS * row;
    if !is_message_kind(entries[a]) {
        return false;
    }
    if usize::from(entries[a + 1]) == s {
        return true;
    }
    let n = usize::from(entries[a + 4]).min(MOST_IDS);
    is_among(carried, row, n, s)
}

// Does a message in the peer's queue name the slot?
fn named_at(
    ends: &[u16],
    entries: &[u16],
    carried: &[u8],
    numbers: &[u64],
    p: Peer,
    s: usize,
) -> bool
    requires { QueueTables ends.now entries.now carried.now numbers.now × (p.0 < peers) × (length_of ends.now p.0 ≤ ring_size) }
    ensures { let rings = rings_of ends.now entries.now carried.now numbers.now in
        result ≡ any (names_in s) (queue_of rings p.0) }
{
    any_row(ends, p, |row| names(entries, carried, row, s))
}

// The attached handles that are queued at a peer: what the users have there.
pub fn attached(c: Charges) -> usize
    ensures { result ≡ attached_of c }
{
    total(c, |x| x.handles)
}

// Does a message in a queue with attached handles name the slot? Other queues are not looked through.
fn carries(charges: &[u16], rings: &RingView<'_>, p: Peer, s: usize) -> bool
    requires { (length charges.now ≡ charges_size) × (p.0 < peers) × (length_of rings.now.ends.now p.0 ≤ ring_size) }
    ensures { let queues = viewed rings.now in
        result ≡ carries_in charges.now queues s p.0 }
{
    if rings.len(p) == 0 {
        return false;
    }
    if attached(tables::load(charges, p)) == 0 {
        return false;
    }
    named_at(
        rings.ends,
        rings.entries,
        rings.carried,
        rings.numbers,
        p,
        s,
    )
}

// Does a queued message name a slot that nobody holds? No message is for such a slot, so it is named where it is attached.
pub fn named(charges: &[u16], rings: &RingView<'_>, s: usize) -> bool
    requires { (length charges.now ≡ charges_size) × Short rings.now.ends.now }
    ensures { let queues = viewed rings.now in
        result ≡ named_in charges.now queues s }
{
    for q in 0..PEERS {
        if carries(charges, rings, Peer(q), s) {
            return true;
        }
    }
    false
}

// Is the entry in the row a message that was queued before the command n and carries the slot? Its destination is not asked.
fn carries_row(
    entries: &[u16],
    carried: &[u8],
    numbers: &[u64],
    row: usize,
    s: usize,
    n: u64,
) -> bool
    requires { Sized (rows_of entries.now carried.now numbers.now) × (row < row_count) }
    ensures { result ≡ brings_in n s (entry_at (rows_of entries.now carried.now numbers.now) row) }
{
    let a = ENTRY_FIELDS * row;
    if !is_message_kind(entries[a]) {
        return false;
    }
    if n <= numbers[row] {
        return false;
    }
    let nh = usize::from(entries[a + 4]).min(MOST_IDS);
    is_among(carried, row, nh, s)
}

// Does a message in the peer's queue that was queued before the command n carry the slot?
fn carried_at(
    ends: &[u16],
    entries: &[u16],
    carried: &[u8],
    numbers: &[u64],
    p: Peer,
    s: usize,
    n: u64,
) -> bool
    requires { QueueTables ends.now entries.now carried.now numbers.now × (p.0 < peers) × (length_of ends.now p.0 ≤ ring_size) }
    ensures { let rings = rings_of ends.now entries.now carried.now numbers.now in
        result ≡ any (brings_in n s) (queue_of rings p.0) }
{
    any_row(
        ends,
        p,
        |row| carries_row(entries, carried, numbers, row, s, n),
    )
}

// The same question; a queue that is empty or without attached handles is not looked through.
pub fn carried_before(charges: &[u16], rings: &RingView<'_>, p: Peer, s: usize, n: u64) -> bool
    requires { (length charges.now ≡ charges_size) × (p.0 < peers) }
    ensures { let queues = viewed rings.now in
        result ≡ carried_before charges.now queues s n p.0 }
{
    let len = rings.len(p);
    if len == 0 {
        return false;
    }
    if RING < len {
        return false;
    }
    if attached(tables::load(charges, p)) == 0 {
        return false;
    }
    carried_at(
        rings.ends,
        rings.entries,
        rings.carried,
        rings.numbers,
        p,
        s,
        n,
    )
}
