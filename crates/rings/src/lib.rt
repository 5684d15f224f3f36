// The queues of the eight peers in four lent tables: of each peer a ring of RING rows, in which its queue stands from its
// head on, oldest first. Row r of the peer p is row p * RING + r of the tables `entries` (5 numbers a row), `carried`
// (8 slots a row) and `numbers` (the number of the command that queued it); `ends` has 2 numbers a peer, head and length.

#![tactic(auto)]

ghost use Rattle.std.specs.Prelude.{◌≡◌, false, List, ℕ, ◌+◌, ◌*◌, ◌-◌, ◌<◌, ◌≤◌, length};
ghost use Rattle.std.proofs.lemmas.List.Edits.{sets};
ghost use Rattle.laws.specs.Rows.{row_in};
ghost use Rattle.laws.specs.Search.{first};
ghost use Rattle.rings.specs.Rings.{kind_count, peers, ring_size, row_count, entry_fields, carried_fields, ends_size};
ghost use Rattle.rings.specs.Rings.{entries_size, carried_size, rows_of, rings_of, Sized, QueueTables, fields_of, entry_at};
ghost use Rattle.rings.specs.Rings.{put_at, row_of, head_of, length_of, first_of, pushed, popped, cleared, bit_at, kind_bit};
ghost use Rattle.rings.specs.Rings.{slot_in, matches_of, matches, one_slot, removed, swept, kept_entry, kept_entries};
ghost use Rattle.rings.specs.Lent.{lent, viewed, SameTables};

mod lent;

use ids::{CARRIED_FIELDS, END_FIELDS, ENTRY_FIELDS, Peer, RING, SLOTS};
pub use lent::{RingTables, RingView};

// The kinds of entry: a message (so is any other number), a destroy notice, a release notice.
pub const MESSAGE: u16 = 0;

pub const DESTROYED: u16 = 1;

pub const RELEASED: u16 = 2;

// The bit of each kind among those that a removal takes out; those of the notices, and all.
pub const MESSAGE_BIT: u8 = 1 << MESSAGE;

pub const DESTROYED_BIT: u8 = 1 << DESTROYED;

pub const RELEASED_BIT: u8 = 1 << RELEASED;

pub const NOTICE_BITS: u8 = DESTROYED_BIT + RELEASED_BIT;

pub const ALL_BITS: u8 = MESSAGE_BIT + NOTICE_BITS;

// A queued entry: a message has its destination's slot, its sender's user, its payload bytes, its attached handles and
// their slots; a notice has the slot that it is about.
#[derive(Clone, Copy)]
pub struct Entry {
    // A plain number, and not an enum: a sweep moves a row bit for bit, and any number has a meaning (`kept_entry`).
    pub kind: u16,
    pub slot: u16,
    pub user: u16,
    pub nb: u16,
    pub nh: u16,
    pub carried: [u8; 8],
    pub number: u64,
}

// Which entries a removal takes out: those of a kind whose bit is set and of a slot whose bit is set, of the 16 slots from
// `first` on.
#[derive(Clone, Copy)]
pub struct Match {
    pub kinds: u8,
    pub first: usize,
    pub mask: u16,
}

// The row of the i-th entry of a queue whose head is given.
pub fn row_of(p: Peer, head: usize, i: usize) -> usize
    requires { (p.0 < peers) × (head < 65536) × (i ≤ ring_size) }
    ensures { (result ≡ row_of p.0 head i) × (result < row_count) }
{
    p.0 * RING + (head + i) % RING
}

pub fn head_of(ends: &[u16], p: Peer) -> usize
    requires { (length ends.now ≡ ends_size) × (p.0 < peers) }
    ensures { (result ≡ head_of ends.now p.0) × (result < 65536) }
{
    usize::from(ends[p.0 * END_FIELDS])
}

pub fn len_of(ends: &[u16], p: Peer) -> usize
    requires { (length ends.now ≡ ends_size) × (p.0 < peers) }
    ensures { (result ≡ length_of ends.now p.0) × (result < 65536) }
{
    usize::from(ends[p.0 * END_FIELDS + 1])
}

// The entry in a row of the tables.
#[tactic(auto, using(laws::specs::Rows::chunk_row), unfolding(crate::specs::Rings::entry_at))]
pub fn get_entry(entries: &[u16], carried: &[u8], numbers: &[u64], row: usize) -> Entry
    requires { Sized (rows_of entries.now carried.now numbers.now) × (row < row_count) }
    ensures { result ≡ entry_at (rows_of entries.now carried.now numbers.now) row }
{
    let [kind, slot, user, nb, nh] = entries.as_chunks::<ENTRY_FIELDS>().0[row];
    let carried = carried.as_chunks::<CARRIED_FIELDS>().0[row];
    Entry {
        kind,
        slot,
        user,
        nb,
        nh,
        carried,
        number: numbers[row],
    }
}

#[tactic(auto, using(laws::specs::Rows::stores5), unfolding(crate::specs::Rings::fields_of))]
fn put_fields(entries: &mut [u16], row: usize, e: Entry)
    requires { (length entries.old ≡ entries_size) × (row < row_count) }
    ensures { entries.new ≡ sets entries.old (entry_fields * row) (fields_of e) }
{
    let a = ENTRY_FIELDS * row;
    // Store by store: `copy_from_slice` of the five takes 13 instructions more, since it goes through the stack.
    entries[a] = e.kind;
    entries[a + 1] = e.slot;
    entries[a + 2] = e.user;
    entries[a + 3] = e.nb;
    entries[a + 4] = e.nh;
}

#[tactic(auto, using(laws::specs::Rows::array_stored))]
fn put_carried(carried: &mut [u8], row: usize, v: [u8; 8])
    requires { (length carried.old ≡ carried_size) × (row < row_count) }
    ensures { carried.new ≡ sets carried.old (carried_fields * row) (row_in carried_fields v 0) }
{
    let c = CARRIED_FIELDS * row;
    carried[c..c + CARRIED_FIELDS].copy_from_slice(&v);
}

// A row of the tables written anew.
#[tactic(auto, unfolding(crate::specs::Rings::put_at))]
pub fn put_entry(entries: &mut [u16], carried: &mut [u8], numbers: &mut [u64], row: usize, e: Entry)
    requires { Sized (rows_of entries.old carried.old numbers.old) × (row < row_count) }
    ensures { let before = rows_of entries.old carried.old numbers.old in
        let after = rows_of entries.new carried.new numbers.new in
        after ≡ put_at before row e }
{
    put_fields(entries, row, e);
    put_carried(carried, row, e.carried);
    numbers[row] = e.number;
}

// The oldest entry dropped; of an empty queue, nothing but its place.
#[tactic(auto, unfolding(crate::specs::Rings::popped))]
pub fn pop(ends: &mut [u16], p: Peer)
    requires { (length ends.old ≡ ends_size) × (p.0 < peers) }
    ensures { ends.new ≡ popped ends.old p.0 }
{
    let head = head_of(ends, p);
    let len = len_of(ends, p);
    let at = p.0 * END_FIELDS;
    ends[at] = ((head + 1) % RING) as u16;
    ends[at + 1] = len.saturating_sub(1) as u16;
}

// All entries dropped.
#[tactic(auto, unfolding(crate::specs::Rings::cleared))]
pub fn clear(ends: &mut [u16], p: Peer)
    requires { (length ends.old ≡ ends_size) × (p.0 < peers) }
    ensures { ends.new ≡ cleared ends.old p.0 }
{
    let at = p.0 * END_FIELDS + 1;
    ends[at] = 0;
}

// Is the k-th bit of x set?
pub fn bit(x: usize, k: usize) -> bool
    requires { k < 64 }
    ensures { result ≡ bit_at x k }
{
    (x >> k) % 2 == 1
}

// The bit of an entry's kind among a removal's kinds.
fn kind_bit(kind: u16) -> usize
    ensures { (result ≡ kind_bit kind) × (result < kind_count) }
{
    match kind {
        MESSAGE..=RELEASED => usize::from(kind),
        _ => usize::from(MESSAGE),
    }
}

#[tactic(auto, unfolding(crate::specs::Rings::slot_in))]
fn has_slot(first: usize, mask: usize, slot: usize) -> bool
    ensures { result ≡ slot_in first mask slot }
{
    // The first test leaves at once: as one expression of three tests, or by `checked_sub`, the search of a removal takes 5 or 6
    // instructions more for each entry.
    if slot < first {
        return false;
    }
    let k = slot - first;
    k < SLOTS && bit(mask, k)
}

impl Match {
    // The entries of some kinds about one slot.
    #[tactic(auto, unfolding(crate::specs::Rings::one_slot))]
    pub fn one_slot(kinds: u8, slot: usize) -> Self
        ensures { result ≡ one_slot kinds slot }
    {
        Self {
            kinds,
            first: slot / SLOTS * SLOTS,
            mask: 1 << (slot % SLOTS),
        }
    }
}

// Does a removal take out an entry of this kind and this slot?
fn takes(m: Match, kind: u16, slot: u16) -> bool
    ensures { result ≡ matches_of m kind slot }
{
    has_slot(m.first, usize::from(m.mask), usize::from(slot))
        && bit(usize::from(m.kinds), kind_bit(kind))
}

// Does a removal take the entry out?
#[tactic(auto, unfolding(crate::specs::Rings::matches))]
pub fn is_match(m: Match, e: Entry) -> bool
    ensures { result ≡ matches m e }
{
    takes(m, e.kind, e.slot)
}

// Does a removal take out the entry in the row? Its kind and its slot say so, whatever the other tables hold.
#[tactic(auto, using(laws::specs::Rows::row5), unfolding(crate::specs::Rings::matches, crate::specs::Rings::entry_at))]
fn is_match_at(entries: &[u16], row: usize, m: Match) -> bool
    requires { (length entries.now ≡ entries_size) × (row < row_count) }
    ensures { (c n : List ℕ) → result ≡ matches m (entry_at (rows_of entries.now c n) row) }
{
    let a = ENTRY_FIELDS * row;
    takes(m, entries[a], entries[a + 1])
}

// The place in a queue of the first entry that a removal takes out, or the length where it takes none.
pub fn first_match(entries: &[u16], p: Peer, head: usize, len: usize, m: Match) -> usize
    requires { (length entries.now ≡ entries_size) × (p.0 < peers) × (head < 65536) × (len ≤ ring_size) }
    ensures { (c n : List ℕ) → result ≡ first (λ i. matches m (entry_at (rows_of entries.now c n) (row_of p.0 head i))) len }
{
    for i in 0..len {
        let row = row_of(p, head, i);
        if is_match_at(entries, row, m) {
            return i;
        }
    }
    len
}

// Where a sweep stands: the peer and its head, the entries read, the entries kept.
#[derive(Clone, Copy)]
struct At {
    p: Peer,
    head: usize,
    read: usize,
    kept: usize,
}

// The next entry moves behind those that were kept, unless it matches. How many are kept now.
#[tactic(auto, unfolding(crate::specs::Rings::kept_entry))]
fn keep_entry(
    entries: &mut [u16],
    carried: &mut [u8],
    numbers: &mut [u64],
    at: At,
    m: Match,
) -> usize
    requires { Sized (rows_of entries.old carried.old numbers.old)
        × (at.p.0 < peers) × (at.head < 65536) × (at.read < ring_size) × (at.kept ≤ at.read) }
    ensures { let before = rows_of entries.old carried.old numbers.old in
        let after = rows_of entries.new carried.new numbers.new in
        swept result after ≡ kept_entry before at.p.0 at.head at.read at.kept m }
{
    let from = row_of(at.p, at.head, at.read);
    let e = get_entry(entries, carried, numbers, from);
    if is_match(m, e) {
        return at.kept;
    }
    let to = row_of(at.p, at.head, at.kept);
    put_entry(entries, carried, numbers, to, e);
    at.kept + 1
}

// Every entry of a queue that does not match moves up, in order; none before the place `from` matches. How many are kept.
fn sweep(
    entries: &mut [u16],
    carried: &mut [u8],
    numbers: &mut [u64],
    p: Peer,
    head: usize,
    len: usize,
    m: Match,
    from: usize,
) -> usize
    requires { Sized (rows_of entries.old carried.old numbers.old) × (p.0 < peers) × (head < 65536) × (len ≤ ring_size) × (from ≤ len)
        × ((j : ℕ) → j < from → matches m (entry_at (rows_of entries.old carried.old numbers.old) (row_of p.0 head j)) ≡ false) }
    ensures { let before = rows_of entries.old carried.old numbers.old in
        let after = rows_of entries.new carried.new numbers.new in
        (swept result after ≡ kept_entries before p.0 head len m) × (result ≤ len) }
{
    let mut kept = from;
    for read in from..len {
        let at = At {
            p,
            head,
            read,
            kept,
        };
        kept = keep_entry(entries, carried, numbers, at, m);
    }
    kept
}

impl RingView<'_> {
    // Where the peer's queue begins in its ring.
    pub fn head(&self, p: Peer) -> usize
        requires { p.0 < peers }
        ensures { (result ≡ head_of self.now.ends.now p.0) × (result < 65536) }
    {
        head_of(self.ends, p)
    }

    // How many entries the peer's queue has.
    pub fn len(&self, p: Peer) -> usize
        requires { p.0 < peers }
        ensures { (result ≡ length_of self.now.ends.now p.0) × (result < 65536) }
    {
        len_of(self.ends, p)
    }

    // The entry in a row.
    pub fn entry(&self, row: usize) -> Entry
        requires { row < row_count }
        ensures { result ≡ entry_at (viewed self.now).rows row }
    {
        get_entry(self.entries, self.carried, self.numbers, row)
    }

    // The oldest entry of a queue, or what its place holds where the queue is empty.
    #[tactic(auto, unfolding(crate::specs::Rings::first_of))]
    pub fn first(&self, p: Peer) -> Entry
        requires { p.0 < peers }
        ensures { result ≡ first_of (viewed self.now) p.0 }
    {
        let row = row_of(p, self.head(p), 0);
        self.entry(row)
    }

    // The place in a queue of the first entry that a removal takes out, or the length where it takes none.
    pub fn first_match(&self, p: Peer, head: usize, len: usize, m: Match) -> usize
        requires { (p.0 < peers) × (head < 65536) × (len ≤ ring_size) }
        ensures { (c n : List ℕ) →
            result ≡ first (λ i. matches m (entry_at (rows_of self.now.entries.now c n) (row_of p.0 head i))) len }
    {
        first_match(self.entries, p, head, len, m)
    }
}

impl RingTables<'_> {
    // The tables lent on, to be read.
    pub fn view(&self) -> RingView<'_>
        ensures tables { (result.ends.now ≡ self.now.ends.now) × (result.entries.now ≡ self.now.entries.now)
            × (result.carried.now ≡ self.now.carried.now) × (result.numbers.now ≡ self.now.numbers.now) }
        ensures rings { viewed result ≡ lent self.now }
    {
        RingView {
            ends: self.ends,
            entries: self.entries,
            carried: self.carried,
            numbers: self.numbers,
        }
    }

    // Where the peer's queue begins in its ring.
    pub fn head(&self, p: Peer) -> usize
        requires { p.0 < peers }
        ensures { (result ≡ head_of self.now.ends.now p.0) × (result < 65536) }
    {
        self.view().head(p)
    }

    // How many entries the peer's queue has.
    pub fn len(&self, p: Peer) -> usize
        requires { p.0 < peers }
        ensures { (result ≡ length_of self.now.ends.now p.0) × (result < 65536) }
    {
        self.view().len(p)
    }

    // The entry in a row.
    pub fn entry(&self, row: usize) -> Entry
        requires { row < row_count }
        ensures { result ≡ entry_at (lent self.now).rows row }
    {
        self.view().entry(row)
    }

    // The oldest entry of a queue, or what its place holds where the queue is empty.
    pub fn first(&self, p: Peer) -> Entry
        requires { p.0 < peers }
        ensures { result ≡ first_of (lent self.now) p.0 }
    {
        self.view().first(p)
    }

    // The place in a queue of the first entry that a removal takes out, or the length where it takes none.
    pub fn first_match(&self, p: Peer, head: usize, len: usize, m: Match) -> usize
        requires { (p.0 < peers) × (head < 65536) × (len ≤ ring_size) }
        ensures { (c n : List ℕ) →
            result ≡ first (λ i. matches m (entry_at (rows_of self.now.entries.now c n) (row_of p.0 head i))) len }
    {
        self.view().first_match(p, head, len, m)
    }

    // An entry appended to a queue that has room.
    #[tactic(auto, unfolding(crate::specs::Rings::pushed))]
    pub fn push(&mut self, p: Peer, e: Entry)
        requires { (p.0 < peers) × (length_of self.old.ends.now p.0 < ring_size) }
        ensures same { SameTables self.old self.new }
        ensures done { lent self.new ≡ pushed (lent self.old) p.0 e }
    {
        let head = self.head(p);
        let len = self.len(p);
        let row = row_of(p, head, len);
        put_entry(self.entries, self.carried, self.numbers, row, e);
        let at = p.0 * END_FIELDS + 1;
        self.ends[at] = (len + 1) as u16;
    }

    // Every entry that matches taken out of a queue; the others keep their order.
    pub fn remove(&mut self, p: Peer, m: Match)
        requires { (p.0 < peers) × (length_of self.old.ends.now p.0 ≤ ring_size) }
        ensures same { SameTables self.old self.new }
        ensures done { lent self.new ≡ removed (lent self.old) p.0 m }
    {
        let head = self.head(p);
        let len = self.len(p);
        let from = self.first_match(p, head, len, m);
        if from == len {
            return;
        }
        let kept = sweep(
            self.entries,
            self.carried,
            self.numbers,
            p,
            head,
            len,
            m,
            from,
        );
        let at = p.0 * END_FIELDS + 1;
        self.ends[at] = kept as u16;
    }
}
