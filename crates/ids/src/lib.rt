// The three kinds of number of document 01, "three kinds and must not be mixable by accident", the refusal numbers, and the
// sizes that several crates need.

#![tactic(auto)]

ghost use Rattle.std.specs.Prelude.{◌≡◌, ◌<◌, ◌≤◌, MatchResult};
ghost use Rattle.ids.specs.Refusals.{refusal_number};
ghost use Rattle.ids.specs.declared.Refusal.TheVariants.{EINVAL as einval};

// A peer, 0 to 7 on a bus: the place of its rows in a peer's table.
#[derive(Clone, Copy, Debug, PartialEq, Eq, PartialOrd, Ord)]
pub struct Peer(pub usize);

// The peer that a byte names: EINVAL past the last.
impl TryFrom<u8> for Peer {
    type Error = Refusal;

    ghost try_from_gives = { λ x r. MatchResult r (λ y. (y.0 ≡ x) × (x ≤ 7)) (λ e. (e ≡ einval) × (7 < x)) };

    fn try_from(byte: u8) -> Result<Peer, Refusal> {
        let number = usize::from(byte);
        if PEERS <= number {
            return Err(Refusal::EINVAL);
        }
        Ok(Peer(number))
    }
}

// A user, 0 to 3: whom a charge is counted under.
#[derive(Clone, Copy, Debug, PartialEq, Eq, PartialOrd, Ord)]
pub struct User(pub usize);

// The user that a byte names: EINVAL past the last.
impl TryFrom<u8> for User {
    type Error = Refusal;

    ghost try_from_gives = { λ x r. MatchResult r (λ y. (y.0 ≡ x) × (x ≤ 3)) (λ e. (e ≡ einval) × (3 < x)) };

    fn try_from(byte: u8) -> Result<User, Refusal> {
        let number = usize::from(byte);
        if USERS <= number {
            return Err(Refusal::EINVAL);
        }
        Ok(User(number))
    }
}

// A handle's ID, as one peer knows a node.
#[derive(Clone, Copy, Debug, PartialEq, Eq, PartialOrd, Ord)]
pub struct HandleId(pub u64);

// A refusal of document 01's table, and 27 of document 02: its number is the answer's first byte. specs/Refusals.antt has the row of each.
#[derive(Clone, Copy, Debug, PartialEq, Eq)]
pub enum Refusal {
    EPERM = 1,
    EIO = 5,
    ENXIO = 6,
    EBADF = 9,
    EAGAIN = 11,
    EEXIST = 17,
    EINVAL = 22,
    ENOTTY = 25,
    EFBIG = 27,
    ENOSPC = 28,
    ERANGE = 34,
    EOVERFLOW = 75,
    EMSGSIZE = 90,
    ESHUTDOWN = 108,
    EHOSTUNREACH = 113,
    EDQUOT = 122,
}

impl From<Refusal> for u8 {
    ghost from_gives = { λ r n. n ≡ refusal_number r };

    fn from(refusal: Refusal) -> u8 {
        refusal as u8
    }
}

// The numbers of three refusals that are written with no command at hand, or handed back to C: a number is what these answers are.
pub const EIO: u8 = Refusal::EIO as u8;

pub const EINVAL: u8 = Refusal::EINVAL as u8;

pub const EFBIG: u8 = Refusal::EFBIG as u8;

// The invalid ID, all ones.
pub const INVALID: u64 = 18446744073709551615;

// The peers of a bus, and the users.
pub const PEERS: usize = 8;

pub const USERS: usize = 4;

// The slots of one owner, and of all.
pub const SLOTS: usize = 16;

pub const NODES: usize = PEERS * SLOTS;

// The rows of one peer's ring, and of all.
pub const RING: usize = 512;

pub const ROWS: usize = PEERS * RING;

// The bytes of one peer's area in the pool.
pub const AREA: usize = 4096;

// The payload bytes of a send, and its destinations or attached handles, at most.
pub const MOST_BYTES: usize = 512;

pub const MOST_IDS: usize = 8;

// The bytes of an answer buffer, at least, and of a frame, at most.
pub const ANSWER_SIZE: usize = 591;

pub const FRAME_SIZE: usize = 646;

// A number of accepted commands is below 2^40, so that is the most; one of IDs given to a peer is below 2^44.
pub const ACCEPTED_END: u64 = 1 << 40;

pub const MOST_COMMANDS: u64 = ACCEPTED_END - 1;

pub const GIVEN_END: u64 = 1 << 44;

// The elements of a row of each lent table that has rows of more than one.
pub const PEER_FIELDS: usize = 3;

pub const NODE_FIELDS: usize = 2;

pub const HANDLE_FIELDS: usize = 2;

pub const CHARGE_FIELDS: usize = 3;

pub const END_FIELDS: usize = 2;

pub const ENTRY_FIELDS: usize = 5;

pub const CARRIED_FIELDS: usize = MOST_IDS;

// A seed's row: whether it is set, how many slots it carries, its payload's length in two bytes, and the slots.
pub const SEED_FIELDS: usize = 4 + MOST_IDS;

// The elements of each lent table: docs/BUFFERS.md. The table of peers begins with the accepted commands; the table of
// handles has for each peer a block of its handles and one of its list, and behind the blocks a row for each peer; the table of
// seeds has a row for each peer, and behind the rows the payload of each.
pub const PEERS_SIZE: usize = 1 + PEER_FIELDS * PEERS;

pub const NODES_SIZE: usize = NODE_FIELDS * NODES;

pub const HANDLES_SIZE: usize = HANDLE_FIELDS * (2 * PEERS * NODES + PEERS);

pub const CHARGES_SIZE: usize = CHARGE_FIELDS * PEERS * USERS;

pub const ENDS_SIZE: usize = END_FIELDS * PEERS;

pub const ENTRIES_SIZE: usize = ENTRY_FIELDS * ROWS;

pub const CARRIED_SIZE: usize = CARRIED_FIELDS * ROWS;

pub const NUMBERS_SIZE: usize = ROWS;

pub const POOL_SIZE: usize = PEERS * AREA;

// Where the payloads begin in the table of seeds.
pub const SEED_BYTES: usize = SEED_FIELDS * PEERS;

pub const SEEDS_SIZE: usize = SEED_BYTES + MOST_BYTES * PEERS;
