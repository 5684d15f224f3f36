// Charges and the quota rule of document 01. A charge counts what is queued of the three resources; the four users'
// charges at a peer are one value, which charge and discharge take and hand back.

#![tactic(auto)]

ghost use Rattle.std.specs.Prelude.{◌≡◌, ℕ, ◌<◌};
ghost use Rattle.quota.specs.Rule.{half, allowed as allowed_by, left as left_of};
ghost use Rattle.quota.specs.Charges.{nothing, plus as plus_of, less as less_of, fresh_charges};
ghost use Rattle.quota.specs.Charges.{own as own_of, put as put_of, charged, discharged, others_of, others_all, allows_all, balance_of};

use ids::{USERS, User};

// What is queued of each resource, or what a message adds: 1, its payload bytes and its attached handles.
#[derive(Clone, Copy, Debug, Default, PartialEq, Eq)]
pub struct Charge {
    pub messages: u16,
    pub bytes: u16,
    pub handles: u16,
}

// The four users' charges at one peer.
#[derive(Clone, Copy, Debug, Default, PartialEq, Eq)]
pub struct Charges {
    pub by: [Charge; USERS],
}

// The quota question's answer: what a user has queued, and what is left, in two's complement.
#[derive(Clone, Copy, Debug, PartialEq, Eq)]
pub struct Balance {
    pub queued: Charge,
    pub left: Charge,
}

// Half, rounded down, of what the others leave of the limit.
fn half_of(limit: u64, others: u64) -> u64
    ensures { (result ≡ half limit others) × (result < 9223372036854775808) }
{
    limit.saturating_sub(others) / 2
}

// The rule: may a user who has own queued add so much?
pub fn allowed(limit: u64, others: u64, own: u16, more: u16) -> bool
    ensures { result ≡ allowed_by limit others own more }
{
    u64::from(own) + u64::from(more) <= half_of(limit, others)
}

// What is left to a user who has own queued, in two's complement.
pub fn left(limit: u64, others: u64, own: u16) -> u16
    ensures { result ≡ left_of limit others own }
{
    ((half_of(limit, others) % 65536) as u16).wrapping_sub(own)
}

impl Charge {
    pub const MESSAGES: u64 = 64;

    pub const BYTES: u64 = 4096;

    pub const HANDLES: u64 = 64;

    pub fn fresh() -> Self
        ensures { result ≡ nothing }
    {
        Self::default()
    }

    pub fn plus(self, a: Charge) -> Self
        ensures { result ≡ plus_of self a }
    {
        Self {
            messages: self.messages.saturating_add(a.messages),
            bytes: self.bytes.saturating_add(a.bytes),
            handles: self.handles.saturating_add(a.handles),
        }
    }

    pub fn less(self, a: Charge) -> Self
        ensures { result ≡ less_of self a }
    {
        Self {
            messages: self.messages.saturating_sub(a.messages),
            bytes: self.bytes.saturating_sub(a.bytes),
            handles: self.handles.saturating_sub(a.handles),
        }
    }
}

// What the other users have queued of each resource.
#[derive(Clone, Copy, Debug, PartialEq, Eq)]
pub struct Others {
    pub messages: u64,
    pub bytes: u64,
    pub handles: u64,
}

impl Charges {
    pub fn fresh() -> Self
        ensures { result ≡ fresh_charges }
    {
        Self::default()
    }

    // What the user has queued.
    pub fn own(self, u: User) -> Charge
        ensures { result ≡ own_of self u }
    {
        self.by.get(u.0).copied().unwrap_or_default()
    }

    // The charges with v as the user's own, as they were where there is no such user.
    fn put(mut self, u: User, v: Charge) -> Self
        ensures { result ≡ put_of self u v }
    {
        if u.0 < USERS {
            self.by[u.0] = v;
        }
        self
    }

    // The charges with a message's added under its user.
    pub fn charge(self, u: User, a: Charge) -> Self
        ensures { result ≡ charged self u a }
    {
        self.put(u, self.own(u).plus(a))
    }

    // The charges with a message's taken off again: it was received or dropped.
    pub fn discharge(self, u: User, a: Charge) -> Self
        ensures { result ≡ discharged self u a }
    {
        self.put(u, self.own(u).less(a))
    }

    // What the other users have queued of one resource.
    fn others_of<F: Fn(Charge) -> u16>(self, u: User, of: F) -> u64
        requires { F.IsAlwaysCallable of }
        ensures { (f : Charge → ℕ) → f nothing ≡ 0 → ((c : Charge) (n : ℕ) → F.post of c n → n ≡ f c)
            → result ≡ others_of f self u }
    {
        let mut sum = 0;
        for c in self.by.iter() {
            sum += u64::from(of(*c));
        }
        let own = u64::from(of(self.own(u)));
        sum.saturating_sub(own)
    }

    // What the other users have queued.
    #[tactic(auto, unfolding(crate::specs::Charges::others_all))]
    pub fn others(self, u: User) -> Others
        ensures { result ≡ others_all self u }
    {
        Others {
            messages: self.others_of(u, |c| c.messages),
            bytes: self.others_of(u, |c| c.bytes),
            handles: self.others_of(u, |c| c.handles),
        }
    }

    // The rule for each resource: may the user's send add so much here? A line for each, as in `plus`, `less` and `balance`: the
    // charge's type names the three.
    #[tactic(auto, unfolding(crate::specs::Charges::others_all, crate::specs::Charges::allows_all))]
    pub fn allows(self, u: User, a: Charge) -> bool
        ensures { result ≡ allows_all self u a }
    {
        let c = self.own(u);
        let o = self.others(u);
        allowed(Charge::MESSAGES, o.messages, c.messages, a.messages)
            && allowed(Charge::BYTES, o.bytes, c.bytes, a.bytes)
            && allowed(Charge::HANDLES, o.handles, c.handles, a.handles)
    }

    // The quota question about the user.
    #[tactic(auto, unfolding(crate::specs::Charges::others_all, crate::specs::Charges::balance_of))]
    pub fn balance(self, u: User) -> Balance
        ensures { result ≡ balance_of self u }
    {
        let c = self.own(u);
        let o = self.others(u);
        Balance {
            queued: c,
            left: Charge {
                messages: left(Charge::MESSAGES, o.messages, c.messages),
                bytes: left(Charge::BYTES, o.bytes, c.bytes),
                handles: left(Charge::HANDLES, o.handles, c.handles),
            },
        }
    }
}
