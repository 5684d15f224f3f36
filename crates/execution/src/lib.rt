// An order of the judges carried out: what it changes in the tables, and its answer. The tables peers, nodes, handles and
// charges are ps, ns, hs and cs, and the frame is f, as in the specs.

#![tactic(auto)]

ghost use Rattle.std.specs.Prelude.{◌≡◌, length};
ghost use Rattle.rings.specs.Lent.{SameTables};
ghost use Rattle.view.specs.Lent.{bus_with};
ghost use Rattle.view.specs.View.{bus_of, Shape};
ghost use Rattle.queues.specs.Queues.{Short};
ghost use Rattle.tables.specs.Handles.{handles_size};
ghost use Rattle.tables.specs.Charges.{charges_size};
ghost use Rattle.bus_model.specs.Command.{done_of, reply_to, altered, changed_of, changed, carried_out, Fair};

use answers::{Answer, Outcome};
use judges::{Order, Ruling};
use rings::RingTables;

// The answer to a refusal or a question; to any other order that shows neither an ID nor a message it is 00 alone.
fn reply(hs: &[u64], cs: &[u16], order: Order) -> Answer
    requires { (length hs.now ≡ handles_size) × (length cs.now ≡ charges_size) × Fair order }
    ensures { result ≡ reply_to hs.now cs.now order }
{
    match order {
        Order::Refuse(n) => Answer::Refused(n),
        Order::Quota(p, u) => Answer::Quota(tables::load(cs, p).balance(u)),
        Order::Holders(s) => Answer::Holders(tables::holders(hs, s)),
        _ => Answer::Done,
    }
}

// The change by an open, disconnect, create, destroy or release. A refusal and a question change nothing.
fn alter(
    ps: &mut [u64],
    ns: &mut [u64],
    hs: &mut [u64],
    cs: &mut [u16],
    rings: &mut RingTables<'_>,
    pool: &mut [u8],
    seeds: &mut [u8],
    order: Order,
)
    requires { Shape (bus_with ps.old ns.old hs.old cs.old rings.old pool.old seeds.old)
        × Fair order }
    ensures same { SameTables rings.old rings.new }
    ensures done { let before = bus_with ps.old ns.old hs.old cs.old rings.old pool.old seeds.old in
        let after = bus_with ps.new ns.new hs.new cs.new rings.new pool.new seeds.new in
        after ≡ altered before order }
{
    match order {
        Order::Open(p, u) => effects::open_peer(ps, p, u),
        Order::Disconnect(p) => {
            effects::disconnect(ps, ns, hs, cs, rings, p);
            seeds::drop_seed(seeds, p);
        }
        Order::Create(p, i, s) => effects::create(ps, ns, hs, p, i, s),
        Order::Destroy(p, s) => { effects::destroy(ps, ns, hs, cs, rings, p, s) }
        Order::Release(p, s) => { effects::release(ps, ns, hs, cs, rings, pool, p, s) }
        _ => {}
    }
}

// An order carried out, other than a receive or 0c, which write their answers themselves. The answer comes back.
fn change(
    ps: &mut [u64],
    ns: &mut [u64],
    hs: &mut [u64],
    cs: &mut [u16],
    rings: &mut RingTables<'_>,
    pool: &mut [u8],
    seeds: &mut [u8],
    f: &[u8],
    r: Ruling,
) -> Answer
    requires { Shape (bus_with ps.old ns.old hs.old cs.old rings.old pool.old seeds.old)
        × Fair r.order }
    ensures same { SameTables rings.old rings.new }
    ensures done { let before = bus_with ps.old ns.old hs.old cs.old rings.old pool.old seeds.old in
        let after = bus_with ps.new ns.new hs.new cs.new rings.new pool.new seeds.new in
        changed_of result after ≡ changed before f.now r.order r.places }
{
    match r.order {
        Order::Transfer(q, s) => { Answer::Transferred(effects::transfer(ps, ns, hs, rings, q, s)) }
        Order::Send(p, z) => {
            let w = r.places;
            let data = frames::payload(f);
            effects::send(ps, cs, rings, pool, p, z, w, data);
            effects::replace_seed(seeds, p, z, w, data);
            Answer::Done
        }
        order => {
            let a = reply(hs, cs, order);
            alter(ps, ns, hs, cs, rings, pool, seeds, order);
            a
        }
    }
}

// An order carried out; it cannot fail.
pub fn carry_out(
    ps: &mut [u64],
    ns: &mut [u64],
    hs: &mut [u64],
    cs: &mut [u16],
    rings: &mut RingTables<'_>,
    pool: &mut [u8],
    seeds: &mut [u8],
    f: &[u8],
    r: Ruling,
    out: &mut [u8],
) -> Outcome
    requires { Shape (bus_with ps.old ns.old hs.old cs.old rings.old pool.old seeds.old)
        × Short rings.old.ends.now × Fair r.order }
    ensures same { SameTables rings.old rings.new }
    ensures done { let before = bus_with ps.old ns.old hs.old cs.old rings.old pool.old seeds.old in
        let after = bus_with ps.new ns.new hs.new cs.new rings.new pool.new seeds.new in
        done_of result after out.new ≡ carried_out before f.now out.old r }
{
    match r.order {
        Order::Receive(p) => { effects::receive(ps, ns, hs, cs, rings, pool, p, out) }
        Order::ShowSeed(p) => { effects::show_seed(ps, ns, hs, rings, seeds, p, out) }
        _ => {
            let a = change(ps, ns, hs, cs, rings, pool, seeds, f, r);
            answers::write_plain(out, a)
        }
    }
}
