// The four tables of the queues, lent together: to be changed, or to be read alone.

ghost use Rattle.rings.specs.Rings.{QueueTables};

// The tables that hold the queues, each of its size.
#[derive(Drop)]
pub struct RingTables<'a> {
    pub ends: &'a mut [u16],
    pub entries: &'a mut [u16],
    pub carried: &'a mut [u8],
    pub numbers: &'a mut [u64],
    ghost sized: { QueueTables ends.now entries.now carried.now numbers.now },
}

// The same tables lent to be read, each of its size: whoever has them by `&` can make one.
#[derive(Clone, Copy)]
pub struct RingView<'a> {
    pub ends: &'a [u16],
    pub entries: &'a [u16],
    pub carried: &'a [u8],
    pub numbers: &'a [u64],
    ghost sized: { QueueTables ends.now entries.now carried.now numbers.now },
}
