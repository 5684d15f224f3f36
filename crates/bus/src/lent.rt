// The ten tables of a bus, lent together. Any lengths are allowed: `command` and `fresh` test them.

#[derive(Drop)]
pub struct BusTables<'a> {
    pub peers: &'a mut [u64],
    pub nodes: &'a mut [u64],
    pub handles: &'a mut [u64],
    pub charges: &'a mut [u16],
    pub ends: &'a mut [u16],
    pub entries: &'a mut [u16],
    pub carried: &'a mut [u8],
    pub numbers: &'a mut [u64],
    pub pool: &'a mut [u8],
    pub seeds: &'a mut [u8],
}
