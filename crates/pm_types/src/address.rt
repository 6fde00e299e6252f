/// Where an object lies: the number of a car, from 1, and of a slot in it, from 0.
#[derive(Clone, Copy, Debug, PartialEq, Eq, PartialOrd, Ord)]
pub struct Addr {
    pub car: u64,
    pub slot: u32,
}
