/// The most young objects that a nursery has at one time.
pub const YOUNG: usize = 256;
