/// What is called round each turn of a worker, with no lock held. A worker's turns are counted from 0.
pub trait Gate {
    /// Comes before the turn. The worker waits for as long as this takes.
    fn before(&self, who: u32, index: u64);

    /// Comes after the turn, once others may take theirs.
    fn after(&self, who: u32, index: u64);
}

/// A gate that does nothing.
#[derive(Clone, Copy, Debug)]
pub struct OpenGate;

impl Gate for OpenGate {
    fn before(&self, _who: u32, _index: u64) {}

    fn after(&self, _who: u32, _index: u64) {}
}
