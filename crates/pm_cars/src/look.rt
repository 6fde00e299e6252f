use pm_types::Addr;

/// What a slot of a car is.
#[derive(Clone, Copy, Debug, PartialEq, Eq)]
pub enum Look {
    /// An object stands there.
    Live,
    /// Its object went to this address.
    Moved(Addr),
    /// Nothing stands there, or nothing ever did.
    Gone,
}
