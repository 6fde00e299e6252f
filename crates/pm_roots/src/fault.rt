use pm_types::NoMemory;

/// Why a name was not bound. Everything is as it was.
#[derive(Clone, Copy, Debug, PartialEq, Eq)]
pub enum BindFault {
    /// The name is not bound, and as many names are bound as may be.
    TooMany,
    /// Memory ran out.
    Memory(NoMemory),
}
