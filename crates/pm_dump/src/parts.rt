ghost use Rattle.std.specs.Prelude.{◌≡◌, []};
ghost use Rattle.pm_dump.specs.Read.{before_in, AreKept};

use pm_types::Name;
use std::alloc::Global;

/// Where an object ends in the lists of all fields and of all bytes. It begins where the one before it ends.
#[derive(Clone, Copy, Debug)]
pub(crate) struct Place {
    pub(crate) id: u32,
    pub(crate) fields: usize,
    pub(crate) bytes: usize,
}

/// A name, and the identity that it stands for.
#[derive(Debug, Drop)]
pub struct DumpRoot {
    /// The name.
    pub name: Name,
    /// The identity, which is not 0.
    pub id: u32,
}

/// What was read of a dump: the next identity, which is 0 before the first line; each object, with all fields in one
/// list and all bytes in another; the names; and whether the end was read.
#[derive(Debug, Drop)]
pub(crate) struct Parts {
    pub(crate) next: u64,
    pub(crate) places: Vec<Place>,
    pub(crate) fields: Vec<Option<u32>>,
    pub(crate) bytes: Vec<u8>,
    pub(crate) roots: Vec<DumpRoot>,
    pub(crate) ended: bool,
}

impl Parts {
    /// Nothing that was read.
    pub(crate) fn new(alloc: Global) -> Self
        ensures kept { AreKept result }
        ensures first { before_in result ≡ [] }
    {
        Parts {
            next: 0,
            places: Vec::new(alloc),
            fields: Vec::new(alloc),
            bytes: Vec::new(alloc),
            roots: Vec::new(alloc),
            ended: false,
        }
    }
}
