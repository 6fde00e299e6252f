/// A command that touches one file at most.
#[derive(Clone, Copy, Debug, PartialEq, Eq)]
pub enum Command {
    /// `init FILE`: make an empty store.
    Init,
    /// `run FILE serial` or `run FILE serial PLACE`: run the script on the source, in the order of its lines.
    Run,
    /// `run FILE threads` or `run FILE threads PLACE`: run it in threads, each client's lines in their order.
    RunThreads,
    /// `run FILE seats` or `run FILE seats PLACE`: run it in threads, each with a pass of its own.
    RunSeats,
    /// `run FILE young` or `run FILE young PLACE`: run it in the order of its lines, with new objects held outside the
    /// heap until they escape.
    RunYoung,
    /// `inspect FILE`: write the report of a store.
    Inspect,
    /// `dump FILE`: write the dump of a store's copy.
    Dump,
    /// `restore FILE`: make a store of the dump on the source.
    Restore,
    /// `why FILE ID`: write a path from a name to an object of a store's copy.
    Why {
        /// The object's identity, which is over 0.
        id: u32,
    },
    /// `make SEED N`: write the script of this seed and this many turns.
    Make {
        /// The seed.
        seed: u32,
        /// The number of turns, at most 16,000.
        turns: u32,
    },
    /// `trial FILE SEED N`: run that script on a store.
    Trial {
        /// The seed.
        seed: u32,
        /// The number of turns, at most 16,000.
        turns: u32,
    },
}
