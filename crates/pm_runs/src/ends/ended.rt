ghost use Rattle.std.specs.Prelude.{◌≡◌, [], None};
ghost use Rattle.pm_engine.specs.Events.Causes.{why};
ghost use Rattle.pm_runs.specs.Ends.Ends.{status_of, ended_by, not_opened};

use pm_disk::Disk;
use pm_dump::DumpFault;
use pm_io::{Sink, Source};
use pm_script::ScriptFault;
use pm_serial::{Stop, Tally};
use pm_types::{Entry, NoMemory, OpenFault};
use pm_young::YoungTally;
use std::alloc::Global;

/// How the program ended.
#[derive(Clone, Copy, Debug, PartialEq, Eq)]
pub enum Detail {
    /// All was done: a store was made; or the script was run to its end, and every reply was written and
    /// finished. Status 0.
    Fine,
    /// The words are no command line. Status 1.
    Usage,
    /// What was read is no script, by this fault, which is the first that applies. Status 2.
    Script(ScriptFault),
    /// What was read is no dump, by this fault: the first line that is bad in its form, its order or its limits, or else
    /// the first that names an object that is not listed. Status 2.
    Dump(DumpFault),
    /// The source failed: its count of faults rose, from `before` to `after`. Status 3.
    Reading {
        before: u64,
        after: u64,
    },
    /// The sink failed: its count of faults rose, from `before` to `after`. Status 4.
    Writing {
        before: u64,
        after: u64,
    },
    /// The disk failed: its count of faults rose, from `before` to `after`. Status 5. `opened` tells whether a store had
    /// been opened for a run: then there is a tally, of one kind.
    Device {
        before: u64,
        after: u64,
        opened: bool,
    },
    /// No store was made, since the file holds this number of bytes, which is over 0. Status 6.
    NotEmpty(u64),
    /// The store was not opened, by the rule that its bytes fail. Status 6.
    Refused(OpenFault),
    /// Nothing was shipped, by the rule that the standby's bytes fail. Status 6.
    Standby(OpenFault),
    /// Nothing was shipped: the standby's copy has a later number than the first store's. Status 6.
    Ahead {
        /// The number of the standby's copy.
        to: u32,
        /// The number of the first store's copy.
        from: u32,
    },
    /// Nothing was shipped: the standby has another copy under this number, which is the first store's. Status 6.
    Foreign(u32),
    /// The standby's disk failed: its count of faults rose, from `before` to `after`. Status 5.
    OtherDevice {
        before: u64,
        after: u64,
    },
    /// Memory ran out. Status 7. `opened` tells whether a store had been opened for a run: then there is a tally, of one kind.
    Memory {
        opened: bool,
        /// The evidence.
        refused: NoMemory,
    },
}

/// What the program leaves: its status, how it ended, the journal of its commands, what the engine came to, and the
/// disk, the other disk, the source and the sink.
#[derive(Drop)]
pub struct Ended<D: Disk, E: Disk, S: Source, K: Sink> {
    /// The status with which the program ends: 0 to 7.
    pub status: u8,
    pub detail: Detail,
    /// One entry for each command that was answered, in their order.
    pub journal: Vec<Entry>,
    /// What the engine came to. It is there where a store was opened for a script, unless for `run FILE young`.
    pub tally: Option<Tally>,
    /// The same of an engine with a nursery. It is there where a store was opened for `run FILE young`.
    pub young: Option<YoungTally>,
    pub disk: D,
    /// The disk of the standby, which `ship` alone calls.
    pub other: E,
    pub source: S,
    pub sink: K,
}

/// The same without the other disk: what a command leaves that touches one disk at most.
#[derive(Drop)]
pub struct Alone<D: Disk, S: Source, K: Sink> {
    pub status: u8,
    pub detail: Detail,
    pub journal: Vec<Entry>,
    pub tally: Option<Tally>,
    pub young: Option<YoungTally>,
    pub disk: D,
    pub source: S,
    pub sink: K,
}

impl<D: Disk, S: Source, K: Sink> Alone<D, S, K> {
    ghost use Rattle.pm_runs.specs.Ends.Alone.{alone};

    /// With the other disk beside it.
    pub fn beside<E: Disk>(self, other: E) -> Ended<D, E, S, K>
        ensures alone { alone result ≡ self }
        ensures other { result.other ≡ other }
    {
        let Alone {
            status,
            detail,
            journal,
            tally,
            young,
            disk,
            source,
            sink,
        } = self;
        Ended {
            status,
            detail,
            journal,
            tally,
            young,
            disk,
            other,
            source,
            sink,
        }
    }
}

impl Detail {
    ghost use Rattle.pm_runs.specs.Ends.Ends.{status_of};

    pub(crate) fn status(self) -> u8
        ensures { result ≡ status_of self }
    {
        match self {
            Detail::Fine => 0,
            Detail::Usage => 1,
            Detail::Script(_) | Detail::Dump(_) => 2,
            Detail::Reading { .. } => 3,
            Detail::Writing { .. } => 4,
            Detail::Device { .. } | Detail::OtherDevice { .. } => 5,
            Detail::NotEmpty(_)
            | Detail::Refused(_)
            | Detail::Standby(_)
            | Detail::Ahead { .. }
            | Detail::Foreign(_) => 6,
            Detail::Memory { .. } => 7,
        }
    }
}

/// How the program ends after a run of lines, by the counts of faults of the disk and of the sink before and after it.
pub fn ended_by(
    outcome: Result<(), Stop>,
    disk_before: u64,
    disk_after: u64,
    sink_before: u64,
    sink_after: u64,
) -> Detail
    ensures { result ≡ ended_by (why outcome) disk_before disk_after sink_before sink_after }
{
    match outcome {
        Ok(()) => Detail::Fine,
        Err(Stop::Memory(refused)) => Detail::Memory {
            opened: true,
            refused,
        },
        Err(Stop::Writing) => Detail::Writing {
            before: sink_before,
            after: sink_after,
        },
        Err(Stop::Device) => Detail::Device {
            before: disk_before,
            after: disk_after,
            opened: true,
        },
    }
}

/// How the program ends where a store is not opened.
pub fn not_opened(fault: OpenFault) -> Detail
    ensures { result ≡ not_opened fault }
{
    match fault {
        OpenFault::Disk { before, after } => Detail::Device {
            before,
            after,
            opened: false,
        },
        OpenFault::Memory(refused) => Detail::Memory {
            opened: false,
            refused,
        },
        fault => Detail::Refused(fault),
    }
}

/// The end of the program.
pub fn end_with<D: Disk, S: Source, K: Sink>(
    detail: Detail,
    journal: Vec<Entry>,
    tally: Option<Tally>,
    young: Option<YoungTally>,
    disk: D,
    source: S,
    sink: K,
) -> Alone<D, S, K>
    ensures status { result.status ≡ status_of detail }
    ensures detail { result.detail ≡ detail }
    ensures journal { result.journal ≡ journal }
    ensures tally { result.tally ≡ tally }
    ensures young { result.young ≡ young }
    ensures disk { result.disk ≡ disk }
    ensures source { result.source ≡ source }
    ensures sink { result.sink ≡ sink }
{
    Alone {
        status: detail.status(),
        detail,
        journal,
        tally,
        young,
        disk,
        source,
        sink,
    }
}

/// The end of the program where no store was opened for a script.
pub fn end_unopened<D: Disk, S: Source, K: Sink>(
    alloc: Global,
    detail: Detail,
    disk: D,
    source: S,
    sink: K,
) -> Alone<D, S, K>
    ensures status { result.status ≡ status_of detail }
    ensures detail { result.detail ≡ detail }
    ensures journal { result.journal.items ≡ [] }
    ensures tally { result.tally ≡ None }
    ensures young { result.young ≡ None }
    ensures disk { result.disk ≡ disk }
    ensures source { result.source ≡ source }
    ensures sink { result.sink ≡ sink }
{
    end_with(detail, Vec::new(alloc), None, None, disk, source, sink)
}
