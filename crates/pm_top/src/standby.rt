//! A standby: the store of the other disk is brought to the last settled copy of that of the first.
ghost use Rattle.std.specs.Prelude.{◌≡◌, MatchResult};
ghost use Rattle.pm_runs.specs.Ends.Alone.{alone};
ghost use Rattle.pm_runs.specs.Ends.Causes.{ShowsCauses};
ghost use Rattle.pm_runs.specs.Ends.Ends.{ShowsOther, ShowsWriting, not_shipped, shipped_line, status_of};
ghost use Rattle.pm_top.specs.Ships.{ShipsStore};
ghost use Rattle.pm_runs.specs.Ends.Wrote.{IsWriting, WroteText};

use pm_disk::Disk;
use pm_io::{Sink, Source};
use pm_runs::{Detail, Ended, end_unopened, shipped_line, write_text};
use pm_ship::{ShipEnd, ShipFault, Shipped, ship_disks};
use std::alloc::Global;

// How the program ends where nothing is shipped.
fn not_shipped(fault: ShipFault) -> Detail
    ensures { result ≡ not_shipped fault }
{
    match fault {
        ShipFault::From(fault) => Detail::Refused(fault),
        ShipFault::To(fault) => Detail::Standby(fault),
        ShipFault::Ahead { to, from } => Detail::Ahead { to, from },
        ShipFault::Foreign(number) => Detail::Foreign(number),
        ShipFault::Disk { before, after } => Detail::Device {
            before,
            after,
            opened: false,
        },
        ShipFault::OtherDisk { before, after } => Detail::OtherDevice { before, after },
        ShipFault::Memory(refused) => Detail::Memory {
            opened: false,
            refused,
        },
    }
}

// Writes what was shipped, and answers how the program ends. Where nothing was shipped the sink is not called.
fn tell_shipped<K: Sink>(sink: &mut K, shipped: Result<Shipped, ShipFault>) -> Detail
    ensures ends { MatchResult shipped (λ shipped. IsWriting result) (λ fault. result ≡ not_shipped fault) }
    ensures wrote { MatchResult shipped (λ shipped. WroteText K.Sink sink.old sink.new (shipped_line shipped) result)
        (λ fault. sink.new ≡ sink.old) }
    ensures cause { ShowsWriting result (K.count sink.old) (K.count sink.new) }
{
    match shipped {
        Ok(shipped) => write_text(sink, shipped_line(&shipped).as_slice()),
        Err(fault) => not_shipped(fault),
    }
}

/// Ships the store of the first disk to that of the other, and writes what was shipped.
pub(crate) fn ship_store<D: Disk, E: Disk, S: Source, K: Sink>(
    alloc: Global,
    disk: D,
    other: E,
    source: S,
    mut sink: K,
) -> Ended<D, E, S, K>
    ensures status { result.status ≡ status_of result.detail }
    ensures causes { ShowsCauses D.Disk S.Source K.Sink disk source sink (alone result) }
    ensures other_causes { ShowsOther result.detail (E.count other) (E.count result.other) }
    ensures ships { ShipsStore D.Disk E.Disk K.Sink disk other source sink result }
{
    let ShipEnd {
        disk,
        other,
        shipped,
    } = ship_disks(alloc, disk, other);
    let detail = tell_shipped(&mut sink, shipped);
    end_unopened(alloc, detail, disk, source, sink).beside(other)
}
