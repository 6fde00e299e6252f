//! Restoring: the source is read as a dump, a store is made, and the dump is settled in it.
ghost use Rattle.std.specs.Prelude.{◌≡◌, ◌<◌, ◌≤◌, ◌⊎◌, List, ℕ, [], length, IfOk, IfErr, Ok, Err, Some};
ghost use Rattle.pm_types.specs.declared.limits.TheConstants.{SOURCE_BYTES};
ghost use Rattle.pm_disk.specs.Disk.{LeavesOnly};
ghost use Rattle.pm_shadow.specs.Pages.{disk_of, state};
ghost use Rattle.pm_dump.specs.declared.fault.DumpFault.{DumpFault as Fault};
ghost use Rattle.pm_dump.specs.declared.fault.DumpFault.TheVariants as dump_fault;
ghost use Rattle.pm_dump.specs.Dump.{Dump as Says};
ghost use Rattle.pm_dump.specs.Spelled.{Spells};
ghost use Rattle.pm_dump.specs.Sound.{IsSoundDump};
ghost use Rattle.pm_dump.specs.Answers.{Answers, IsDumpFault};
ghost use Rattle.pm_restore.specs.Restored.{IsNewStore};
ghost use Rattle.pm_runs.specs.Ends.Ends.{ShowsDevice, ShowsReading, no_dump, not_settled, status_of};
ghost use Rattle.pm_top.specs.Stores.{CallsToSettle, LeavesRestored, LeavesSettled};
ghost use Rattle.pm_top.specs.Dumps.{EndsSettling, EndsUnrestored, IsReadWhole, RefusesBytes};
ghost use Rattle.pm_top.specs.Commands.{RestoresStore};
ghost use Rattle.pm_runs.specs.Ends.Causes.{ShowsCauses};
ghost use Rattle.pm_types.specs.Memory.{no_memory};

use crate::making::not_made;
use pm_disk::Disk;
use pm_dump::{Dump, DumpFault, read_dump};
use pm_io::{ReadAll, Sink, Source, read_all};
use pm_restore::{a_made_store_is_new, settle_dump};
use pm_runs::{Alone, Detail, end_unopened};
use pm_save::progress::SaveFault;
use pm_script::ScriptFault;
use pm_shadow::Pages;
use pm_types::SOURCE_BYTES;
use std::alloc::Global;

// How the program ends where a dump is not read.
fn no_dump(fault: DumpFault) -> Detail
    ensures { result ≡ no_dump fault }
{
    match fault {
        DumpFault::Memory(refused) => Detail::Memory {
            opened: false,
            refused,
        },
        fault => Detail::Dump(fault),
    }
}

// How the program ends where a dump is not settled, by the disk's counts of faults before and after.
fn not_settled(fault: SaveFault, before: u64, after: u64) -> Detail
    ensures { result ≡ not_settled fault before after }
{
    match fault {
        SaveFault::Disk => Detail::Device {
            before,
            after,
            opened: false,
        },
        SaveFault::Memory(refused) => Detail::Memory {
            opened: false,
            refused,
        },
    }
}

// The dump that the bytes spell, by the clauses of `read_dump`. The bytes are let go.
fn dump_in(alloc: Global, bytes: Vec<u8>) -> Result<Dump, DumpFault>
    requires { length bytes.items ≤ SOURCE_BYTES }
    ensures found { IfOk result (λ dump. Spells bytes.items dump) }
    ensures sound { IfOk result IsSoundDump }
    ensures only { (dump : Says) → Spells bytes.items dump → IsSoundDump dump → Answers result (Ok dump) }
    ensures bad { IfErr result (λ fault. (fault ≡ dump_fault.Memory no_memory) ⊎ IsDumpFault fault bytes.items) }
    ensures told { (fault : Fault) → IsDumpFault fault bytes.items → Answers result (Err fault) }
{
    read_dump(alloc, bytes.as_slice())
}

// Reads the source to its end, as a dump, or says how the program ends.
fn read_source<S: Source>(alloc: Global, source: &mut S) -> Result<Dump, Detail>
    ensures emptied { IfOk result (λ dump. (bytes : List ℕ) → S.left source.old ≡ Some bytes
        → S.left source.new ≡ Some []) }
    ensures found { IfOk result (λ dump. (bytes : List ℕ) → S.left source.old ≡ Some bytes → Spells bytes dump) }
    ensures short { IfOk result (λ dump. (bytes : List ℕ) → S.left source.old ≡ Some bytes
        → length bytes ≤ SOURCE_BYTES) }
    ensures sound { IfOk result IsSoundDump }
    ensures counted { IfOk result (λ dump. S.count source.new ≡ S.count source.old) }
    ensures ends { IfErr result EndsUnrestored }
    ensures stops { IfErr result (λ detail. (bytes : List ℕ) → S.left source.old ≡ Some bytes
        → RefusesBytes bytes detail) }
    ensures rest { IfErr result (λ detail. (bytes : List ℕ) → S.left source.old ≡ Some bytes → IsReadWhole detail
        → S.left source.new ≡ Some []) }
    ensures cause { IfErr result (λ detail. ShowsReading detail (S.count source.old) (S.count source.new)) }
{
    let before = source.faults();
    match read_all(alloc, source) {
        Ok(bytes) => match dump_in(alloc, bytes) {
            Ok(dump) => Ok(dump),
            Err(fault) => Err(no_dump(fault)),
        },
        Err(ReadAll::TooLong) => Err(Detail::Script(ScriptFault::TooLong)),
        Err(ReadAll::Memory(refused)) => Err(Detail::Memory {
            opened: false,
            refused,
        }),
        Err(ReadAll::Failed) => {
            let after = source.faults();
            Err(Detail::Reading { before, after })
        }
    }
}

// Settles the dump in the pages of a store that was just made.
fn settle<D: Disk>(alloc: Global, mut pages: Pages<D>, dump: &Dump) -> (D, Detail)
    requires sound { IsSoundDump dump.now }
    requires new { IsNewStore (state pages) (D.contents (disk_of pages)) }
    ensures ends { EndsSettling result.1 }
    ensures leaves { LeavesSettled D.Disk dump.now (disk_of pages) result.0 result.1 }
    ensures calls { CallsToSettle dump.now result.1 (D.made (disk_of pages)) (D.made result.0) }
    ensures device { ShowsDevice result.1 (D.count (disk_of pages)) (D.count result.0) }
    ensures reads { (D.made result.0).past ≡ (D.made (disk_of pages)).past }
{
    let before = pages.faults();
    let settled = settle_dump(alloc, &mut pages, dump);
    let disk = pages.into_disk();
    match settled {
        Ok(()) => (disk, Detail::Fine),
        Err(fault) => {
            let after = disk.faults();
            (disk, not_settled(fault, before, after))
        }
    }
}

// Makes a store on the disk, where that is empty, and settles the dump in it.
fn restore_dump<D: Disk>(alloc: Global, disk: D, dump: &Dump) -> (D, Detail)
    requires sound { IsSoundDump dump.now }
    ensures ends { EndsSettling result.1 }
    ensures leaves { LeavesRestored D.Disk dump.now disk result.0 result.1 }
    ensures keeps { (bytes : List ℕ) → D.contents disk ≡ Some bytes → 0 < length bytes
        → LeavesOnly D.moment D.since disk result.0 (D.image disk) }
    ensures device { ShowsDevice result.1 (D.count disk) (D.count result.0) }
    ensures reads { (D.made result.0).past ≡ (D.made disk).past }
{
    a_made_store_is_new();
    match Pages::make(alloc, disk) {
        Ok(pages) => settle(alloc, pages, dump),
        Err((disk, fault)) => (disk, not_made(fault)),
    }
}

/// Makes a store of the dump that the source holds.
pub(crate) fn restore_store<D: Disk, S: Source, K: Sink>(
    alloc: Global,
    disk: D,
    mut source: S,
    sink: K,
) -> Alone<D, S, K>
    ensures status { result.status ≡ status_of result.detail }
    ensures causes { ShowsCauses D.Disk S.Source K.Sink disk source sink result }
    ensures restores { RestoresStore D.Disk S.Source K.Sink disk source sink result }
{
    match read_source(alloc, &mut source) {
        Ok(dump) => {
            let (disk, detail) = restore_dump(alloc, disk, &dump);
            end_unopened(alloc, detail, disk, source, sink)
        }
        Err(detail) => end_unopened(alloc, detail, disk, source, sink),
    }
}
