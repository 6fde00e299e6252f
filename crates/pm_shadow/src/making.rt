//! Making a store.
ghost use Rattle.std.specs.Prelude.{◌≡◌, ◌*◌, ◌-◌, ◌<◌, ◌≤◌, [], List, ℕ, Some, None, length, option_map, MatchResult, IfOk, IfErr, OnOk, OnErr};
ghost use Rattle.pm_disk.specs.Writes.{written};
ghost use Rattle.pm_disk.specs.Disk.{IfTold, SameImages, LeavesOnly, HasCause};
ghost use Rattle.pm_disk.specs.Made.{MakesCalls};
ghost use Rattle.pm_layout.specs.Headers.{header_spelling};
ghost use Rattle.pm_image.specs.CarPages.{padded};
ghost use Rattle.pm_image.specs.Opening.{open_gate};
ghost use Rattle.pm_image.specs.Blank.{blank_header, blank_catalog_page, blank_store};
ghost use Rattle.pm_shadow.specs.Images.{place_of, with_gate};
ghost use Rattle.pm_shadow.specs.Runs.{OnlyLooks};
ghost use Rattle.pm_shadow.specs.Init.{IsInitFault, IsInitFaultOf, KeepsBytes, MakesInOrder, UnlessFailed, shut_store};

use crate::runs::write_and_sync;
use crate::slots::{OPEN, gate_place};
use crate::table::FIRST_PAGE;
use pm_disk::{Disk, DiskFailed};
use pm_image::ENTRIES;
use pm_layout::{Header, digest, write_header};
use pm_types::{InitFault, NoMemory, PAGE_BYTES, VERSION};
use std::alloc::Global;

/// A page that begins with these bytes, and is zero behind them.
fn padded_page(alloc: Global, used: &[u8]) -> Result<Vec<u8>, NoMemory>
    requires { length used.now ≤ PAGE_BYTES }
    ensures items { IfOk result (λ page. page.items ≡ padded used.now) }
    ensures len { IfOk result (λ page. length page.items ≡ PAGE_BYTES) }
{
    let mut page = Vec::from_slice(alloc, used)?;
    page.resize(PAGE_BYTES, 0)?;
    Ok(page)
}

/// A catalog page without entries.
fn catalog_page(alloc: Global) -> Result<Vec<u8>, NoMemory>
    ensures items { IfOk result (λ page. page.items ≡ blank_catalog_page) }
    ensures len { IfOk result (λ page. length page.items ≡ PAGE_BYTES) }
{
    let mut used = [0; ENTRIES];
    used[..4].copy_from_slice(b"PCAT");
    let page = padded_page(alloc, &used)?;
    Ok(page)
}

/// The header of a new store, whose catalog page has these bytes.
fn header_before(catalog: &[u8]) -> Header
    requires { catalog.now ≡ blank_catalog_page }
    ensures { result ≡ blank_header }
{
    Header {
        version: VERSION,
        epoch: 0,
        next: 1,
        first: FIRST_PAGE,
        digest: digest(catalog),
    }
}

/// The page of the first header, whose gate is closed.
fn header_page(alloc: Global, header: &Header) -> Result<Vec<u8>, NoMemory>
    requires { header.now ≡ blank_header }
    ensures items { IfOk result (λ page. page.items ≡ padded (header_spelling blank_header)) }
    ensures len { IfOk result (λ page. length page.items ≡ PAGE_BYTES) }
{
    padded_page(alloc, &write_header(header))
}

/// Three pages, a sync, the gate of the first one, and a sync.
fn write_pages<D: Disk>(
    disk: &mut D,
    zeroth: &[u8],
    first: &[u8],
    second: &[u8],
) -> Result<(), DiskFailed>
    requires zeroth { length zeroth.now ≡ PAGE_BYTES }
    requires first { length first.now ≡ PAGE_BYTES }
    requires second { length second.now ≡ PAGE_BYTES }
    ensures written { OnOk result (D.contents disk.new ≡ option_map
        (λ bytes. with_gate 0 open_gate (written (place_of 2) second.now
        (written (place_of 1) first.now (written 0 zeroth.now bytes)))) (D.contents disk.old)) }
    ensures only { OnOk result (IfTold (D.contents disk.new) (λ told. (left : List ℕ) → D.image disk.new left
        → left ≡ told)) }
    ensures cause { HasCause (D.count disk.old) (D.count disk.new) result }
    ensures made { MakesCalls 4 2 (D.made disk.old) (D.made disk.new) result }
    ensures order { IfTold (D.contents disk.old) (λ bytes. MakesInOrder D.Disk
        (written (place_of 2) second.now (written (place_of 1) first.now (written 0 zeroth.now bytes)))
        disk.old disk.new) }
{
    disk.write_at(0, zeroth)?;
    disk.write_at(PAGE_BYTES as u64, first)?;
    write_and_sync(disk, 2 * PAGE_BYTES as u64, second)?;
    write_and_sync(disk, gate_place(0), &[OPEN])?;
    Ok(())
}

/// Writes a store without an object and without a root: three pages, of which the first has the header.
fn write_store<D: Disk>(alloc: Global, disk: &mut D) -> Result<Result<Header, DiskFailed>, NoMemory>
    ensures header { IfOk result (λ made. IfOk made (λ header. header ≡ blank_header)) }
    ensures blank { IfOk result (λ made. OnOk made (IfTold (D.contents disk.old) (λ bytes. length bytes ≡ 0
        → D.contents disk.new ≡ Some blank_store))) }
    ensures untold { IfOk result (λ made. OnOk made (D.contents disk.old ≡ None → D.contents disk.new ≡ None)) }
    ensures only { IfOk result (λ made. OnOk made (IfTold (D.contents disk.new) (λ told. (left : List ℕ)
        → D.image disk.new left → left ≡ told))) }
    ensures cause { IfOk result (λ made. HasCause (D.count disk.old) (D.count disk.new) made) }
    ensures made { IfOk result (MakesCalls 4 2 (D.made disk.old) (D.made disk.new)) }
    ensures order { IfOk result (λ _. IfTold (D.contents disk.old) (λ bytes. length bytes ≡ 0
        → MakesInOrder D.Disk shut_store disk.old disk.new)) }
    ensures still { OnErr result (disk.new ≡ disk.old) }
{
    let second = catalog_page(alloc)?;
    let header = header_before(&second);
    let zeroth = header_page(alloc, &header)?;
    let first = padded_page(alloc, &[])?;
    match write_pages(disk, &zeroth, &first, &second) {
        Ok(()) => Ok(Ok(header)),
        Err(DiskFailed) => Ok(Err(DiskFailed)),
    }
}

/// Asks a disk whether it is empty.
pub(crate) fn ask_empty<D: Disk>(disk: &mut D) -> Result<(), InitFault>
    ensures empty { OnOk result (IfTold (D.contents disk.old) (λ bytes. length bytes ≡ 0)) }
    ensures fault { IfErr result (λ fault. IfTold (D.contents disk.old) (λ bytes. IsInitFaultOf bytes fault)) }
    ensures cause { MatchResult result (λ _. D.count disk.new ≡ D.count disk.old)
        (IsInitFault (D.count disk.old) (D.count disk.new)) }
    ensures looks { OnlyLooks D.contents D.image D.moment D.since disk.old disk.new }
    ensures made { D.made disk.new ≡ D.made disk.old }
{
    let before = disk.faults();
    match disk.len() {
        Ok(0) => Ok(()),
        Ok(n) => Err(InitFault::NotEmpty(n)),
        Err(DiskFailed) => {
            let after = disk.faults();
            Err(InitFault::Disk { before, after })
        }
    }
}

/// Makes a store on a disk that holds no byte.
pub(crate) fn make<D: Disk>(alloc: Global, disk: &mut D) -> Result<Header, InitFault>
    requires { IfTold (D.contents disk.old) (λ bytes. length bytes ≡ 0) }
    ensures header { IfOk result (λ header. header ≡ blank_header) }
    ensures blank { OnOk result (D.contents disk.new ≡ option_map (λ _. blank_store) (D.contents disk.old)) }
    ensures only { OnOk result (IfTold (D.contents disk.new) (λ told. (left : List ℕ) → D.image disk.new left
        → left ≡ told)) }
    ensures fault { IfErr result (λ fault. IfTold (D.contents disk.old) (λ bytes. IsInitFaultOf bytes fault)) }
    ensures cause { MatchResult result (λ _. D.count disk.new ≡ D.count disk.old)
        (IsInitFault (D.count disk.old) (D.count disk.new)) }
    ensures made { MakesCalls 4 2 (D.made disk.old) (D.made disk.new) result }
    ensures order { IfTold (D.contents disk.old) (λ _. MakesInOrder D.Disk shut_store disk.old disk.new) }
    ensures still { IfErr result (λ fault. UnlessFailed fault (disk.new ≡ disk.old)) }
{
    let before = disk.faults();
    match write_store(alloc, disk) {
        Ok(Ok(header)) => Ok(header),
        Ok(Err(DiskFailed)) => {
            let after = disk.faults();
            Err(InitFault::Disk { before, after })
        }
        Err(refused) => Err(InitFault::Memory(refused)),
    }
}

/// Makes a store on an empty disk: copy 0, of no object and no root, on three pages of 16,384 bytes. The
/// disk is asked for its length, the three pages are written with the gate of the header closed, and
/// synced, and the gate is opened and synced.
///
/// # Errors
///
/// `NotEmpty` where the disk holds a byte, `Disk` where it failed, and `Memory` before anything is
/// written. In the first case and in the last one nothing was written, and never where the disk holds a byte.
pub fn init<D: Disk>(alloc: Global, disk: &mut D) -> Result<(), InitFault>
    ensures blank { OnOk result (IfTold (D.contents disk.old) (λ bytes. D.contents disk.new ≡ Some blank_store)) }
    ensures empty { OnOk result (IfTold (D.contents disk.old) (λ bytes. length bytes ≡ 0)) }
    ensures only { OnOk result (IfTold (D.contents disk.new) (λ told. (left : List ℕ) → D.image disk.new left
        → left ≡ told)) }
    ensures fault { IfErr result (λ fault. IfTold (D.contents disk.old) (λ bytes. IsInitFaultOf bytes fault)) }
    ensures cause { MatchResult result (λ _. D.count disk.new ≡ D.count disk.old)
        (IsInitFault (D.count disk.old) (D.count disk.new)) }
    // Whatever it answers, a disk that told of some byte is as it was.
    ensures kept { KeepsBytes (D.contents disk.old) (D.contents disk.new) (D.image disk.old) (D.image disk.new) }
    // And a crash at any moment of the call leaves then what it might have left before.
    ensures leaves { IfTold (D.contents disk.old) (λ bytes. 0 < length bytes
        → LeavesOnly D.moment D.since disk.old disk.new (D.image disk.old)) }
    // Four writes are made, and two syncs; the gate is opened only behind the sync of all else.
    ensures made { MakesCalls 4 2 (D.made disk.old) (D.made disk.new) result }
    ensures order { IfTold (D.contents disk.old) (λ bytes. length bytes ≡ 0
        → MakesInOrder D.Disk shut_store disk.old disk.new) }
    ensures still { IfErr result (λ fault. UnlessFailed fault
        ((D.contents disk.new ≡ D.contents disk.old) × SameImages (D.image disk.old) (D.image disk.new))) }
{
    ask_empty(disk)?;
    make(alloc, disk)?;
    Ok(())
}
