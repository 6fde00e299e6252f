//! The pages of a store, of which a copy uses some, and the next copy others.
ghost use Rattle.std.specs.Prelude.{◌≡◌, ◌+◌, ◌*◌, ◌-◌, ◌^◌, ◌<◌, ◌≤◌, ℕ, List, [], Some, false, length};
ghost use Rattle.pm_layout.specs.Headers.{HasHeaderSpelling};
ghost use Rattle.pm_shadow.specs.Uses.{use_of};
ghost use Rattle.pm_shadow.specs.Images.{IsSoundState};

use crate::PageUse;
use crate::attaching::Found;
use crate::looking::find;
use crate::making::{ask_empty, make};
use crate::runs::{write_and_sync, write_one_by_one};
use crate::slots::{CLOSED, OPEN, body_of, gate_place};
use crate::table::{FIRST_PAGE, Table};
use pm_disk::{Disk, DiskFailed};
use pm_layout::Header;
use pm_types::{InitFault, NoMemory, OpenFault, PAGE_BYTES};
use std::alloc::Global;

/// The pages of a store on a disk. Its current copy stands on some of them, which are never written; the
/// next copy is written on others, and becomes current by one byte.
#[derive(Drop)]
pub struct Pages<D: Disk> {
    disk: D,
    /// Where the current header stands: page 0 or 1.
    slot: u64,
    header: Header,
    /// How many pages there were when the header became current, or was found.
    settled: u64,
    /// How many pages there are.
    count: u64,
    /// The pages of the current copy are those of the table.
    known: bool,
    table: Table,
    /// The gate of the other slot is closed, whatever a crash leaves.
    closed: bool,
    /// A publish has failed: a crash may leave either copy.
    failed: bool,
    ghost is_slot: { slot < 2 },
    ghost few: { count < 2 ^ 50 },
    ghost spelled: { HasHeaderSpelling header },
    ghost within: { settled ≤ count },
    // pages come only once those of the current copy are known
    ghost begun: { known ≡ false → settled ≡ count },
    // where the pages of the current copy are not known, no page is used
    ghost unused: { known ≡ false → use_of table.uses.items ≡ use_of [] },
    ghost sound: { failed ≡ false → (bytes : List ℕ) → D.contents disk ≡ Some bytes
        → IsSoundState (record { slot = slot; header = header; settled = settled; count = count; known = known; uses = use_of table.uses.items; closed = closed; failed = failed }) bytes (D.image disk) },
}

impl<D: Disk> Pages<D> {
    ghost use Rattle.std.specs.Prelude.{◌≡◌, ◌⊎◌, ◌+◌, ◌*◌, ◌-◌, ◌^◌, ◌<◌, ◌≤◌, ℕ, List, All, Contains, Some, true, false, [], ◌∷◌, length, option_map, not, Ok, MatchResult, IsOk, IfOk, IfErr, OnOk, OnErr};
    ghost use Rattle.pm_disk.specs.Writes.{written, TornIfTold};
    ghost use Rattle.pm_disk.specs.Made.{MakesCalls, with_sync, with_write};
    ghost use Rattle.pm_disk.specs.Disk.{IfTold, SameImages, LeavesOnly, HasCause};
    ghost use Rattle.pm_layout.specs.Headers.{HasHeaderSpelling};
    ghost use Rattle.pm_image.specs.Opening.{current, page_count, page_of, gate_place, open_gate};
    ghost use Rattle.pm_image.specs.Graphs.{Graph};
    ghost use Rattle.pm_shadow.specs.Uses.{IsLowestFree, UsesOnlyListed};
    ghost use Rattle.pm_shadow.specs.State.{other, attached, new_store, IsListable, IsKeepable, IsWritable, IsPublishable, known_by, with_claimed, with_kept, abandoned_in, with_page, with_closed, with_failed, published};
    ghost use Rattle.pm_shadow.specs.Copies.{AreUsed, KeepsGraph};
    ghost use Rattle.pm_shadow.specs.Images.{IsSoundState, Holds, Renews, WritesPage, place_of, shutting, with_header, with_gate};
    ghost use Rattle.pm_shadow.specs.Runs.{OnlyLooks};
    ghost use Rattle.pm_shadow.specs.Attaching.{IsFaultOf, IsAttachFault, IsFoundIn, HasFound};
    ghost use Rattle.pm_shadow.specs.Pages.{state, disk_of, disk_left};
    ghost use Rattle.pm_shadow.specs.Init.{IsInitFault, IsInitFaultOf, KeepsBytes, MakesInOrder, UnlessFailed, shut_store};
    ghost use Rattle.pm_shadow.specs.Tables.{uses_in};
    ghost use Rattle.pm_image.specs.Blank.{blank_header, blank_store};

    /// Finds the current header of a store. The disk is synced first, and nothing is written. The pages of
    /// the current copy are not known then, and none is claimed. It takes no memory.
    ///
    /// # Errors
    ///
    /// `NotAStore`, `Version`, `Damaged` and `Malformed` by the first rule of a header that fails, and
    /// `Disk` where the disk failed. The disk is handed back.
    pub fn attach(alloc: Global, disk: D) -> Result<Pages<D>, (D, OpenFault)>
        ensures found { IfOk result (λ it. IfTold (D.contents disk) (HasFound (state it))) }
        ensures state { IfOk result (λ it. state it ≡ attached (state it).slot (state it).header (state it).count
            (state it).closed) }
        // The header is one that can be spelled, whether the disk tells its contents or not.
        ensures spelled { IfOk result (λ it. HasHeaderSpelling (state it).header) }
        ensures only { IfOk result (λ it. IfTold (D.contents disk) (λ bytes.
            (left : List ℕ) → D.image (disk_of it) left → left ≡ bytes)) }
        ensures count { IfOk result (λ it. D.count (disk_of it) ≡ D.count disk) }
        ensures fault { IfErr result (λ e. IfTold (D.contents disk) (λ bytes. IsFaultOf bytes e.1)) }
        ensures cause { IfErr result (λ e. IsAttachFault (D.count disk) (D.count e.0) e.1) }
        ensures told { MatchResult result (λ it. D.contents (disk_of it) ≡ D.contents disk)
            (λ e. D.contents e.0 ≡ D.contents disk) }
        ensures leaves { MatchResult result (λ it. LeavesOnly D.moment D.since disk (disk_of it) (D.image disk))
            (λ e. LeavesOnly D.moment D.since disk e.0 (D.image disk)) }
        // One sync was made, before any other call, no write, and no read past the end of what the disk told.
        ensures made { MatchResult result (λ it. D.made (disk_of it) ≡ with_sync (D.moment disk) (D.made disk))
            (λ e. D.made e.0 ≡ with_sync (D.moment disk) (D.made disk)) }
    {
        let mut disk = disk;
        match find(&mut disk) {
            Ok(found) => Ok(Pages::found(alloc, disk, found)),
            Err(fault) => Err((disk, fault)),
        }
    }

    /// The pages of a store whose current header was found on a disk that is synced.
    fn found(alloc: Global, disk: D, found: Found) -> Pages<D>
        requires slot { found.slot < 2 }
        requires count { found.count < 2 ^ 50 }
        requires spelled { HasHeaderSpelling found.header }
        requires sound { (bytes : List ℕ) → D.contents disk ≡ Some bytes → IsFoundIn bytes (D.image disk) found }
        ensures disk { disk_of result ≡ disk }
        ensures state { state result ≡ attached found.slot found.header found.count found.closed }
    {
        Pages {
            disk,
            slot: found.slot,
            header: found.header,
            settled: found.count,
            count: found.count,
            known: false,
            table: Table::new(alloc),
            closed: found.closed,
            failed: false,
        }
    }

    /// Makes a store on an empty disk as `init` does, and answers its pages, of which none is read. Its current copy
    /// is copy 0, of no object and no root: its header is on page 0, its catalog on page 2, the pages of the copy are
    /// known, and the gate of the other slot is closed. All memory is taken before the first write.
    ///
    /// # Errors
    ///
    /// Those of `init`, in the same order: `NotEmpty` where the disk holds a byte, `Memory` before anything is
    /// written, and `Disk` where the disk failed. The disk is handed back.
    pub fn make(alloc: Global, disk: D) -> Result<Pages<D>, (D, InitFault)>
        ensures state { IfOk result (λ it. state it ≡ new_store) }
        // Where the disk tells, it holds the new store now, and a crash leaves nothing else.
        ensures blank { IfOk result (λ it. D.contents (disk_of it) ≡ option_map (λ _. blank_store) (D.contents disk)) }
        ensures only { IfOk result (λ it. IfTold (D.contents (disk_of it)) (λ told.
            (left : List ℕ) → D.image (disk_of it) left → left ≡ told)) }
        // A store is made only on an empty disk, and the faults are those of `init`.
        ensures fault { IfTold (D.contents disk)
            (λ bytes. MatchResult result (λ _. length bytes ≡ 0) (λ e. IsInitFaultOf bytes e.1)) }
        ensures cause { MatchResult result (λ it. D.count (disk_of it) ≡ D.count disk)
            (λ e. IsInitFault (D.count disk) (D.count e.0) e.1) }
        ensures kept { KeepsBytes (D.contents disk) (D.contents (disk_left result)) (D.image disk)
            (D.image (disk_left result)) }
        ensures leaves { IfTold (D.contents disk) (λ bytes. 0 < length bytes
            → LeavesOnly D.moment D.since disk (disk_left result) (D.image disk)) }
        ensures made { MakesCalls 4 2 (D.made disk) (D.made (disk_left result)) result }
        ensures order { IfTold (D.contents disk) (λ bytes. length bytes ≡ 0
            → MakesInOrder D.Disk shut_store disk (disk_left result)) }
        ensures still { IfErr result (λ e. UnlessFailed e.1
            ((D.contents e.0 ≡ D.contents disk) × SameImages (D.image disk) (D.image e.0))) }
    {
        let mut disk = disk;
        if let Err(fault) = ask_empty(&mut disk) {
            return Err((disk, fault));
        }
        let table = match Table::listing(alloc, &[FIRST_PAGE]) {
            Ok(table) => table,
            Err(refused) => return Err((disk, InitFault::Memory(refused))),
        };
        match make(alloc, &mut disk) {
            Ok(header) => Ok(Pages::fresh(disk, header, table)),
            Err(fault) => Err((disk, fault)),
        }
    }

    /// The pages of a store that was just made.
    fn fresh(disk: D, header: Header, table: Table) -> Pages<D>
        requires header { header ≡ blank_header }
        requires table { UsesOnlyListed (2 ∷ []) (uses_in table) }
        requires blank { (bytes : List ℕ) → D.contents disk ≡ Some bytes → bytes ≡ blank_store }
        requires only { (bytes left : List ℕ) → D.contents disk ≡ Some bytes → D.image disk left → left ≡ bytes }
        ensures disk { disk_of result ≡ disk }
        ensures state { state result ≡ new_store }
    {
        Pages {
            disk,
            slot: 0,
            header,
            settled: 3,
            count: 3,
            known: true,
            table,
            closed: true,
            failed: false,
        }
    }

    /// The disk.
    pub fn into_disk(self) -> D
        ensures { result ≡ disk_of self }
    {
        self.disk
    }

    /// The disk's count of failed calls.
    pub fn faults(&self) -> u64
        ensures { result ≡ D.count (disk_of self.now) }
    {
        self.disk.faults()
    }

    /// The page on which the current header stands: 0 or 1.
    pub fn slot(&self) -> u64
        ensures { result ≡ (state self.now).slot }
    {
        self.slot
    }

    /// The current header.
    pub fn header(&self) -> &Header
        ensures { result.now ≡ (state self.now).header }
    {
        &self.header
    }

    /// How many whole pages of 16,384 bytes the store has.
    pub fn page_count(&self) -> u64
        ensures { result ≡ (state self.now).count }
    {
        self.count
    }

    /// Whether the pages of the current copy are known.
    pub fn is_known(&self) -> bool
        ensures { result ≡ (state self.now).known }
    {
        self.known
    }

    /// Lists the pages that the current copy uses, which are known from then on. They are exactly these: those of
    /// its catalog and of its cars, in any order, and no other. Before, they are not known; each is a page of the
    /// store from page 2 on, and the first page of the catalog is among them.
    pub fn commit_list(&mut self, alloc: Global, pages: &[u64]) -> Result<(), NoMemory>
        requires unknown { (state self.old).known ≡ false }
        requires there { All (IsListable (state self.old)) pages.now }
        requires first { Contains pages.now (state self.old).header.first }
        requires used { IfTold (D.contents (disk_of self.old)) (λ bytes. AreUsed (state self.old) bytes pages.now) }
        ensures listed { OnOk result (UsesOnlyListed pages.now (state self.new).uses) }
        // The graph of the current copy stands on the pages that are its own now, and on no others.
        ensures keeps { OnOk result (IfTold (D.contents (disk_of self.old)) (λ bytes.
            (graph : Graph) × KeepsGraph (state self.new) bytes graph)) }
        ensures state { OnOk result (state self.new ≡ known_by (state self.old) (state self.new).uses) }
        ensures state_err { OnErr result (state self.new ≡ state self.old) }
        ensures still { disk_of self.new ≡ disk_of self.old }
    {
        let table = Table::listing(alloc, pages)?;
        self.table = table;
        self.known = true;
        Ok(())
    }

    /// Claims the lowest page from page 2 on that the current copy does not use and that is not claimed.
    pub fn claim(&mut self) -> Result<u64, NoMemory>
        requires { (state self.old).known ≡ true }
        ensures lowest { IfOk result (IsLowestFree (state self.old).uses) }
        ensures state { IfOk result (λ page. state self.new ≡ with_claimed (state self.old) page) }
        ensures state_err { OnErr result (state self.new ≡ state self.old) }
        ensures still { disk_of self.new ≡ disk_of self.old }
    {
        let page = self.table.claim()?;
        Ok(page)
    }

    /// Keeps a page of the current copy for the next one too: it is not written, and is a page of that copy once its
    /// header is published. A page may be kept more than once. It takes no memory, and is always Ok.
    pub fn keep(&mut self, page: u64) -> Result<(), NoMemory>
        requires { IsKeepable (state self.old) page }
        ensures ok { IsOk result }
        ensures state { state self.new ≡ with_kept (state self.old) page }
        ensures still { disk_of self.new ≡ disk_of self.old }
    {
        self.table.keep(page);
        Ok(())
    }

    /// Gives the next copy up: nothing is claimed or kept any more. The claimed pages are free, and the kept ones are
    /// those of the current copy alone. It takes no memory, and no call of the disk is made.
    pub fn abandon(&mut self)
        ensures state { state self.new ≡ abandoned_in (state self.old) }
        ensures still { disk_of self.new ≡ disk_of self.old }
    {
        self.table.abandon();
    }

    /// Fills `into` with the bytes of a page.
    pub fn read_page(&mut self, page: u64, into: &mut [u8]) -> Result<(), DiskFailed>
        requires page { page < (state self.old).count }
        requires len { length into.old ≡ PAGE_BYTES }
        ensures read { OnOk result (IfTold (D.contents (disk_of self.old)) (λ bytes. into.new ≡ page_of bytes page)) }
        ensures state { state self.new ≡ state self.old }
        ensures looks { OnlyLooks D.contents D.image D.moment D.since (disk_of self.old) (disk_of self.new) }
        // It is no read past the end of what the disk told.
        ensures made { (state self.old).failed ≡ false → D.made (disk_of self.new) ≡ D.made (disk_of self.old) }
        ensures cause { HasCause (D.count (disk_of self.old)) (D.count (disk_of self.new)) result }
    {
        self.disk.read_at(PAGE_BYTES as u64 * page, into)
    }

    /// Writes a page that was claimed.
    pub fn write_page(&mut self, page: u64, bytes: &[u8]) -> Result<(), DiskFailed>
        requires { IsWritable (state self.old) page bytes.now }
        ensures written { OnOk result (D.contents (disk_of self.new) ≡ option_map (written (place_of page) bytes.now)
            (D.contents (disk_of self.old))) }
        // The page reads so, and every other page stays.
        ensures pages { OnOk result ((was now : List ℕ) → D.contents (disk_of self.old) ≡ Some was
            → D.contents (disk_of self.new) ≡ Some now → WritesPage page bytes.now was now) }
        ensures torn { OnErr result (TornIfTold (place_of page) PAGE_BYTES (D.contents (disk_of self.old))
            (D.contents (disk_of self.new))) }
        ensures state { OnOk result (state self.new ≡ with_page (state self.old) page) }
        ensures state_err { OnErr result (state self.new ≡ state self.old) }
        // A crash at any moment of the call leaves the current header and its pages.
        ensures leaves { IfTold (D.contents (disk_of self.old))
            (λ told. LeavesOnly D.moment D.since (disk_of self.old) (disk_of self.new) (Holds (state self.old) told)) }
        ensures cause { HasCause (D.count (disk_of self.old)) (D.count (disk_of self.new)) result }
        ensures made { D.made (disk_of self.new) ≡ with_write (D.made (disk_of self.old)) }
    {
        self.disk.write_at(PAGE_BYTES as u64 * page, bytes)?;
        self.count = self.count.max(page + 1);
        Ok(())
    }

    /// A law of the pages between calls: while no publish has failed, whatever a crash leaves has the current header and
    /// the current copy's pages, as they stand on the disk.
    pub fn keep_the_current_copy(&self)
        ensures { (state self.now).failed ≡ false
            → IfTold (D.contents (disk_of self.now)) (λ bytes. IsSoundState (state self.now) bytes
            (D.image (disk_of self.now))) }
    {}

    /// A law of the pages at any time: the current header is one that can be spelled, and no page went since it became
    /// current; until the pages of its copy are known, none has come either.
    pub fn keep_their_header(&self)
        ensures spelled { HasHeaderSpelling (state self.now).header }
        ensures within { (state self.now).settled ≤ (state self.now).count }
        ensures begun { (state self.now).known ≡ false → (state self.now).settled ≡ (state self.now).count }
    {}

    /// Closes the gate of the slot that the next header goes to. Where it is closed already no call of
    /// the disk is made.
    pub fn close_gate(&mut self) -> Result<(), DiskFailed>
        requires { (state self.old).failed ≡ false }
        ensures state { OnOk result (state self.new ≡ with_closed (state self.old)) }
        ensures state_err { OnErr result (state self.new ≡ state self.old) }
        ensures still { (state self.old).closed ≡ true → disk_of self.new ≡ disk_of self.old }
        ensures written { OnOk result ((state self.old).closed ≡ false
            → D.contents (disk_of self.new) ≡ option_map (with_gate (other (state self.old).slot) 0)
            (D.contents (disk_of self.old))) }
        ensures only { OnOk result ((state self.old).closed ≡ false
            → IfTold (D.contents (disk_of self.new)) (λ told. (left : List ℕ) → D.image (disk_of self.new) left
            → left ≡ told)) }
        ensures torn { OnErr result (TornIfTold (gate_place (other (state self.old).slot)) 1
            (D.contents (disk_of self.old)) (D.contents (disk_of self.new))) }
        ensures leaves { IfTold (D.contents (disk_of self.old))
            (λ told. LeavesOnly D.moment D.since (disk_of self.old) (disk_of self.new) (Holds (state self.old) told)) }
        ensures cause { HasCause (D.count (disk_of self.old)) (D.count (disk_of self.new)) result }
        // Where it is open one write and one sync are made, and none where it is closed.
        ensures made { MakesCalls (shutting (state self.old)) (shutting (state self.old)) (D.made (disk_of self.old))
            (D.made (disk_of self.new)) result }
    {
        if self.closed {
            return Ok(());
        }
        write_and_sync(&mut self.disk, gate_place(1 - self.slot), &[CLOSED])?;
        self.closed = true;
        Ok(())
    }

    /// Makes this header the current one: its body is written into the other slot and synced, and then
    /// that slot's gate alone, and synced. The pages that were claimed or kept are the current copy's then, and all
    /// others are free.
    pub fn publish(&mut self, header: &Header) -> Result<(), DiskFailed>
        requires { IsPublishable (state self.old) header.now }
        ensures state { OnOk result (state self.new ≡ published (state self.old) header.now) }
        ensures state_err { OnErr result (state self.new ≡ with_failed (state self.old)) }
        ensures written { OnOk result (D.contents (disk_of self.new) ≡ option_map
            (λ told. with_gate (other (state self.old).slot) open_gate
            (with_header (other (state self.old).slot) header.now told)) (D.contents (disk_of self.old))) }
        ensures only { OnOk result (IfTold (D.contents (disk_of self.new)) (λ told. (left : List ℕ)
            → D.image (disk_of self.new) left → left ≡ told)) }
        ensures renews { OnOk result (IfTold (D.contents (disk_of self.old))
            (λ told. IfTold (D.contents (disk_of self.new)) (Renews (state self.old) header.now told))) }
        // Where it fails the contents are told still, and no page but that of the other slot is another.
        ensures torn { OnErr result (TornIfTold (place_of (other (state self.old).slot)) PAGE_BYTES
            (D.contents (disk_of self.old)) (D.contents (disk_of self.new))) }
        // A crash at any moment of the call leaves the one header with its pages or the other.
        ensures leaves { IfTold (D.contents (disk_of self.old))
            (λ told. LeavesOnly D.moment D.since (disk_of self.old) (disk_of self.new)
            (λ image. Holds (state self.old) told image ⊎ Renews (state self.old) header.now told image)) }
        ensures cause { HasCause (D.count (disk_of self.old)) (D.count (disk_of self.new)) result }
        // Two writes are made, and two syncs.
        ensures made { MakesCalls 2 2 (D.made (disk_of self.old)) (D.made (disk_of self.new)) result }
    {
        let slot = 1 - self.slot;
        self.failed = true;
        write_one_by_one(
            &mut self.disk,
            PAGE_BYTES as u64 * slot,
            &body_of(header),
            gate_place(slot),
            &[OPEN],
        )?;
        self.slot = slot;
        self.header = *header;
        self.settled = self.count;
        self.known = true;
        self.table.renew();
        self.closed = false;
        self.failed = false;
        Ok(())
    }
}
