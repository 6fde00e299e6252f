ghost use Rattle.std.specs.Prelude.{◌≡◌, ◌+◌, ◌-◌, ◌^◌, ◌<◌, ◌≤◌, ℕ, true, List, Option, Some, length, take, drop, option_map, IfOk, OnOk, OnErr};
ghost use Rattle.std.specs.Fd.{file_raw_fd};
ghost use Rattle.pm_disk.specs.Images.{IsBytes};
ghost use Rattle.pm_disk.specs.Writes.{written, TornIfTold};
ghost use Rattle.pm_disk.specs.Disk.{IfTold, SameImages, OnlyTorn, AllTorn};
ghost use Rattle.pm_file.specs.Calls.{Ticks, SameEach, past_after};
ghost use Rattle.pm_file.specs.Standing.{Standing, with_lock, with_whole, untold_standing};
ghost use Rattle.pm_file.specs.Untold.{untold, not_told};

use std::fs::{File, OpenFile};
use std::io;
use std::os::fd::{AsRawFd, IntoRawFd};
use std::os::unix::fs::FileExt;

/// What a store asks of an open file. A file may tell what it holds, and then these clauses say what each call does; the
/// real one tells nothing. Only a file that was locked is measured, read, written or synced.
pub trait StoreFile: AsRawFd + IntoRawFd + Drop {
    /// The bytes that a read answers, where they are told.
    ghost contents: { Self → Option (List ℕ) };

    /// What a crash at this moment may leave.
    ghost image: { Self → List ℕ → Type 0 };

    /// What a crash now, or before one of the last so many calls, may have left.
    ghost since: { Self → ℕ → List ℕ → Type 0 };

    /// How many reads past the end of what the file told were made, whatever they answered.
    ghost past: { Self → ℕ };

    /// Its descriptor, and what was had of it since it was opened.
    ghost standing: { Self → Standing };

    /// Takes the file for this opening alone, until it is closed. It fails at once, and waits for
    /// nothing, where another opening has it, and where the file cannot be locked.
    fn claim(&mut self) -> io::Result<()>
        ensures locked { OnOk result (standing self.new ≡ with_lock (standing self.old)) }
        ensures contents { contents self.new ≡ contents self.old }
        ensures images { SameImages (image self.old) (image self.new) }
        ensures since { SameEach (since self.old) (since self.new) }
        ensures past { past self.new ≡ past self.old };

    /// The length in bytes.
    fn measure(&mut self) -> io::Result<u64>
        requires { (standing self.old).locked ≡ true }
        ensures len { IfOk result (λ n. IfTold (contents self.old) (λ bytes. n ≡ length bytes)) }
        ensures contents { contents self.new ≡ contents self.old }
        ensures images { SameImages (image self.old) (image self.new) }
        ensures time { Ticks (since self.old) (since self.new) (image self.new) }
        ensures past { past self.new ≡ past self.old }
        ensures stands { standing self.new ≡ standing self.old };

    /// Fills `into` with the bytes from place `at` on. A read past the end fails.
    fn read_from(&mut self, at: u64, into: &mut [u8]) -> io::Result<()>
        requires { (standing self.old).locked ≡ true }
        ensures within { OnOk result (IfTold (contents self.old) (λ bytes. at + length into.old ≤ length bytes)) }
        ensures read { OnOk result (IfTold (contents self.old)
            (λ bytes. into.new ≡ take (length into.old) (drop at bytes))) }
        ensures contents { contents self.new ≡ contents self.old }
        ensures images { SameImages (image self.old) (image self.new) }
        ensures time { Ticks (since self.old) (since self.new) (image self.new) }
        ensures past { past self.new ≡ past_after (contents self.old) at (length into.old) (past self.old) }
        ensures stands { standing self.new ≡ standing self.old };

    /// Writes the bytes from place `at` on, and past the end; a gap before `at` reads as 0.
    fn write_over(&mut self, at: u64, from: &[u8]) -> io::Result<()>
        requires locked { (standing self.old).locked ≡ true }
        requires end { at + length from.now ≤ 2 ^ 63 - 1 }
        ensures written { OnOk result (contents self.new ≡ option_map (written at from.now) (contents self.old)) }
        ensures torn { OnErr result (TornIfTold at (length from.now) (contents self.old) (contents self.new)) }
        ensures only_torn { OnlyTorn at (length from.now) (image self.old) (image self.new) }
        ensures all_torn { OnOk result (AllTorn at (length from.now) (image self.old) (image self.new)) }
        ensures none_lost { (bytes : List ℕ) → image self.old bytes → image self.new bytes }
        ensures time { Ticks (since self.old) (since self.new) (image self.new) }
        ensures past { past self.new ≡ past self.old }
        ensures stands { standing self.new ≡ standing self.old };

    /// Syncs all that the file has. If a crash does not lose its name, it leaves after Ok what a read answers, until the
    /// next write.
    fn sync_whole(&mut self) -> io::Result<()>
        requires { (standing self.old).locked ≡ true }
        ensures contents { contents self.new ≡ contents self.old }
        ensures only { OnOk result ((standing self.old).named ≡ true → IfTold (contents self.old)
            (λ bytes. (left : List ℕ) → image self.new left → left ≡ bytes)) }
        ensures no_more { (bytes : List ℕ) → image self.new bytes → image self.old bytes }
        ensures failed { OnErr result (SameImages (image self.old) (image self.new)) }
        ensures time { Ticks (since self.old) (since self.new) (image self.new) }
        ensures past { past self.new ≡ past self.old }
        ensures stands { OnOk result (standing self.new ≡ with_whole (standing self.old)) }
        ensures stays { OnErr result (standing self.new ≡ standing self.old) };

    /// Syncs the bytes and the length. It is asked for once all that the file has was synced.
    fn sync_bytes(&mut self) -> io::Result<()>
        requires locked { (standing self.old).locked ≡ true }
        requires whole { (standing self.old).whole ≡ true }
        ensures contents { contents self.new ≡ contents self.old }
        ensures only { OnOk result ((standing self.old).named ≡ true → IfTold (contents self.old)
            (λ bytes. (left : List ℕ) → image self.new left → left ≡ bytes)) }
        ensures no_more { (bytes : List ℕ) → image self.new bytes → image self.old bytes }
        ensures failed { OnErr result (SameImages (image self.old) (image self.new)) }
        ensures time { Ticks (since self.old) (since self.new) (image self.new) }
        ensures past { past self.new ≡ past self.old }
        ensures stands { standing self.new ≡ standing self.old };

    /// This moment is one of those since any call.
    ghost counts_now: { (file : Self) (calls : ℕ) (bytes : List ℕ) → image file bytes → since file calls bytes };

    /// Since no call there is no other.
    ghost only_now: { (file : Self) (bytes : List ℕ) → since file 0 bytes → image file bytes };

    /// The moments since fewer calls are among those since more.
    ghost earlier: { (file : Self) (more fewer : ℕ) (bytes : List ℕ) → fewer ≤ more → since file fewer bytes
        → since file more bytes };

    /// A crash may leave what a read answers.
    ghost contents_stay: { (file : Self) (bytes : List ℕ) → contents file ≡ Some bytes → image file bytes };

    /// A crash leaves bytes.
    ghost leaves_bytes: { (file : Self) (calls : ℕ) (bytes : List ℕ) → since file calls bytes → IsBytes bytes };
}

impl StoreFile for File {
    ghost contents = { λ _. untold };

    ghost image = { λ _. IsBytes };

    ghost since = { λ _ _. IsBytes };

    ghost past = { λ _. 0 };

    ghost standing = { λ file. untold_standing (Some (file_raw_fd file)) };

    ghost counts_now = { λ file calls bytes is. is };

    ghost only_now = { λ file bytes is. is };

    ghost earlier = { λ file more fewer bytes le is. is };

    ghost contents_stay = { λ file bytes told. not_told bytes told };

    ghost leaves_bytes = { λ file calls bytes is. is };

    fn claim(&mut self) -> io::Result<()> {
        Ok(self.try_lock()?)
    }

    fn measure(&mut self) -> io::Result<u64> {
        Ok(self.metadata()?.len())
    }

    fn read_from(&mut self, at: u64, into: &mut [u8]) -> io::Result<()> {
        self.read_exact_at(into, at)
    }

    fn write_over(&mut self, at: u64, from: &[u8]) -> io::Result<()> {
        self.write_all_at(from, at)
    }

    fn sync_whole(&mut self) -> io::Result<()> {
        self.sync_all()
    }

    fn sync_bytes(&mut self) -> io::Result<()> {
        self.sync_data()
    }
}
