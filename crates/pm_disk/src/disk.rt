ghost use Rattle.std.specs.Prelude.{◌≡◌, ◌+◌, ◌-◌, ◌^◌, ◌<◌, ◌≤◌, ℕ, List, Option, Some, length, take, drop, option_map, IfOk, OnOk, OnErr};
ghost use Rattle.pm_disk.specs.Images.{IsBytes};
ghost use Rattle.pm_disk.specs.Writes.{written, TornIfTold};
ghost use Rattle.pm_disk.specs.Made.{Made, with_sync, with_write, with_read};
ghost use Rattle.pm_disk.specs.Disk.{IfTold, SameImages, OnlyTorn, AllTorn, Elapses, HasCause};

use std::error::Error;
use std::fmt;

/// A call of a disk failed, and the disk has counted it.
#[derive(Clone, Copy, Debug, PartialEq, Eq)]
pub struct DiskFailed;

impl fmt::Display for DiskFailed {
    fn fmt<W: fmt::Write>(&self, f: &mut fmt::Formatter<W>) -> fmt::Result {
        write!(f, "disk fault")
    }
}

impl Error for DiskFailed {}

/// Bytes from place 0 on, of which a crash may leave others than a read answers until they are synced.
pub trait Disk {
    /// The bytes that a read answers, where they are told.
    ghost contents: { Self → Option (List ℕ) };

    /// What a crash at this moment may leave.
    ghost image: { Self → List ℕ → Type 0 };

    /// The clock, which each call advances.
    ghost moment: { Self → ℕ };

    /// What a crash at some moment from that one on may have left, within a call or between two.
    ghost since: { Self → ℕ → List ℕ → Type 0 };

    /// How many calls have failed. At 2^64 - 1 it stays, and has risen all the same.
    ghost count: { Self → ℕ };

    /// How many syncs, writes and reads past the end of what the disk told were made, whatever they answered, and the
    /// moment of the last sync.
    ghost made: { Self → Made };

    /// The count of failed calls.
    fn faults(&self) -> u64
        ensures { result ≡ count self.now };

    /// The length in bytes.
    fn len(&mut self) -> Result<u64, DiskFailed>
        ensures len { IfOk result (λ n. IfTold (contents self.old) (λ bytes. n ≡ length bytes)) }
        ensures contents { contents self.new ≡ contents self.old }
        ensures images { SameImages (image self.old) (image self.new) }
        ensures time { Elapses (moment self.old) (moment self.new) (since self.old) (since self.new) (image self.new) }
        ensures cause { HasCause (count self.old) (count self.new) result }
        ensures made { made self.new ≡ made self.old };

    /// Fills `into` with the bytes from place `at` on. A read past the end is a failure, after which
    /// `into` may hold any bytes.
    fn read_at(&mut self, at: u64, into: &mut [u8]) -> Result<(), DiskFailed>
        ensures within { OnOk result (IfTold (contents self.old) (λ bytes. at + length into.old ≤ length bytes)) }
        ensures read { OnOk result (IfTold (contents self.old)
            (λ bytes. into.new ≡ take (length into.old) (drop at bytes))) }
        ensures contents { contents self.new ≡ contents self.old }
        ensures images { SameImages (image self.old) (image self.new) }
        ensures time { Elapses (moment self.old) (moment self.new) (since self.old) (since self.new) (image self.new) }
        ensures cause { HasCause (count self.old) (count self.new) result }
        ensures made { made self.new ≡ with_read (contents self.old) at (length into.old) (made self.old) };

    /// Writes over the bytes from place `at` on, and past the end; a gap before `at` reads as 0. A
    /// write of no bytes changes nothing. Until the next successful sync a crash may leave any bytes in
    /// the range and past the old end, also where the write failed.
    fn write_at(&mut self, at: u64, from: &[u8]) -> Result<(), DiskFailed>
        requires { at + length from.now ≤ 2 ^ 63 - 1 }
        ensures written { OnOk result (contents self.new ≡ option_map (written at from.now) (contents self.old)) }
        ensures torn { OnErr result (TornIfTold at (length from.now) (contents self.old) (contents self.new)) }
        ensures only_torn { OnlyTorn at (length from.now) (image self.old) (image self.new) }
        ensures all_torn { OnOk result (AllTorn at (length from.now) (image self.old) (image self.new)) }
        ensures none_lost { (bytes : List ℕ) → image self.old bytes → image self.new bytes }
        ensures time { Elapses (moment self.old) (moment self.new) (since self.old) (since self.new) (image self.new) }
        ensures cause { HasCause (count self.old) (count self.new) result }
        ensures made { made self.new ≡ with_write (made self.old) };

    /// After Ok a crash leaves what a read answers, until the next write.
    fn sync(&mut self) -> Result<(), DiskFailed>
        ensures contents { contents self.new ≡ contents self.old }
        ensures only { OnOk result (IfTold (contents self.old) (λ bytes. (left : List ℕ) → image self.new left
            → left ≡ bytes)) }
        ensures no_more { (bytes : List ℕ) → image self.new bytes → image self.old bytes }
        ensures failed { OnErr result (SameImages (image self.old) (image self.new)) }
        ensures time { Elapses (moment self.old) (moment self.new) (since self.old) (since self.new) (image self.new) }
        ensures cause { HasCause (count self.old) (count self.new) result }
        ensures made { made self.new ≡ with_sync (moment self.old) (made self.old) };

    /// This moment is one of those since an earlier one.
    ghost counts_now: { (disk : Self) (t : ℕ) (bytes : List ℕ) → t ≤ moment disk → image disk bytes → since disk t bytes };

    /// Since this moment there is no other.
    ghost only_now: { (disk : Self) (bytes : List ℕ) → since disk (moment disk) bytes → image disk bytes };

    /// The moments since a later one are among those since an earlier one.
    ghost earlier: { (disk : Self) (s t : ℕ) (bytes : List ℕ) → s ≤ t → since disk t bytes → since disk s bytes };

    /// A crash may leave what a read answers.
    ghost contents_stay: { (disk : Self) (bytes : List ℕ) → contents disk ≡ Some bytes → image disk bytes };

    /// A crash leaves bytes.
    ghost leaves_bytes: { (disk : Self) (t : ℕ) (bytes : List ℕ) → since disk t bytes → IsBytes bytes };
}
