ghost use Rattle.std.specs.Prelude.{◌≡◌, ◌<◌, ◌≤◌, ◌⊎◌, Some, length, map, slice_get, IfOk, IfErr, Ok, Err};
ghost use Rattle.pm_types.specs.declared.limits.TheConstants.{SOURCE_BYTES};
ghost use Rattle.pm_dump.specs.declared.fault.DumpFault.{DumpFault as Fault};
ghost use Rattle.pm_dump.specs.declared.fault.DumpFault.TheVariants as dump_fault;
ghost use Rattle.pm_dump.specs.Dump.{Dump as Says};
ghost use Rattle.pm_dump.specs.Spelled.{Spells};
ghost use Rattle.pm_dump.specs.Sound.{IsSoundDump};
ghost use Rattle.pm_dump.specs.Answers.{IsDumpFault, Answers};
ghost use Rattle.pm_dump.specs.Read.{dump_in, root_shown, AreKept};
ghost use Rattle.pm_dump.specs.Lent.{object_shown};
ghost use Rattle.pm_types.specs.Memory.{no_memory};

use crate::dangling::first_dangling;
use crate::fault::{DumpCause, DumpFault};
use crate::lent::{DumpObject, object_at};
use crate::parts::{DumpRoot, Parts};
use crate::read::read_lines;
use std::alloc::Global;
use std::marker::Model;

/// A dump: the next identity, objects in ascending order of their identities, and names in ascending order. Each
/// identity is below the next one, each object and the number of names are within their limits, and each field that is
/// not null and each name stands for a listed object. It is made by `read_dump` alone.
#[derive(Debug, Drop)]
pub struct Dump {
    parts: Parts,
}

impl Model for Dump {
    ghost use Rattle.pm_dump.specs.Dump.{Dump as Says};

    ghost Value = { Says };

    ghost use Rattle.pm_dump.specs.Read.{dump_in, AreKept};
    ghost use Rattle.pm_dump.specs.Sound.{IsSoundDump};

    ghost view = { λ dump. dump_in dump.parts };

    ghost invariant = { λ dump. AreKept dump.parts × IsSoundDump (dump_in dump.parts) };
}

impl Dump {
    /// The identity that the next object gets, 1 to 4,294,967,296.
    pub fn next(&self) -> u64
        ensures { result ≡ self.now.next }
    {
        self.parts.next
    }

    /// How many objects there are.
    #[tactic(auto, using(crate::proofs::Strays::as_many))]
    pub fn object_count(&self) -> usize
        ensures { result ≡ length self.now.objects }
    {
        self.parts.places.len()
    }

    /// The object at this place, lent, counted from 0 in ascending order of the identities.
    pub fn object(&self, at: usize) -> DumpObject<'_>
        requires { at < length self.now.objects }
        ensures { slice_get self.now.objects at ≡ Some (object_shown result) }
    {
        object_at(&self.parts, at)
    }

    /// The names with their identities, ascending, lent: at most 4,096.
    pub fn roots(&self) -> &[DumpRoot]
        ensures { map root_shown result.now ≡ self.now.roots }
    {
        self.parts.roots.as_slice()
    }
}

// Reads the parts of a dump.
fn read_parts(alloc: Global, bytes: &[u8]) -> Result<Parts, DumpFault>
    requires { length bytes.now ≤ SOURCE_BYTES }
    ensures kept { IfOk result AreKept }
    ensures spelled { IfOk result (λ parts. Spells bytes.now (dump_in parts)) }
    ensures sound { IfOk result (λ parts. IsSoundDump (dump_in parts)) }
    ensures bad { IfErr result (λ fault. (fault ≡ dump_fault.Memory no_memory) ⊎ IsDumpFault fault bytes.now) }
{
    let mut parts = Parts::new(alloc);
    match read_lines(alloc, &mut parts, bytes) {
        Ok(()) => match first_dangling(&parts) {
            Some(number) => Err(DumpFault::Line {
                number,
                cause: DumpCause::Dangling,
            }),
            None => Ok(parts),
        },
        Err(fault) => Err(fault),
    }
}

/// The dump that the bytes spell. There are at most 268,435,456 bytes. `Line` tells the first line that is bad in its
/// form, its order or its limits, with its first such cause, or else the first that dangles; want of memory may come at
/// any time.
pub fn read_dump(alloc: Global, bytes: &[u8]) -> Result<Dump, DumpFault>
    requires { length bytes.now ≤ SOURCE_BYTES }
    // What is read is what the bytes spell, and it keeps what a dump keeps.
    ensures found { IfOk result (λ dump. Spells bytes.now dump) }
    ensures sound { IfOk result IsSoundDump }
    // What they spell is read, unless memory runs out.
    ensures only { (dump : Says) → Spells bytes.now dump → IsSoundDump dump → Answers result (Ok dump) }
    // A fault is the one that the bytes have, but that memory may run out at any time.
    ensures bad { IfErr result (λ fault. (fault ≡ dump_fault.Memory no_memory) ⊎ IsDumpFault fault bytes.now) }
    // The one that they have is told, unless memory runs out.
    ensures told { (fault : Fault) → IsDumpFault fault bytes.now → Answers result (Err fault) }
{
    match read_parts(alloc, bytes) {
        Ok(parts) => Ok(Dump { parts }),
        Err(fault) => Err(fault),
    }
}
