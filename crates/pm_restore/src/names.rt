//! The names of a dump as the roots of a copy.
ghost use Rattle.std.specs.Prelude.{◌≡◌, map, IfOk};
ghost use Rattle.std.specs.List.{AllByRecursion};
ghost use Rattle.pm_dump.specs.declared.parts.DumpRoot.{DumpRoot};
ghost use Rattle.pm_dump.specs.Sound.{IsListed, IsSoundDump};
ghost use Rattle.pm_restore.specs.Packing.Packing.{address_of};
ghost use Rattle.pm_restore.specs.Firsts.{firsts_of};

use crate::Placing;
use pm_dump::{Dump, DumpRoot};
use pm_types::{Addr, Name, NoMemory};
use std::alloc::Global;

/// The names, each with the address of its object.
pub(crate) fn named(
    alloc: Global,
    dump: &Dump,
    placing: &Placing,
    roots: &[DumpRoot],
) -> Result<Vec<(Name, Addr)>, NoMemory>
    requires sound { IsSoundDump dump.now }
    requires placed { placing.now ≡ firsts_of dump.now.objects }
    requires listed { AllByRecursion (λ (root : DumpRoot). IsListed dump.now.objects root.id) roots.now }
    ensures { IfOk result (λ names. names.items
        ≡ map (λ (root : DumpRoot). (root.name, address_of dump.now.objects root.id)) roots.now) }
{
    let mut names = Vec::with_capacity(alloc, roots.len())?;
    for root in roots {
        let name = root.name.copy(alloc)?;
        names.push((name, placing.address_of(dump, root.id)))?;
    }
    Ok(names)
}
