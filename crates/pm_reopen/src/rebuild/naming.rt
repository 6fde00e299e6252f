//! Binding the roots of a space.

ghost use Rattle.std.specs.Prelude.{◌≡◌, ◌+◌, ◌<◌, ◌≤◌, length, IfOk, OnOk};
ghost use Rattle.std.specs.FinMap.{insert, from_entries, len};
ghost use Rattle.pm_types.specs.declared.limits.TheConstants.{ROOTS};
ghost use Rattle.pm_reopen.specs.Rebuild.Lists.{NamesDiffer};
ghost use Rattle.pm_reopen.specs.Rebuild.Naming.{addresses};

use crate::rebuild::RootList;
use pm_roots::{BindFault, Roots};
use pm_types::{Addr, Name, NoMemory};
use std::alloc::Global;

// Binds a name, where one more can be bound.
fn bind_root(roots: &mut Roots, name: Name, at: Addr) -> Result<(), NoMemory>
    requires few { len roots.old < ROOTS }
    ensures bound { OnOk result (addresses roots.new ≡ insert (addresses roots.old) name at) }
    ensures one { OnOk result (len roots.new ≤ len roots.old + 1) }
{
    match roots.bind(name, at) {
        Ok(_) => Ok(()),
        Err(BindFault::TooMany) => unreachable!(),
        Err(BindFault::Memory(refused)) => Err(refused),
    }
}

/// These names, each bound to its address.
pub(crate) fn bind_roots(alloc: Global, list: RootList) -> Result<Roots, NoMemory>
    requires differ { NamesDiffer list }
    requires few { length list ≤ ROOTS }
    ensures { IfOk result (λ roots. addresses roots ≡ from_entries list) }
{
    let mut roots = Roots::new(alloc);
    for (name, at) in list.into_vec() {
        bind_root(&mut roots, name, at)?;
    }
    Ok(roots)
}
