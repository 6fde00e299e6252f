//! The roots that a copy lists.

ghost use Rattle.std.specs.Prelude.{◌≡◌, ℕ, List, map, IfOk};
ghost use Rattle.std.specs.List.{AllByRecursion};
ghost use Rattle.std.specs.FinMap.{entries};
ghost use Rattle.pm_types.specs.Names.{IsName};
ghost use Rattle.pm_types.specs.declared.address.Addr.{Addr};
ghost use Rattle.pm_copies.specs.Opened.{unnumbered};

use pm_roots::Roots;
use pm_types::{Addr, Name, NoMemory};
use std::alloc::Global;

/// The roots, each a name with its address, in ascending order of their names.
pub(crate) fn copy_roots(alloc: Global, roots: &Roots) -> Result<Vec<(Name, Addr)>, NoMemory>
    ensures roots { IfOk result (λ copied. copied.items ≡ map unnumbered (entries roots.now)) }
    ensures names { IfOk result (λ copied. AllByRecursion (λ (root : List ℕ × Addr). IsName root.0) copied.items) }
{
    let mut copied = Vec::with_capacity(alloc, roots.len() as usize)?;
    for place in 0..roots.len() {
        let (name, _, at) = roots.nth(place);
        let name = name.copy(alloc)?;
        // For the proof alone: the bytes of a name are a name.
        let _bytes = name.as_slice();
        copied.push((name, at))?;
    }
    Ok(copied)
}
