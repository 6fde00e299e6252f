//! The roots that a catalog lists, with their addresses followed.

ghost use Rattle.std.specs.Prelude.{◌≡◌, ◌++◌, map, IfOk, OnOk};
ghost use Rattle.pm_copies.specs.Accepted.{root_in, roots_in};
ghost use Rattle.pm_reopen.specs.Listing.{followed_root};

use crate::rebuild::RootList;
use pm_graphs::{Leads, resolve};
use pm_image::CatEntry;
use pm_types::{Addr, Name, NoMemory};
use std::alloc::Global;

// Lists the root that an entry lists, if it lists one, with where its address leads.
fn open_root(
    alloc: Global,
    leads: &Leads,
    roots: &mut Vec<(Name, Addr)>,
    entry: &CatEntry,
) -> Result<(), NoMemory>
    ensures { OnOk result (roots.new.items ≡ roots.old.items ++ map (followed_root leads.now) (root_in entry.now)) }
{
    let CatEntry::Root { name, at } = entry else {
        return Ok(());
    };
    roots.push((name.copy(alloc)?, resolve(leads, *at)))?;
    Ok(())
}

/// The roots that entries list, each with where its address leads.
pub(crate) fn open_roots(
    alloc: Global,
    leads: &Leads,
    entries: &[CatEntry],
) -> Result<RootList, NoMemory>
    ensures { IfOk result (λ roots. roots ≡ map (followed_root leads.now) (roots_in entries.now)) }
{
    let mut roots = Vec::new(alloc);
    for entry in entries {
        open_root(alloc, leads, &mut roots, entry)?;
    }
    Ok(RootList::from_vec(roots))
}
