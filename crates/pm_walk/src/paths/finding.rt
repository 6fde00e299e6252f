ghost use Rattle.std.specs.Prelude.{◌≡◌, ◌<◌, Some, IfSome, IfNone, IfOk, length, slice_get};
ghost use Rattle.pm_space.specs.Shown.{view};
ghost use Rattle.pm_walk.specs.Walked.{IsSoundWalk, IsPlaceOf};
ghost use Rattle.pm_walk.specs.Paths.Paths.{Path as Says, IsPath, IsShortestPath};
ghost use Rattle.pm_walk.specs.Paths.ReadBack.{IsReadBack, IsAsDeep, IsPathAsDeep};

use crate::paths::laws::a_path_is_one_of_the_graph;
use crate::paths::path::{Path, PathStep};
use crate::{Found, Walk, walk_until};
use pm_space::Space;
use pm_types::{Id, NoMemory};
use std::alloc::Global;

// What was found at a place.
fn found_at(walk: &Walk, place: usize) -> Found
    requires { place < length walk.now.found.items }
    ensures { slice_get walk.now.found.items place ≡ Some result }
{
    walk.found[place]
}

// The steps back from the object that was found at a place, without the first one of its path, and what a name led to
// from which they come.
fn steps_back<F>(
    alloc: Global,
    space: &Space<F>,
    walk: &Walk,
    place: usize,
    id: Id,
) -> Result<(Found, Vec<PathStep>), NoMemory>
    requires sound { IsSoundWalk (view space.now.parts) walk.now }
    requires place { IsPlaceOf walk.now id place }
    ensures back { IfOk result (λ back. IsReadBack (view space.now.parts) walk.now id back.0 back.1.items) }
    ensures deep { IfOk result (λ back. IsAsDeep walk.now.found.items place (length back.1.items)) }
{
    let mut steps = Vec::new(alloc);
    let mut at = place;
    let mut found = found_at(walk, at);
    while let Some(from) = found.from {
        steps.push(PathStep {
            index: found.index,
            id: found.id,
        })?;
        at = from;
        found = found_at(walk, at);
    }
    Ok((found, steps))
}

// The path to the object that was found at a place.
fn path_to<F>(
    alloc: Global,
    space: &Space<F>,
    walk: &Walk,
    place: usize,
    id: Id,
) -> Result<Path, NoMemory>
    requires sound { IsSoundWalk (view space.now.parts) walk.now }
    requires place { IsPlaceOf walk.now id place }
    ensures path { IfOk result (IsPath (view space.now.parts) id) }
    ensures deep { IfOk result (IsPathAsDeep walk.now.found.items place) }
{
    let (first, mut steps) = steps_back(alloc, space, walk, place, id)?;
    steps.push(PathStep {
        index: 0,
        id: first.id,
    })?;
    steps.reverse();
    let (name, _, _) = space.parts.roots.nth(u64::from(first.index));
    Ok(Path::new(name.copy(alloc)?, steps))
}

/// A path through the space to the object of this identity, and none is shorter. `None` exactly where there is none, as
/// where the names do not reach that object. Memory is taken for some 60 bytes an object that is found on the way.
pub fn find_path<F>(alloc: Global, space: &Space<F>, id: Id) -> Result<Option<Path>, NoMemory>
    ensures some { IfOk result (λ found. IfSome found (IsPath (view space.now.parts) id)) }
    ensures shortest { IfOk result (λ found. IfSome found (IsShortestPath (view space.now.parts) id)) }
    ensures none { IfOk result (λ found. IfNone found ((path : Says) → IsPath (view space.now.parts) id path → ⊥)) }
{
    a_path_is_one_of_the_graph();
    let (walk, place) = walk_until(alloc, space, id)?;
    match place {
        Some(place) => {
            let path = path_to(alloc, space, &walk, place, id)?;
            Ok(Some(path))
        }
        None => Ok(None),
    }
}
