ghost use Rattle.std.specs.Prelude.{◌≡◌, OnOk, IfOk};
ghost use Rattle.std.specs.FinMap.{len, get};
ghost use Rattle.pm_model.specs.World.{empty_copy};
ghost use Rattle.pm_model.specs.Copying.{copied, reached};
ghost use Rattle.pm_model.specs.Keeping.{looked_at};

use crate::objects::Objects;
use crate::roots::Roots;
use pm_types::{Id, NoMemory};
use std::alloc::Global;
use std::marker::Model;

/// Objects, names and the next identity, seen as a copy: what a checkpoint keeps.
#[derive(Drop)]
pub struct Graph {
    objects: Objects,
    roots: Roots,
    // The next identity.
    next: u64,
}

impl Model for Graph {
    ghost use Rattle.pm_model.specs.World.{Copy, copy_code};

    ghost Value = { Copy };

    ghost coded = { copy_code };

    ghost view = { λ it. record { heap = it.objects; roots = it.roots; next = it.next } };
}

impl Graph {
    /// These parts, as one value.
    pub fn new(objects: Objects, roots: Roots, next: u64) -> Graph
        ensures objects { result.heap ≡ objects }
        ensures roots { result.roots ≡ roots }
        ensures next { result.next ≡ next }
    {
        Graph {
            objects,
            roots,
            next,
        }
    }

    /// The copy of nothing.
    pub fn empty(alloc: Global) -> Graph
        ensures { result ≡ empty_copy }
    {
        Graph {
            objects: Objects::new(alloc),
            roots: Roots::new(alloc),
            next: 1,
        }
    }

    /// What a checkpoint keeps of these objects, names and next identity: the names, and the objects
    /// that they reach. It looks at each object that is reached once, and copies no other.
    pub fn copied(
        alloc: Global,
        objects: &Objects,
        roots: &Roots,
        next: u64,
    ) -> Result<Graph, NoMemory>
        ensures { IfOk result (λ graph. graph ≡ copied objects.now roots.now next) }
    {
        let reached = reach(alloc, objects, roots.ids(alloc)?)?;
        let roots = roots.copy(alloc)?;
        Ok(Graph {
            objects: reached,
            roots,
            next,
        })
    }

    /// The objects, the names and the next identity, given back.
    pub fn into_parts(self) -> (Objects, Roots, u64)
        ensures objects { result.0 ≡ self.heap }
        ensures roots { result.1 ≡ self.roots }
        ensures next { result.2 ≡ self.next }
    {
        let Graph {
            objects,
            roots,
            next,
        } = self;
        (objects, roots, next)
    }

    /// The objects, lent.
    pub fn objects(&self) -> &Objects
        ensures { result.now ≡ self.now.heap }
    {
        &self.objects
    }

    /// The names, lent.
    pub fn roots(&self) -> &Roots
        ensures { result.now ≡ self.now.roots }
    {
        &self.roots
    }

    /// The next identity.
    pub fn next(&self) -> u64
        ensures { result ≡ self.now.next }
    {
        self.next
    }
}

// The objects that are reached from the identities: those are looked at that are still pending, and of
// each object that was not kept before, those that it holds are pending from then on.
fn reach(alloc: Global, objects: &Objects, mut pending: Vec<Id>) -> Result<Objects, NoMemory>
    ensures { IfOk result (λ kept. kept ≡ reached (len objects.now) objects.now pending.items) }
{
    let mut kept = Objects::new(alloc);
    while let Some(id) = pending.pop() {
        keep(alloc, objects, id, &mut kept, &mut pending)?;
    }
    Ok(kept)
}

// Looks at an identity: an object that is there and was not kept is kept, and what it holds is pending.
fn keep(
    alloc: Global,
    objects: &Objects,
    id: Id,
    kept: &mut Objects,
    pending: &mut Vec<Id>,
) -> Result<(), NoMemory>
    ensures { OnOk result ((kept.new, pending.new.items) ≡ looked_at (get kept.old id)
        (get objects.now id) id kept.old pending.old.items) }
{
    if kept.get(id).is_some() {
        return Ok(());
    }
    let Some(node) = objects.get(id) else {
        return Ok(());
    };
    node.push_held(pending)?;
    kept.insert(id, node.copy(alloc)?)
}
