//! What makes a text of a space.
ghost use Rattle.std.specs.Prelude.{◌≡◌, codes, IfOk};
ghost use Rattle.pm_space.specs.Shown.{view};
ghost use Rattle.pm_inspect.specs.Tell.Told.{Telling, Reports, Dumps, GivesPath};

use crate::report;
use pm_space::Space;
use pm_types::{Id, NoMemory};
use pm_walk::dump_text;
use pm_walk::paths::{a_path_is_one_of_the_graph, check_path, find_path, path_text};
use std::alloc::Global;

/// What makes a text of a space.
pub trait Teller {
    /// What the text is, by what is seen of the space and by the number of its last settled copy.
    ghost says: { Self → Telling };

    /// The text of a space whose last settled copy has this number.
    fn tell<F>(&self, alloc: Global, space: &Space<F>, epoch: u32) -> Result<Vec<u8>, NoMemory>
        ensures { IfOk result (λ text. says self.now (view space.now.parts) epoch text.items) };
}

/// The report: a line for the store, each train and each car, and one for all together.
#[derive(Clone, Copy, Debug)]
pub struct ReportText;

impl Teller for ReportText {
    ghost says = { λ self. Reports };

    fn tell<F>(&self, alloc: Global, space: &Space<F>, epoch: u32) -> Result<Vec<u8>, NoMemory> {
        report(alloc, space, epoch)
    }
}

/// The dump of the copy: its next identity, its objects and its names.
#[derive(Clone, Copy, Debug)]
pub struct DumpText;

impl Teller for DumpText {
    ghost says = { λ self. Dumps };

    fn tell<F>(&self, alloc: Global, space: &Space<F>, _epoch: u32) -> Result<Vec<u8>, NoMemory> {
        dump_text(alloc, space)
    }
}

/// Why an object is kept: a shortest path from a name to it, one that was checked, or `none` where there is none.
#[derive(Clone, Copy, Debug)]
pub struct WhyText {
    /// The object's identity.
    pub id: Id,
}

// The text that says that there is no path.
fn none_text(alloc: Global) -> Result<Vec<u8>, NoMemory>
    ensures { IfOk result (λ text. text.items ≡ codes "none\n") }
{
    Ok(b"none\n".to_vec(alloc)?)
}

// The text of a shortest path to the object of this identity, or `none`.
fn path_or_none<F>(alloc: Global, space: &Space<F>, id: Id) -> Result<Vec<u8>, NoMemory>
    ensures { IfOk result (λ text. GivesPath id (view space.now.parts) 0 text.items) }
{
    a_path_is_one_of_the_graph();
    let found = find_path(alloc, space, id)?;
    match found {
        Some(path) => {
            if !check_path(space, id, &path) {
                unreachable!();
            }
            let text = path_text(alloc, &path)?;
            Ok(text)
        }
        None => {
            let text = none_text(alloc)?;
            Ok(text)
        }
    }
}

impl Teller for WhyText {
    ghost says = { λ self. GivesPath self.id };

    fn tell<F>(&self, alloc: Global, space: &Space<F>, _epoch: u32) -> Result<Vec<u8>, NoMemory> {
        path_or_none(alloc, space, self.id)
    }
}
