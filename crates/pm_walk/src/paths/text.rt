ghost use Rattle.std.specs.Prelude.{◌≡◌, ◌++◌, IfOk, OnOk};
ghost use Rattle.std.specs.List.{flat_map};
ghost use Rattle.pm_walk.specs.Paths.PathText.{RootLine, path_line_text, step_line, path_text_of};

use crate::paths::path::{Path, PathStep};
use crate::{append, append_number, append_word};
use pm_types::{Id, Name, NoMemory};
use std::alloc::Global;

// Appends the line of a name.
fn append_root(out: &mut Vec<u8>, name: &Name, id: Id) -> Result<(), NoMemory>
    ensures { OnOk result (out.new.items ≡ out.old.items ++ path_line_text (RootLine name.now id)) }
{
    append(out, b"root")?;
    append_word(out, name.as_slice())?;
    append_number(out, u64::from(id))?;
    append(out, b"\n")
}

// Appends the line of a step.
fn append_step(out: &mut Vec<u8>, step: PathStep) -> Result<(), NoMemory>
    ensures { OnOk result (out.new.items ≡ out.old.items ++ path_line_text (step_line step)) }
{
    append(out, b"field")?;
    append_number(out, u64::from(step.index))?;
    append_number(out, u64::from(step.id))?;
    append(out, b"\n")
}

// Appends the lines of steps.
fn append_steps(out: &mut Vec<u8>, steps: &[PathStep]) -> Result<(), NoMemory>
    ensures { OnOk result (out.new.items
        ≡ out.old.items ++ flat_map (λ step. path_line_text (step_line step)) steps.now) }
{
    for step in steps {
        append_step(out, *step)?;
    }
    Ok(())
}

/// The text of a path: a line with the name and the identity of its object, and a line with the index and the identity
/// of each further step, each line with its newline. It is empty where the path has no step.
pub fn path_text(alloc: Global, path: &Path) -> Result<Vec<u8>, NoMemory>
    ensures { IfOk result (λ text. text.items ≡ path_text_of path.now) }
{
    let mut out = Vec::new(alloc);
    let Some((first, rest)) = path.steps().split_first() else {
        return Ok(out);
    };
    append_root(&mut out, path.name(), first.id)?;
    append_steps(&mut out, rest)?;
    Ok(out)
}
