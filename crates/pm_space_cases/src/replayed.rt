//! Objects that come in late, beside the plain slow program, which gets them by commands.

ghost use Rattle.std.specs.Prelude.{true};
ghost use Rattle.pm_place.specs.Choosers.{IsChooser};

use crate::beside::{Beside, new_beside};
use crate::collected::tell_lines;
use crate::lines::script_of;
use crate::scripted::{Shows, new_course, run_text};
use pm_case_text::{Fault, push_filled, refuse};
use pm_script::Line;
use pm_space::Space;
use pm_types::CLIENTS;
use std::alloc::Global;

// Gives a command to the plain slow program alone.
fn answer(beside: &mut Beside, line: &Line) -> Result<(), Fault> {
    match line {
        Line::Client { client, cmd } if *client < CLIENTS => {
            beside.oracle.answer(beside.alloc, *client, cmd)?;
            Ok(())
        }
        _ => Err(refuse("Step")),
    }
}

// Gives the commands of lines between ` / ` to the plain slow program alone.
fn answer_text(beside: &mut Beside, text: &str) -> Result<(), Fault> {
    let lines = script_of(beside.alloc, text)?;
    for line in lines.as_slice() {
        answer(beside, line)?;
    }
    Ok(())
}

// Gives the commands of lines between ` / ` to both, and adds how many were answered alike.
fn compare_text<F: Fn(&[u64]) -> usize + Drop>(
    space: &mut Space<F>,
    beside: &mut Beside,
    text: &str,
    out: &mut String,
) -> Result<(), Fault>
    requires { IsChooser F.Fn space.old.parts.place }
{
    let lines = script_of(beside.alloc, text)?;
    tell_lines(space, beside, lines.as_slice())?;
    let asked = lines.as_slice().len() as u64;
    push_filled(
        "alike % of %, refused %, standing %\n",
        &[
            asked.saturating_sub(beside.other),
            asked,
            beside.refused,
            space.standing(),
        ],
        out,
    )
}

// The three parts of the step.
fn three_parts(text: &str) -> Option<(&str, &str, &str)> {
    let (late, rest) = text.split_once(" : ")?;
    let (commands, lines) = rest.split_once(" : ")?;
    Some((late, commands, lines))
}

/// `LINES : COMMANDS : COMMANDS`: the lines, as those of `script`, over a new space; the first commands to the plain slow
/// program alone, by which it has the same graph; and the last commands to both: how many are answered alike, how many are
/// refused or meet a null field, and how many objects stand then.
pub(crate) fn push_late<F: Fn(&[u64]) -> usize + Drop>(
    space: &mut Space<F>,
    alloc: Global,
    text: &str,
    out: &mut String,
) -> Result<(), Fault>
    requires { IsChooser F.Fn space.old.parts.place }
{
    let Some((late, commands, lines)) = three_parts(text) else {
        return Err(refuse("Step"));
    };
    let mut beside = new_beside(alloc);
    run_text(space, alloc, late, &mut new_course(alloc, Shows::End), out)?;
    answer_text(&mut beside, commands)?;
    compare_text(space, &mut beside, lines, out)
}
