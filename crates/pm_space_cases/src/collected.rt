//! Commands that are drawn, with the collector's events between them, beside the plain slow program, which collects
//! nothing.

ghost use Rattle.std.specs.Prelude.{◌<◌, true};
ghost use Rattle.pm_types.specs.declared.limits.TheConstants.{CLIENTS};
ghost use Rattle.pm_place.specs.Choosers.{IsChooser};

use crate::beside::{Beside, ask, new_beside, push_drawn, tell, tell_drawn};
use crate::drawn::{name, next_draw};
use crate::lines::script_of;
use crate::scripted::acts;
use pm_case_text::{Fault, first_word, number, numbered, push_filled, refuse, small};
use pm_reclaim::collect_one;
use pm_script::Line;
use pm_space::Space;
use pm_types::{Cmd, Id, Reg, Step};
use std::alloc::Global;
use std::collections::BTreeSet;

// Registers from this one on are those of the walk.
const WALK: u32 = 10;

// An object of which no path is longer than this is not looked at further.
const DEEP: u32 = 100;

// Asks for the identities and the bytes of what the registers of two clients hold, which changes nothing.
const GLANCE: &str =
    "0 id 0 / 0 data 0 / 0 id 1 / 0 data 1 / 0 id 2 / 0 data 2 / 0 id 3 / 0 data 3 / 1 id 0 / 1 data 0 / 1 id 1 / 1 data 1 / 1 id 2 / 1 data 2 / 1 id 3 / 1 data 3";

// Gives up all that two clients reach.
const GIVE_UP: &str = "0 close / 1 close / 0 unroot a / 0 unroot b / 0 unroot c / 0 unroot d";

// Looks at what a register of the walk holds; whether that is an object that was not seen yet.
fn is_new<F: Fn(&[u64]) -> usize + Drop>(
    space: &mut Space<F>,
    beside: &mut Beside,
    client: u32,
    left: u32,
    seen: &mut BTreeSet<Id>,
) -> Result<bool, Fault>
    requires client { client < CLIENTS }
    requires left { left < 101 }
    requires chooser { IsChooser F.Fn space.old.parts.place }
    ensures { IsChooser F.Fn space.new.parts.place }
{
    let Some(reg) = Reg::new(WALK + DEEP - left) else {
        return Err(refuse("Register"));
    };
    tell(space, beside, client, Cmd::IdOf { reg })?;
    if beside.id == 0 || !seen.insert(beside.id)? {
        return Ok(false);
    }
    beside.seen = beside.seen.saturating_add(1);
    tell(space, beside, client, Cmd::Show { reg })?;
    Ok(true)
}

// Loads a field of what a register of the walk holds into the next one.
fn load<F: Fn(&[u64]) -> usize + Drop>(
    space: &mut Space<F>,
    beside: &mut Beside,
    client: u32,
    left: u32,
    index: u32,
) -> Result<(), Fault>
    requires client { client < CLIENTS }
    requires some { 0 < left }
    requires left { left < 101 }
    requires chooser { IsChooser F.Fn space.old.parts.place }
    ensures { IsChooser F.Fn space.new.parts.place }
{
    let number = WALK + DEEP - left;
    match (Reg::new(number), Reg::new(number + 1)) {
        (Some(reg), Some(to)) => tell(space, beside, client, Cmd::Load { to, reg, index }),
        _ => Err(refuse("Register")),
    }
}

// Empties a register.
fn forget<F: Fn(&[u64]) -> usize + Drop>(
    space: &mut Space<F>,
    beside: &mut Beside,
    client: u32,
    number: u32,
) -> Result<(), Fault>
    requires client { client < CLIENTS }
    requires chooser { IsChooser F.Fn space.old.parts.place }
    ensures { IsChooser F.Fn space.new.parts.place }
{
    match Reg::new(number) {
        Some(reg) => tell(space, beside, client, Cmd::Forget { reg }),
        None => Err(refuse("Register")),
    }
}

// Looks at the object in a register of the walk, and at those behind it that were not seen yet, along paths of at most so
// many objects. Registers behind it are empty then.
fn walk<F: Fn(&[u64]) -> usize + Drop>(
    space: &mut Space<F>,
    beside: &mut Beside,
    client: u32,
    left: u32,
    seen: &mut BTreeSet<Id>,
) -> Result<(), Fault>
    requires client { client < CLIENTS }
    requires left { left < 101 }
    requires chooser { IsChooser F.Fn space.old.parts.place }
    ensures { IsChooser F.Fn space.new.parts.place }
{
    if left == 0 || !is_new(space, beside, client, left, seen)? {
        return Ok(());
    }
    for index in 0..5 {
        load(space, beside, client, left, index)?;
        walk(space, beside, client, left - 1, seen)?;
    }
    forget(space, beside, client, WALK + DEEP - left + 1)
}

// Lets a register hold what a name stands for.
fn find<F: Fn(&[u64]) -> usize + Drop>(
    space: &mut Space<F>,
    beside: &mut Beside,
    client: u32,
    to: Reg,
    number: u32,
) -> Result<(), Fault>
    requires client { client < CLIENTS }
    requires chooser { IsChooser F.Fn space.old.parts.place }
    ensures { IsChooser F.Fn space.new.parts.place }
{
    let name = name(beside.alloc, number)?;
    tell(space, beside, client, Cmd::Find { to, name })
}

// Lets the first register of the walk hold what one of the client's four registers holds, 0 to 3, or what one of the four
// names stands for, 4 to 7.
fn start<F: Fn(&[u64]) -> usize + Drop>(
    space: &mut Space<F>,
    beside: &mut Beside,
    client: u32,
    number: u32,
) -> Result<(), Fault>
    requires client { client < CLIENTS }
    requires chooser { IsChooser F.Fn space.old.parts.place }
    ensures { IsChooser F.Fn space.new.parts.place }
{
    match (Reg::new(WALK), Reg::new(number)) {
        (Some(to), Some(reg)) if number < 4 => tell(space, beside, client, Cmd::Copy { to, reg }),
        (Some(to), _) => find(space, beside, client, to, number),
        _ => Err(refuse("Register")),
    }
}

// Looks at all that a client reaches that was not seen yet: from its four registers, and from the four names.
fn look_behind<F: Fn(&[u64]) -> usize + Drop>(
    space: &mut Space<F>,
    beside: &mut Beside,
    client: u32,
    seen: &mut BTreeSet<Id>,
) -> Result<(), Fault>
    requires client { client < CLIENTS }
    requires chooser { IsChooser F.Fn space.old.parts.place }
    ensures { IsChooser F.Fn space.new.parts.place }
{
    for number in 0..8 {
        start(space, beside, client, number)?;
        walk(space, beside, client, DEEP, seen)?;
    }
    forget(space, beside, client, WALK)
}

// Looks at all that a client reaches.
fn look<F: Fn(&[u64]) -> usize + Drop>(
    space: &mut Space<F>,
    beside: &mut Beside,
    client: u32,
) -> Result<(), Fault>
    requires client { client < CLIENTS }
    requires chooser { IsChooser F.Fn space.old.parts.place }
    ensures { IsChooser F.Fn space.new.parts.place }
{
    let mut seen = BTreeSet::new(beside.alloc);
    look_behind(space, beside, client, &mut seen)
}

// Gives the command of a line to both.
fn tell_line<F: Fn(&[u64]) -> usize + Drop>(
    space: &mut Space<F>,
    beside: &mut Beside,
    line: &Line,
) -> Result<(), Fault>
    requires { IsChooser F.Fn space.old.parts.place }
    ensures { IsChooser F.Fn space.new.parts.place }
{
    match line {
        Line::Client { client, cmd } if *client < 8 && acts(cmd) => {
            ask(space, beside, *client, cmd)
        }
        _ => Err(refuse("Step")),
    }
}

/// Gives the commands of lines to both.
pub(crate) fn tell_lines<F: Fn(&[u64]) -> usize + Drop>(
    space: &mut Space<F>,
    beside: &mut Beside,
    lines: &[Line],
) -> Result<(), Fault>
    requires { IsChooser F.Fn space.old.parts.place }
    ensures { IsChooser F.Fn space.new.parts.place }
{
    for line in lines {
        tell_line(space, beside, line)?;
    }
    Ok(())
}

// Counts an event.
fn note(beside: &mut Beside, step: Step) {
    if step != Step::Nothing {
        beside.events = beside.events.saturating_add(1);
    }
    if matches!(step, Step::Moved { .. }) {
        beside.moved = beside.moved.saturating_add(1);
    }
}

// Makes so many events, and gives lines to both after each.
fn make_events<F: Fn(&[u64]) -> usize + Drop>(
    space: &mut Space<F>,
    beside: &mut Beside,
    count: u64,
    lines: &[Line],
) -> Result<(), Fault>
    requires { IsChooser F.Fn space.old.parts.place }
    ensures { IsChooser F.Fn space.new.parts.place }
{
    for _ in 0..count {
        note(beside, collect_one(space, beside.alloc)?);
        tell_lines(space, beside, lines)?;
    }
    Ok(())
}

// What is drawn: how many commands, how many events after each, and the size of what is born.
#[derive(Clone, Copy)]
struct Plan {
    commands: u64,
    events: u64,
    size: u32,
}

// Gives the command of a draw, makes the events after it, glances at the registers after each, and looks at all that is
// reached after the last. A look changes registers, so that the collector would not come on if it followed each event.
fn turn<F: Fn(&[u64]) -> usize + Drop>(
    space: &mut Space<F>,
    beside: &mut Beside,
    plan: Plan,
    draw: u32,
    glance: &[Line],
) -> Result<(), Fault>
    requires { IsChooser F.Fn space.old.parts.place }
    ensures { IsChooser F.Fn space.new.parts.place }
{
    tell_drawn(space, beside, draw, plan.size)?;
    make_events(space, beside, plan.events, glance)?;
    look(space, beside, 0)?;
    look(space, beside, 1)
}

// Draws the commands.
fn run<F: Fn(&[u64]) -> usize + Drop>(
    space: &mut Space<F>,
    beside: &mut Beside,
    plan: Plan,
    glance: &[Line],
) -> Result<(), Fault>
    requires { IsChooser F.Fn space.old.parts.place }
    ensures { IsChooser F.Fn space.new.parts.place }
{
    let mut draw = 1;
    for _ in 0..plan.commands {
        draw = next_draw(draw);
        turn(space, beside, plan, draw, glance)?;
    }
    Ok(())
}

// Draws the commands, and looks at what two clients reach on the way.
fn run_plan<F: Fn(&[u64]) -> usize + Drop>(
    space: &mut Space<F>,
    beside: &mut Beside,
    plan: Plan,
) -> Result<(), Fault>
    requires { IsChooser F.Fn space.old.parts.place }
    ensures { IsChooser F.Fn space.new.parts.place }
{
    let glance = script_of(beside.alloc, GLANCE)?;
    run(space, beside, plan, glance.as_slice())
}

// Gives the commands of lines between ` / ` to both.
fn tell_text<F: Fn(&[u64]) -> usize + Drop>(
    space: &mut Space<F>,
    beside: &mut Beside,
    text: &str,
) -> Result<(), Fault>
    requires { IsChooser F.Fn space.old.parts.place }
    ensures { IsChooser F.Fn space.new.parts.place }
{
    let lines = script_of(beside.alloc, text)?;
    tell_lines(space, beside, lines.as_slice())
}

// Adds what was counted.
fn push_tally(plan: Plan, beside: &Beside, standing: u64, out: &mut String) -> Result<(), Fault> {
    push_filled(
        "other replies %, standing at the end %\n",
        &[beside.other, standing],
        out,
    )?;
    if beside.seen >= plan.commands && beside.events >= plan.commands && beside.moved > 0 {
        return Ok(());
    }
    push_filled(
        "too little happened: Tally { other: %, seen: %, events: %, moved: % }\n",
        &[beside.other, beside.seen, beside.events, beside.moved],
        out,
    )
}

// Gives up all that two clients reach, and makes 20,000 events more.
fn give_up<F: Fn(&[u64]) -> usize + Drop>(
    space: &mut Space<F>,
    beside: &mut Beside,
) -> Result<(), Fault>
    requires { IsChooser F.Fn space.old.parts.place }
{
    tell_text(space, beside, GIVE_UP)?;
    make_events(space, beside, 20_000, &[])
}

// Runs the plan, gives all up, and adds what that gave.
fn push_plan<F: Fn(&[u64]) -> usize + Drop>(
    space: &mut Space<F>,
    beside: &mut Beside,
    plan: Plan,
    out: &mut String,
) -> Result<(), Fault>
    requires { IsChooser F.Fn space.old.parts.place }
{
    run_plan(space, beside, plan)?;
    give_up(space, beside)?;
    push_tally(plan, beside, space.standing(), out)
}

// `N E SIZE`.
fn plan_of(text: &str) -> Result<Plan, Fault> {
    let (commands, rest) = numbered(text)?;
    let (events, last) = first_word(rest);
    match (number(events), small(last)) {
        (Ok(events), Ok(size)) => Ok(Plan {
            commands,
            events,
            size,
        }),
        (Err(fault), _) | (_, Err(fault)) => Err(fault),
    }
}

// A step of what is drawn.
fn push_either<F: Fn(&[u64]) -> usize + Drop>(
    space: &mut Space<F>,
    beside: &mut Beside,
    step: &str,
    text: &str,
    out: &mut String,
) -> Result<(), Fault>
    requires { IsChooser F.Fn space.old.parts.place }
{
    if step == "drawn" {
        return push_drawn(space, beside, text, out);
    }
    match plan_of(text) {
        Ok(plan) => push_plan(space, beside, plan, out),
        Err(fault) => Err(fault),
    }
}

/// `drawn` is told how many commands are drawn. `collected` is told `N E SIZE`: N commands that are drawn, over a new space
/// and beside the plain slow program, of objects of up to three times SIZE bytes, and after each of them E events, after
/// each of which the registers of the two clients are looked at, and after the last all that they reach; then all is given
/// up, and 20,000 events are made. It adds how many replies were others than the plain slow program's, and how many objects
/// stand at the end.
pub(crate) fn push_beside<F: Fn(&[u64]) -> usize + Drop>(
    space: &mut Space<F>,
    alloc: Global,
    step: &str,
    text: &str,
    out: &mut String,
) -> Result<(), Fault>
    requires { IsChooser F.Fn space.old.parts.place }
{
    let mut beside = new_beside(alloc);
    push_either(space, &mut beside, step, text, out)
}
