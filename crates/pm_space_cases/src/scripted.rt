//! Lines of a script over a space in memory, with the collector's events among them.

ghost use Rattle.std.specs.Prelude.{◌≡◌, ◌<◌};
ghost use Rattle.pm_types.specs.declared.limits.TheConstants.{CLIENTS};
ghost use Rattle.pm_place.specs.Choosers.{IsChooser};
ghost use Rattle.pm_view.specs.Commands.{is_act};

use crate::late::{Late, carry_late, late_of};
use crate::lines::script_of;
use crate::paths::{Found, push_found};
use crate::spaced::push_open;
use crate::told::push_texts;
use pm_case_text::{
    Fault, first_word, push_filled, push_text, push_value_line, push_words, refuse, small,
};
use pm_mutate::act;
use pm_next::{Row, next_row};
use pm_reclaim::{
    apply_one, collect_one, decide, finish_car, fix_one, free_car, move_one, select, sweep_one,
};
use pm_script::{Line, reply_text};
use pm_space::Space;
use pm_types::{Cmd, Entry, Id, NoMemory, Reply, Step};
use pm_walk::dump_text;
use std::alloc::Global;

/// What is shown of a script that runs, or of commands that are drawn.
#[derive(Clone, Copy)]
pub(crate) enum Shows {
    /// The replies, the events, and the numbers at the end.
    All,
    /// As `All`, and each event is made by the call for its kind.
    Kinds,
    /// The replies and the numbers at the end.
    Replies,
    /// The numbers at the end.
    End,
    /// The last reply.
    Last,
    /// What the open train is at the end.
    Open,
    /// The text of the dump at the end.
    Dump,
    /// What is told of registers and of names at the end.
    Texts,
    /// A path to an identity at the end.
    Why,
    /// What commands that are drawn came to.
    Draws,
    /// What commands behind late objects came to.
    Late,
}

// Whether the events are shown.
fn with_events(shows: Shows) -> bool {
    matches!(shows, Shows::All | Shows::Kinds)
}

// Whether the replies are shown.
fn with_replies(shows: Shows) -> bool {
    matches!(shows, Shows::All | Shows::Kinds | Shows::Replies)
}

/// What the lines so far came to.
#[derive(Drop)]
pub(crate) struct Course {
    shows: Shows,
    // How many events there were, and which of them was the last that did something.
    count: u64,
    last: u64,
    // The event that is not yet shown, and how many times it came.
    step: Step,
    times: u64,
    // The line of the last reply.
    reply: String,
    // The identity of the object that came in last.
    late: Id,
    /// How many commands were refused, or met a null field.
    pub(crate) refused: u64,
}

/// Where no line was carried out yet.
pub(crate) fn new_course(alloc: Global, shows: Shows) -> Course {
    Course {
        shows,
        count: 0,
        last: 0,
        step: Step::Nothing,
        times: 0,
        reply: String::new(alloc),
        late: 0,
        refused: 0,
    }
}

/// Whether the space itself answers the command.
pub(crate) fn acts(cmd: &Cmd) -> bool
    ensures { result ≡ is_act cmd.now }
{
    !matches!(cmd, Cmd::Save | Cmd::Settle | Cmd::Unsave | Cmd::Watch)
}

/// Whether a command was refused, or met a null field.
pub(crate) fn is_refused(reply: &Reply) -> bool {
    !matches!(reply, Reply::Done | Reply::Ident(_) | Reply::Shown(_))
}

// Shows the events that are not yet shown.
fn show(course: &mut Course, out: &mut String) -> Result<(), Fault> {
    let times = course.times;
    course.times = 0;
    if times == 0 {
        return Ok(());
    }
    if times > 1 {
        push_filled("% times ", &[times], out)?;
    }
    push_value_line(&course.step, out)
}

// Lets an event wait to be shown, and shows those before it where they were others.
fn hold(course: &mut Course, step: Step, out: &mut String) -> Result<(), Fault> {
    if step != course.step {
        show(course, out)?;
        course.step = step;
    }
    course.times = course.times.saturating_add(1);
    Ok(())
}

// Takes note of an event.
fn note(course: &mut Course, step: Step, out: &mut String) -> Result<(), Fault> {
    course.count = course.count.saturating_add(1);
    if step != Step::Nothing {
        course.last = course.count;
    }
    if with_events(course.shows) {
        hold(course, step, out)
    } else {
        Ok(())
    }
}

// Makes the next event by the call for its kind.
fn collect_by_kind<F: Fn(&[u64]) -> usize + Drop>(
    space: &mut Space<F>,
    alloc: Global,
) -> Result<Step, NoMemory>
    requires { IsChooser F.Fn space.old.parts.place }
    ensures { IsChooser F.Fn space.new.parts.place }
{
    match next_row(space) {
        Row::Nothing => collect_one(space, alloc),
        Row::Select { .. } => select(space, alloc),
        Row::Apply { .. } => apply_one(space),
        Row::Doom { .. } | Row::Start { .. } => decide(space, alloc),
        Row::Fix { .. } => fix_one(space),
        Row::MoveAnchor { .. } | Row::MoveOut { .. } | Row::MoveOn { .. } => move_one(space, alloc),
        Row::Finish { .. } => Ok(finish_car(space)),
        Row::Sweep { .. } => sweep_one(space, alloc),
        Row::Free { .. } | Row::FreeDoomed { .. } => free_car(space),
    }
}

// Makes the next event.
fn make_event<F: Fn(&[u64]) -> usize + Drop>(
    space: &mut Space<F>,
    alloc: Global,
    shows: Shows,
) -> Result<Step, NoMemory>
    requires { IsChooser F.Fn space.old.parts.place }
    ensures { IsChooser F.Fn space.new.parts.place }
{
    match shows {
        Shows::Kinds => collect_by_kind(space, alloc),
        _ => collect_one(space, alloc),
    }
}

// Makes so many events.
fn collect<F: Fn(&[u64]) -> usize + Drop>(
    space: &mut Space<F>,
    alloc: Global,
    count: u32,
    course: &mut Course,
    out: &mut String,
) -> Result<(), Fault>
    requires { IsChooser F.Fn space.old.parts.place }
    ensures { IsChooser F.Fn space.new.parts.place }
{
    for _ in 0..count {
        let step = make_event(space, alloc, course.shows)?;
        note(course, step, out)?;
    }
    show(course, out)
}

// Adds a reply's line, which does not depend on the command.
fn push_reply(alloc: Global, client: u32, reply: Reply, out: &mut String) -> Result<(), Fault>
    requires { client < CLIENTS }
{
    let cmd = Cmd::Close;
    let line = reply_text(alloc, &Entry { client, cmd, reply })?;
    push_text(line.as_slice(), out)
}

// Takes note of a reply.
fn note_reply(
    alloc: Global,
    client: u32,
    reply: Reply,
    course: &mut Course,
    out: &mut String,
) -> Result<(), Fault>
    requires { client < CLIENTS }
{
    if is_refused(&reply) {
        course.refused = course.refused.saturating_add(1);
    }
    course.reply.clear();
    push_reply(alloc, client, reply, &mut course.reply)?;
    if with_replies(course.shows) {
        push_words(course.reply.as_str(), out)
    } else {
        Ok(())
    }
}

// Gives a command to the space.
fn give<F: Fn(&[u64]) -> usize + Drop>(
    space: &mut Space<F>,
    alloc: Global,
    client: u32,
    cmd: &Cmd,
    course: &mut Course,
    out: &mut String,
) -> Result<(), Fault>
    requires { IsChooser F.Fn space.old.parts.place }
    ensures { IsChooser F.Fn space.new.parts.place }
{
    if client >= 8 || !acts(cmd) {
        return Err(refuse("Step"));
    }
    let reply = act(space, alloc, client, cmd)?;
    note_reply(alloc, client, reply, course, out)
}

// Carries a line out.
fn carry_out<F: Fn(&[u64]) -> usize + Drop>(
    space: &mut Space<F>,
    alloc: Global,
    line: &Line,
    course: &mut Course,
    out: &mut String,
) -> Result<(), Fault>
    requires { IsChooser F.Fn space.old.parts.place }
    ensures { IsChooser F.Fn space.new.parts.place }
{
    match line {
        Line::Client { client, cmd } => give(space, alloc, *client, cmd, course, out),
        Line::Gc(count) => collect(space, alloc, *count, course, out),
        Line::Flush(_) => Err(refuse("Step")),
    }
}

// Carries the lines out.
fn run<F: Fn(&[u64]) -> usize + Drop>(
    space: &mut Space<F>,
    alloc: Global,
    lines: &[Line],
    course: &mut Course,
    out: &mut String,
) -> Result<(), Fault>
    requires { IsChooser F.Fn space.old.parts.place }
    ensures { IsChooser F.Fn space.new.parts.place }
{
    for line in lines {
        carry_out(space, alloc, line, course, out)?;
    }
    Ok(())
}

// Carries out a line of objects that come in late.
fn run_late<F: Fn(&[u64]) -> usize + Drop>(
    space: &mut Space<F>,
    alloc: Global,
    late: &Late,
    course: &mut Course,
    out: &mut String,
) -> Result<(), Fault>
    requires { IsChooser F.Fn space.old.parts.place }
    ensures { IsChooser F.Fn space.new.parts.place }
{
    course.reply.clear();
    carry_late(space, alloc, late, &mut course.late, &mut course.reply)?;
    if with_replies(course.shows) {
        push_words(course.reply.as_str(), out)
    } else {
        Ok(())
    }
}

// Carries it out so many times.
fn run_late_times<F: Fn(&[u64]) -> usize + Drop>(
    space: &mut Space<F>,
    alloc: Global,
    late: &Late,
    times: u32,
    course: &mut Course,
    out: &mut String,
) -> Result<(), Fault>
    requires { IsChooser F.Fn space.old.parts.place }
    ensures { IsChooser F.Fn space.new.parts.place }
{
    for _ in 0..times {
        run_late(space, alloc, late, course, out)?;
    }
    Ok(())
}

// Carries out a part: a line of objects that come in late, or of a script, or `N* ` and a line, N times.
fn run_part<F: Fn(&[u64]) -> usize + Drop>(
    space: &mut Space<F>,
    alloc: Global,
    part: &str,
    course: &mut Course,
    out: &mut String,
) -> Result<(), Fault>
    requires { IsChooser F.Fn space.old.parts.place }
    ensures { IsChooser F.Fn space.new.parts.place }
{
    let (times, line) = part.split_once("* ").unwrap_or(("1", part));
    match late_of(alloc, line)? {
        Some(late) => run_late_times(space, alloc, &late, small(times)?, course, out),
        None => run(
            space,
            alloc,
            script_of(alloc, part)?.as_slice(),
            course,
            out,
        ),
    }
}

/// Carries out the lines between ` / `.
pub(crate) fn run_text<F: Fn(&[u64]) -> usize + Drop>(
    space: &mut Space<F>,
    alloc: Global,
    text: &str,
    course: &mut Course,
    out: &mut String,
) -> Result<(), Fault>
    requires { IsChooser F.Fn space.old.parts.place }
    ensures { IsChooser F.Fn space.new.parts.place }
{
    for part in text.split(" / ") {
        run_part(space, alloc, part, course, out)?;
    }
    Ok(())
}

// Adds the numbers at the end.
fn push_end<F: Drop>(space: &Space<F>, course: &Course, out: &mut String) -> Result<(), Fault> {
    push_filled(
        "events %, last %, completed %, standing %\n",
        &[
            course.count,
            course.last,
            space.parts.completed,
            space.standing(),
        ],
        out,
    )
}

// Adds the text of the dump of the space.
fn push_dump<F>(space: &Space<F>, alloc: Global, out: &mut String) -> Result<(), Fault> {
    push_text(dump_text(alloc, space)?.as_slice(), out)
}

// Adds what is shown behind the last line.
fn push_behind<F: Drop>(
    space: &Space<F>,
    alloc: Global,
    id: Id,
    course: &Course,
    out: &mut String,
) -> Result<(), Fault> {
    match course.shows {
        Shows::Last => push_words(course.reply.as_str(), out),
        Shows::Open => push_open(space, out),
        Shows::Dump => push_dump(space, alloc, out),
        Shows::Texts => push_texts(space, alloc, out),
        Shows::Why => push_found(space, alloc, id, Found::Whole, out),
        _ => push_end(space, course, out),
    }
}

// Runs the lines, and adds what is shown.
fn push_course<F: Fn(&[u64]) -> usize + Drop>(
    space: &mut Space<F>,
    alloc: Global,
    id: Id,
    lines: &str,
    course: &mut Course,
    out: &mut String,
) -> Result<(), Fault>
    requires { IsChooser F.Fn space.old.parts.place }
{
    run_text(space, alloc, lines, course, out)?;
    push_behind(space, alloc, id, course, out)
}

// An identity, if one is told, and the lines.
fn told(shows: Shows, text: &str) -> Result<(Id, &str), Fault> {
    match shows {
        Shows::Why => {
            let (id, lines) = first_word(text);
            Ok((small(id)?, lines))
        }
        _ => Ok((0, text)),
    }
}

/// `LINES`: the lines of a script, between ` / `, over a new space: the replies and the events as they come, and at the
/// end how many events there were, which was the last that did something, how many collections were completed, and how
/// many objects stand; or less of it. Where a path is shown, its identity stands before the lines.
pub(crate) fn push_script<F: Fn(&[u64]) -> usize + Drop>(
    space: &mut Space<F>,
    alloc: Global,
    shows: Shows,
    text: &str,
    out: &mut String,
) -> Result<(), Fault>
    requires { IsChooser F.Fn space.old.parts.place }
{
    let (id, lines) = told(shows, text)?;
    let mut course = new_course(alloc, shows);
    push_course(space, alloc, id, lines, &mut course, out)
}
