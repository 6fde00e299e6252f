//! What an engine works with, and the commands of clients on the space.

ghost use Rattle.std.specs.Prelude.{◌≡◌, ◌<◌, true, IfOk, OnErr, vec_len, vec_capacity};
ghost use Rattle.pm_types.specs.declared.limits.TheConstants.{CLIENTS};
ghost use Rattle.pm_types.specs.Replies.{IsShortReply};
ghost use Rattle.pm_view.specs.Commands.{is_act};
ghost use Rattle.pm_space.specs.Shown.{view, KeepsRest};
ghost use Rattle.pm_view.specs.Bounded.{KeepsWatches};
ghost use Rattle.pm_mutate.specs.Acts.{KeepsCourse, Serves};
ghost use Rattle.pm_engine.specs.Works.Acting.{DoesItsRow};

use crate::works::course::{Course, tell_before};
use crate::works::past::Past;
use arrayvec::ArrayVec;
use pm_disk::Disk;
use pm_mutate::act;
use pm_reclaim::WATCH_ROOM;
use pm_save::Saver;
use pm_shadow::Pages;
use pm_space::Space;
use pm_types::{Cmd, Entry, NoMemory, Reply, Watch};
use std::alloc::Global;

/// A space, the pages of its store on a disk, the saver between them, the journal of what was asked and answered, in
/// order, with what had been made before each entry, the watches that are set, and how many events were made. Of the
/// journal's first entries some may have been let go.
#[derive(Drop)]
pub struct Works<D: Disk, F> {
    /// The pages of the store, with their disk.
    pub pages: Pages<D>,
    pub space: Space<F>,
    /// What stands between the space and the pages: the settled copy, and the one in progress.
    pub saver: Saver,
    /// What was asked and answered first, and was let go.
    pub past: Past,
    /// What was asked and answered behind that, in order.
    pub journal: Vec<Entry>,
    /// What had been made before each entry of the journal.
    pub course: Course,
    /// The watches that are set, in order.
    pub watches: ArrayVec<Watch, WATCH_ROOM>,
    /// How many events were made: commands, events of the collector and flush events that were answered Ok.
    pub events: u64,
    /// How many of the events were the collector's.
    pub steps: u64,
}

/// A command on the space: its reply, and the same reply again. Only that of `data` takes memory for it, and `data`
/// leaves the space as it is; so after want of memory what is seen of the space is as it was.
fn act_and_copy_reply<F: Drop>(
    space: &mut Space<F>,
    alloc: Global,
    client: u32,
    cmd: &Cmd,
) -> Result<(Reply, Reply), NoMemory>
    requires client { client < CLIENTS }
    requires act { is_act cmd.now ≡ true }
    ensures served { IfOk result (λ told. Serves (view space.old.parts) client cmd.now told.0 (view space.new.parts)) }
    ensures row { IfOk result (λ told.
        DoesItsRow client cmd.now (view space.old.parts) (view space.new.parts) told.0) }
    ensures same { IfOk result (λ told. told.1 ≡ told.0) }
    ensures short { IfOk result (λ told. IsShortReply told.0) }
    ensures course { KeepsCourse (view space.old.parts) cmd.now (view space.new.parts) }
    ensures bound { KeepsWatches (view space.old.parts) (view space.new.parts) }
    ensures err { OnErr result (view space.new.parts ≡ view space.old.parts) }
    ensures rest { KeepsRest space.old.parts space.new.parts }
{
    let reply = act(space, alloc, client, cmd)?;
    let told = reply.copy(alloc)?;
    Ok((reply, told))
}

impl<D: Disk, F: Drop> Works<D, F> {
    ghost use Rattle.pm_engine.specs.Works.Working.{Adds, Acts, IsLeft, IsTiedIn, KeepsStore, place_in};

    /// Puts an entry at the journal's end, which has room for it: that of a command that was answered, here or elsewhere.
    /// Space, saver and pages stay.
    pub fn append(&mut self, client: u32, cmd: Cmd, reply: Reply)
        requires room { vec_len self.old.journal < vec_capacity self.old.journal }
        ensures adds { Adds client cmd reply self.old self.new }
        ensures store { KeepsStore self.old self.new }
    {
        tell_before(&mut self.course, self.steps, self.events);
        self.journal.push_reserved(Entry { client, cmd, reply });
        self.events = self.events.saturating_add(1);
    }

    /// A command on the space, which goes into its entry. The entry's room is taken before it, so that only the reply of
    /// `data` is copied after it, which leaves the space as it is. After want of memory all is as it was.
    pub(crate) fn act(&mut self, alloc: Global, client: u32, cmd: Cmd) -> Result<Reply, NoMemory>
        requires client { client < CLIENTS }
        requires act { is_act cmd ≡ true }
        requires tied { IsTiedIn self.old }
        ensures acts { IfOk result (Acts client cmd self.old self.new) }
        ensures tied { IsTiedIn self.new }
        ensures err { OnErr result (IsLeft self.old self.new) }
        ensures pages { self.new.pages ≡ self.old.pages }
        ensures place { place_in self.new ≡ place_in self.old }
    {
        self.journal.reserve(1)?;
        let (reply, told) = act_and_copy_reply(&mut self.space, alloc, client, &cmd)?;
        self.append(client, cmd, told);
        Ok(reply)
    }
}
