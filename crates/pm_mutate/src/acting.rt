ghost use Rattle.std.specs.Prelude.{◌≡◌, ◌<◌, true, false, IfOk, OnErr};
ghost use Rattle.pm_types.specs.declared.limits.TheConstants.{CLIENTS};
ghost use Rattle.pm_view.specs.Commands.{is_act, is_new};
ghost use Rattle.pm_view.specs.Law.{HeapLaw};
ghost use Rattle.pm_view.specs.Objects.{KeepsObjects};
ghost use Rattle.pm_space.specs.Shown.{view, KeepsRest, MakesRow};
ghost use Rattle.pm_mutate.specs.Commands.Picked.{IsRow};
ghost use Rattle.pm_types.specs.Replies.{IsShortReply};
ghost use Rattle.pm_mutate.specs.Acts.{Serves, IsStill, IsBirth, KeepsCourse, LeavesWhereShown};

use crate::commands::{
    clear, close, copy, data, find, forget, id, load, new, put, root, store, swap, unroot,
};
use pm_law_bound::rank::a_command_keeps_the_rank;
use pm_law_bound::sunk::a_command_keeps_sunk_sets;
use pm_law_collect::work::{a_command_adds_little_work, a_command_leaves_the_slot_that_moved};
use pm_law_commands::{
    a_command_is_answered_as_by_the_world, a_command_keeps_the_heap_law,
    a_refused_command_leaves_the_space, every_command_but_new_leaves_objects_where_they_stand,
    new_adds_one_object_in_the_open_train,
};
use pm_space::{Parts, Space};
use pm_types::{Cmd, NoMemory, Reply};
use std::alloc::Global;

// What a command answers, and the parts after it.
fn run<F>(parts: &mut Parts<F>, alloc: Global, client: u32, cmd: &Cmd) -> Result<Reply, NoMemory>
    requires client { client < CLIENTS }
    requires act { is_act cmd.now ≡ true }
    requires law { HeapLaw (view parts.old) }
    ensures row { MakesRow parts.old parts.new result
        (λ reply. IsRow (view parts.old) client cmd.now (reply, view parts.new)) }
{
    // The number of the car that `new` would open is picked for every command.
    let _number = parts.cars.vacant();
    match cmd {
        Cmd::New { reg, count, bytes } => new(parts, alloc, client, *reg, *count, bytes),
        Cmd::Load { to, reg, index } => load(parts, client, *to, *reg, *index),
        Cmd::Store { reg, index, value } => store(parts, client, *reg, *index, *value),
        Cmd::Clear { reg, index } => clear(parts, client, *reg, *index),
        Cmd::Show { reg } => data(parts, alloc, client, *reg),
        Cmd::Put { reg, at, bytes } => put(parts, client, *reg, *at, bytes.as_slice()),
        Cmd::Copy { to, reg } => copy(parts, client, *to, *reg),
        Cmd::IdOf { reg } => Ok(id(parts, client, *reg)),
        Cmd::Forget { reg } => forget(parts, client, *reg),
        Cmd::Bind { name, reg } => root(parts, alloc, client, name, *reg),
        Cmd::Unbind { name } => unroot(parts, name),
        Cmd::Find { to, name } => find(parts, client, *to, name),
        Cmd::Swap {
            reg,
            index,
            old,
            value,
        } => swap(parts, client, *reg, *index, *old, *value),
        Cmd::Close => close(parts, alloc, client),
        Cmd::Save | Cmd::Settle | Cmd::Unsave | Cmd::Watch => unreachable!(),
    }
}

/// Carries out a command of a client on the space: every one but those that save, settle, drop a copy or watch. The
/// reply and the space after it are those of the command's row, and, for every world that the space stands for, those
/// of the world's answer. It adds at most six to the work that is left of a collection, and `close` 3,072. What fits
/// stays, the rank has not risen, and sunk sets stay so. Frozen cars and the chooser stay. After want of memory all is
/// as it was.
pub fn act<F: Drop>(
    space: &mut Space<F>,
    alloc: Global,
    client: u32,
    cmd: &Cmd,
) -> Result<Reply, NoMemory>
    requires client { client < CLIENTS }
    requires act { is_act cmd.now ≡ true }
    ensures row { IfOk result (λ reply. IsRow (view space.old.parts) client cmd.now (reply, view space.new.parts)) }
    ensures served { IfOk result (λ reply. Serves (view space.old.parts) client cmd.now reply (view space.new.parts)) }
    ensures refused { IfOk result (λ reply. IsStill (view space.old.parts) cmd.now reply (view space.new.parts)) }
    // The bytes of `data` are an object's, and `data` leaves the space as it is.
    ensures short { IfOk result IsShortReply }
    ensures shown { IfOk result (λ reply. LeavesWhereShown (view space.old.parts) reply (view space.new.parts)) }
    ensures still { is_new cmd.now ≡ false → KeepsObjects (view space.old.parts) (view space.new.parts) }
    ensures born { IfOk result (λ reply. IsBirth (view space.old.parts) cmd.now reply (view space.new.parts)) }
    ensures course { KeepsCourse (view space.old.parts) cmd.now (view space.new.parts) }
    ensures err { OnErr result (view space.new.parts ≡ view space.old.parts) }
    ensures rest { KeepsRest space.old.parts space.new.parts }
{
    a_command_adds_little_work();
    a_command_keeps_the_rank();
    a_command_keeps_sunk_sets();
    a_command_keeps_the_heap_law();
    a_command_is_answered_as_by_the_world();
    a_refused_command_leaves_the_space();
    every_command_but_new_leaves_objects_where_they_stand();
    new_adds_one_object_in_the_open_train();
    a_command_leaves_the_slot_that_moved();
    cmd.sound();
    space.quiet = 0;
    run(&mut space.parts, alloc, client, cmd)
}
