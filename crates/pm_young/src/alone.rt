//! Commands that the young objects answer as if they were all that there is.

ghost use Rattle.std.specs.Prelude.{◌≡◌, ◌<◌, true, IfOk, IfSome, IsSome};
ghost use Rattle.std.specs.FinMap.{get};
ghost use Rattle.pm_types.specs.Replies.{IsShortReply};
ghost use Rattle.pm_types.specs.declared.limits.TheConstants.{CLIENTS};
ghost use Rattle.pm_model.specs.Answer.{answer_clear, answer_copy, answer_data, answer_drop, answer_id, answer_load};
ghost use Rattle.pm_model.specs.Answer.{answer_put, answer_store, answer_swap, putting, writing};
ghost use Rattle.pm_model.specs.Heap.{field_of};
ghost use Rattle.pm_model.specs.World.{World, held};
ghost use Rattle.pm_nursery.specs.Answering.{young_alone};
ghost use Rattle.pm_young.specs.Alone.{AnswersAlone, IsAnswer, is_of_registers};

use pm_nursery::Nursery;
use pm_types::{Bytes, Cmd, Id, NoMemory, Reg, Reply};
use std::alloc::Global;

// What a field of a young object holds; `None` where there is no such object or field.
fn field(nursery: &Nursery, id: Id, index: u32) -> Option<Option<Id>>
    ensures { result ≡ field_of (get nursery.now.objects id) index }
{
    match nursery.get(id) {
        Some(young) => young.fields().get(index as usize).copied(),
        None => None,
    }
}

// `load`: a register holds what a field holds of the object that another one holds.
fn load(
    nursery: &mut Nursery,
    client: u32,
    to: Reg,
    reg: Reg,
    index: u32,
) -> Result<Reply, NoMemory>
    requires { client < CLIENTS }
    ensures answer { IfOk result (λ reply. (world : World) → let w = young_alone world nursery.old in
        IsAnswer (answer_load w client to index (held w client reg)) reply nursery.new) }
    ensures short { IfOk result IsShortReply }
{
    nursery.sound();
    let Some(id) = nursery.held(client, reg.number()) else {
        return Ok(Reply::NoHandle);
    };
    match field(nursery, id, index) {
        None => Ok(Reply::NoField),
        Some(None) => {
            nursery.forget(client, to.number());
            Ok(Reply::Null)
        }
        Some(Some(found)) => {
            nursery.hold(client, to.number(), found)?;
            Ok(Reply::Ident(found))
        }
    }
}

// Puts null or a young object into a field of a young object, where there is such a field.
fn write(nursery: &mut Nursery, id: Id, index: u32, value: Option<Id>) -> Reply
    requires { IfSome value (λ to. IsSome (get nursery.old.objects to)) }
    ensures answer { (world : World) → let w = young_alone world nursery.old in
        IsAnswer (writing w id index value (get w.heap id)) result nursery.new }
    ensures short { IsShortReply result }
{
    match field(nursery, id, index) {
        Some(_) => {
            nursery.set_field(id, index as usize, value);
            Reply::Done
        }
        None => Reply::NoField,
    }
}

// `store`: a field of the object that a register holds gets what another one holds.
fn store(nursery: &mut Nursery, client: u32, reg: Reg, index: u32, value: Reg) -> Reply
    ensures answer { (world : World) → let w = young_alone world nursery.old in
        IsAnswer (answer_store w index (held w client reg) (held w client value)) result nursery.new }
    ensures short { IsShortReply result }
{
    nursery.sound();
    let Some(id) = nursery.held(client, reg.number()) else {
        return Reply::NoHandle;
    };
    let Some(value) = nursery.held(client, value.number()) else {
        return Reply::NoHandle;
    };
    write(nursery, id, index, Some(value))
}

// `clear`: a field of the object that a register holds is null.
fn clear(nursery: &mut Nursery, client: u32, reg: Reg, index: u32) -> Reply
    ensures answer { (world : World) → let w = young_alone world nursery.old in
        IsAnswer (answer_clear w index (held w client reg)) result nursery.new }
    ensures short { IsShortReply result }
{
    let Some(id) = nursery.held(client, reg.number()) else {
        return Reply::NoHandle;
    };
    write(nursery, id, index, None)
}

// `data`: the bytes of the object that a register holds.
fn data(nursery: &Nursery, alloc: Global, client: u32, reg: Reg) -> Result<Reply, NoMemory>
    ensures answer { IfOk result (λ reply. (world : World) → let w = young_alone world nursery.now in
        IsAnswer (answer_data w (held w client reg)) reply nursery.now) }
    ensures short { IfOk result IsShortReply }
{
    nursery.sound();
    let Some(id) = nursery.held(client, reg.number()) else {
        return Ok(Reply::NoHandle);
    };
    let Some(young) = nursery.get(id) else {
        unreachable!()
    };
    let bytes = young.bytes().to_vec(alloc)?;
    Ok(Reply::Shown(Bytes::from_vec(bytes)))
}

// Puts bytes into a young object from a place on, where it has so many from there on.
fn overwrite(nursery: &mut Nursery, id: Id, at: u32, bytes: &[u8]) -> Reply
    ensures answer { (world : World) → let w = young_alone world nursery.old in
        IsAnswer (putting w id at bytes.now (get w.heap id)) result nursery.new }
    ensures short { IsShortReply result }
{
    let Some(young) = nursery.get(id) else {
        return Reply::OutOfRange;
    };
    if at as usize + bytes.len() > young.bytes().len() {
        return Reply::OutOfRange;
    }
    nursery.set_bytes(id, at as usize, bytes);
    Reply::Done
}

// `put`: bytes of the object that a register holds get new values.
fn put(nursery: &mut Nursery, client: u32, reg: Reg, at: u32, bytes: &[u8]) -> Reply
    ensures answer { (world : World) → let w = young_alone world nursery.old in
        IsAnswer (answer_put w at bytes.now (held w client reg)) result nursery.new }
    ensures short { IsShortReply result }
{
    let Some(id) = nursery.held(client, reg.number()) else {
        return Reply::NoHandle;
    };
    overwrite(nursery, id, at, bytes)
}

// `copy`: a register holds what another one holds.
fn copy(nursery: &mut Nursery, client: u32, to: Reg, reg: Reg) -> Result<Reply, NoMemory>
    requires { client < CLIENTS }
    ensures answer { IfOk result (λ reply. (world : World) → let w = young_alone world nursery.old in
        IsAnswer (answer_copy w client to (held w client reg)) reply nursery.new) }
    ensures short { IfOk result IsShortReply }
{
    nursery.sound();
    let Some(id) = nursery.held(client, reg.number()) else {
        return Ok(Reply::NoHandle);
    };
    nursery.hold(client, to.number(), id)?;
    Ok(Reply::Ident(id))
}

// `id`: the identity of what a register holds.
fn id(nursery: &Nursery, client: u32, reg: Reg) -> Reply
    ensures answer { (world : World) → let w = young_alone world nursery.now in
        IsAnswer (answer_id w (held w client reg)) result nursery.now }
    ensures short { IsShortReply result }
{
    match nursery.held(client, reg.number()) {
        Some(id) => Reply::Ident(id),
        None => Reply::NoHandle,
    }
}

// `drop`: a register is empty.
fn forget(nursery: &mut Nursery, client: u32, reg: Reg) -> Reply
    ensures answer { (world : World) → let w = young_alone world nursery.old in
        IsAnswer (answer_drop w client reg (held w client reg)) result nursery.new }
    ensures short { IsShortReply result }
{
    if nursery.held(client, reg.number()).is_none() {
        return Reply::NoHandle;
    }
    nursery.forget(client, reg.number());
    Reply::Done
}

// `swap`: a field of the object that a register holds gets what `value` holds, where it holds what `old` holds.
fn swap(nursery: &mut Nursery, client: u32, reg: Reg, index: u32, old: Reg, value: Reg) -> Reply
    ensures answer { (world : World) → let w = young_alone world nursery.old in
        IsAnswer (answer_swap w index (held w client reg) (held w client old) (held w client value)) result
        nursery.new }
    ensures short { IsShortReply result }
{
    nursery.sound();
    let Some(id) = nursery.held(client, reg.number()) else {
        return Reply::NoHandle;
    };
    let Some(old) = nursery.held(client, old.number()) else {
        return Reply::NoHandle;
    };
    let Some(value) = nursery.held(client, value.number()) else {
        return Reply::NoHandle;
    };
    match field(nursery, id, index) {
        None => Reply::NoField,
        Some(None) => Reply::Null,
        Some(Some(found)) if found == old => write(nursery, id, index, Some(value)),
        Some(Some(found)) => Reply::Held(found),
    }
}

/// The young objects answer a command of registers and objects, other than `new` and `close`, as if they were all that
/// there is: a register that holds none of them is empty. A reply shows at most an object's bytes. After want of memory
/// a register may hold something else.
#[tactic(auto, unfolding(pm_model::specs::Answer::answer))]
pub(crate) fn answer_alone(
    nursery: &mut Nursery,
    alloc: Global,
    client: u32,
    cmd: &Cmd,
) -> Result<Reply, NoMemory>
    requires client { client < CLIENTS }
    requires registers { is_of_registers cmd.now ≡ true }
    ensures answer { IfOk result (λ reply. AnswersAlone nursery.old client cmd.now reply nursery.new) }
    ensures short { IfOk result IsShortReply }
{
    match cmd {
        Cmd::Load { to, reg, index } => load(nursery, client, *to, *reg, *index),
        Cmd::Store { reg, index, value } => Ok(store(nursery, client, *reg, *index, *value)),
        Cmd::Clear { reg, index } => Ok(clear(nursery, client, *reg, *index)),
        Cmd::Show { reg } => data(nursery, alloc, client, *reg),
        Cmd::Put { reg, at, bytes } => Ok(put(nursery, client, *reg, *at, bytes.as_slice())),
        Cmd::Copy { to, reg } => copy(nursery, client, *to, *reg),
        Cmd::IdOf { reg } => Ok(id(nursery, client, *reg)),
        Cmd::Forget { reg } => Ok(forget(nursery, client, *reg)),
        Cmd::Swap {
            reg,
            index,
            old,
            value,
        } => Ok(swap(nursery, client, *reg, *index, *old, *value)),
        _ => unreachable!(),
    }
}
