ghost use Rattle.std.specs.Prelude.{◌≡◌, ◌<◌, ◌≤◌, ℕ, OnOk, None};
ghost use Rattle.std.specs.FinMap.{get};
ghost use Rattle.pm_types.specs.declared.limits.TheConstants.{CLIENTS, REGISTERS};
ghost use Rattle.pm_types.specs.declared.source.RefSource.TheVariants.{Handle};
ghost use Rattle.pm_view.specs.Rows.{spread};
ghost use Rattle.pm_view.specs.Commands.{emptied, row_close};
ghost use Rattle.pm_space.specs.Linked.{sets_of, queues_of, AreHoused, HasRoom, HasRoomFor, UsesRoom, told_by};
ghost use Rattle.pm_space.specs.Shown.{view, KeepsRest, MakesRow};
ghost use Rattle.pm_mutate.specs.Commands.Closing.{stored_in};

use pm_handles::Handles;
use pm_space::{LinkTable, Parts, count_car, tell_all};
use pm_types::{NoMemory, REGISTERS, RefSource, Reply};
use std::alloc::Global;
use std::collections::BTreeMap;

// Makes room in queues for what is told where so many registers of a client are emptied.
fn make_room_to_close(
    links: &mut LinkTable,
    alloc: Global,
    handles: &Handles,
    client: u32,
    count: u32,
) -> Result<(), NoMemory>
    requires client { client < CLIENTS }
    requires count { count ≤ REGISTERS }
    ensures sets { sets_of links.new ≡ sets_of links.old }
    ensures queues { queues_of links.new ≡ queues_of links.old }
    ensures room { OnOk result ((car : ℕ) → HasRoom links.new car (stored_in handles.now client count car)) }
{
    let mut counts = BTreeMap::new(alloc);
    for register in 0..count {
        if let Some(at) = handles.get(client, register) {
            let count = count_car(&mut counts, at.car)?;
            links.reserve(at.car, count)?;
        }
    }
    Ok(())
}

// Empties a register, in room that was made before.
fn empty_register<F>(parts: &mut Parts<F>, client: u32, register: u32)
    requires client { client < CLIENTS }
    requires register { register < REGISTERS }
    requires housed { AreHoused (sets_of parts.old.links) parts.old.trains.trains }
    requires room { HasRoomFor parts.old.links (get (view parts.old).registers (client, register)) }
    ensures view { view parts.new ≡ spread (view parts.old) (Handle client register) None }
    ensures used { UsesRoom parts.old.links parts.new.links (λ car. told_by car
        (get (view parts.old).registers (client, register))) }
    ensures rest { KeepsRest parts.old parts.new }
{
    let old = parts.handles.set(client, register, None);
    tell_all(
        &mut parts.links,
        &parts.trains,
        parts.phase,
        RefSource::Handle { client, register },
        old,
        None,
    );
}

// Empties so many registers of a client, in room that was made before.
fn empty_registers<F>(parts: &mut Parts<F>, client: u32, count: u32)
    requires client { client < CLIENTS }
    requires count { count ≤ REGISTERS }
    requires housed { AreHoused (sets_of parts.old.links) parts.old.trains.trains }
    requires room { (car : ℕ) → HasRoom parts.old.links car
        (stored_in (view parts.old).registers client count car) }
    ensures view { view parts.new ≡ emptied (view parts.old) client count }
    ensures rest { KeepsRest parts.old parts.new }
{
    for register in 0..count {
        empty_register(parts, client, register);
    }
}

/// `close`: all registers of a client are empty.
pub fn close<F>(parts: &mut Parts<F>, alloc: Global, client: u32) -> Result<Reply, NoMemory>
    requires client { client < CLIENTS }
    requires housed { AreHoused (sets_of parts.old.links) parts.old.trains.trains }
    ensures row { MakesRow parts.old parts.new result
        (λ reply. (reply, view parts.new) ≡ row_close (view parts.old) client) }
{
    make_room_to_close(&mut parts.links, alloc, &parts.handles, client, REGISTERS)?;
    empty_registers(parts, client, REGISTERS);
    Ok(Reply::Done)
}
