ghost use Rattle.std.specs.Prelude.{◌≡◌, ◌<◌, Some, None};
ghost use Rattle.std.specs.FinMap.{get};
ghost use Rattle.pm_types.specs.declared.limits.TheConstants.{CLIENTS};
ghost use Rattle.pm_types.specs.declared.source.RefSource.TheVariants.{Root};
ghost use Rattle.pm_view.specs.Rows.{spread};
ghost use Rattle.pm_view.specs.Commands.{register, bind, row_root, row_unroot};
ghost use Rattle.pm_space.specs.Linked.{sets_of, AreHoused};
ghost use Rattle.pm_space.specs.Shown.{view, MakesRow};
ghost use Rattle.pm_mutate.specs.Commands.Picked.{IsForSomeRoot};

use crate::commands::reading::register;
use pm_roots::BindFault;
use pm_space::{Parts, make_room, resolve, spread, tell_all};
use pm_types::{Addr, Name, NoMemory, ROOTS, RefSource, Reg, Reply};
use std::alloc::Global;

/// `unroot`: a name is not bound any more.
pub fn unroot<F>(parts: &mut Parts<F>, name: &Name) -> Result<Reply, NoMemory>
    requires housed { AreHoused (sets_of parts.old.links) parts.old.trains.trains }
    ensures row { MakesRow parts.old parts.new result
        (λ reply. (reply, view parts.new) ≡ row_unroot (view parts.old) name.now
        (get (view parts.old).roots name.now)) }
{
    let Some((number, at)) = parts.roots.find(name) else {
        return Ok(Reply::NoRoot);
    };
    make_room(&mut parts.links, Some(at), None)?;
    parts.roots.unbind(name);
    tell_all(
        &mut parts.links,
        &parts.trains,
        parts.phase,
        RefSource::Root(number),
        Some(at),
        None,
    );
    Ok(Reply::Done)
}

// Binds a name that is not bound, where there is room for one more.
fn bind_new<F>(
    parts: &mut Parts<F>,
    alloc: Global,
    name: &Name,
    at: Addr,
) -> Result<Reply, NoMemory>
    requires housed { AreHoused (sets_of parts.old.links) parts.old.trains.trains }
    requires unbound { get (view parts.old).roots name.now ≡ None }
    ensures row { MakesRow parts.old parts.new result
        (λ reply. IsForSomeRoot (view parts.old)
        (λ number. bind (view parts.old) name.now None number at) (reply, view parts.new)) }
{
    if parts.roots.len() >= ROOTS as u64 {
        return Ok(Reply::TooManyRoots);
    }
    make_room(&mut parts.links, None, Some(at))?;
    let name = name.copy(alloc)?;
    let number = match parts.roots.bind(name, at) {
        Ok((number, _)) => number,
        Err(BindFault::Memory(refused)) => return Err(refused),
        Err(BindFault::TooMany) => unreachable!(),
    };
    tell_all(
        &mut parts.links,
        &parts.trains,
        parts.phase,
        RefSource::Root(number),
        None,
        Some(at),
    );
    Ok(Reply::Done)
}

// Binds a name to an address; one that is bound keeps its number.
fn bind<F>(parts: &mut Parts<F>, alloc: Global, name: &Name, at: Addr) -> Result<Reply, NoMemory>
    requires housed { AreHoused (sets_of parts.old.links) parts.old.trains.trains }
    ensures row { MakesRow parts.old parts.new result
        (λ reply. IsForSomeRoot (view parts.old)
        (λ number. bind (view parts.old) name.now (get (view parts.old).roots name.now) number at)
        (reply, view parts.new)) }
{
    parts.roots.sound();
    match parts.roots.find(name) {
        Some((number, _)) => {
            spread(parts, RefSource::Root(number), Some(at))?;
            Ok(Reply::Done)
        }
        None => bind_new(parts, alloc, name, at),
    }
}

/// `root`: a name stands for what a register holds.
pub fn root<F>(
    parts: &mut Parts<F>,
    alloc: Global,
    client: u32,
    name: &Name,
    reg: Reg,
) -> Result<Reply, NoMemory>
    requires client { client < CLIENTS }
    requires housed { AreHoused (sets_of parts.old.links) parts.old.trains.trains }
    ensures row { MakesRow parts.old parts.new result
        (λ reply. let v = view parts.old in IsForSomeRoot v
        (λ number. row_root v name.now number (register v client reg)) (reply, view parts.new)) }
{
    match register(parts, client, reg) {
        Some(held) => {
            let at = resolve(&parts.cars, held);
            bind(parts, alloc, name, at)
        }
        None => Ok(Reply::NoHandle),
    }
}
