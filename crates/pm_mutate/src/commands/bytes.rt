ghost use Rattle.std.specs.Prelude.{◌≡◌, ◌<◌, ◌≤◌, ◌+◌, ◌↔◌, IsTrue, OnOk, OnErr, length};
ghost use Rattle.pm_types.specs.declared.limits.TheConstants.{CLIENTS};
ghost use Rattle.pm_cars.specs.Cars.{with_bytes};
ghost use Rattle.pm_view.specs.Reading.{object_at};
ghost use Rattle.pm_view.specs.Rows.{with_object, HasBytesAt};
ghost use Rattle.pm_view.specs.Commands.{register, put_bytes, row_put};
ghost use Rattle.pm_space.specs.Shown.{view, cars_of, MakesRow};

use crate::commands::reading::register;
use pm_snap::Table;
use pm_space::{Held, Parts, object_at, resolve};
use pm_types::{Addr, NoMemory, Reg, Reply};

// Writes bytes into an object that has so many from this place on.
fn write(cars: &mut Table<Held>, at: Addr, place: u32, bytes: &[u8]) -> Result<(), NoMemory>
    requires { HasBytesAt (cars_of cars.old) at place (length bytes.now) }
    ensures ok { OnOk result (cars_of cars.new ≡ with_object (cars_of cars.old) at
        (λ object. with_bytes object place bytes.now)) }
    ensures err { OnErr result (cars.new ≡ cars.old) }
    ensures frozen { cars.new.frozen ≡ cars.old.frozen }
{
    let held = cars.change(at.car)?;
    held.car.set_bytes(at.slot, place, bytes);
    Ok(())
}

// Whether so many bytes from this place on end within a length.
fn ends_within(place: u32, count: usize, length: usize) -> bool
    ensures { IsTrue result ↔ (place + count ≤ length) }
{
    count <= length && place as usize <= length - count
}

// Bytes of the object at an address are changed.
fn put_at<F>(parts: &mut Parts<F>, at: Addr, place: u32, bytes: &[u8]) -> Result<Reply, NoMemory>
    ensures row { MakesRow parts.old parts.new result
        (λ reply. (reply, view parts.new) ≡ put_bytes (view parts.old) at place bytes.now
        (object_at (view parts.old).cars at)) }
{
    let Some(object) = object_at(&parts.cars, at) else {
        return Ok(Reply::NoHandle);
    };
    if !ends_within(place, bytes.len(), object.bytes.as_slice().len()) {
        return Ok(Reply::OutOfRange);
    }
    write(&mut parts.cars, at, place, bytes)?;
    Ok(Reply::Done)
}

/// `put`: bytes of the object that a register holds are changed, from this place on.
pub fn put<F>(
    parts: &mut Parts<F>,
    client: u32,
    reg: Reg,
    place: u32,
    bytes: &[u8],
) -> Result<Reply, NoMemory>
    requires client { client < CLIENTS }
    ensures row { MakesRow parts.old parts.new result
        (λ reply. (reply, view parts.new) ≡ row_put (view parts.old) place bytes.now
        (register (view parts.old) client reg)) }
{
    match register(parts, client, reg) {
        Some(held) => {
            let at = resolve(&parts.cars, held);
            put_at(parts, at, place, bytes)
        }
        None => Ok(Reply::NoHandle),
    }
}
