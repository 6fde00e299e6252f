ghost use Rattle.std.specs.Prelude.{◌≡◌, ◌<◌, ◌++◌, ◌∷◌, IsSome, IfOk, OnOk};
ghost use Rattle.std.specs.List.{flat_map, AllByRecursion};
ghost use Rattle.std.specs.Option.{unwrap_or, option_map};
ghost use Rattle.std.specs.FinMap.{entries};
ghost use Rattle.pm_model.specs.Text.{pairs};
ghost use Rattle.pm_dump.specs.Dump.{dump_of, dump_text_of, line_text, field_word, HeadLine, ObjectLine, RootLine, EndLine};
ghost use Rattle.pm_view.specs.Reading.{object_at, named_by, resolve};
ghost use Rattle.pm_view.specs.Represents.{names, meaning};
ghost use Rattle.pm_copies.specs.Listed.{copy_in};
ghost use Rattle.pm_space.specs.Shown.{view};
ghost use Rattle.pm_walk.specs.Walked.{shown};
ghost use Rattle.pm_walk.specs.Lines.{found_line, named_line, led_line};
ghost use Rattle.pm_walk.specs.Told.{TellsHeld, TellsNamed};
ghost use Rattle.pm_model.specs.World.{World};
ghost use Rattle.pm_view.specs.Represents.{Represents};
ghost use Rattle.pm_types.specs.declared.limits.TheConstants.{CLIENTS, REGISTERS};

use crate::walk::{Walk, walk_space};
use crate::words::{append, append_number, append_word};
use pm_law_copies::walks::a_copy_is_walked_by_addresses;
use pm_space::{Parts, Space, object_at, resolve};
use pm_types::{Addr, Id, Name, NoMemory, Object};
use std::alloc::Global;
use std::collections::BTreeMap;

// Appends a space and bytes as pairs of digits.
fn append_pairs(alloc: Global, out: &mut Vec<u8>, bytes: &[u8]) -> Result<(), NoMemory>
    ensures { OnOk result (out.new.items ≡ out.old.items ++ 32 ∷ pairs bytes.now) }
{
    if bytes.is_empty() {
        return append_word(out, b"-");
    }
    let digits = hex::encode(alloc, bytes)?;
    append_word(out, digits.as_bytes())
}

/// The identity of the object to which an address leads; `None` where it leads to none.
pub fn identity<F>(parts: &Parts<F>, at: Addr) -> Option<Id>
    ensures { result ≡ named_by (view parts.now) at }
{
    match object_at(&parts.cars, resolve(&parts.cars, at)) {
        Some(object) => Some(object.id),
        None => None,
    }
}

// Appends a space and what a field holds: an identity, or 0 for null.
fn append_field<F>(out: &mut Vec<u8>, parts: &Parts<F>, field: Option<Addr>) -> Result<(), NoMemory>
    ensures { OnOk result (out.new.items ≡ out.old.items ++ 32 ∷ field_word (names (view parts.now) field)) }
{
    let Some(to) = field else {
        return append_word(out, b"0");
    };
    match identity(parts, to) {
        Some(id) => append_number(out, u64::from(id)),
        None => append_word(out, b"0"),
    }
}

// Appends what each field holds.
fn append_fields<F>(
    out: &mut Vec<u8>,
    parts: &Parts<F>,
    fields: &[Option<Addr>],
) -> Result<(), NoMemory>
    ensures { OnOk result (out.new.items
        ≡ out.old.items ++ flat_map (λ field. 32 ∷ field_word (names (view parts.now) field)) fields.now) }
{
    for field in fields {
        append_field(out, parts, *field)?;
    }
    Ok(())
}

// Appends the line of an object.
fn append_object<F>(
    alloc: Global,
    out: &mut Vec<u8>,
    parts: &Parts<F>,
    id: Id,
    object: &Object,
) -> Result<(), NoMemory>
    ensures { OnOk result (out.new.items
        ≡ out.old.items ++ line_text (ObjectLine id (meaning (view parts.now) object.now))) }
{
    let fields = object.fields.as_slice();
    append(out, b"object")?;
    append_number(out, u64::from(id))?;
    append_number(out, fields.len() as u64)?;
    append_pairs(alloc, out, object.bytes.as_slice())?;
    append_fields(out, parts, fields)?;
    append(out, b"\n")
}

// Appends the line of the object at an address.
fn append_found<F>(
    alloc: Global,
    out: &mut Vec<u8>,
    parts: &Parts<F>,
    id: Id,
    at: Addr,
) -> Result<(), NoMemory>
    requires { IsSome (object_at (view parts.now).cars at) }
    ensures { OnOk result (out.new.items ≡ out.old.items ++ found_line (view parts.now) (id, at)) }
{
    match object_at(&parts.cars, at) {
        Some(object) => append_object(alloc, out, parts, id, object),
        None => unreachable!(),
    }
}

// Appends the lines of objects, in ascending order of their identities.
fn append_objects<F>(
    alloc: Global,
    out: &mut Vec<u8>,
    parts: &Parts<F>,
    met: &BTreeMap<Id, Addr>,
) -> Result<(), NoMemory>
    requires { AllByRecursion (λ e. IsSome (object_at (view parts.now).cars e.1)) (entries (shown met.now)) }
    ensures { OnOk result (out.new.items
        ≡ out.old.items ++ flat_map (found_line (view parts.now)) (entries (shown met.now))) }
{
    for (id, at) in met.iter() {
        append_found(alloc, out, parts, *id, *at)?;
    }
    Ok(())
}

// Appends the line of a name, whose address leads to an object.
fn append_root<F>(
    out: &mut Vec<u8>,
    parts: &Parts<F>,
    name: &Name,
    at: Addr,
) -> Result<(), NoMemory>
    requires { IsSome (named_by (view parts.now) at) }
    ensures { OnOk result (out.new.items
        ≡ out.old.items ++ line_text (RootLine name.now (unwrap_or (named_by (view parts.now) at) 0))) }
{
    let Some(id) = identity(parts, at) else {
        unreachable!();
    };
    append(out, b"root")?;
    append_word(out, name.as_slice())?;
    append_number(out, u64::from(id))?;
    append(out, b"\n")
}

// Appends the lines of the names, in ascending order.
fn append_roots<F>(out: &mut Vec<u8>, space: &Space<F>) -> Result<(), NoMemory>
    ensures { OnOk result (out.new.items
        ≡ out.old.items ++ flat_map (named_line (view space.now.parts)) (entries (view space.now.parts).roots)) }
{
    a_copy_is_walked_by_addresses();
    space.parts.roots.sound();
    for place in 0..space.parts.roots.len() {
        let (name, _, at) = space.parts.roots.nth(place);
        append_root(out, &space.parts, name, at)?;
    }
    Ok(())
}

// Appends the first line.
fn append_head(out: &mut Vec<u8>, next: u64) -> Result<(), NoMemory>
    ensures { OnOk result (out.new.items ≡ out.old.items ++ line_text (HeadLine next)) }
{
    append(out, b"pmos dump 1")?;
    append_number(out, next)?;
    append(out, b"\n")
}

// Appends the last line.
fn append_end(out: &mut Vec<u8>) -> Result<(), NoMemory>
    ensures { OnOk result (out.new.items ≡ out.old.items ++ line_text EndLine) }
{
    append(out, b"end\n")
}

/// The text of the dump of the copy of a space: what its names reach, whatever lies beside it, and its next identity.
/// Memory is taken for the text, for some 50 bytes an object while the walk goes on, and then for some 20.
pub fn dump_text<F>(alloc: Global, space: &Space<F>) -> Result<Vec<u8>, NoMemory>
    ensures { IfOk result (λ text. text.items ≡ dump_text_of (dump_of (copy_in (view space.now.parts)))) }
{
    let Walk { found, met } = walk_space(alloc, space)?;
    drop(found);
    let mut out = Vec::new(alloc);
    append_head(&mut out, space.parts.next)?;
    append_objects(alloc, &mut out, &space.parts, &met)?;
    append_roots(&mut out, space)?;
    append_end(&mut out)?;
    Ok(out)
}

// Appends the line of the object to which an address leads.
fn append_led<F>(
    alloc: Global,
    out: &mut Vec<u8>,
    parts: &Parts<F>,
    to: Addr,
) -> Result<(), NoMemory>
    requires { IsSome (object_at (view parts.now).cars (resolve (view parts.now) to)) }
    ensures { OnOk result (out.new.items ≡ out.old.items ++ led_line (view parts.now) to) }
{
    match object_at(&parts.cars, resolve(&parts.cars, to)) {
        Some(object) => append_object(alloc, out, parts, object.id, object),
        None => unreachable!(),
    }
}

/// The line of a dump for what this register of this client holds, in each world that the space stands for; `None`
/// where it is empty. The client is below 8, and the register below 1,024. The line has at most 11,020 bytes: memory is
/// taken for it, and, while it is written, for its digits.
pub fn object_text<F>(
    alloc: Global,
    space: &Space<F>,
    client: u32,
    register: u32,
) -> Result<Option<Vec<u8>>, NoMemory>
    requires client { client < CLIENTS }
    requires register { register < REGISTERS }
    ensures { IfOk result (λ told. (world : World) → Represents (view space.now.parts) world
        → TellsHeld world client register (option_map (λ text. text.items) told)) }
{
    let Some(to) = space.parts.handles.get(client, register) else {
        return Ok(None);
    };
    let mut out = Vec::new(alloc);
    append_led(alloc, &mut out, &space.parts, to)?;
    Ok(Some(out))
}

/// The line of a dump for the name at this place, counted from 0 in ascending order of the names' bytes, in each world
/// that the space stands for; `None` where no more names are bound. Memory is taken for the line: at most 81 bytes.
pub fn root_text<F>(
    alloc: Global,
    space: &Space<F>,
    place: u64,
) -> Result<Option<Vec<u8>>, NoMemory>
    ensures { IfOk result (λ told. (world : World) → Represents (view space.now.parts) world
        → TellsNamed world place (option_map (λ text. text.items) told)) }
{
    a_copy_is_walked_by_addresses();
    space.parts.roots.sound();
    if place >= space.parts.roots.len() {
        return Ok(None);
    }
    let (name, _, at) = space.parts.roots.nth(place);
    let mut out = Vec::new(alloc);
    append_root(&mut out, &space.parts, name, at)?;
    Ok(Some(out))
}
