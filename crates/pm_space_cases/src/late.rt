//! Objects that come in late, in a script over a space in memory: lines that are no lines of a script.

ghost use Rattle.std.specs.Prelude.{◌≡◌, true};
ghost use Rattle.pm_place.specs.Choosers.{IsChooser};
ghost use Rattle.pm_mutate.specs.Young.{MayBeAdmitted};
ghost use Rattle.pm_space.specs.Shown.{view};

use crate::searched::{find, has_field, is_live};
use pm_case_text::{
    Fault, first_word, push_filled, push_said, push_words, raw_bytes, refuse, small,
};
use pm_mutate::{admit, hold, link, spend};
use pm_space::Space;
use pm_types::{Addr, CLIENTS, FIELDS, Id, OBJECT_BYTES, REGISTERS};
use std::alloc::Global;

/// A line of objects that come in late.
#[derive(Drop)]
pub(crate) enum Late {
    /// `spend`: the next identity is given.
    Spend,
    /// `admit ID N HEX`: an object of N null fields and these bytes comes in. For ID may stand `+`: the one after that
    /// of the object that came in last.
    Admit {
        id: Option<Id>,
        count: u32,
        bytes: Vec<u8>,
    },
    /// `link ID K ID`: field K of the first object names the second.
    Link {
        of: Id,
        index: u32,
        to: Id,
    },
    /// `hold C R ID`: register R of client C holds the object.
    Hold {
        client: u32,
        register: u32,
        id: Id,
    },
}

// Two numbers of 32 bits, and what follows them.
fn two_small(text: &str) -> Result<(u32, u32, &str), Fault> {
    let (first, rest) = first_word(text);
    let (second, rest) = first_word(rest);
    Ok((small(first)?, small(second)?, rest))
}

// Three numbers of 32 bits.
fn three_small(text: &str) -> Result<(u32, u32, u32), Fault> {
    let (first, second, rest) = two_small(text)?;
    Ok((first, second, small(rest)?))
}

// An identity, or `+`.
fn id_of(word: &str) -> Result<Option<Id>, Fault> {
    match word {
        "+" => Ok(None),
        _ => Ok(Some(small(word)?)),
    }
}

// The bytes of an object; `H` is 4,096 bytes 00.
fn bytes_of(alloc: Global, digits: &str) -> Result<Vec<u8>, Fault> {
    match digits {
        "H" => Ok(vec![in alloc; 0; OBJECT_BYTES]?),
        _ => raw_bytes(alloc, digits),
    }
}

// `ID N HEX`.
fn admit_of(alloc: Global, text: &str) -> Result<Late, Fault> {
    let (word, rest) = first_word(text);
    let (count, digits) = first_word(rest);
    Ok(Late::Admit {
        id: id_of(word)?,
        count: small(count)?,
        bytes: bytes_of(alloc, digits)?,
    })
}

/// The line of objects that come in late, `None` where it is another one.
pub(crate) fn late_of(alloc: Global, line: &str) -> Result<Option<Late>, Fault> {
    let (word, text) = first_word(line);
    let late = match word {
        "spend" => Late::Spend,
        "admit" => admit_of(alloc, text)?,
        "link" => {
            let (of, index, to) = three_small(text)?;
            Late::Link { of, index, to }
        }
        "hold" => {
            let (client, register, id) = three_small(text)?;
            Late::Hold {
                client,
                register,
                id,
            }
        }
        _ => return Ok(None),
    };
    Ok(Some(late))
}

// Whether an object of so many null fields and these bytes may come in under the identity.
fn may_come_in<F: Drop>(space: &Space<F>, id: Id, count: u32, bytes: &[u8]) -> bool
    ensures { result ≡ true → MayBeAdmitted (view space.now.parts) id count bytes.now }
{
    if id == 0 || u64::from(id) >= space.parts.next {
        return false;
    }
    if count > FIELDS || bytes.len() > OBJECT_BYTES {
        return false;
    }
    find(space, id).is_none()
}

// The address of the object that has the identity, if there is one.
fn placed<F: Drop>(space: &Space<F>, id: Id) -> Result<Addr, Fault> {
    find(space, id).ok_or(refuse("Step"))
}

// Gives the next identity, and says which.
fn give<F: Fn(&[u64]) -> usize + Drop>(space: &mut Space<F>, out: &mut String) -> Result<(), Fault>
    requires { IsChooser F.Fn space.old.parts.place }
    ensures { IsChooser F.Fn space.new.parts.place }
{
    match spend(space) {
        Some(id) => push_said("spent", u64::from(id), out),
        None => push_words("spent none\n", out),
    }
}

// Lets an object come in, and says where.
fn come_in<F: Fn(&[u64]) -> usize + Drop>(
    space: &mut Space<F>,
    alloc: Global,
    id: Id,
    count: u32,
    bytes: &[u8],
    out: &mut String,
) -> Result<(), Fault>
    requires { IsChooser F.Fn space.old.parts.place }
    ensures { IsChooser F.Fn space.new.parts.place }
{
    if !may_come_in(space, id, count, bytes) {
        return Err(refuse("Step"));
    }
    let at = admit(space, alloc, id, count, bytes)?;
    push_filled("slot % of car %\n", &[u64::from(at.slot), at.car], out)
}

// Lets a field of an object name another one.
fn set_field<F: Fn(&[u64]) -> usize + Drop>(
    space: &mut Space<F>,
    of: Id,
    index: u32,
    to: Id,
) -> Result<(), Fault>
    requires { IsChooser F.Fn space.old.parts.place }
    ensures { IsChooser F.Fn space.new.parts.place }
{
    let at = placed(space, of)?;
    let to = placed(space, to)?;
    if !has_field(space, at, index) || !is_live(space, to) {
        return Err(refuse("Step"));
    }
    link(space, at, index, to)?;
    Ok(())
}

// Lets a register hold an object.
fn set_register<F: Fn(&[u64]) -> usize + Drop>(
    space: &mut Space<F>,
    client: u32,
    register: u32,
    id: Id,
) -> Result<(), Fault>
    requires { IsChooser F.Fn space.old.parts.place }
    ensures { IsChooser F.Fn space.new.parts.place }
{
    let at = placed(space, id)?;
    if client >= CLIENTS || register >= REGISTERS || !is_live(space, at) {
        return Err(refuse("Step"));
    }
    hold(space, client, register, at)?;
    Ok(())
}

/// Carries the line out, and says what it gives. The identity that came in last is told, and told anew.
pub(crate) fn carry_late<F: Fn(&[u64]) -> usize + Drop>(
    space: &mut Space<F>,
    alloc: Global,
    late: &Late,
    last: &mut Id,
    out: &mut String,
) -> Result<(), Fault>
    requires { IsChooser F.Fn space.old.parts.place }
    ensures { IsChooser F.Fn space.new.parts.place }
{
    match late {
        Late::Spend => give(space, out),
        Late::Admit { id, count, bytes } => {
            let id = id.unwrap_or(last.saturating_add(1));
            *last = id;
            come_in(space, alloc, id, *count, bytes.as_slice(), out)
        }
        Late::Link { of, index, to } => set_field(space, *of, *index, *to),
        Late::Hold {
            client,
            register,
            id,
        } => set_register(space, *client, *register, *id),
    }
}
