//! Calls on values by themselves.

use pm_case_text::{
    Fault, push_bytes, push_said, push_value_line, push_words, raw_bytes, refuse, small,
    two_numbers,
};
use pm_layout::digest;
use pm_types::{
    Addr, Bytes, Cmd, Fields, Name, NameFault, NoMemory, Object, Reg, Reply, Slot, room,
};
use std::alloc::Global;
use std::fmt::Debug;

// Adds why bytes are no name.
fn push_name_fault(fault: NameFault, out: &mut String) -> Result<(), Fault> {
    match fault {
        NameFault::Empty => push_words("no name: empty\n", out),
        NameFault::TooLong(length) => push_said("no name: too long,", length, out),
        NameFault::BadByte(place) => push_said("no name: bad byte at", place, out),
        NameFault::Memory(_) => Err(refuse("no memory")),
    }
}

/// `HEX`: whether these bytes are a name, or why they are none.
pub(crate) fn push_name(alloc: Global, text: &str, out: &mut String) -> Result<(), Fault> {
    let spelled = raw_bytes(alloc, text)?;
    match Name::read(alloc, spelled.as_slice()) {
        Ok(name) => push_said("a name of", name.as_slice().len() as u64, out),
        Err(fault) => push_name_fault(fault, out),
    }
}

/// `N`: the register of this number, or that there is none.
pub(crate) fn push_register(text: &str, out: &mut String) -> Result<(), Fault> {
    match Reg::new(small(text)?) {
        Some(register) => push_said("register", register.number() as u64, out),
        None => push_words("no register\n", out),
    }
}

/// `FIELDS BYTES`: the room that such an object takes in its car.
pub(crate) fn push_room(text: &str, out: &mut String) -> Result<(), Fault> {
    match two_numbers(text) {
        Ok((fields, bytes)) if fields <= 255 && bytes <= 8192 => {
            push_said("room", room(fields as u32, bytes as u32) as u64, out)
        }
        _ => Err(refuse("too large")),
    }
}

// Adds a digest.
fn push_sum(alloc: Global, sum: &[u8], out: &mut String) -> Result<(), Fault> {
    push_words("sha256 ", out)?;
    push_bytes(alloc, sum, out)?;
    push_words("\n", out)
}

/// `HEX`: the digest of these bytes.
pub(crate) fn push_digest(alloc: Global, text: &str, out: &mut String) -> Result<(), Fault> {
    let spelled = raw_bytes(alloc, text)?;
    push_sum(alloc, &digest(spelled.as_slice()), out)
}

// Adds the copy of a value.
fn push_copy<T: Debug + Drop>(copy: Result<T, NoMemory>, out: &mut String) -> Result<(), Fault> {
    match copy {
        Ok(copy) => push_value_line(&copy, out),
        Err(_) => Err(refuse("no memory")),
    }
}

// Adds the copy of a slot with an object of a null field and one that is not null.
fn push_live(alloc: Global, out: &mut String) -> Result<(), Fault> {
    let at = Addr { car: 3, slot: 7 };
    let fields = vec![in alloc; None, Some(at)]?;
    let bytes = b"\xca\xfe".to_vec(alloc)?;
    let object = Object {
        id: 9,
        fields: Fields::from_vec(fields),
        bytes: Bytes::from_vec(bytes),
    };
    push_copy(Slot::Live(object).copy(alloc), out)
}

// Adds the copy of a slot whose object moved.
fn push_moved(alloc: Global, out: &mut String) -> Result<(), Fault> {
    push_copy(Slot::Moved(Addr { car: 3, slot: 7 }).copy(alloc), out)
}

// Adds the copy of a command with a name in it.
fn push_command(alloc: Global, out: &mut String) -> Result<(), Fault> {
    match (Name::read(alloc, b"root"), Reg::new(5)) {
        (Ok(name), Some(to)) => push_copy(Cmd::Find { to, name }.copy(alloc), out),
        _ => Err(refuse("no command")),
    }
}

// Adds the copy of a reply.
fn push_reply(alloc: Global, out: &mut String) -> Result<(), Fault> {
    let bytes = b"\xca\xfe".to_vec(alloc)?;
    push_copy(Reply::Shown(Bytes::from_vec(bytes)).copy(alloc), out)
}

/// A copy of each kind of value that is copied, as they are printed.
pub(crate) fn push_copies(alloc: Global, out: &mut String) -> Result<(), Fault> {
    push_live(alloc, out)?;
    push_moved(alloc, out)?;
    push_command(alloc, out)?;
    push_reply(alloc, out)
}
