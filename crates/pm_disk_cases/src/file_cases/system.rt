//! A system of one file.

use std::alloc::{AllocError, Global};
use std::cell::{Cell, RefCell};
use std::io::{self, ErrorKind};
use std::os::fd::RawFd;

/// A system of one file: it writes down each call, keeps the bytes, gives the lowest free descriptor, and fails the
/// call that it is told.
#[derive(Drop)]
pub(crate) struct System {
    alloc: Global,
    calls: RefCell<String>,
    bytes: RefCell<Vec<u8>>,

    // Bit n is 1 where descriptor n is open.
    open: Cell<u32>,
    fails: RefCell<String>,
}

fn busy() -> io::Error {
    ErrorKind::Other.into()
}

// Reads the bytes from this place on. It fails where there are too few.
fn take(bytes: &[u8], at: u64, into: &mut [u8]) -> io::Result<()> {
    let from = &bytes[(at as usize).min(bytes.len())..];
    if from.len() < into.len() {
        return Err(ErrorKind::UnexpectedEof.into());
    }
    into.copy_from_slice(&from[..into.len()]);
    Ok(())
}

// Writes over the bytes from this place on.
fn put(bytes: &mut Vec<u8>, at: u64, from: &[u8]) -> io::Result<()> {
    let start = at as usize;
    let Some(end) = start.checked_add(from.len()) else {
        return Err(busy());
    };
    if bytes.len() < end {
        bytes.resize(end, 0)?;
    }
    bytes[start..end].copy_from_slice(from);
    Ok(())
}

// Adds a call to those that were written down.
fn add_call(calls: &mut String, call: &str) -> io::Result<()> {
    calls.push_str(call)?;
    Ok(calls.push_str(";")?)
}

// Fails where this is not so.
fn only_if(is: bool) -> io::Result<()> {
    if is { Ok(()) } else { Err(busy()) }
}

impl System {
    /// A system with an empty file, in which these descriptors are open.
    pub(crate) fn new(alloc: Global, open: u32) -> System {
        System {
            alloc,
            calls: RefCell::new(String::new(alloc)),
            bytes: RefCell::new(Vec::new(alloc)),
            open: Cell::new(open),
            fails: RefCell::new(String::new(alloc)),
        }
    }

    /// Fails this call from now on, spelled as the system writes it down.
    pub(crate) fn fail(&self, call: String) -> io::Result<()> {
        match self.fails.try_replace(call) {
            Ok(_) => Ok(()),
            Err(_) => Err(busy()),
        }
    }

    /// The calls since this was asked last, each followed by a semicolon.
    pub(crate) fn calls(&self) -> io::Result<String> {
        match self.calls.try_replace(String::new(self.alloc)) {
            Ok(calls) => Ok(calls),
            Err(_) => Err(busy()),
        }
    }

    /// The descriptors that are open.
    pub(crate) fn open(&self) -> u32 {
        self.open.get()
    }

    /// Opens the lowest free descriptor.
    pub(crate) fn take_number(&self) -> u32 {
        let open = self.open.get();
        let number = open.trailing_ones();
        self.open.set(open | 1u32.wrapping_shl(number));
        number
    }

    /// Closes a descriptor.
    pub(crate) fn give_number(&self, number: u32) {
        self.open.set(self.open.get() & !1u32.wrapping_shl(number));
    }

    // Writes a call down.
    fn write_down(&self, call: &str) -> io::Result<()> {
        match self.calls.try_borrow_mut() {
            Ok(mut calls) => add_call(&mut calls, call),
            Err(_) => Err(busy()),
        }
    }

    // Fails where this is the call that is to fail.
    fn pass(&self, call: &str) -> io::Result<()> {
        match self.fails.try_borrow() {
            Ok(fails) => only_if(fails.as_str() != call),
            Err(_) => Err(busy()),
        }
    }

    // Writes a call down, and fails it where it is to fail.
    fn note(&self, call: Result<String, AllocError>) -> io::Result<()> {
        let call = call?;
        self.write_down(call.as_str())?;
        self.pass(call.as_str())
    }

    /// A call on a descriptor: it is written down, and fails where it is to fail.
    pub(crate) fn ask(&self, verb: &str, number: RawFd) -> io::Result<()> {
        self.note(format!(in self.alloc; "{verb} {number}"))
    }

    /// A call on so many bytes from a place on.
    pub(crate) fn ask_at(&self, verb: &str, number: RawFd, at: u64, len: usize) -> io::Result<()> {
        self.note(format!(in self.alloc; "{verb} {number} at {at} for {len}"))
    }

    /// A call that opens a file.
    pub(crate) fn ask_open(&self, path: &str, how: &str) -> io::Result<()> {
        self.note(format!(in self.alloc; "open {path} {how}"))
    }

    /// Makes the file empty.
    pub(crate) fn cut(&self) -> io::Result<()> {
        match self.bytes.try_borrow_mut() {
            Ok(mut bytes) => Ok(bytes.clear()),
            Err(_) => Err(busy()),
        }
    }

    /// How many bytes the file has.
    pub(crate) fn len(&self) -> io::Result<u64> {
        match self.bytes.try_borrow() {
            Ok(bytes) => Ok(bytes.len() as u64),
            Err(_) => Err(busy()),
        }
    }

    /// Reads the bytes of the file from this place on. It fails where there are too few.
    pub(crate) fn read(&self, at: u64, into: &mut [u8]) -> io::Result<()> {
        match self.bytes.try_borrow() {
            Ok(bytes) => take(bytes.as_slice(), at, into),
            Err(_) => Err(busy()),
        }
    }

    /// Writes over the bytes of the file from this place on.
    pub(crate) fn write(&self, at: u64, from: &[u8]) -> io::Result<()> {
        match self.bytes.try_borrow_mut() {
            Ok(mut bytes) => put(&mut bytes, at, from),
            Err(_) => Err(busy()),
        }
    }
}
