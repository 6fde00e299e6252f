//! Calls of disks over a real file.

use crate::file_cases::disks::{Calls, push_call};
use pm_case_text::{CallsOf, Fault, first_word, push_calls, push_words, refuse};
use pm_file::FileDisk;
use std::alloc::Global;
use std::fs;

// The file.
const PATH: &str = "pm_file_case";

// Two disks over the file, each until it is closed.
#[derive(Drop)]
struct Two {
    rt: HostRuntime,
    first: Option<FileDisk<HostRuntime>>,
    second: Option<FileDisk<HostRuntime>>,
}

// A value that may go to another thread.
fn is_sent<T: Send>(_: &T) {}

// A disk over the file. It may be sent to another thread.
fn disk_of(rt: HostRuntime) -> Result<FileDisk<HostRuntime>, Fault> {
    let disk = FileDisk::at(rt, rt.alloc(), PATH)?;
    is_sent(&disk);
    Ok(disk)
}

// A call of a disk, or `close`.
fn push_of(
    alloc: Global,
    disk: &mut Option<FileDisk<HostRuntime>>,
    text: &str,
    out: &mut String,
) -> Result<(), Fault> {
    let (call, rest) = first_word(text);
    if call == "close" {
        *disk = None;
        return push_words("ok", out);
    }
    match disk {
        Some(disk) => push_call(alloc, disk, call, rest, out),
        None => Err(refuse("closed")),
    }
}

// Adds whether there is the file.
fn push_there(rt: HostRuntime, out: &mut String) -> Result<(), Fault> {
    match fs::exists(&rt, PATH) {
        Ok(there) => push_words(if there { "yes" } else { "no" }, out),
        Err(_) => Err(refuse("not known")),
    }
}

impl CallsOf<Two> for Calls {
    fn call(alloc: Global, called: &mut Two, text: &str, out: &mut String) -> Result<(), Fault> {
        let (whose, rest) = first_word(text);
        match whose {
            "first" => push_of(alloc, &mut called.first, rest, out),
            "second" => push_of(alloc, &mut called.second, rest, out),
            "there" => push_there(called.rt, out),
            _ => Err(refuse("no such call")),
        }
    }
}

// The calls of two disks over the file.
fn push_two(rt: HostRuntime, calls: &str, out: &mut String) -> Result<(), Fault> {
    let mut two = Two {
        rt,
        first: Some(disk_of(rt)?),
        second: Some(disk_of(rt)?),
    };
    push_calls::<Calls, _>(rt.alloc(), &mut two, calls, out)
}

/// `CALLS`: the calls, between ` / `, of two disks over one real file, which is missing at first: `first CALL`,
/// `second CALL`, where a CALL is one of any disk or `close`, and `there`, whether there is the file. It is removed
/// then.
pub(crate) fn push_files(rt: HostRuntime, calls: &str, out: &mut String) -> Result<(), Fault> {
    let _ = fs::remove_file(&rt, PATH);
    push_two(rt, calls, out)?;
    let _ = fs::remove_file(&rt, PATH);
    Ok(())
}
