//! `pm_cases`: reads cases from standard input, of the whole program and of its parts, and prints what they gave.
//! `docs/TESTS.md` says how a case is written.
#![tactic(auto)]

mod case;
mod parts;

use parts::Cases;
use pm_case_text::push_refused;
use std::alloc::AllocError;
use std::io::{self, BufRead, BufReader};
use std::sync::Wait;
use std::thread::Threads;

// Takes a line, and adds what it gives, or why it was not done.
fn push_line<R: AllocGlobal + Threads + Wait + Sync>(
    rt: &R,
    cases: &mut Cases,
    line: &str,
    out: &mut String,
) -> Result<(), AllocError> {
    match cases.take(rt, line, out) {
        Ok(()) => Ok(()),
        Err(fault) => push_refused(fault, line, out),
    }
}

fn main(rt: HostRuntime) -> io::Result<()> {
    let alloc = rt.alloc();
    let Ok(mut cases) = Cases::new(rt) else {
        return print!(rt; "? no memory\n");
    };
    for line in BufReader::new(alloc, rt.reader())?.lines(alloc) {
        let line = line?;
        let mut out = String::new(alloc);
        push_line(&rt, &mut cases, line.as_str(), &mut out)?;
        print!(rt; "{out}")?;
    }
    Ok(())
}
