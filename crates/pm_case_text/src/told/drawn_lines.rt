//! A script that is drawn.

use crate::{Fault, push_filled};
use std::alloc::Global;

// The next draw. A linear congruence: x times 69,069 and 1, modulo 2^32.
fn next_draw(draw: u64) -> u64 {
    draw.wrapping_mul(69069).wrapping_add(1) % 4_294_967_296
}

// The line of a command: its client, then a register and a name, which stand the other way round where one is bound. The
// name's number is also how many slots a new object has, and is in its bytes.
fn line_of(command: u64) -> &'static str {
    match command {
        0 => "% new % % -\n",
        1 => "% new % % 0%ff\n",
        2 => "% root n% %\n",
        3 => "% find % n%\n",
        4 => "% data %\n",
        5 => "% save\n",
        6 => "% settle\n",
        _ => "% id %\n",
    }
}

// Adds the line of a draw: bits 16 to 30 choose a client, a register, a name and a command.
fn push_line(draw: u64, script: &mut String) -> Result<(), Fault> {
    let client = (draw >> 16) % 8;
    let register = (draw >> 20) % 4;
    let name = (draw >> 24) % 5;
    let command = (draw >> 28) % 8;
    let (first, last) = if command == 2 {
        (name, register)
    } else {
        (register, name)
    };
    push_filled(line_of(command), &[client, first, last, last], script)
}

// Adds this many lines, each made by a draw; the first draw comes behind the seed.
fn push_drawn(script: &mut String, lines: u64, seed: u64) -> Result<(), Fault> {
    let mut draw = seed;
    for _ in 0..lines {
        draw = next_draw(draw);
        push_line(draw, script)?;
    }
    Ok(())
}

/// A script of this many lines, each made by a draw, from a seed on.
pub fn generated(alloc: Global, lines: u64, seed: u64) -> Result<String, Fault> {
    let mut script = String::new(alloc);
    push_drawn(&mut script, lines, seed)?;
    Ok(script)
}
