//! Commands that are drawn.

ghost use Rattle.std.specs.Prelude.{◌≡◌, true, IfOk};
ghost use Rattle.pm_view.specs.Commands.{is_act};

use pm_case_text::{Fault, refuse};
use pm_types::{Bytes, Cmd, Name, Reg};
use std::alloc::Global;

/// The next draw. A linear congruence: x times 69,069 and 1, modulo 2^32, from 1 on.
pub(crate) fn next_draw(draw: u32) -> u32 {
    draw.wrapping_mul(69069).wrapping_add(1)
}

// So many bytes, each of them this one.
fn bytes(alloc: Global, count: u32, byte: u8) -> Result<Bytes, Fault> {
    Ok(Bytes::from_vec(vec![in alloc; byte; count as usize]?))
}

/// One of four names.
pub(crate) fn name(alloc: Global, number: u32) -> Result<Name, Fault> {
    let letter = b'a'.saturating_add((number % 4) as u8);
    Name::read(alloc, &[letter]).ok().ok_or(refuse("Name"))
}

// What a draw chooses beside the command, each number one of 0 to 3.
#[derive(Clone, Copy)]
struct Choice {
    reg: Reg,
    other: Reg,
    third: Reg,
    index: u32,
    count: u32,
    byte: u8,
}

// What a draw chooses, from bit 26 down.
fn chosen(draw: u32) -> Option<Choice> {
    match (
        Reg::new((draw >> 25) % 4),
        Reg::new((draw >> 23) % 4),
        Reg::new((draw >> 21) % 4),
    ) {
        (Some(reg), Some(other), Some(third)) => Some(Choice {
            reg,
            other,
            third,
            index: (draw >> 19) % 4,
            count: (draw >> 17) % 4,
            byte: ((draw >> 9) % 256) as u8,
        }),
        _ => None,
    }
}

// A command on registers and fields.
fn on_fields(kind: u32, it: Choice) -> Cmd
    ensures { is_act result ≡ true }
{
    let (reg, index) = (it.reg, it.index);
    match kind {
        0 => Cmd::Load {
            to: it.other,
            reg,
            index,
        },
        1 | 2 => Cmd::Store {
            reg,
            index,
            value: it.other,
        },
        3 => Cmd::Clear { reg, index },
        4 => Cmd::Swap {
            reg,
            index,
            old: it.other,
            value: it.third,
        },
        5 => Cmd::Copy { to: it.other, reg },
        _ => Cmd::IdOf { reg },
    }
}

// A birth of an object of one to four fields, and of up to three times so many bytes.
fn birth(alloc: Global, it: Choice, size: u32) -> Result<Cmd, Fault>
    ensures { IfOk result (λ cmd. is_act cmd ≡ true) }
{
    Ok(Cmd::New {
        reg: it.reg,
        count: it.count.saturating_add(1),
        bytes: bytes(alloc, it.index.saturating_mul(size), it.byte)?,
    })
}

// A command on bytes and names.
fn on_names(alloc: Global, kind: u32, it: Choice) -> Result<Cmd, Fault>
    ensures { IfOk result (λ cmd. is_act cmd ≡ true) }
{
    let (reg, index) = (it.reg, it.index);
    Ok(match kind {
        0 => Cmd::Show { reg },
        1 => Cmd::Put {
            reg,
            at: index,
            bytes: bytes(alloc, it.count, it.byte)?,
        },
        2 => Cmd::Bind {
            name: name(alloc, index)?,
            reg,
        },
        3 if it.count == 0 => Cmd::Unbind {
            name: name(alloc, index)?,
        },
        _ => Cmd::Find {
            to: reg,
            name: name(alloc, index)?,
        },
    })
}

// The command of a draw that chooses this beside it.
fn command_of(alloc: Global, kind: u32, it: Choice, size: u32) -> Result<Cmd, Fault>
    ensures { IfOk result (λ cmd. is_act cmd ≡ true) }
{
    match kind {
        0..=6 => Ok(on_fields(kind, it)),
        7 if it.count == 0 => Ok(Cmd::Forget { reg: it.reg }),
        10..=14 => on_names(alloc, kind - 10, it),
        15 if it.count == 0 && it.index == 0 => Ok(Cmd::Close),
        _ => birth(alloc, it, size),
    }
}

/// The command of a draw, chosen by its four highest bits, and a client beside it, 0 or 1. What is born has up to three
/// times so many bytes.
pub(crate) fn command(alloc: Global, draw: u32, size: u32) -> Result<Cmd, Fault>
    ensures { IfOk result (λ cmd. is_act cmd ≡ true) }
{
    match chosen(draw) {
        Some(it) => command_of(alloc, draw >> 28, it, size),
        None => Err(refuse("Register")),
    }
}
