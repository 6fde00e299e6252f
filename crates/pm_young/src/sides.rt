//! On which side the registers lie that a command reads.

ghost use Rattle.std.specs.Prelude.{◌≡◌};
ghost use Rattle.std.specs.FinMap.{get};
ghost use Rattle.pm_young.specs.Sides.{IsOnSide, side_both, side_held, side_of};

use pm_nursery::Nursery;
use pm_types::{Cmd, Reg};

/// Where the registers lie that a command reads.
#[derive(Clone, Copy, Debug, PartialEq, Eq)]
pub(crate) enum Side {
    /// None of them holds a young object.
    Within,
    /// Each of them does.
    Young,
    /// Some do, and others don't.
    Both,
}

// The side of one register.
fn side_of_one(nursery: &Nursery, client: u32, reg: Reg) -> Side
    ensures { result ≡ side_held (get nursery.now.registers (client, reg)) }
{
    match nursery.held(client, reg.number()) {
        Some(_) => Side::Young,
        None => Side::Within,
    }
}

// The side of two, of which each has its own.
fn joined(one: Side, other: Side) -> Side
    ensures { result ≡ side_both one other }
{
    match (one, other) {
        (Side::Within, Side::Within) => Side::Within,
        (Side::Young, Side::Young) => Side::Young,
        _ => Side::Both,
    }
}

/// Where the registers lie that a command reads: within, if it reads none.
pub(crate) fn side_of(nursery: &Nursery, client: u32, cmd: &Cmd) -> Side
    ensures side { result ≡ side_of nursery.now client cmd.now }
    ensures reads { IsOnSide nursery.now client cmd.now result }
{
    match cmd {
        Cmd::Load { reg, .. }
        | Cmd::Clear { reg, .. }
        | Cmd::Show { reg }
        | Cmd::Put { reg, .. }
        | Cmd::Copy { reg, .. }
        | Cmd::IdOf { reg }
        | Cmd::Forget { reg }
        | Cmd::Bind { reg, .. } => side_of_one(nursery, client, *reg),
        Cmd::Store { reg, value, .. } => joined(
            side_of_one(nursery, client, *reg),
            side_of_one(nursery, client, *value),
        ),
        Cmd::Swap {
            reg,
            old,
            value,
            ..
        } => joined(
            side_of_one(nursery, client, *reg),
            joined(
                side_of_one(nursery, client, *old),
                side_of_one(nursery, client, *value),
            ),
        ),
        _ => Side::Within,
    }
}
