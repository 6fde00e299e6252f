//! The lines of the script of a seed and a number of turns, made without their text.
ghost use Rattle.std.specs.Prelude.{◌≡◌, ◌++◌, ◌<◌, ◌≤◌, IfOk, IfSome, OnOk, length, ℕ};
ghost use Rattle.pm_types.specs.declared.limits.TheConstants.{REGISTERS};
ghost use Rattle.pm_make.specs.Drawing.{IsDrawn};
ghost use Rattle.pm_make.specs.Made.{asks, two_bytes, name_of, new_line, store_line, root_lines, turn_lines, checkpoint_lines, thousandth_lines, last_lines, made_lines};

use crate::drawing::{Draws, Turn};
use itoa::Buffer;
use pm_script::Line;
use pm_types::{Bytes, Cmd, MOST_TURNS, Name, NameFault, NoMemory, Reg};
use std::alloc::Global;

// Client 0 asks this.
fn asks(cmd: Cmd) -> Line
    ensures { result ≡ asks cmd }
{
    Line::Client { client: 0, cmd }
}

// The register of a number.
fn register(number: u32) -> Reg
    requires { number < REGISTERS }
    ensures { result ≡ number }
{
    let Some(reg) = Reg::new(number) else {
        unreachable!()
    };
    reg
}

// The two bytes of a number, the high one first.
fn two_bytes(alloc: Global, number: u32) -> Result<Bytes, NoMemory>
    requires { number < 65536 }
    ensures { IfOk result (λ bytes. bytes ≡ two_bytes number) }
{
    let bytes = [(number / 256) as u8, (number % 256) as u8];
    Ok(Bytes::from_vec(bytes.as_slice().to_vec(alloc)?))
}

// The name of a number.
#[tactic(auto, using(crate::proofs::Names::no_fault))]
fn name_of(alloc: Global, number: u32) -> Result<Name, NoMemory>
    requires { number < 16 }
    ensures { IfOk result (λ name. name ≡ name_of number) }
{
    let mut buffer = Buffer::new();
    let digits = buffer.format(number).as_bytes();
    let mut bytes = Vec::with_capacity(alloc, 1 + digits.len())?;
    bytes.push(b'n')?;
    bytes.extend_from_slice(digits)?;
    match Name::read(alloc, bytes.as_slice()) {
        Ok(name) => Ok(name),
        Err(NameFault::Memory(refused)) => Err(refused),
        Err(_) => unreachable!(),
    }
}

// The line that makes an object.
fn new_line(alloc: Global, turn: &Turn) -> Result<Line, NoMemory>
    requires { IsDrawn turn.now }
    ensures { IfOk result (λ line. line ≡ new_line turn.now) }
{
    Ok(asks(Cmd::New {
        reg: register(turn.register),
        count: 4,
        bytes: two_bytes(alloc, turn.bytes)?,
    }))
}

// The line that sets one of its fields.
fn store_line(turn: &Turn) -> Line
    requires { IsDrawn turn.now }
    ensures { result ≡ store_line turn.now }
{
    asks(Cmd::Store {
        reg: register(turn.register),
        index: turn.index,
        value: register(turn.value),
    })
}

// Adds the line that binds a name to it, where the turn binds one.
fn add_root(
    alloc: Global,
    lines: &mut Vec<Line>,
    name: Option<u32>,
    reg: Reg,
) -> Result<(), NoMemory>
    requires { IfSome name (λ name. name < 16) }
    ensures { OnOk result (lines.new.items ≡ lines.old.items ++ root_lines name reg) }
{
    if let Some(number) = name {
        let name = name_of(alloc, number)?;
        lines.push(asks(Cmd::Bind { name, reg }))?;
    }
    Ok(())
}

// Adds the lines of a turn.
fn add_turn(alloc: Global, lines: &mut Vec<Line>, turn: &Turn) -> Result<(), NoMemory>
    requires { IsDrawn turn.now }
    ensures { OnOk result (lines.new.items ≡ lines.old.items ++ turn_lines turn.now) }
{
    lines.push(new_line(alloc, turn)?)?;
    lines.push(store_line(turn))?;
    add_root(alloc, lines, turn.name, register(turn.register))?;
    lines.push(Line::Gc(3))?;
    Ok(())
}

// Adds the lines of a checkpoint.
fn add_checkpoint(lines: &mut Vec<Line>) -> Result<(), NoMemory>
    ensures { OnOk result (lines.new.items ≡ lines.old.items ++ checkpoint_lines) }
{
    lines.push(asks(Cmd::Save))?;
    lines.push(asks(Cmd::Settle))?;
    Ok(())
}

// Adds the lines that stand behind each thousandth turn.
fn add_thousandth(lines: &mut Vec<Line>, turn: u32) -> Result<(), NoMemory>
    ensures { OnOk result (lines.new.items ≡ lines.old.items ++ thousandth_lines turn) }
{
    if turn % 1000 == 0 {
        add_checkpoint(lines)?;
    }
    Ok(())
}

// Adds the lines that stand behind all turns.
fn add_last(lines: &mut Vec<Line>) -> Result<(), NoMemory>
    ensures { OnOk result (lines.new.items ≡ lines.old.items ++ last_lines) }
{
    add_checkpoint(lines)?;
    lines.push(asks(Cmd::Watch))?;
    lines.push(asks(Cmd::Close))?;
    lines.push(Line::Gc(1000))?;
    Ok(())
}

// So many lines a script of so many turns has at most, whatever its seed.
fn most_lines(turns: u32) -> usize
    requires { turns ≤ MOST_TURNS }
    ensures { (seed : ℕ) → length (made_lines seed turns) ≤ result }
{
    (4 * turns + 2 * (turns / 1000) + 5) as usize
}

/// The lines of the script of this seed and this many turns, at most 16,000: 64,037 lines at most, for which room is
/// taken at once. They are those that the text of `make` spells.
pub fn make_lines(alloc: Global, seed: u32, turns: u32) -> Result<Vec<Line>, NoMemory>
    requires { turns ≤ MOST_TURNS }
    ensures { IfOk result (λ lines. lines.items ≡ made_lines seed turns) }
{
    let mut lines = Vec::with_capacity(alloc, most_lines(turns))?;
    let mut draws = Draws::new(seed);
    for turn in 0..turns {
        let drawn = draws.turn();
        add_turn(alloc, &mut lines, &drawn)?;
        add_thousandth(&mut lines, turn + 1)?;
    }
    add_last(&mut lines)?;
    Ok(lines)
}
