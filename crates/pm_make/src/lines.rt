ghost use Rattle.std.specs.Prelude.{◌≡◌, ◌++◌, ◌∷◌, [], ◌<◌, OnOk, decimal};
ghost use Rattle.pm_model.specs.Text.{pairs};
ghost use Rattle.pm_script.specs.Script.{text_of};
ghost use Rattle.pm_make.specs.Made.{two_bytes, new_line, store_line, root_lines, turn_lines, checkpoint_lines, thousandth_lines, last_lines};

use crate::drawing::Turn;
use itoa::Buffer;
use pm_types::NoMemory;

// Appends bytes.
fn append(out: &mut Vec<u8>, bytes: &[u8]) -> Result<(), NoMemory>
    ensures { OnOk result (out.new.items ≡ out.old.items ++ bytes.now) }
{
    out.extend_from_slice(bytes)?;
    Ok(())
}

// Appends a number in decimal digits.
fn append_number(out: &mut Vec<u8>, number: u32) -> Result<(), NoMemory>
    ensures { OnOk result (out.new.items ≡ out.old.items ++ decimal number) }
{
    let mut buffer = Buffer::new();
    append(out, buffer.format(number).as_bytes())
}

// Appends the two bytes of a number as pairs of digits.
fn append_pairs(out: &mut Vec<u8>, number: u32) -> Result<(), NoMemory>
    requires { number < 65536 }
    ensures { OnOk result (out.new.items ≡ out.old.items ++ pairs (two_bytes number)) }
{
    let bytes = [(number / 256) as u8, (number % 256) as u8];
    let mut digits = [0; 4];
    let Ok(()) = hex::encode_to_slice(bytes.as_slice(), &mut digits) else {
        unreachable!()
    };
    append(out, &digits)
}

// Appends the line that makes an object.
fn append_new(out: &mut Vec<u8>, turn: &Turn) -> Result<(), NoMemory>
    requires { turn.now.bytes < 65536 }
    ensures { OnOk result (out.new.items ≡ out.old.items ++ text_of (new_line turn.now ∷ [])) }
{
    append(out, b"0 new ")?;
    append_number(out, turn.register)?;
    append(out, b" 4 ")?;
    append_pairs(out, turn.bytes)?;
    append(out, b"\n")
}

// Appends the line that sets one of its fields.
fn append_store(out: &mut Vec<u8>, turn: &Turn) -> Result<(), NoMemory>
    ensures { OnOk result (out.new.items ≡ out.old.items ++ text_of (store_line turn.now ∷ [])) }
{
    append(out, b"0 store ")?;
    append_number(out, turn.register)?;
    append(out, b" ")?;
    append_number(out, turn.index)?;
    append(out, b" ")?;
    append_number(out, turn.value)?;
    append(out, b"\n")
}

// Appends the line that binds a name to it, where the turn binds one.
fn append_root(out: &mut Vec<u8>, name: Option<u32>, register: u32) -> Result<(), NoMemory>
    ensures { OnOk result (out.new.items ≡ out.old.items ++ text_of (root_lines name register)) }
{
    let Some(name) = name else {
        return Ok(());
    };
    append(out, b"0 root n")?;
    append_number(out, name)?;
    append(out, b" ")?;
    append_number(out, register)?;
    append(out, b"\n")
}

/// Appends the lines of a turn.
pub(crate) fn append_turn(out: &mut Vec<u8>, turn: &Turn) -> Result<(), NoMemory>
    requires { turn.now.bytes < 65536 }
    ensures { OnOk result (out.new.items ≡ out.old.items ++ text_of (turn_lines turn.now)) }
{
    append_new(out, turn)?;
    append_store(out, turn)?;
    append_root(out, turn.name, turn.register)?;
    append(out, b"! gc 3\n")
}

// Appends the lines of a checkpoint.
fn append_checkpoint(out: &mut Vec<u8>) -> Result<(), NoMemory>
    ensures { OnOk result (out.new.items ≡ out.old.items ++ text_of checkpoint_lines) }
{
    append(out, b"0 save\n0 settle\n")
}

/// Appends the lines that stand behind each thousandth turn.
pub(crate) fn append_thousandth(out: &mut Vec<u8>, turn: u32) -> Result<(), NoMemory>
    ensures { OnOk result (out.new.items ≡ out.old.items ++ text_of (thousandth_lines turn)) }
{
    if turn % 1000 == 0 {
        append_checkpoint(out)?;
    }
    Ok(())
}

/// Appends the lines that stand behind all turns.
pub(crate) fn append_last(out: &mut Vec<u8>) -> Result<(), NoMemory>
    ensures { OnOk result (out.new.items ≡ out.old.items ++ text_of last_lines) }
{
    append_checkpoint(out)?;
    append(out, b"0 watch\n0 close\n! gc 1000\n")
}
