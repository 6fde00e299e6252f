ghost use Rattle.std.specs.Prelude.{◌≡◌, ◌++◌, ◌∷◌, OnOk, decimal};
ghost use Rattle.std.specs.List.{flat_map};
ghost use Rattle.pm_inspect.specs.Report.{line};

use itoa::Buffer;
use pm_types::NoMemory;

// Appends a space and a number in decimal digits.
fn append_column(out: &mut Vec<u8>, column: u64) -> Result<(), NoMemory>
    ensures { OnOk result (out.new.items ≡ out.old.items ++ 32 ∷ decimal column) }
{
    let mut buffer = Buffer::new();
    out.extend_from_slice(b" ")?;
    out.extend_from_slice(buffer.format(column).as_bytes())?;
    Ok(())
}

// Appends columns.
fn append_columns(out: &mut Vec<u8>, columns: &[u64]) -> Result<(), NoMemory>
    ensures { OnOk result (out.new.items ≡ out.old.items ++ flat_map (λ column. 32 ∷ decimal column) columns.now) }
{
    for column in columns {
        append_column(out, *column)?;
    }
    Ok(())
}

/// Appends a line: a word, and its columns.
pub(crate) fn append_line(out: &mut Vec<u8>, word: &[u8], columns: &[u64]) -> Result<(), NoMemory>
    ensures { OnOk result (out.new.items ≡ out.old.items ++ line word.now columns.now) }
{
    out.extend_from_slice(word)?;
    append_columns(out, columns)?;
    out.extend_from_slice(b"\n")?;
    Ok(())
}
