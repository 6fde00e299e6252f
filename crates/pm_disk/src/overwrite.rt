//! Bytes written over others.
ghost use Rattle.std.specs.Prelude.{◌≡◌, ◌+◌, ◌-◌, ◌^◌, ◌<◌, ◌≤◌, ◌++◌, length, take, drop, replicate, OnOk, OnErr};
ghost use Rattle.pm_disk.specs.Writes.{written};
ghost use Rattle.pm_disk.specs.Sound.{shown};

use std::alloc::{AllocError, Global};

/// Makes a file at least so long, by zeros at its end.
fn lengthen(file: &mut Vec<u8>, end: usize) -> Result<(), AllocError>
    ensures ok { OnOk result (file.new.items ≡ file.old.items ++ replicate (end - length file.old.items) 0) }
    ensures err { OnErr result (file.new.items ≡ file.old.items) }
{
    if end > file.len() {
        file.resize(end, 0)?;
    }
    Ok(())
}

/// Puts bytes in the place of those that are there.
fn lay(file: &mut [u8], from: usize, bytes: &[u8])
    requires { from + length bytes.now ≤ length file.old }
    ensures { file.new ≡ take from file.old ++ bytes.now ++ drop (from + length bytes.now) file.old }
{
    file[from..from + bytes.len()].copy_from_slice(bytes);
}

/// Writes over these bytes from place `at` on. Where memory is refused they stay as they were.

pub(crate) fn overwrite(file: &mut Vec<u8>, at: u64, bytes: &[u8]) -> Result<(), AllocError>
    requires { at + length bytes.now < 2 ^ 63 }
    ensures ok { OnOk result (file.new.items ≡ written at bytes.now file.old.items) }
    ensures err { OnErr result (file.new.items ≡ file.old.items) }
{
    if bytes.is_empty() {
        return Ok(());
    }
    let from = at as usize;
    lengthen(file, from + bytes.len())?;
    lay(file, from, bytes);
    Ok(())
}

/// The same of contents that are those at the start until the first write is made.
pub(crate) fn change(
    alloc: Global,
    start: &[u8],
    changed: &mut Option<Vec<u8>>,
    at: u64,
    bytes: &[u8],
) -> Result<(), AllocError>
    requires { at + length bytes.now < 2 ^ 63 }
    ensures ok { OnOk result (shown start.now changed.new ≡ written at bytes.now (shown start.now changed.old)) }
    ensures err { OnErr result (shown start.now changed.new ≡ shown start.now changed.old) }
{
    match changed {
        Some(file) => overwrite(file, at, bytes),
        None => {
            let mut file = start.to_vec(alloc)?;
            overwrite(&mut file, at, bytes)?;
            *changed = Some(file);
            Ok(())
        }
    }
}
