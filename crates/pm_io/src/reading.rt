ghost use Rattle.std.specs.Prelude.{◌≡◌, ◌≢◌, ℕ, ◌+◌, ◌<◌, ◌≤◌, ◌↔◌, List, [], ◌++◌, length, vec_len, Some, IfOk, IfErr, OnOk, IsErrOf};
ghost use Rattle.pm_io.specs.Streams.{LeavesEnd};
ghost use Rattle.pm_io.specs.Reading.{CountsAs};
ghost use Rattle.pm_types.specs.Memory.{no_memory};

use crate::{Failed, Source};
use pm_types::{NoMemory, SOURCE_BYTES};
use std::alloc::{AllocError, Global};
use std::error::Error;
use std::fmt;

// How many bytes are asked for at a time.
const PIECE_BYTES: usize = 32_768;

/// A law of reading: 32,768 bytes are asked for at a time.
pub fn pieces_have_their_size()
    ensures { PIECE_BYTES ≡ 32768 }
{}

/// Why a source was not read to its end.
#[derive(Clone, Copy, Debug, PartialEq, Eq)]
pub enum ReadAll {
    /// The source failed.
    Failed,
    /// More than 268,435,456 bytes came.
    TooLong,
    /// Memory ran out.
    Memory(NoMemory),
}

impl fmt::Display for ReadAll {
    ghost use Rattle.std.specs.Prelude.{Some};
    ghost use Rattle.pm_io.specs.Reading.{text_of};

    ghost output = { λ why. Some (text_of why) };

    fn fmt<W: fmt::Write>(&self, f: &mut fmt::Formatter<W>) -> fmt::Result {
        match self {
            ReadAll::Failed => write!(f, "the source failed"),
            ReadAll::TooLong => write!(f, "the source is too long"),
            ReadAll::Memory(_) => write!(f, "no memory"),
        }
    }
}

impl Error for ReadAll {}

impl From<Failed> for ReadAll {
    ghost use Rattle.std.specs.Prelude.{◌≡◌};
    ghost use Rattle.pm_io.specs.declared.reading.ReadAll.TheVariants.{Failed};

    ghost from_gives = { λ _ why. why ≡ Failed };

    fn from(_e: Failed) -> ReadAll {
        ReadAll::Failed
    }
}

impl From<AllocError> for ReadAll {
    ghost use Rattle.std.specs.Prelude.{◌≡◌};
    ghost use Rattle.pm_io.specs.declared.reading.ReadAll.TheVariants.{Memory};
    ghost use Rattle.pm_types.specs.Memory.{no_memory};

    ghost from_gives = { λ _ why. why ≡ Memory no_memory };

    fn from(refused: AllocError) -> ReadAll {
        ReadAll::Memory(NoMemory::from(refused))
    }
}

// Appends a piece that came, unless that would be too long.
fn append(all: &mut Vec<u8>, piece: &[u8]) -> Result<(), ReadAll>
    requires { vec_len all.old ≤ SOURCE_BYTES }
    ensures ok { OnOk result (all.new.items ≡ all.old.items ++ piece.now) }
    ensures short { OnOk result (vec_len all.new ≤ SOURCE_BYTES) }
    ensures too_long { IsErrOf result ReadAll.TooLong
        ↔ (SOURCE_BYTES < vec_len all.old + length piece.now) }
    ensures not_failed { result ≢ Err ReadAll.Failed }
{
    if piece.len() > SOURCE_BYTES - all.len() {
        return Err(ReadAll::TooLong);
    }
    all.extend_from_slice(piece)?;
    Ok(())
}

/// Takes all bytes that are left in the source. It stops at the first failure that it meets, and asks
/// for no memory for a piece that is too long. However it ends, it has taken no more than 32,768 bytes past the
/// limit. After a failure the source has lost what was taken.
pub fn read_all<S: Source>(alloc: Global, source: &mut S) -> Result<Vec<u8>, ReadAll>
    // All that was left, and no more than the limit, whether the source tells or not.
    ensures all { IfOk result (λ v. (bytes : List ℕ) → S.left source.old ≡ Some bytes
        → v.items ≡ bytes) }
    ensures emptied { OnOk result ((bytes : List ℕ) → S.left source.old ≡ Some bytes
        → S.left source.new ≡ Some []) }
    ensures short { IfOk result (λ v. vec_len v ≤ SOURCE_BYTES) }
    ensures counted { OnOk result (S.count source.new ≡ S.count source.old) }

    // Why each failure comes, and what is left after it.
    ensures cause { IfErr result (λ why. CountsAs why (S.count source.old) (S.count source.new)) }
    ensures too_long { IsErrOf result ReadAll.TooLong → (bytes : List ℕ)
        → S.left source.old ≡ Some bytes → SOURCE_BYTES < length bytes }
    ensures rest { (bytes : List ℕ) → S.left source.old ≡ Some bytes
        → LeavesEnd bytes (SOURCE_BYTES + 32768) (S.left source.new) }
{
    let mut all = Vec::new(alloc);
    let mut piece = [0; PIECE_BYTES];
    loop {
        let n = source.take(&mut piece)?;
        if n == 0 {
            return Ok(all);
        }
        append(&mut all, &piece[..n])?;
    }
}
