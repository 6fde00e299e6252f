//! Bytes that only proofs read: what is kept of them at run time is the last one.

ghost use Rattle.std.specs.Prelude.{◌≡◌, [], ◌∷◌, ◌++◌};
ghost use Rattle.pm_runs.specs.Trial.Told.{bytes_of};

use std::snapshot::Snapshot;

/// Bytes, one behind another. It takes no memory: a snapshot has no bytes, and only clauses read what it shows.
#[derive(Drop)]
pub(crate) enum Told {
    /// None.
    Nothing,
    /// These, and one more behind them.
    Byte(Snapshot<Told>, u8),
}

// Tells one more byte.
fn tell_byte(told: &mut Told, byte: u8)
    ensures { bytes_of told.new ≡ bytes_of told.old ++ byte ∷ [] }
{
    *told = Told::Byte(Snapshot::of(told), byte);
}

/// Tells these bytes behind those told before.
pub(crate) fn tell(told: &mut Told, bytes: &[u8])
    ensures { bytes_of told.new ≡ bytes_of told.old ++ bytes.now }
{
    for byte in bytes {
        tell_byte(told, *byte);
    }
}
