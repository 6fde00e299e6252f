//! Commands that write one text.
ghost use Rattle.std.specs.Prelude.{◌≡◌, ◌++◌, ℕ, List, Some, length, OnOk, OnErr};
ghost use Rattle.pm_types.specs.Counts.{Rose};
ghost use Rattle.pm_serial.specs.Output.Writing.{PutsAll, PutsPart};
ghost use Rattle.pm_runs.specs.Ends.Ends.{ShowsWriting};
ghost use Rattle.pm_runs.specs.Ends.Wrote.{IsWriting, WroteText};

use crate::ends::Detail;
use pm_io::{Failed, Sink};

// Puts a text, and finishes the sink.
fn put_text<K: Sink>(sink: &mut K, text: &[u8]) -> Result<(), Failed>
    ensures all { OnOk result (PutsAll (K.written sink.old) (K.written sink.new) text.now) }
    ensures finished { OnOk result ((bytes : List ℕ) → K.written sink.old ≡ Some bytes
        → K.finished sink.new ≡ length (bytes ++ text.now)) }
    ensures part { OnErr result (PutsPart (K.written sink.old) (K.written sink.new) text.now) }
    ensures counted { OnOk result (K.count sink.new ≡ K.count sink.old) }
    ensures cause { OnErr result (Rose (K.count sink.old) (K.count sink.new)) }
{
    sink.put(text)?;
    sink.finish()
}

/// Writes a text and finishes it, and answers how the command ends that was to write it: with `Fine`, or with `Writing`
/// where the sink failed.
pub fn write_text<K: Sink>(sink: &mut K, text: &[u8]) -> Detail
    ensures ends { IsWriting result }
    ensures wrote { WroteText K.Sink sink.old sink.new text.now result }
    ensures cause { ShowsWriting result (K.count sink.old) (K.count sink.new) }
{
    let before = sink.faults();
    match put_text(sink, text) {
        Ok(()) => Detail::Fine,
        Err(_) => {
            let after = sink.faults();
            Detail::Writing { before, after }
        }
    }
}
