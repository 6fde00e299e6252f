//! The script of a run: the source is read to its end, and its bytes are read as a script.
ghost use Rattle.std.specs.Prelude.{◌≡◌, ◌≤◌, ◌⊎◌, ℕ, List, [], length, IfOk, IfErr, Ok, Err, Some};
ghost use Rattle.pm_script.specs.declared.fault.ScriptFault.{ScriptFault as Fault};
ghost use Rattle.pm_script.specs.declared.fault.ScriptFault.TheVariants as script_fault;
ghost use Rattle.pm_script.specs.declared.line.Line.{Line as Says};
ghost use Rattle.pm_script.specs.declared.line.YoungLine.{YoungLine as YoungSays};
ghost use Rattle.pm_script.specs.Bad.{IsBad, IsYoungBad};
ghost use Rattle.pm_script.specs.Reading.{Answers};
ghost use Rattle.pm_script.specs.Script.{IsScript};
ghost use Rattle.pm_script.specs.Young.{IsYoungScript};
ghost use Rattle.pm_script.specs.Parted.Asked.{events_asked};
ghost use Rattle.pm_runs.specs.Ends.Ends.{ShowsReading, not_read};
ghost use Rattle.pm_runs.specs.Ends.Journals.{EndsReading, StopsReading};
ghost use Rattle.pm_runs.specs.Young.Journals.{StopsYoung};
ghost use Rattle.pm_young_run.specs.Asked.{as_lines};
ghost use Rattle.pm_types.specs.Counts.{greatest_count};
ghost use Rattle.pm_types.specs.Memory.{no_memory};

use crate::ends::Detail;
use pm_io::{ReadAll, Source, read_all};
use pm_script::{Script, ScriptFault, YoungScript, read_script, read_young};
use pm_types::SOURCE_BYTES;
use std::alloc::Global;

// How the program ends where a script is not read.
fn not_read(fault: ScriptFault) -> Detail
    ensures { result ≡ not_read fault }
{
    match fault {
        ScriptFault::Memory(refused) => Detail::Memory {
            opened: false,
            refused,
        },
        fault => Detail::Script(fault),
    }
}

// The lines that the bytes spell, by the clauses of `read_script`. The bytes are let go.
fn read_lines(alloc: Global, bytes: Vec<u8>) -> Result<Script, ScriptFault>
    requires { length bytes.items ≤ SOURCE_BYTES }
    ensures found { IfOk result (λ script. IsScript bytes.items script) }
    ensures only { (lines : List Says) → IsScript bytes.items lines → Answers result (Ok lines) }
    ensures bad { IfErr result (λ fault. (fault ≡ script_fault.Memory no_memory) ⊎ IsBad fault bytes.items) }
    ensures told { (fault : Fault) → IsBad fault bytes.items → Answers result (Err fault) }
{
    read_script(alloc, bytes.as_slice())
}

/// Reads the source to its end, as a script, or says how the program ends.
pub fn read_source<S: Source>(alloc: Global, source: &mut S) -> Result<Script, Detail>
    ensures emptied { IfOk result (λ script. (bytes : List ℕ) → S.left source.old ≡ Some bytes
        → S.left source.new ≡ Some []) }
    ensures found { IfOk result (λ script. (bytes : List ℕ) → S.left source.old ≡ Some bytes
        → IsScript bytes script) }
    // No count comes to its end over the lines of a script.
    ensures few { IfOk result (λ script. events_asked script ≤ greatest_count) }
    ensures counted { IfOk result (λ script. S.count source.new ≡ S.count source.old) }
    ensures ends { IfErr result EndsReading }
    ensures stops { IfErr result (λ detail. (bytes : List ℕ) → S.left source.old ≡ Some bytes
        → StopsReading bytes detail) }
    ensures cause { IfErr result (λ detail. ShowsReading detail (S.count source.old) (S.count source.new)) }
{
    let before = source.faults();
    match read_all(alloc, source) {
        Ok(bytes) => match read_lines(alloc, bytes) {
            Ok(script) => Ok(script),
            Err(fault) => Err(not_read(fault)),
        },
        Err(ReadAll::TooLong) => Err(Detail::Script(ScriptFault::TooLong)),
        Err(ReadAll::Memory(refused)) => Err(Detail::Memory {
            opened: false,
            refused,
        }),
        Err(ReadAll::Failed) => {
            let after = source.faults();
            Err(Detail::Reading { before, after })
        }
    }
}

// The same of a script for a run with a nursery.
fn read_young_lines(alloc: Global, bytes: Vec<u8>) -> Result<YoungScript, ScriptFault>
    requires { length bytes.items ≤ SOURCE_BYTES }
    ensures found { IfOk result (λ script. IsYoungScript bytes.items script) }
    ensures only { (lines : List YoungSays) → IsYoungScript bytes.items lines → Answers result (Ok lines) }
    ensures bad { IfErr result (λ fault. (fault ≡ script_fault.Memory no_memory) ⊎ IsYoungBad fault bytes.items) }
    ensures told { (fault : Fault) → IsYoungBad fault bytes.items → Answers result (Err fault) }
{
    read_young(alloc, bytes.as_slice())
}

/// Reads the source to its end, as a script for a run with a nursery, or says how the program ends.
pub fn read_young_source<S: Source>(alloc: Global, source: &mut S) -> Result<YoungScript, Detail>
    ensures emptied { IfOk result (λ script. (bytes : List ℕ) → S.left source.old ≡ Some bytes
        → S.left source.new ≡ Some []) }
    ensures found { IfOk result (λ script. (bytes : List ℕ) → S.left source.old ≡ Some bytes
        → IsYoungScript bytes script) }
    // No count comes to its end over the lines of a script.
    ensures few { IfOk result (λ script. events_asked (as_lines script) ≤ greatest_count) }
    ensures counted { IfOk result (λ script. S.count source.new ≡ S.count source.old) }
    ensures ends { IfErr result EndsReading }
    ensures stops { IfErr result (λ detail. (bytes : List ℕ) → S.left source.old ≡ Some bytes
        → StopsYoung bytes detail) }
    ensures cause { IfErr result (λ detail. ShowsReading detail (S.count source.old) (S.count source.new)) }
{
    let before = source.faults();
    match read_all(alloc, source) {
        Ok(bytes) => match read_young_lines(alloc, bytes) {
            Ok(script) => Ok(script),
            Err(fault) => Err(not_read(fault)),
        },
        Err(ReadAll::TooLong) => Err(Detail::Script(ScriptFault::TooLong)),
        Err(ReadAll::Memory(refused)) => Err(Detail::Memory {
            opened: false,
            refused,
        }),
        Err(ReadAll::Failed) => {
            let after = source.faults();
            Err(Detail::Reading { before, after })
        }
    }
}
