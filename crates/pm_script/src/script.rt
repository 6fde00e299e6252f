ghost use Rattle.std.specs.Prelude.{◌≡◌, ◌≤◌, List, length, IfOk, IfErr, Ok, Err, ◌⊎◌};
ghost use Rattle.pm_types.specs.declared.limits.TheConstants.{SOURCE_BYTES};
ghost use Rattle.pm_script.specs.declared.fault.ScriptFault.{ScriptFault as Fault};
ghost use Rattle.pm_script.specs.declared.fault.ScriptFault.TheVariants as script_fault;
ghost use Rattle.pm_script.specs.declared.line.Line.{Line as Says};
ghost use Rattle.pm_script.specs.Bad.{IsBad};
ghost use Rattle.pm_script.specs.Reading.{Answers};
ghost use Rattle.pm_script.specs.Script.{IsScript, AreLines};
ghost use Rattle.pm_types.specs.Memory.{no_memory};

use crate::fault::ScriptFault;
use crate::line::Line;
use crate::lines::read_all;
use std::alloc::Global;
use std::marker::Model;

/// The lines of a script that say something, in order, seen as a list of them. There are at most 65,536, and each
/// client is one of 0 to 7.
#[derive(Debug, Drop)]
pub struct Script {
    lines: Vec<Line>,
}

impl Model for Script {
    ghost use Rattle.std.specs.Prelude.{List};
    ghost use Rattle.pm_script.specs.declared.line.Line.{Line as Says};
    ghost use Rattle.pm_script.specs.Script.{AreLines};

    ghost Value = { List Says };

    ghost view = { λ script. script.lines.items };

    ghost invariant = { λ script. AreLines script.lines.items };
}

impl Script {
    /// These lines, of which there are at most 65,536, each with a client below 8.
    pub fn from_vec(lines: Vec<Line>) -> Self
        requires { AreLines lines.items }
        ensures { result ≡ lines.items }
    {
        Script { lines }
    }

    /// The lines, lent.
    pub fn as_slice(&self) -> &[Line]
        ensures lines { result.now ≡ self.now }
        ensures few { AreLines self.now }
    {
        self.lines.as_slice()
    }

    /// The lines, given up: at most 65,536, each with a client of 0 to 7.
    pub fn into_lines(self) -> Vec<Line>
        ensures lines { result.items ≡ self }
        ensures clients { AreLines result.items }
    {
        self.lines
    }
}

/// The lines that the bytes spell, of those that say something. There are at most 268,435,456 bytes. `Line` tells the
/// first bad line, `TooManyLines` that there are more than 65,536, which goes before; want of memory may come at any
/// time, and `TooLong` is never answered.
pub fn read_script(alloc: Global, bytes: &[u8]) -> Result<Script, ScriptFault>
    requires { length bytes.now ≤ SOURCE_BYTES }
    // What is read is what the bytes spell.
    ensures found { IfOk result (λ script. IsScript bytes.now script) }
    // What they spell is read, unless memory runs out.
    ensures only { (lines : List Says) → IsScript bytes.now lines → Answers result (Ok lines) }
    // A fault is the first that applies to the bytes, but that memory may run out at any time.
    ensures bad { IfErr result (λ fault. (fault ≡ script_fault.Memory no_memory) ⊎ IsBad fault bytes.now) }
    // The first that applies is told, unless memory runs out.
    ensures told { (fault : Fault) → IsBad fault bytes.now → Answers result (Err fault) }
{
    let lines = read_all(alloc, bytes)?;
    Ok(Script::from_vec(lines))
}
