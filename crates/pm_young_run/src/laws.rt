//! Laws of what lines ask. Each function's contract is the law, and the function does nothing.

ghost use Rattle.std.specs.Prelude.{◌≡◌, ◌+◌, List};
ghost use Rattle.pm_script.specs.declared.line.YoungLine.{YoungLine as Says};
ghost use Rattle.pm_script.specs.Parted.Asked.{events_asked, flushes_asked, requests_asked, steps_asked};
ghost use Rattle.pm_young_run.specs.Asked.{as_lines, bases_of, sweeps_asked, young_events_asked};

/// A law of lines: those that ask for as much as these have the commands and the steps of the lines that these have,
/// and a page more for each sweep, and so as many events as these ask for.
pub fn sweeps_are_events()
    ensures requests { (lines : List Says) → requests_asked (as_lines lines) ≡ requests_asked (bases_of lines) }
    ensures steps { (lines : List Says) → steps_asked (as_lines lines) ≡ steps_asked (bases_of lines) }
    ensures flushes { (lines : List Says)
        → flushes_asked (as_lines lines) ≡ flushes_asked (bases_of lines) + sweeps_asked lines }
    ensures events { (lines : List Says) → events_asked (as_lines lines) ≡ young_events_asked lines }
{}
