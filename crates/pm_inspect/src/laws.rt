//! Examples worked out by hand. Each function's contract is the example, and the function does nothing.
ghost use Rattle.std.specs.Prelude.{◌≡◌, codes};
ghost use Rattle.pm_view.specs.Rows.{new_space};
ghost use Rattle.pm_inspect.specs.Example.{one_object};
ghost use Rattle.pm_inspect.specs.Report.{report_text};

/// An example: the report of a space in which nothing was ever made.
pub fn the_report_of_a_new_space()
    ensures { report_text new_space 0 ≡ codes "store 0 1 0\ntrain 1 0\ntotal 1 0 0\n" }
{}

/// An example: the report of a space that was opened from copy 1, in which one object has a name.
pub fn the_report_of_one_object()
    ensures { report_text one_object 1 ≡ codes "store 1 2 1\ntrain 1 1\ncar 1 1 0 57 1 0\ntrain 2 0\ntotal 2 1 1\n" }
{}
