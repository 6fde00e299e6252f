//! Laws and examples of the generator. Each function's contract is the law, and the function does nothing.
ghost use Rattle.std.specs.Prelude.{◌≡◌, ◌≤◌, ℕ, length};
ghost use Rattle.pm_script.specs.Script.{IsScript};
ghost use Rattle.pm_types.specs.declared.limits.TheConstants.{MOST_TURNS};
ghost use Rattle.pm_make.specs.Drawing.{after};
ghost use Rattle.pm_make.specs.Made.{made_lines, made_text};
ghost use Rattle.pm_make.specs.Example.{one_turn};

use pm_script::spelled_lines_are_read_again;

/// A law of the generator: the text of a seed and at most 16,000 turns is a script of just the lines that it was made
/// of, and these are 64,037 at most.
pub fn a_seed_gives_a_script()
    ensures script { (seed turns : ℕ) → turns ≤ MOST_TURNS → IsScript (made_text seed turns) (made_lines seed turns) }
    ensures few { (seed turns : ℕ) → turns ≤ MOST_TURNS → length (made_lines seed turns) ≤ 64037 }
{
    spelled_lines_are_read_again();
}

/// An example: the first five states from seed 1.
pub fn the_first_draws_from_seed_one()
    ensures first { after 1 1 ≡ 69070 }
    ensures second { after 2 1 ≡ 475628535 }
    ensures third { after 3 1 ≡ 3277404108 }
    ensures fourth { after 4 1 ≡ 772999773 }
    ensures fifth { after 5 1 ≡ 3877832058 }
{}

/// An example: the script of one turn from seed 1.
pub fn one_turn_from_seed_one()
    ensures { made_text 1 1 ≡ one_turn }
{}
