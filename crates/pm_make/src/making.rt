ghost use Rattle.std.specs.Prelude.{◌≡◌, ◌≤◌, IfOk};
ghost use Rattle.pm_make.specs.Made.{made_text};

use crate::drawing::Draws;
use crate::lines::{append_last, append_thousandth, append_turn};
use pm_types::{MOST_TURNS, NoMemory};
use std::alloc::Global;

/// The script of this seed and this many turns, at most 16,000. The same seed and number give the same bytes always.
pub fn make(alloc: Global, seed: u32, turns: u32) -> Result<Vec<u8>, NoMemory>
    requires { turns ≤ MOST_TURNS }
    ensures { IfOk result (λ bytes. bytes.items ≡ made_text seed turns) }
{
    let mut out = Vec::new(alloc);
    let mut draws = Draws::new(seed);
    for turn in 0..turns {
        let drawn = draws.turn();
        append_turn(&mut out, &drawn)?;
        append_thousandth(&mut out, turn + 1)?;
    }
    append_last(&mut out)?;
    Ok(out)
}
