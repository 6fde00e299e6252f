ghost use Rattle.std.specs.Prelude.{◌≡◌, ◌<◌, ℕ};
ghost use Rattle.pm_turns.specs.declared.limits.TheConstants.{WORKERS};
ghost use Rattle.pm_turns.specs.declared.turn.Turn.{Turn};

use crate::Turn;
use std::alloc::Global;

/// A value that workers take turns at.
pub trait Turned {
    /// What is known of a value wherever it goes. No value of this type is made.
    type Tie;

    /// The tie of a value. No turn changes it.
    ghost tie: { Self → Self.Tie };

    /// What is true of a value between two turns.
    ghost sound: { Self → Type 0 };

    /// What a turn of a worker makes of a value, by what it says: the value before, the value after, the worker.
    ghost turn: { Self → Self → ℕ → Turn → Type 0 };

    /// Makes the next turn of this worker. No other worker has the value meanwhile.
    fn take_turn(&mut self, alloc: Global, who: u32) -> Turn
        requires who { who < WORKERS }
        requires sound { sound self.old }
        ensures sound { sound self.new }
        ensures tie { tie self.new ≡ tie self.old }
        ensures does { turn self.old self.new who result };
}
