ghost use Rattle.pm_turns.specs.Views.{seated, spent};
ghost use Rattle.pm_turns.specs.Rule.{IsKept, TakesOut, PutsBack};

use crate::Turned;
use atomic_table::{Join, Play, Split, TableRule};
use std::snapshot::Snapshot;

/// What a seat knows of the value: its tie, or nothing once another seat took it in. No value of this type is made.
pub struct View<T> {
    pub tie: Option<T>,
}

/// The rule of the table in which the value lies: at home it is sound, and has the tie that each view knows.
pub struct AtHome;

impl<B: Turned> TableRule<Option<B>, View<B::Tie>, Snapshot<B>> for AtHome {
    ghost holds = { λ key. IsKept B.tie B.sound (B.tie key.value) };

    ghost first = { λ key. seated (B.tie key.value) };
}

/// The value is taken out, where it is at home.
pub struct TakeOut;

impl<B: Turned> Play<Option<B>, View<B::Tie>> for TakeOut {
    ghost then = { TakesOut B.tie B.sound };
}

/// The value is put back.
pub struct PutBack;

impl<B: Turned> Play<Option<B>, View<B::Tie>> for PutBack {
    ghost then = { PutsBack };
}

/// What one seat knows, another may know too. A seat that was taken in knows nothing any more.
pub struct Sharing;

impl<T> Split<View<T>> for Sharing {
    ghost left = { λ view. view };

    ghost right = { λ view. view };
}

impl<T> Join<View<T>> for Sharing {
    ghost both = { λ view other. view };

    ghost spent = { spent };
}
