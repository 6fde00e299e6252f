ghost use Rattle.pm_passes.specs.Views.{first_pass, met, other_part, parted, spent};
ghost use Rattle.pm_passes.specs.Rule.{Kept};
ghost use Rattle.pm_passes.specs.Steps.{Enters, Looks, PutsBack, PutsBackTelling, PutsBackUnseen, TakesOut};

use crate::value::Logged;
use crate::view::View;
use atomic_table::{Join, Play, Split, TableRule};
use std::snapshot::Snapshot;

/// The rule of the table in which the value lies: there is one log, and each pass knows a beginning of it.
pub struct OneLog;

impl<B: Logged> TableRule<Option<B>, View<B::Entry>, Snapshot<B>> for OneLog {
    ghost holds = { λ key. Kept B.Logged B.Tie.row.coded.code (B.Tie.row.coded.code (B.tie key.value)) };

    ghost first = { λ key. first_pass (B.numbers key.value) (B.Tie.row.coded.code (B.tie key.value)) };
}

/// The value is taken out, where it is at home.
pub struct TakeOut;

impl<B: Logged> Play<Option<B>, View<B::Entry>> for TakeOut {
    ghost then = { TakesOut B.Logged B.Tie.row.coded.code };
}

/// All are told of the entry that the value has got.
pub struct Entering;

impl<B: Logged> Play<Option<B>, View<B::Entry>> for Entering {
    ghost then = { Enters B.Logged };
}

/// The value is put back.
pub struct PutBack;

impl<B: Logged> Play<Option<B>, View<B::Entry>> for PutBack {
    ghost then = { PutsBack B.Logged };
}

/// It is put back by a pass that has not looked at the log.
pub struct PutBackUnseen;

impl<B: Logged> Play<Option<B>, View<B::Entry>> for PutBackUnseen {
    ghost then = { PutsBackUnseen B.Logged };
}

/// It is put back by a pass that is told of all faults and events.
pub struct PutBackTelling;

impl<B: Logged> Play<Option<B>, View<B::Entry>> for PutBackTelling {
    ghost then = { PutsBackTelling B.Logged };
}

/// The length of the log is loaded: of two fronts the longer one stays.
pub struct Looking;

impl<B: Logged> Play<Option<B>, View<B::Entry>> for Looking {
    ghost then = { Looks };
}

/// A pass with the next number is split off.
pub struct Parting;

impl<E> Split<View<E>> for Parting {
    ghost left = { parted };

    ghost right = { other_part };
}

/// A pass is met into another.
pub struct Meeting;

impl<E> Join<View<E>> for Meeting {
    ghost both = { met };

    ghost spent = { spent };
}
