ghost use Rattle.std.specs.Prelude.{◌≡◌, ◌<◌, length};
ghost use Rattle.pm_place.specs.Choosers.{IsChooser, IsPicked};

use std::marker::Model;

/// The chooser that a store was made with, seen as that function. It answers an index into a list of
/// train numbers.
#[derive(Drop)]
pub struct Placement<F> {
    choose: F,
}

impl<F> Model for Placement<F> {
    ghost Value = { F };

    ghost coded = { F.code };

    ghost view = { λ placement. placement.choose };
}

impl<F: Fn(&[u64]) -> usize + Drop> Placement<F> {
    /// Keeps the chooser.
    pub fn new(choose: F) -> Placement<F>
        requires { IsChooser F.Fn choose }
        ensures { result ≡ choose }
    {
        Placement { choose }
    }

    /// The member of the list at the index that the chooser answers for it.
    pub fn pick(&self, trains: &[u64]) -> u64
        requires chooser { IsChooser F.Fn self.now }
        requires some { 0 < length trains.now }
        ensures { IsPicked F.Fn self.now trains.now result }
    {
        trains[(self.choose)(trains)]
    }
}
