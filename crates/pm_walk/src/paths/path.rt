ghost use Rattle.std.specs.Prelude.{◌≡◌};

use pm_types::{Id, Name};
use std::marker::Model;

/// A step of a path: the index of a field, counted from 0, and the identity that the field holds. The first step of a
/// path has index 0, and the identity of the object that the path's name stands for.
#[derive(Clone, Copy, Debug, PartialEq, Eq)]
pub struct PathStep {
    pub index: u32,
    pub id: Id,
}

/// A path: a name and steps. Whether it leads through a space is another question, which `check_path` answers.
#[derive(Debug, Drop)]
pub struct Path {
    name: Name,
    steps: Vec<PathStep>,
}

impl Model for Path {
    ghost use Rattle.pm_walk.specs.Paths.Paths.{Path as Says};

    ghost Value = { Says };

    ghost view = { λ path. record { name = path.name; steps = path.steps.items } };
}

impl Path {
    /// The path of this name and these steps.
    pub fn new(name: Name, steps: Vec<PathStep>) -> Self
        ensures { result ≡ record { name = name; steps = steps.items } }
    {
        Path { name, steps }
    }

    /// Its name, lent.
    pub fn name(&self) -> &Name
        ensures { result.now ≡ self.now.name }
    {
        &self.name
    }

    /// Its steps, lent.
    pub fn steps(&self) -> &[PathStep]
        ensures { result.now ≡ self.now.steps }
    {
        self.steps.as_slice()
    }
}
