use crate::command::Command;

/// What the words of the command line ask for.
#[derive(Clone, Copy, Debug, PartialEq, Eq)]
pub enum Asked {
    /// A command that touches one file at most.
    Alone(Command),
    /// `ship FILE OTHER`: bring the store of the second file to the last settled copy of that of the first.
    Ship,
}
