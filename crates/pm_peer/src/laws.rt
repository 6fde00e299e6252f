//! Laws of conversations. Each function's contract is the law, and the function does nothing.

ghost use Rattle.std.specs.Prelude.{◌≡◌, ℕ, List, Ok};
ghost use Rattle.pm_peer.specs.declared.asked.Asked.{Asked as Asks};
ghost use Rattle.pm_peer.specs.Questions.{asked_at};
ghost use Rattle.pm_peer.specs.Spelled.{Spells};

/// A law of conversations: a line asks exactly what it spells.
pub fn a_line_asks_what_it_spells()
    ensures read { (body : List ℕ) (asked : Asks) → Spells body asked → asked_at body ≡ Ok asked }
    ensures only { (body : List ℕ) (asked : Asks) → asked_at body ≡ Ok asked → Spells body asked }
{}
