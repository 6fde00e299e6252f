//! Laws of the words of the command line. Each function's contract is the law, and the function does nothing.
ghost use Rattle.std.specs.Prelude.{◌≡◌, List, ℕ};
ghost use Rattle.pm_words.specs.declared.asked.Asked.{Asked};
ghost use Rattle.pm_words.specs.declared.chosen.Chosen.{Chosen};
ghost use Rattle.pm_words.specs.Words.{Places, Spells};

/// A law of words: they ask for one thing at most.
pub fn words_spell_one_command()
    ensures { (words : List (List ℕ)) (one other : Asked) → Spells words one → Spells words other → one ≡ other }
{}

/// A law of words: they choose one train and no other.
pub fn words_choose_one_train()
    ensures { (words : List (List ℕ)) (one other : Chosen) → Places words one → Places words other → one ≡ other }
{}
