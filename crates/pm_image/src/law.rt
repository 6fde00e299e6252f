ghost use Rattle.std.specs.Prelude.{◌≡◌, ◌⊎◌, ℕ, ◌<◌, List, Some, None, Ok};
ghost use Rattle.pm_types.specs.declared.fault.OpenFault.{OpenFault};
ghost use Rattle.pm_model.specs.World.{Copy, empty_copy};
ghost use Rattle.pm_layout.specs.declared.header.Header.{Header};
ghost use Rattle.pm_image.specs.Graphs.{Pages, Graph, graph_of, used_pages};
ghost use Rattle.pm_image.specs.Opening.{current, page_of, page_count};
ghost use Rattle.pm_image.specs.First.{first_car_page, first_catalog_page, first_header, first_copy};
ghost use Rattle.pm_image.specs.Blank.{blank_catalog_page, blank_header, blank_store};
ghost use Rattle.pm_image.specs.Stands.{StandsForCopy, Opened, opened, pages_of, copy_in, refusal, SamePages};

/// Bytes stand for at most one copy under one number, and for one exactly where no rule refuses them.
pub fn bytes_stand_for_one_copy()
    ensures one { (bytes : List ℕ) (number other : ℕ) (copy else_ : Copy) → StandsForCopy bytes number copy
        → StandsForCopy bytes other else_ → (number ≡ other) × (copy ≡ else_) }
    ensures either { (bytes : List ℕ) → ((fault : OpenFault) × (refusal bytes ≡ Some fault)) ⊎ ((number : ℕ)
        × (copy : Copy) × StandsForCopy bytes number copy) }
    ensures not_both { (bytes : List ℕ) (number : ℕ) (copy : Copy) → StandsForCopy bytes number copy
        → refusal bytes ≡ None }
{}

/// What bytes stand for does not depend on pages that the graph is not found on.
pub fn other_pages_do_not_matter()
    // Where the pages that a graph is found on are alike in another store, it is found there too.
    ensures graph { (a b : Pages) (header : Header) (graph : Graph) → graph_of a header ≡ Ok graph
        → SamePages (used_pages graph) a b → graph_of b header ≡ Ok graph }
    // Bytes with the same current header, in either slot, and the same pages behind it stand for the same
    // copy under the same number, whatever else they hold.
    ensures bytes { (a b : List ℕ) (found : Opened) (slot : ℕ) → opened a ≡ Ok found
        → current b ≡ Ok (record { slot = slot; header = found.current.header })
        → SamePages (used_pages found.graph) (pages_of a) (pages_of b)
        → StandsForCopy b found.current.header.epoch (copy_in found) }
{}

/// The store that has just been made stands for copy 0, of nothing.
pub fn a_new_store_is_empty()
    ensures store { StandsForCopy blank_store 0 empty_copy }
    ensures header { current blank_store ≡ Ok (record { slot = 0; header = blank_header }) }
    // Bytes with its header, in either slot, and its catalog stand for it too.
    ensures behind { (bytes : List ℕ) (slot : ℕ) → current bytes ≡ Ok (record { slot = slot; header = blank_header })
        → page_of bytes 2 ≡ blank_catalog_page → StandsForCopy bytes 0 empty_copy }
{}

/// A store after its first checkpoint stands for the copy of that checkpoint: bytes with its header, in
/// either slot, its car on page 3 and its catalog on page 4.
pub fn a_first_checkpoint_is_found()
    ensures { (bytes : List ℕ) (slot : ℕ) → current bytes ≡ Ok (record { slot = slot; header = first_header })
        → 4 < page_count bytes
        → page_of bytes 3 ≡ first_car_page → page_of bytes 4 ≡ first_catalog_page → StandsForCopy bytes 1 first_copy }
{}
