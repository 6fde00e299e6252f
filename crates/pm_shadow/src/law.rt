ghost use Rattle.std.specs.Prelude.{◌≡◌, ℕ, List, true, Ok};
ghost use Rattle.pm_layout.specs.declared.header.Header.{Header};
ghost use Rattle.pm_image.specs.Blank.{blank_catalog_page, blank_store};
ghost use Rattle.pm_image.specs.Opening.{current, is_placed, page_count, page_of};
ghost use Rattle.pm_image.specs.Graphs.{Graph};
ghost use Rattle.pm_image.specs.Stands.{opened};
ghost use Rattle.pm_shadow.specs.declared.page_use.PageUse.{PageUse};
ghost use Rattle.pm_shadow.specs.declared.page_use.PageUse.TheVariants.{Free};
ghost use Rattle.pm_shadow.specs.Uses.{IsLowestFree, UsesOnlyListed};
ghost use Rattle.pm_shadow.specs.State.{State, keeps, known_by, with_claimed, with_kept, abandoned_in, published, IsIdle};
ghost use Rattle.pm_shadow.specs.Images.{Heads, Holds, Renews};
ghost use Rattle.pm_shadow.specs.Copies.{KeepsGraph, NextGraph, KeepsSamePages, IsLowestUnused, current_graph, next_graph};

/// Bytes that have this header in the slot that is picked are opened with it, where its first catalog
/// page is one of theirs.
pub fn a_header_in_the_picked_slot_is_current()
    ensures { (bytes : List ℕ) (slot : ℕ) (header : Header) → Heads bytes slot header
        → is_placed (page_count bytes) header ≡ true → current bytes ≡ Ok (record { slot = slot; header = header }) }
{}

/// While the next copy is written, each image of the disk is opened with the current one; once its header
/// is published, with the next one.
pub fn an_image_is_opened_with_its_graph()
    // An image that has the current header and the pages of its copy is opened with that copy's graph.
    ensures held { (s : State) (bytes image : List ℕ) (graph : Graph) → KeepsGraph s bytes graph
        → Holds s bytes image → opened image ≡ Ok (current_graph s graph) }
    ensures still { (s : State) (bytes image : List ℕ) (graph : Graph) → KeepsGraph s bytes graph
        → Holds s bytes image → KeepsGraph s image graph }
    // An image that has the next header is opened with the graph that was laid behind it.
    ensures renewed { (s : State) (header : Header) (bytes image : List ℕ) (graph : Graph)
        → NextGraph s bytes header graph → Renews s header bytes image → opened image ≡ Ok (next_graph s header graph) }
    ensures next { (s : State) (header : Header) (bytes image : List ℕ) (graph : Graph)
        → NextGraph s bytes header graph → Renews s header bytes image → KeepsGraph (published s header) image graph }
    // The graph is kept by what keeps the same pages.
    ensures same { (s t : State) (bytes : List ℕ) (graph : Graph) → KeepsSamePages s t → KeepsGraph s bytes graph
        → KeepsGraph t bytes graph }
{}

/// Pages that are claimed, kept and given up are so beside the current copy, whose pages are known.
pub fn the_next_copy_grows_beside_the_current_one()
    // The lowest free page is the lowest that the graph of the current copy does not use and that was not claimed.
    ensures lowest { (s : State) (bytes : List ℕ) (graph : Graph) (page : ℕ) → s.known ≡ true → KeepsGraph s bytes graph
        → IsLowestFree s.uses page → IsLowestUnused s graph page }
    ensures claimed { (s : State) (page : ℕ) → s.known ≡ true → s.uses page ≡ Free
        → KeepsSamePages s (with_claimed s page) }
    ensures kept { (s : State) (page : ℕ) → keeps s page ≡ true → KeepsSamePages s (with_kept s page) }
    ensures abandoned { (s : State) → s.known ≡ true → KeepsSamePages s (abandoned_in s) }
    // Nothing is claimed or kept once the pages of the current copy were listed, the next copy was given up, or its
    // header was published.
    ensures listed { (s : State) (pages : List ℕ) (uses : ℕ → PageUse) → UsesOnlyListed pages uses
        → IsIdle (known_by s uses) }
    ensures given_up { (s : State) → IsIdle (abandoned_in s) }
    ensures published { (s : State) (header : Header) → IsIdle (published s header) }
{}

/// A store that was just made has three pages, and its catalog is the last one.
pub fn a_new_store_has_three_pages()
    ensures count { page_count blank_store ≡ 3 }
    ensures catalog { page_of blank_store 2 ≡ blank_catalog_page }
{}
