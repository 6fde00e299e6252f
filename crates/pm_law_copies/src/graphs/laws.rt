//! What pages spell. Each function's contract is a law, and the function does nothing.

ghost use Rattle.std.specs.Prelude.{◌≡◌, ℕ, ◌≤◌, ◌^◌, List, Ok, Err, true};
ghost use Rattle.std.specs.List.{AllByRecursion};
ghost use Rattle.pm_types.specs.declared.fault.OpenFault.{OpenFault};
ghost use Rattle.pm_layout.specs.declared.header.Header.{Header};
ghost use Rattle.pm_image.specs.CarAnswers.{AreBytes};
ghost use Rattle.pm_image.specs.Opening.{Current, current, is_placed, page_count};
ghost use Rattle.pm_image.specs.Graphs.{Graph, Pages, graph_of, images_of, linked, sites_of};
ghost use Rattle.pm_image.specs.Stands.{Opened, opened, pages_of};
ghost use Rattle.pm_copies.specs.Places.{AreRead, IsOfFirstAstray, StandsAtPlace};
ghost use Rattle.pm_copies.specs.Spelled.{AreWhole, Spells};

/// A law of opening: behind a header that names a page of the store a graph is found exactly where the pages spell it.
pub fn a_graph_is_found_where_its_pages_spell_it()
    // What is found is spelled,
    ensures found { (pages : Pages) (header : Header) (graph : Graph) → AreWhole pages
        → is_placed pages.count header ≡ true → graph_of pages header ≡ Ok graph → Spells pages header graph }
    // and what is spelled is found, in a store of no more pages than numbers of eight bytes count.
    ensures again { (pages : Pages) (header : Header) (graph : Graph) → pages.count ≤ 2 ^ 64
        → is_placed pages.count header ≡ true → Spells pages header graph → graph_of pages header ≡ Ok graph }
    // Pages spell one graph at most.
    ensures one { (pages : Pages) (header : Header) (first second : Graph) → pages.count ≤ 2 ^ 64
        → is_placed pages.count header ≡ true → Spells pages header first → Spells pages header second
        → first ≡ second }
    // What opening finds in bytes is spelled by their pages, behind the current header,
    ensures opened { (bytes : List ℕ) (found : Opened) → AreBytes bytes → opened bytes ≡ Ok found
        → Spells (pages_of bytes) found.current.header found.graph }
    // and what these spell is found.
    ensures opens { (bytes : List ℕ) (now : Current) (graph : Graph) → page_count bytes ≤ 2 ^ 64
        → current bytes ≡ Ok now → Spells (pages_of bytes) now.header graph
        → opened bytes ≡ Ok (record { current = now; graph = graph }) }
{}

/// A law of the fault of an address, in a store whose catalog and cars were read: it says where the first address
/// stands that leads nowhere.
pub fn a_reported_address_stands_at_its_place()
    // Each address that was read stands at its place.
    ensures sites { (pages : Pages) (header : Header) (graph : Graph) → AreWhole pages
        → is_placed pages.count header ≡ true → AreRead pages header graph
        → AllByRecursion (StandsAtPlace pages graph) (sites_of graph.catalog graph.cars) }
    // A fault of the addresses is of the first that leads nowhere,
    ensures fault { (pages : Pages) (header : Header) (graph : Graph) (fault : OpenFault) → AreWhole pages
        → is_placed pages.count header ≡ true → AreRead pages header graph
        → linked (images_of graph.cars) (sites_of graph.catalog graph.cars) ≡ Err fault
        → IsOfFirstAstray pages graph fault }
    // and where the pages were read and no graph is found behind the header, the fault is of an address.
    ensures graph { (pages : Pages) (header : Header) (graph : Graph) (fault : OpenFault) → AreWhole pages
        → is_placed pages.count header ≡ true → AreRead pages header graph
        → graph_of pages header ≡ Err fault → IsOfFirstAstray pages graph fault }
{}
