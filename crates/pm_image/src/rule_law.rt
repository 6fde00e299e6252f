ghost use Rattle.std.specs.Prelude.{◌≡◌, ℕ, ◌≤◌, ◌^◌, List, Ok, Err, true};
ghost use Rattle.std.specs.List.{AllByRecursion};
ghost use Rattle.pm_types.specs.declared.fault.OpenFault.{OpenFault};
ghost use Rattle.pm_layout.specs.declared.header.Header.{Header};
ghost use Rattle.pm_image.specs.Opening.{is_placed, page_count};
ghost use Rattle.pm_image.specs.Graphs.{images_of, Pages, Graph, graph_of, entries_of};
ghost use Rattle.pm_image.specs.Leading.{CarLeads, RootLeads};
ghost use Rattle.pm_image.specs.Stands.{opened};
ghost use Rattle.pm_image.specs.Rules.{IsOfPages, IsOfRules};

/// Opening has no answer but those of its rules: no page is met twice, so that no chain of catalog pages is longer
/// than a store has pages, of which there are no more than numbers of eight bytes.
pub fn opening_answers_its_rules()
    // Behind a header a page is damaged, or a field of it is at fault.
    ensures graph { (pages : Pages) (header : Header) (fault : OpenFault) → pages.count ≤ 2 ^ 64
        → is_placed pages.count header ≡ true → graph_of pages header ≡ Err fault → IsOfPages fault }
    ensures bytes { (bytes : List ℕ) (fault : OpenFault) → page_count bytes ≤ 2 ^ 64 → opened bytes ≡ Err fault
        → IsOfRules fault }
{}

/// In a graph that is found each address leads to an object, through at most one slot that is Moved.
pub fn addresses_lead_to_objects()
    // Each field of an object does, and an object that moved stands in the slot to which its old one leads.
    ensures cars { (pages : Pages) (header : Header) (graph : Graph) → graph_of pages header ≡ Ok graph
        → AllByRecursion (CarLeads (images_of graph.cars)) (images_of graph.cars) }
    ensures roots { (pages : Pages) (header : Header) (graph : Graph) → graph_of pages header ≡ Ok graph
        → AllByRecursion (RootLeads (images_of graph.cars)) (entries_of graph.catalog) }
{}
