//! Laws of term selection and IRI compaction (JSON-LD 1.1 API, sections 6.2 and 6.3).
ghost use Rattle.def_selection.specs.RoundTrip.{ExpansionGivesBack};
ghost use Rattle.def_selection.specs.Laws.{ChosenFits, ChosenIsLeast, NoneFits, OnlyConfused, ShortTellsIri};

/// A chosen term is a term of the table, has the IRI, and stands in a slot of the pick.
pub fn chosen_fits()
    ensures { ChosenFits }
{}

/// No term that fits ranks less than the chosen one.
pub fn chosen_is_least()
    ensures { ChosenIsLeast }
{}

/// No term is chosen only where none fits.
pub fn none_fits()
    ensures { NoneFits }
{}

/// A compacted IRI tells the IRI that it stands for.
pub fn short_tells_iri()
    ensures { ShortTellsIri }
{}

/// The one error comes only for an IRI that reads as a compact IRI of the table.
pub fn only_confused()
    ensures { OnlyConfused }
{}

/// Expansion of a compacted IRI gives the IRI back, where the text is read as what it was written
/// for.
pub fn expansion_gives_back()
    ensures { ExpansionGivesBack }
{}
