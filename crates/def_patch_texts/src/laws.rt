//! Laws of patch texts: one reading, one first bad line with one kind (RDF 1.1 N-Quads, section 4).
ghost use Rattle.def_patch_texts.specs.Laws.{OneList, NeverBoth, OneBadLine, CanonicalStates, CanonicalIsOne, LineRead, EachText, EachKind, StatesGiven, WorkedBadLines, LongLineIsBad};

/// A text states at most one list of signed quads.
pub fn one_list()
    ensures { OneList }
{}

/// A patch text has no bad line.
pub fn never_both()
    ensures { NeverBoth }
{}

/// A text has at most one first bad line, of one kind.
pub fn one_bad_line()
    ensures { OneBadLine }
{}

/// The canonical line of a quad that the grammar gives states that quad.
pub fn canonical_states()
    ensures { CanonicalStates }
{}

/// Two quads that the grammar gives have one canonical line only where they are one.
pub fn canonical_is_one()
    ensures { CanonicalIsOne }
{}

/// Reading a line gives what the grammar relates to it, and nothing else.
pub fn line_read()
    ensures { LineRead }
{}

/// A text states signed quads or has a first bad line.
pub fn each_text()
    ensures { EachText }
{}

/// What a text states is of such terms as canonical lines can give back.
pub fn states_given()
    ensures { StatesGiven }
{}

/// Worked cases of bad lines: one of each kind, and of two faults the one that stands first.
pub fn worked_bad_lines()
    ensures { WorkedBadLines }
{}

/// A line with more bytes than a line may have is bad by its length, whatever stands in it.
pub fn long_line_is_bad()
    ensures { LongLineIsBad }
{}

/// A first bad line isn't without a kind.
pub fn each_kind()
    ensures { EachKind }
{}
