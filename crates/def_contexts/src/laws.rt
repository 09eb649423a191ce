//! Laws of contexts: IRIs that stay, terms in order, and the causes of errors (JSON-LD 1.1 API,
//! sections 4 and 5).
ghost use Rattle.def_contexts.specs.ExpansionLaws.{KeywordsStay, TermsGiveTheirIri, AbsoluteTextsStay};
ghost use Rattle.def_contexts.specs.TableLaws.{TermsAscend, TermsAreSound, VocabIsAbsolute, TableTermsGiveTheirIri};
ghost use Rattle.def_contexts.specs.Circles.{CyclesAreCircles};
ghost use Rattle.def_contexts.specs.RoomLaws.{RoomIsEnough};
ghost use Rattle.def_contexts.specs.FrameLaws.{FramesAreSound, FrameTermsAreItsContexts, FrameErrorsAreNamed, OneMapInAnArray, ContextErrorsComeFirst};
ghost use Rattle.def_contexts.specs.FrameCauses.{FrameErrorsHaveCauses};
ghost use Rattle.def_contexts.specs.Causes.{ErrorsHaveCauses, ErrorsAreNamed};

/// A keyword expands to itself.
pub fn keywords_stay()
    ensures { KeywordsStay }
{}

/// A term expands with `vocab` to its IRI.
pub fn terms_give_their_iri()
    ensures { TermsGiveTheirIri }
{}

/// An absolute text that no term and no prefix takes expands to itself.
pub fn absolute_texts_stay()
    ensures { AbsoluteTextsStay }
{}

/// The terms of a context's table are in byte order without repeats.
pub fn terms_ascend()
    ensures { TermsAscend }
{}

/// The terms of a context's table are no keywords, and stand for keywords other than `@context`,
/// absolute IRIs or nothing.
pub fn terms_are_sound()
    ensures { TermsAreSound }
{}

/// The vocabulary mapping of a context's table is absolute.
pub fn vocab_is_absolute()
    ensures { VocabIsAbsolute }
{}

/// Each term of a context's table expands with `vocab` to its IRI.
pub fn table_terms_give_their_iri()
    ensures { TableTermsGiveTheirIri }
{}

/// An error comes from a context only where its cause stands in it.
pub fn context_errors_have_causes()
    ensures { ErrorsHaveCauses }
{}

/// A context is refused by fifteen errors alone.
pub fn context_errors_are_named()
    ensures { ErrorsAreNamed }
{}

/// More room than a context has terms changes nothing: a cycle is found before the room ends.
pub fn room_is_enough()
    ensures { RoomIsEnough }
{}

/// At each level of a frame properties are in byte order without repeats, and patterns and
/// wildcards have none.
pub fn frames_are_sound()
    ensures { FramesAreSound }
{}

/// The terms of a frame are those of its own context.
pub fn frame_terms_are_its_contexts()
    ensures { FrameTermsAreItsContexts }
{}

/// An error comes from the map of a frame only where a key in it, or in a map within it, speaks of
/// it.
pub fn frame_errors_have_causes()
    ensures { FrameErrorsHaveCauses }
{}

/// A frame is never refused by `IRI confused with prefix`.
pub fn frame_errors_are_named()
    ensures { FrameErrorsAreNamed }
{}

/// An array of one map is the frame of that map.
pub fn one_map_in_an_array()
    ensures { OneMapInAnArray }
{}

/// An error of the context of a frame is the frame's error, whatever its other keys are.
pub fn context_errors_come_first()
    ensures { ContextErrorsComeFirst }
{}

/// A context is refused as cyclic only where a term of one of its maps leads to itself.
pub fn cycles_are_circles()
    ensures { CyclesAreCircles }
{}
