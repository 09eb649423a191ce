//! What holds of all sessions.
ghost use Rattle.lf_session.specs.BodyLaws.{BodiesAreJson};
ghost use Rattle.lf_session.specs.FirstSession.{FirstSession};
ghost use Rattle.lf_session.specs.Headline.{SessionsHold};
ghost use Rattle.lf_session.specs.LoneTurns.{LoneTurnsPublish};
ghost use Rattle.lf_session.specs.Looking.{GetsAreAnswered};
ghost use Rattle.lf_session.specs.Made.{RepliesTellWhatWasMade};
ghost use Rattle.lf_session.specs.Refreshing.{RefreshesAreAnswered};
ghost use Rattle.lf_session.specs.Told.{StreamsEndAsTold};
ghost use Rattle.lf_session.specs.Whole.{WholeStreamsAreServed};
ghost use Rattle.lf_session.specs.WorkedEnds.{WorkedEnds};

/// Each body other than a document is the JSON text of a map, with the members that are told.
pub fn bodies_are_json()
    ensures { BodiesAreJson }
{}

/// The documents that a stream is answered are of one version each, no older than any that its
/// caller had seen, and the operations of its seat are those that its requests made, in order, each
/// once.
pub fn sessions_hold()
    ensures { SessionsHold }
{}

/// A reply tells whether its request made an operation.
pub fn replies_tell_what_was_made()
    ensures { RepliesTellWhatWasMade }
{}

/// A `GET` of a live name with `Ld-Refresh: now` is answered by a document where the newest version
/// is new enough, unless the name was retired meanwhile or no memory is found.
pub fn refreshes_are_answered()
    ensures { RefreshesAreAnswered }
{}

/// A `GET` of a frame is answered by the published document, with its version, where that is new
/// enough, unless no memory is found for a handle of it. It is told that the document is still to
/// come exactly where none is new enough.
pub fn gets_are_answered()
    ensures { GetsAreAnswered }
{}

/// A turn of a seat that is alone, where no board is away at the start, publishes the frame that is
/// next. It is answered that no frame waits exactly where none does, unless no memory is found.
pub fn lone_turns_publish()
    ensures { LoneTurnsPublish }
{}

/// A stream of whole messages is answered to its end, or until it asks to close, unless a read or a
/// write fails or no memory is found.
pub fn whole_streams_are_served()
    ensures { WholeStreamsAreServed }
{}

/// A stream of whole messages and a tail ends by the tail, or after a message that asks to close,
/// unless a read or a write fails or no memory is found.
pub fn streams_end_as_told()
    ensures { StreamsEndAsTold }
{}

/// A worked session, byte for byte.
pub fn first_session()
    ensures { FirstSession }
{}

/// Worked ends of streams, byte for byte.
pub fn worked_ends()
    ensures { WorkedEnds }
{}
