//! Two readings of one stream of messages agree.
ghost use Rattle.lf_http.specs.Readings.{ReadingsAreOne, StreamsAreOne};

/// Two readings of one byte stream are one, by its first head and by all its messages: where a body
/// ends the next head begins, for each reader alike.
pub fn readings_are_one()
    ensures head { ReadingsAreOne }
    ensures stream { StreamsAreOne }
{}
