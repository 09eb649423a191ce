//! How JSON is printed: the definitions that printed texts are stated by (RFC 8259).
#![tactic(auto)]

ghost use Rattle.def_printed.specs.JsonText.{JsonStringTellsText};

/// Two texts with one JSON string are one text.
pub fn json_string_tells_text()
    ensures { JsonStringTellsText }
{}
