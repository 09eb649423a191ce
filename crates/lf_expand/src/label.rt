//! Identifiers of blank nodes (RDF 1.1 N-Quads, section 4, production `BLANK_NODE_LABEL`).
ghost use Rattle.std.specs.Prelude.{◌≡◌};
ghost use Rattle.std.specs.Option.{option_copied};
ghost use Rattle.std.specs.Str.{chars};
ghost use Rattle.def_patch_texts.specs.Characters as class;
ghost use Rattle.lf_expand.specs.LabelTest.{blank_label, is_fit};

use lf_nquads::{begins_label, is_label_char};

// Whether a character may be the first of a label, or stand behind it.
fn is_fit(begun: bool, c: char) -> bool
    ensures { result ≡ is_fit begun c }
{
    if begun {
        is_label_char(c)
    } else {
        begins_label(c)
    }
}

// Whether a text is the label of a blank node.
fn is_label(text: &str) -> bool
    ensures { result ≡ class.is_label (chars text.now) }
{
    let mut begun = false;
    let mut ends = false;
    for c in text.chars() {
        if !is_fit(begun, c) {
            return false;
        }
        begun = true;
        ends = c != '.';
    }
    ends
}

/// The label of a blank node identifier, which is `_:` and the label.
#[tactic(auto, unfolding(def_contexts::specs::Labels::is_blank_id))]
pub fn blank_label(text: &str) -> Option<&str>
    ensures { option_copied result ≡ blank_label text.now }
{
    match text.strip_prefix("_:") {
        Some(label) => { if is_label(label) { Some(label) } else { None } }
        None => None,
    }
}
