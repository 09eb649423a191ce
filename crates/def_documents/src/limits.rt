//! The limits on a document, as programs call them.
ghost use Rattle.std.specs.Prelude.{◌≡◌};
ghost use Rattle.def_documents.specs.Document;

/// The most items that the trees of a document have.
#[tactic(auto, unfolding(crate::specs::Document::most_items))]
pub fn item_limit() -> u64
    ensures { result ≡ Document.most_items }
{
    262_144
}

/// The most bytes that the text of a document has.
#[tactic(auto, unfolding(crate::specs::Document::most_bytes))]
pub fn byte_limit() -> u64
    ensures { result ≡ Document.most_bytes }
{
    33_554_432
}
