//! The words themselves. The replies of a session and the printed texts of the commands take them
//! from here.
ghost use Rattle.std.specs.Prelude.{◌≡◌, ◌≤◌, length};
ghost use Rattle.lf_names.specs.Names.{kind_name, counted_name, limit_name, limit_number, longest_word};

use def_documents::{byte_limit, item_limit};
use def_patch_texts::LineKind;
use lf_model::{Counted, Limit};

/// The most items of the tree of one node.
const MOST_TREE_ITEMS: u64 = 65_536;

/// The most nodes on a path of a tree.
const DEEPEST: u64 = 256;

/// What is wrong with a line of a patch text.
#[tactic(auto, unfolding(crate::specs::Names::kind_name))]
pub fn kind_name(kind: LineKind) -> &'static str
    ensures name { result.now ≡ kind_name kind }
    ensures short { length result.now ≤ longest_word }
{
    match kind {
        LineKind::Syntax => "syntax",
        LineKind::RelativeIri => "relative IRI",
        LineKind::BadEscape => "bad escape",
        LineKind::NotUtf8 => "not UTF-8",
        LineKind::LineTooLong => "line too long",
    }
}

/// What a history counts against its limits.
#[tactic(auto, unfolding(crate::specs::Names::counted_name))]
pub fn counted_name(of: Counted) -> &'static str
    ensures name { result.now ≡ counted_name of }
    ensures short { length result.now ≤ longest_word }
{
    match of {
        Counted::Commits => "commits",
        Counted::Registrations => "registrations",
        Counted::Bytes => "bytes",
    }
}

/// A limit that a document passes.
#[tactic(auto, unfolding(crate::specs::Names::limit_name))]
pub fn limit_name(limit: Limit) -> &'static str
    ensures name { result.now ≡ limit_name limit }
    ensures short { length result.now ≤ longest_word }
{
    match limit {
        Limit::TreeItems => "tree items",
        Limit::Depth => "depth",
        Limit::DocumentItems => "document items",
        Limit::DocumentBytes => "document bytes",
    }
}

/// How many items, nodes on a path or bytes a document has at most.
#[tactic(auto, unfolding(crate::specs::Names::limit_number))]
pub fn limit_number(limit: Limit) -> u64
    ensures { result ≡ limit_number limit }
{
    match limit {
        Limit::TreeItems => MOST_TREE_ITEMS,
        Limit::Depth => DEEPEST,
        Limit::DocumentItems => item_limit(),
        Limit::DocumentBytes => byte_limit(),
    }
}
