//! Canonical texts tell terms and quads, and put them in order.
ghost use Rattle.def_datasets.specs.Legible.{TextsTellTerms, LinesTellQuads, TextsOrderTerms, LinesOrderQuads, IdsTellNodes, IdsOrderNodes};

/// Two legible terms of one canonical text are one.
#[tactic(auto, using(crate::proofs::LegibleProofs::texts_tell_terms))]
pub fn texts_tell_terms()
    ensures { TextsTellTerms }
{}

/// Two legible quads of one canonical line are one.
#[tactic(auto, using(crate::proofs::LegibleProofs::lines_tell_quads))]
pub fn lines_tell_quads()
    ensures { LinesTellQuads }
{}

/// Legible terms are in order of their canonical texts alone.
#[tactic(auto, using(crate::proofs::LegibleProofs::texts_order_terms))]
pub fn texts_order_terms()
    ensures { TextsOrderTerms }
{}

/// Legible quads are in order of their canonical lines alone.
#[tactic(auto, using(crate::proofs::LegibleProofs::lines_order_quads))]
pub fn lines_order_quads()
    ensures { LinesOrderQuads }
{}

/// IRIs that don't begin with `_` and blank nodes are told apart by their ids.
#[tactic(auto, using(crate::proofs::LegibleProofs::ids_tell_nodes))]
pub fn ids_tell_nodes()
    ensures { IdsTellNodes }
{}

/// IRIs that don't begin with `_` and blank nodes are in order of their ids alone.
#[tactic(auto, using(crate::proofs::LegibleProofs::ids_order_nodes))]
pub fn ids_order_nodes()
    ensures { IdsOrderNodes }
{}
