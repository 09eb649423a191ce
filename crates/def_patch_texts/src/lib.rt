//! The grammar of patch texts: N-Quads lines with an optional sign (RDF 1.1 N-Quads, section 2.1
//! and appendix A).
#![tactic(auto)]

mod kind;
mod laws;

pub use kind::LineKind;
pub use laws::{
    canonical_is_one, canonical_states, each_kind, each_text, line_read, long_line_is_bad,
    never_both, one_bad_line, one_list, states_given, worked_bad_lines,
};
