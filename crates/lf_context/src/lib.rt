//! Contexts read: term tables, and texts expanded by them (JSON-LD 1.1 Processing Algorithms and
//! API, sections 4 and 5).
#![tactic(auto)]

mod context;
mod define;
mod draft;
mod error;
mod expand;
mod finish;
mod mark;
mod parts;
mod stage;
mod start;
mod table;
mod term;
#[cfg(test)]
mod tests;
mod text;
mod walk;

pub use context::process;
pub use error::ContextErr;
pub use expand::{expand_iri, find_term};
pub use text::{cut_at_colon, is_absolute, is_keyword, lower};
