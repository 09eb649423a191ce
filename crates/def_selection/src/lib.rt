//! Which term of a context stands for an IRI and a value, and how an IRI is shortened.
#![tactic(auto)]

mod laws;
mod pick;
#[cfg(test)]
mod tests;

pub use laws::{
    chosen_fits, chosen_is_least, expansion_gives_back, none_fits, only_confused, short_tells_iri,
};
pub use pick::{ContainerList, Pick, PickKind};
