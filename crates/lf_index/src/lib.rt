//! The quads of a version, indexed in three orders: it answers questions in the time of their
//! answers, and shares with older versions what both have.
//!
//! What it costs, for n quads. The times are those of an optimised build on a busy machine, the
//! least of several runs; `sort -u` of 160,000 lines takes 0.08 s of processor time there.
//!
//! - A first patch is sorted and built in bulk, by some n log n comparisons, most of them of
//!   numbers: 0.02 s for 10,000 quads, 0.3 s for 160,000, 0.9 s for 397,000. The index takes some
//!   295 bytes a quad, its texts aside.
//! - A later patch of one line costs some log n comparisons and copies a page of pairs, a page of
//!   pages and the root in each of three orders: 7 microseconds onto 10,000 quads, 12 onto 160,000,
//!   13 onto 397,000, and 4 to 8 more when the version is dropped again. A line that changes
//!   nothing copies nothing.
//! - An answer of k quads or terms costs some k log k comparisons of numbers, goes over the lines
//!   or ids, and takes some log n comparisons to find the first: about a microsecond for one, 0.1
//!   ms for 100, 1.3 ms for 1,000 and 0.5 s for 100,000. `Named` is one look. `Members` passes each
//!   quad of the graph. `Uses` doesn't pass the quads that tell the object as a type, which stand
//!   behind those that use it.
//! - `terms` goes over all quads: 3 ms for 10,000, 0.1 s for 160,000, 0.4 s for 397,000.
#![tactic(auto)]

mod answers;
mod apply;
mod asker;
mod bulk;
mod by_graph;
mod by_object;
mod by_subject;
mod error;
mod index;
mod lined;
mod lines;
mod low;
mod names;
mod near;
mod nodes;
mod parts;
mod reach;
mod recent;
mod row;
mod scan;
mod shared;
mod terms;
#[cfg(test)]
mod tests;

pub use asker::Asker;
pub use error::ApplyErr;
pub use index::Index;
