//! Canonical lines of quads (RDF 1.1 N-Quads, section 4), by which answers are put in order.
ghost use Rattle.std.specs.Prelude.{◌≡◌, ◌++◌, ◌∷◌, IfOk, OnOk};
ghost use Rattle.lf_rdf.specs.Canonical.{label_text, line, term_text};

use crate::row::Row;
use crate::shared::Shared;
use lf_base::Memory;
use lf_order::put_term;
use lf_rdf::Term;
use std::alloc::Global;

// Most lines have no more bytes.
const USUAL: usize = 128;

/// The canonical line of the quad of a row, without its line end.
pub fn line_of(alloc: Global, row: &Row) -> Result<Vec<u8>, Memory>
    ensures { IfOk result (λ made. made.items ≡ line row.now) }
{
    let mut made = Vec::with_capacity(alloc, USUAL)?;
    put_term(&mut made, row.subject.term())?;
    put_spaced(&mut made, row.predicate.term())?;
    put_spaced(&mut made, row.object.term())?;
    put_label(&mut made, &row.graph)?;
    made.extend_from_slice(b" .")?;
    Ok(made)
}

// A space and the text of a term.
fn put_spaced(made: &mut Vec<u8>, term: &Term) -> Result<(), Memory>
    ensures { OnOk result (made.new.items ≡ made.old.items ++ 32 ∷ term_text term.now) }
{
    made.push(b' ')?;
    put_term(made, term)
}

// The graph label and the space before it, where there is one.
fn put_label(made: &mut Vec<u8>, label: &Option<Shared>) -> Result<(), Memory>
    ensures { OnOk result (made.new.items ≡ made.old.items ++ label_text label.now) }
{
    match label {
        Some(name) => put_spaced(made, name.term()),
        None => Ok(()),
    }
}
