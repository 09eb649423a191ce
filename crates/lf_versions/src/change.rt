//! A quad as a set of changed quads holds it; `delta` keeps the set.
ghost use Rattle.std.specs.Prelude.{◌≡◌, ◌++◌};
ghost use Rattle.std.specs.Cmp.{partial_equiv_from_equiv};
ghost use Rattle.std.specs.Hash as fed;
ghost use Rattle.std.specs.Hash.{same_Alike};
ghost use Rattle.lf_versions.specs.ChangeLaws.{changes_decide, changes_equal};
ghost use Rattle.lf_versions.specs.Changes.{same_change, term_text};

use lf_base::Same;
use lf_rdf::{Quad, Term};
use std::hash::{Hash, Hasher};

/// A quad that changed.
#[derive(Debug, Drop)]
pub struct Change {
    pub quad: Quad,
}

impl PartialEq for Change {
    ghost eq = { same_change };

    ghost laws = { partial_equiv_from_equiv changes_equal };

    fn eq(&self, other: &Change) -> bool {
        self.quad.is(&other.quad)
    }
}

impl Eq for Change {
    ghost laws = { changes_equal };
}

impl Hash for Change {
    ghost hash_input = { λ change.
        fed.str (term_text change.quad.subject) ++ fed.str (term_text change.quad.object) };

    ghost respects_eq = { (same_Alike
        (λ change. fed.str (term_text change.quad.subject) ++ fed.str (term_text change.quad.object))
        changes_decide).fed };

    fn hash<H: Hasher>(&self, state: &mut H) {
        text_of(&self.quad.subject).hash(state);
        text_of(&self.quad.object).hash(state);
    }
}

// The text by which a term is hashed.
fn text_of(term: &Term) -> &str
    ensures { result.now ≡ term_text term.now }
{
    match term {
        Term::Iri(iri) => iri.as_str(),
        Term::Blank(label) => label.as_str(),
        Term::Literal { lexical, .. } => lexical.as_str(),
    }
}
