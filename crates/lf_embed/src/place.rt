//! Places, nodes in a graph, as a set holds them; `walk` keeps the set.
ghost use Rattle.std.specs.Prelude.{◌≡◌, ◌++◌};
ghost use Rattle.std.specs.Cmp.{partial_equiv_from_equiv};
ghost use Rattle.std.specs.Hash as fed;
ghost use Rattle.std.specs.Hash.{same_Alike};
ghost use Rattle.def_framing.specs.Views.{graph_eq};
ghost use Rattle.lf_embed.specs.PlaceLaws.{places_decide, places_equal};
ghost use Rattle.lf_embed.specs.Places.{graph_text, same_place, term_text};

use lf_base::Same;
use lf_rdf::{GraphRef, Term};
use std::hash::{Hash, Hasher};

/// A node in a graph.
#[derive(Debug, Drop)]
pub struct Place {
    /// The graph in which the node is seen.
    pub graph: GraphRef,
    /// The node itself, an IRI or a blank node.
    pub id: Term,
}

impl PartialEq for Place {
    ghost eq = { same_place };

    ghost laws = { partial_equiv_from_equiv places_equal };

    fn eq(&self, other: &Place) -> bool {
        same_graph(&self.graph, &other.graph) && self.id.is(&other.id)
    }
}

impl Eq for Place {
    ghost laws = { places_equal };
}

impl Hash for Place {
    ghost hash_input = { λ place. fed.str (graph_text place.graph) ++ fed.str (term_text place.id) };

    ghost respects_eq = { (same_Alike (λ place. fed.str (graph_text place.graph) ++ fed.str (term_text place.id)) places_decide).fed };

    fn hash<H: Hasher>(&self, state: &mut H) {
        text_of_graph(&self.graph).hash(state);
        text_of(&self.id).hash(state);
    }
}

/// Whether two graphs are one.
pub fn same_graph(one: &GraphRef, two: &GraphRef) -> bool
    ensures { result ≡ graph_eq one.now two.now }
{
    match one {
        GraphRef::Default => match two {
            GraphRef::Default => true,
            GraphRef::Named(_) => false,
            GraphRef::Merged => false,
        },
        GraphRef::Named(name) => match two {
            GraphRef::Named(other) => name.is(other),
            GraphRef::Default => false,
            GraphRef::Merged => false,
        },
        GraphRef::Merged => match two {
            GraphRef::Merged => true,
            GraphRef::Default => false,
            GraphRef::Named(_) => false,
        },
    }
}

// The text by which a term is hashed: its IRI, label or lexical form.
fn text_of(term: &Term) -> &str
    ensures { result.now ≡ term_text term.now }
{
    match term {
        Term::Iri(iri) => iri.as_str(),
        Term::Blank(label) => label.as_str(),
        Term::Literal { lexical, .. } => lexical.as_str(),
    }
}

// The text by which a graph is hashed: its name, or nothing.
fn text_of_graph(graph: &GraphRef) -> &str
    ensures { result.now ≡ graph_text graph.now }
{
    match graph {
        GraphRef::Default => "",
        GraphRef::Named(name) => text_of(name),
        GraphRef::Merged => "",
    }
}
