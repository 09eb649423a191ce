//! The order of terms by their kind and texts, which tells any two apart.
ghost use Rattle.std.specs.Prelude.{◌≡◌};
ghost use Rattle.std.specs.Ordering.{ordering_then};
ghost use Rattle.def_datasets.specs.Order.{parts_cmp, term_parts, text_cmp};

use lf_base::Text;
use lf_rdf::Term;
use std::cmp::Ordering;

/// How two terms stand by kind and texts.
#[tactic(auto, using(crate::proofs::Ties::then_equal))]
pub fn by_parts(one: &Term, two: &Term) -> Ordering
    ensures { result ≡ parts_cmp (term_parts one.now) (term_parts two.now) }
{
    match one {
        Term::Iri(iri) => match two {
            Term::Iri(other) => iri.cmp(other),
            Term::Blank(_) => Ordering::Less,
            Term::Literal { .. } => Ordering::Less,
        },
        Term::Blank(label) => match two {
            Term::Iri(_) => Ordering::Greater,
            Term::Blank(other) => label.cmp(other),
            Term::Literal { .. } => Ordering::Less,
        },
        Term::Literal {
            lexical,
            datatype,
            language,
        } => match two {
            Term::Iri(_) => Ordering::Greater,
            Term::Blank(_) => Ordering::Greater,
            Term::Literal {
                lexical: other_lexical,
                datatype: other_datatype,
                language: other_language,
            } => match language {
                None => match other_language {
                    None => by_texts(lexical, datatype, other_lexical, other_datatype),
                    Some(_) => Ordering::Less,
                },
                Some(tag) => match other_language {
                    None => Ordering::Greater,
                    Some(other_tag) => {
                        by_texts(lexical, datatype, other_lexical, other_datatype).then(tag.cmp(
                            other_tag,
                        ))
                    }
                },
            },
        },
    }
}

// Two texts, and then two more.
fn by_texts(one: &Text, then_one: &Text, two: &Text, then_two: &Text) -> Ordering
    ensures { result ≡ ordering_then (text_cmp one.now two.now) (text_cmp then_one.now then_two.now) }
{
    one.cmp(two).then(then_one.cmp(then_two))
}
