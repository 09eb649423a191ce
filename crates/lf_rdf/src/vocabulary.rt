//! The IRIs of RDF and XML Schema that have a meaning here.
ghost use Rattle.std.specs.Prelude.{◌≡◌, IfOk};
ghost use Rattle.lf_rdf.specs.Equality.{text_eq};
ghost use Rattle.lf_rdf.specs.Vocabulary.{rdf_type, xsd_string};

use lf_base::{Memory, Text};
use std::alloc::Global;

const RDF_TYPE: &str = "http://www.w3.org/1999/02/22-rdf-syntax-ns#type";

const XSD_STRING: &str = "http://www.w3.org/2001/XMLSchema#string";

/// Whether an IRI is `rdf:type` (RDF Schema 1.1, section 3.3).
#[tactic(auto, unfolding(crate::specs::Vocabulary::rdf_type))]
pub fn is_rdf_type(iri: &str) -> bool
    ensures { result ≡ text_eq iri.now rdf_type }
{
    iri == RDF_TYPE
}

/// Whether an IRI is `xsd:string`, the datatype of plain strings (RDF 1.1 Concepts, section 5.1).
#[tactic(auto, unfolding(crate::specs::Vocabulary::xsd_string))]
pub fn is_xsd_string(iri: &str) -> bool
    ensures { result ≡ text_eq iri.now xsd_string }
{
    iri == XSD_STRING
}

/// The IRI of `xsd:string`.
#[tactic(auto, unfolding(crate::specs::Vocabulary::xsd_string))]
pub fn xsd_string(alloc: Global) -> Result<Text, Memory>
    ensures { IfOk result (λ iri. iri ≡ xsd_string) }
{
    Text::of(alloc, XSD_STRING)
}
