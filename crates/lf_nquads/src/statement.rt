//! Statements and lines, with the sign of a patch (RDF 1.1 N-Quads, section 2 and appendix A).
ghost use Rattle.std.specs.Prelude.{◌≡◌};
ghost use Rattle.std.specs.Str.{chars};
ghost use Rattle.def_patch_texts.specs.PatchText.{absolute_iris};
ghost use Rattle.def_patch_texts.specs.Reading.{sign_at};
ghost use Rattle.lf_nquads.specs.Outcomes.{expected, node_of, object_of, named_of, graph_of, statement_of, signed_of, line_of};
ghost use Rattle.lf_nquads.specs.Gives.{Gives};

use crate::cursor::Cursor;
use crate::error::Fault;
use def_patch_texts::LineKind;
use lf_rdf::{Quad, Signed, Term};
use std::alloc::Global;

impl Cursor<'_> {
    // Takes a subject or a graph label: an IRI or a blank node.
    #[tactic(auto, unfolding(crate::specs::Outcomes::node_of))]
    fn node(&mut self, alloc: Global) -> Result<Term, Fault>
        ensures { Gives (λ node. (node, self.new)) result (node_of absolute_iris self.old) }
    {
        if self.begins('<') {
            let iri = self.iri(alloc)?;
            return Ok(Term::Iri(iri));
        }
        let label = self.blank(alloc)?;
        Ok(Term::Blank(label))
    }

    // Takes an object.
    #[tactic(auto, unfolding(crate::specs::Outcomes::object_of))]
    fn object(&mut self, alloc: Global) -> Result<Term, Fault>
        ensures { Gives (λ object. (object, self.new)) result (object_of absolute_iris self.old) }
    {
        if self.begins('"') {
            return self.literal(alloc);
        }
        self.node(alloc)
    }

    // Takes a graph label and the dot.
    #[tactic(auto, unfolding(crate::specs::Outcomes::named_of))]
    fn named(&mut self, alloc: Global) -> Result<Option<Term>, Fault>
        ensures { Gives (λ graph. (graph, self.new)) result (named_of absolute_iris self.old) }
    {
        let name = self.node(alloc)?;
        self.skip_blanks();
        self.expect('.')?;
        Ok(Some(name))
    }

    // Takes the graph label, where there is one, and the dot.
    #[tactic(auto, unfolding(crate::specs::Outcomes::graph_of))]
    fn graph(&mut self, alloc: Global) -> Result<Option<Term>, Fault>
        ensures { Gives (λ graph. (graph, self.new)) result (graph_of absolute_iris self.old) }
    {
        self.skip_blanks();
        if self.begins('.') {
            self.expect('.')?;
            return Ok(None);
        }
        self.named(alloc)
    }

    // Takes a statement, its dot and an optional comment, which end the line.
    #[tactic(auto, unfolding(crate::specs::Outcomes::statement_of))]
    fn statement(&mut self, alloc: Global) -> Result<Quad, Fault>
        ensures { Gives (λ quad. quad) result (statement_of absolute_iris self.old) }
    {
        self.skip_blanks();
        let subject = self.node(alloc)?;
        self.skip_blanks();
        let iri = self.iri(alloc)?;
        self.skip_blanks();
        let object = self.object(alloc)?;
        let graph = self.graph(alloc)?;
        self.skip_blanks();
        if !self.at_comment() {
            return Err(Fault::Bad(LineKind::Syntax));
        }
        Ok(Quad {
            subject,
            predicate: Term::Iri(iri),
            object,
            graph,
        })
    }

    // Takes the sign of a line and its space, and says whether the line adds. No sign means that
    // it does.
    #[tactic(auto, unfolding(def_patch_texts::specs::Reading::sign_at))]
    fn sign(&mut self) -> Result<bool, Fault>
        ensures { Gives (λ add. (add, self.new)) result (expected (sign_at self.old)) }
    {
        if self.begins('+') {
            self.expect('+')?;
            self.expect(' ')?;
            return Ok(true);
        }
        if self.begins('-') {
            self.expect('-')?;
            self.expect(' ')?;
            return Ok(false);
        }
        Ok(true)
    }

    // Takes a sign and a statement.
    #[tactic(auto, unfolding(crate::specs::Outcomes::signed_of))]
    fn signed(&mut self, alloc: Global) -> Result<Signed, Fault>
        ensures { Gives (λ signed. Some signed) result (signed_of absolute_iris self.old) }
    {
        let add = self.sign()?;
        let quad = self.statement(alloc)?;
        Ok(Signed { add, quad })
    }
}

/// What a line states, or nothing where it is skipped.
#[tactic(auto, unfolding(crate::specs::Outcomes::line_of))]
pub fn read_line(alloc: Global, line: &str) -> Result<Option<Signed>, Fault>
    ensures { Gives (λ stated. stated) result (line_of absolute_iris (chars line.now)) }
{
    let mut cursor = Cursor::of(line);
    let mut ahead = cursor.here();
    ahead.skip_blanks();
    if ahead.at_comment() {
        return Ok(None);
    }
    let signed = cursor.signed(alloc)?;
    Ok(Some(signed))
}
