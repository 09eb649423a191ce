//! The index beside a plain list, its limit, and versions that are kept.
ghost use Rattle.std.specs.Prelude.{◌≡◌, ◌<◌, IfOk, IsTrue};
ghost use Rattle.lf_oracle.specs.Asking.{asks_one_graph, is_one_graph};

use crate::{ApplyErr, Index};
use lf_base::{Memory, Same, Steps, Text, TryCopy};
use lf_nquads::read_patch;
use lf_oracle::Oracle;
use lf_plain::PlainQuads;
use lf_rdf::{Answer, GraphRef, Patch, QuadList, Question, Term, TermList};
use std::alloc::Global;
use std::marker::Brand;
use std::sync::ledger::{Blank, Ledger};
use std::test::Fail;

// The patch of a text.
fn patch(alloc: Global, text: &str) -> Result<Patch, Memory> {
    if text.len() > 67_108_864 {
        return Err(Memory);
    }
    match read_patch(alloc, text.as_bytes()) {
        Ok(patch) => Ok(patch),
        Err(_) => Err(Memory),
    }
}

// The quads that a text states.
fn quads(alloc: Global, text: &str) -> Result<QuadList, Memory> {
    let patch = patch(alloc, text)?;
    let mut found = QuadList::new(alloc);
    for line in patch.lines.as_slice() {
        found.push(line.quad.copy(alloc)?)?;
    }
    Ok(found)
}

fn iri(alloc: Global, text: &str) -> Result<Term, Memory> {
    Ok(Term::Iri(Text::of(alloc, text)?))
}

fn is_same(one: &Answer, two: &Answer) -> bool {
    match one {
        Answer::Flag(flag) => matches!(two, Answer::Flag(other) if flag == other),
        Answer::Quads(quads) => matches!(two, Answer::Quads(other) if quads.is(other)),
        Answer::Terms(terms) => matches!(two, Answer::Terms(other) if terms.is(other)),
    }
}

// Whether the index answers a question as the list does.
fn compared<L: Ledger>(
    alloc: Global,
    index: &Index,
    plain: &mut PlainQuads,
    question: &Question,
    steps: &mut Steps<L>,
) -> Result<bool, Memory>
    requires { IsTrue (asks_one_graph question.now) }
{
    let mut asker = index.asker();
    let one = asker.ask(alloc, question, steps)?;
    let two = plain.ask(alloc, question, steps)?;
    Ok(is_same(&one, &two))
}

fn agrees<L: Ledger>(
    alloc: Global,
    index: &Index,
    plain: &mut PlainQuads,
    question: Question,
    steps: &mut Steps<L>,
) -> Result<bool, Memory>
    requires { IsTrue (asks_one_graph question) }
{
    let same = compared(alloc, index, plain, &question, steps);
    drop(question);
    same
}

// A graph by its name, the default graph where that is empty.
fn graph(alloc: Global, name: &str) -> Result<GraphRef, Memory>
    ensures { IfOk result (λ graph. IsTrue (is_one_graph graph)) }
{
    if name.is_empty() {
        return Ok(GraphRef::Default);
    }
    Ok(GraphRef::Named(iri(alloc, name)?))
}

// The questions about a node in all graphs, and as a graph's name.
fn agrees_on_node<L: Ledger>(
    alloc: Global,
    index: &Index,
    plain: &mut PlainQuads,
    node: &Term,
    steps: &mut Steps<L>,
) -> Result<bool, Memory> {
    let out = agrees(
        alloc,
        index,
        plain,
        Question::OutAny(node.copy(alloc)?),
        steps,
    )?;
    let uses = agrees(
        alloc,
        index,
        plain,
        Question::Uses(node.copy(alloc)?),
        steps,
    )?;
    let named = agrees(
        alloc,
        index,
        plain,
        Question::Named(node.copy(alloc)?),
        steps,
    )?;
    Ok(out && uses && named)
}

// The quads of a node in a graph.
fn agrees_in_graph<L: Ledger>(
    alloc: Global,
    index: &Index,
    plain: &mut PlainQuads,
    name: &str,
    node: &Term,
    steps: &mut Steps<L>,
) -> Result<bool, Memory> {
    let out = Question::Out(graph(alloc, name)?, node.copy(alloc)?);
    agrees(alloc, index, plain, out, steps)
}

// The references to a node under a predicate in a graph.
fn agrees_inward<L: Ledger>(
    alloc: Global,
    index: &Index,
    plain: &mut PlainQuads,
    predicate: &str,
    name: &str,
    node: &Term,
    steps: &mut Steps<L>,
) -> Result<bool, Memory> {
    let inward = Question::Inward(
        graph(alloc, name)?,
        iri(alloc, predicate)?,
        node.copy(alloc)?,
    );
    agrees(alloc, index, plain, inward, steps)
}

// The references to a node under a predicate in all graphs.
fn agrees_inward_any<L: Ledger>(
    alloc: Global,
    index: &Index,
    plain: &mut PlainQuads,
    predicate: &str,
    node: &Term,
    steps: &mut Steps<L>,
) -> Result<bool, Memory> {
    let inward = Question::InwardAny(iri(alloc, predicate)?, node.copy(alloc)?);
    agrees(alloc, index, plain, inward, steps)
}

// The references to a node under a predicate, in all graphs and in two of them.
fn agrees_under<L: Ledger>(
    alloc: Global,
    index: &Index,
    plain: &mut PlainQuads,
    predicate: &str,
    node: &Term,
    steps: &mut Steps<L>,
) -> Result<bool, Memory> {
    let any = agrees_inward_any(alloc, index, plain, predicate, node, steps)?;
    let here = agrees_inward(alloc, index, plain, predicate, "", node, steps)?;
    let there = agrees_inward(alloc, index, plain, predicate, "http://e/g", node, steps)?;
    Ok(any && here && there)
}

// The nodes of a graph.
fn agrees_on_members<L: Ledger>(
    alloc: Global,
    index: &Index,
    plain: &mut PlainQuads,
    name: &str,
    steps: &mut Steps<L>,
) -> Result<bool, Memory> {
    let members = Question::Members(graph(alloc, name)?);
    agrees(alloc, index, plain, members, steps)
}

const REST: &str = "http://www.w3.org/1999/02/22-rdf-syntax-ns#rest";

// All questions about a node.
fn agrees_about<L: Ledger>(
    alloc: Global,
    index: &Index,
    plain: &mut PlainQuads,
    node: &Term,
    steps: &mut Steps<L>,
) -> Result<bool, Memory> {
    let alone = agrees_on_node(alloc, index, plain, node, steps)?;
    let here = agrees_in_graph(alloc, index, plain, "", node, steps)?;
    let there = agrees_in_graph(alloc, index, plain, "http://e/g", node, steps)?;
    let cells = agrees_under(alloc, index, plain, REST, node, steps)?;
    let others = agrees_under(alloc, index, plain, "http://e/p", node, steps)?;
    Ok(alone && here && there && cells && others)
}

// Whether all questions about some nodes are answered as by the list.
fn agrees_on_all<L: Ledger>(
    alloc: Global,
    index: &Index,
    plain: &mut PlainQuads,
    nodes: &TermList,
    steps: &mut Steps<L>,
) -> Result<bool, Memory> {
    for node in nodes.as_slice() {
        if !agrees_about(alloc, index, plain, node, steps)? {
            return Ok(false);
        }
    }
    let here = agrees_on_members(alloc, index, plain, "", steps)?;
    let there = agrees_on_members(alloc, index, plain, "http://e/g", steps)?;
    Ok(here && there)
}

// Whether an index answers all questions about its terms as the list of a text's quads does, and
// has as many.
fn is_listed<L: Ledger>(
    alloc: Global,
    index: &Index,
    text: &str,
    steps: &mut Steps<L>,
) -> Result<bool, Memory> {
    let nodes = index.terms(alloc)?;
    let quads = quads(alloc, text)?;
    let many = quads.len() == index.len();
    let mut plain = PlainQuads::of(alloc, quads);
    let same = agrees_on_all(alloc, index, &mut plain, &nodes, steps)?;
    Ok(same && many && !nodes.is_empty())
}

// Whether the index after a patch is that of a text's quads.
fn becomes<L: Ledger>(
    alloc: Global,
    index: &Index,
    change: &str,
    text: &str,
    steps: &mut Steps<L>,
) -> Result<bool, ApplyErr> {
    let patch = patch(alloc, change)?;
    let applied = index.apply(alloc, &patch);
    drop(patch);
    match applied {
        Ok(next) => {
            let listed = is_listed(alloc, &next, text, steps);
            drop(next);
            Ok(listed?)
        }
        Err(error) => Err(error),
    }
}

// A list of three cells, and a type that is used as well, in line order.
const CELLS: &str = "<http://e/a> <http://e/l> _:c1 .
<http://e/a> <http://e/p> <http://e/T> .
<http://e/a> <http://www.w3.org/1999/02/22-rdf-syntax-ns#type> <http://e/T> .
_:c1 <http://www.w3.org/1999/02/22-rdf-syntax-ns#first> \"1\" .
_:c1 <http://www.w3.org/1999/02/22-rdf-syntax-ns#rest> _:c2 .
_:c2 <http://www.w3.org/1999/02/22-rdf-syntax-ns#first> \"2\" .
_:c2 <http://www.w3.org/1999/02/22-rdf-syntax-ns#rest> _:c3 .
_:c3 <http://www.w3.org/1999/02/22-rdf-syntax-ns#first> \"3\" .
_:c3 <http://www.w3.org/1999/02/22-rdf-syntax-ns#rest> <http://www.w3.org/1999/02/22-rdf-syntax-ns#nil> .
";

// Two named graphs, of which one names itself, and a node in three graphs.
const GRAPHS: &str = "<http://e/a> <http://e/p> \"1\" <http://e/g> .
<http://e/a> <http://e/p> <http://e/a> .
<http://e/a> <http://e/p> <http://e/b> <http://e/g> .
<http://e/a> <http://e/p> <http://e/b> _:h .
<http://e/b> <http://e/q> _:h .
_:h <http://e/p> _:h _:h .
";

// A cell that has a use in another graph, and so is none.
const NO_LIST: &str = "<http://e/a> <http://e/l> _:c .
<http://e/b> <http://e/l> _:c <http://e/g> .
_:c <http://www.w3.org/1999/02/22-rdf-syntax-ns#first> \"1\" .
_:c <http://www.w3.org/1999/02/22-rdf-syntax-ns#rest> <http://www.w3.org/1999/02/22-rdf-syntax-ns#nil> .
";

// A node that is the first item of its own list.
const OWN_ITEM: &str = "_:c <http://www.w3.org/1999/02/22-rdf-syntax-ns#first> _:c .
_:c <http://www.w3.org/1999/02/22-rdf-syntax-ns#rest> <http://www.w3.org/1999/02/22-rdf-syntax-ns#nil> .
";

// The quads of the default graph among these, and one more.
const FEWER: &str = "<http://e/a> <http://e/p> <http://e/a> .
<http://e/b> <http://e/q> \"z\"@en .
<http://e/b> <http://e/q> _:h .
";

const CHANGE: &str = "- <http://e/a> <http://e/p> \"1\" <http://e/g> .
<http://e/b> <http://e/q> \"z\"@en .
- <http://e/a> <http://e/p> <http://e/b> <http://e/g> .
- <http://e/b> <http://e/q> \"absent\" .
- <http://e/a> <http://e/p> <http://e/b> _:h .
- _:h <http://e/p> _:h _:h .
";

// A quad of these that goes, and one that comes back.
const AGAIN: &str = "<http://e/a> <http://e/p> \"1\" <http://e/g> .
- <http://e/b> <http://e/q> _:h .
";

const LAST: &str = "<http://e/a> <http://e/p> \"1\" <http://e/g> .
<http://e/a> <http://e/p> <http://e/a> .
<http://e/b> <http://e/q> \"z\"@en .
";

// The second version, the first one with a quad that goes and comes, and the first one itself
// behind them.
fn versions<L: Ledger>(
    alloc: Global,
    kept: &Index,
    steps: &mut Steps<L>,
) -> Result<bool, ApplyErr> {
    let once = becomes(alloc, kept, CHANGE, FEWER, steps)?;
    let both = "- <http://e/b> <http://e/q> _:h .\n<http://e/b> <http://e/q> _:h .\n";
    let twice = becomes(alloc, kept, both, GRAPHS, steps)?;
    let stays = is_listed(alloc, kept, GRAPHS, steps)?;
    Ok(once && twice && stays)
}

// Three versions that are asked while all of them are kept, the newest first.
fn are_kept<L: Ledger>(
    alloc: Global,
    first: &Index,
    second: &Index,
    third: &Index,
    steps: &mut Steps<L>,
) -> Result<bool, Memory> {
    let newest = is_listed(alloc, third, LAST, steps)?;
    let middle = is_listed(alloc, second, FEWER, steps)?;
    let oldest = is_listed(alloc, first, GRAPHS, steps)?;
    Ok(newest && middle && oldest)
}

// The third version behind the first two.
fn of_second<L: Ledger>(
    alloc: Global,
    first: &Index,
    second: &Index,
    steps: &mut Steps<L>,
) -> Result<bool, ApplyErr> {
    let patch = patch(alloc, AGAIN)?;
    let applied = second.apply(alloc, &patch);
    drop(patch);
    match applied {
        Ok(third) => {
            let held = are_kept(alloc, first, second, &third, steps);
            drop(third);
            Ok(held?)
        }
        Err(error) => Err(error),
    }
}

// The second and the third version behind the first one.
fn chain<L: Ledger>(alloc: Global, first: &Index, steps: &mut Steps<L>) -> Result<bool, ApplyErr> {
    let patch = patch(alloc, CHANGE)?;
    let applied = first.apply(alloc, &patch);
    drop(patch);
    match applied {
        Ok(second) => {
            let held = of_second(alloc, first, &second, steps);
            drop(second);
            held
        }
        Err(error) => Err(error),
    }
}

// The versions one by one, and in a chain.
fn both_ways<L: Ledger>(
    alloc: Global,
    first: &Index,
    steps: &mut Steps<L>,
) -> Result<bool, ApplyErr> {
    let single = versions(alloc, first, steps)?;
    let chained = chain(alloc, first, steps)?;
    Ok(single && chained)
}

// What holds of the versions of the index of a text's quads.
fn of_first<L: Ledger>(
    alloc: Global,
    empty: &Index,
    text: &str,
    steps: &mut Steps<L>,
) -> Result<bool, ApplyErr> {
    let patch = patch(alloc, text)?;
    let applied = empty.apply(alloc, &patch);
    drop(patch);
    match applied {
        Ok(first) => {
            let held = both_ways(alloc, &first, steps);
            drop(first);
            held
        }
        Err(error) => Err(error),
    }
}

// The index of each text beside the list.
fn first_listed<L: Ledger>(
    alloc: Global,
    empty: &Index,
    steps: &mut Steps<L>,
) -> Result<bool, ApplyErr> {
    for text in [CELLS, GRAPHS, NO_LIST, OWN_ITEM] {
        if !becomes(alloc, empty, text, text, steps)? {
            return Ok(false);
        }
    }
    Ok(true)
}

// The index of each text beside the list, and the versions of one.
fn all_agree<L: Ledger>(alloc: Global, empty: &Index, blank: Blank) -> Result<bool, ApplyErr>
    requires name { blank.name ≡ L.name }
    requires parts { blank.parts ≡ L.parts }
    requires one { 0 < blank.parts }
{
    let mut steps = Steps::<L>::of(blank);
    let first = first_listed(alloc, empty, &mut steps)?;
    let versions = of_first(alloc, empty, GRAPHS, &mut steps)?;
    Ok(first && versions)
}

#[test]
fn questions_are_answered_as_by_a_plain_list(rt: HostRuntime) -> Result<(), Fail> {
    let alloc = rt.alloc();
    let empty = Index::new(alloc)?;
    let agree = all_agree::<Brand>(alloc, &empty, Blank::new(1));
    drop(empty);
    assert!(rt; agree?);
    Ok(())
}

// So many quads of one predicate and object.
fn many(alloc: Global, count: u32) -> Result<Text, Memory> {
    let mut text = String::new(alloc);
    for number in 0..count {
        let line = format!(in alloc; "<http://e/{number}> <http://e/p> <http://e/o> .\n")?;
        text.push_str(line.as_str())?;
    }
    Text::from_string(text)
}

// How many quads there are after a patch, or why it isn't applied.
fn told(alloc: Global, applied: Result<Index, ApplyErr>) -> Result<Text, Memory> {
    match applied {
        Ok(next) => {
            let count = next.len();
            drop(next);
            Text::from_string(format!(in alloc; "{count}")?)
        }
        Err(ApplyErr::TooManyQuads { have, would }) => {
            Text::from_string(format!(in alloc; "{have}, not {would}")?)
        }
        Err(ApplyErr::Memory) => Err(Memory),
    }
}

fn told_after(alloc: Global, index: &Index, change: &str) -> Result<Text, Memory> {
    let patch = patch(alloc, change)?;
    let applied = index.apply(alloc, &patch);
    drop(patch);
    told(alloc, applied)
}

// What comes of each patch of a row, and the row at which it is another.
fn first_other(
    alloc: Global,
    full: &Index,
    rows: &[(&str, &str)],
) -> Result<Option<usize>, Memory> {
    for (place, (change, wanted)) in rows.iter().enumerate() {
        let found = told_after(alloc, full, change)?;
        if found.as_str() != *wanted {
            return Ok(Some(place));
        }
    }
    Ok(None)
}

// The same over an index of so many quads.
fn other_over(alloc: Global, count: u32, rows: &[(&str, &str)]) -> Result<Option<usize>, ApplyErr> {
    let empty = Index::new(alloc)?;
    let patch = patch(alloc, many(alloc, count)?.as_str())?;
    match empty.apply(alloc, &patch) {
        Ok(full) => {
            let other = first_other(alloc, &full, rows);
            drop(full);
            Ok(other?)
        }
        Err(error) => Err(error),
    }
}

#[test]
fn a_version_has_400_000_quads_at_most(rt: HostRuntime) -> Result<(), Fail> {
    let alloc = rt.alloc();
    let new = "<http://e/x> <http://e/p> <http://e/o> .\n";
    let old = "<http://e/0> <http://e/p> <http://e/o> .\n";
    let gone = "- <http://e/0> <http://e/p> <http://e/o> .\n";
    let moved =
        "- <http://e/0> <http://e/p> <http://e/o> .\n<http://e/x> <http://e/p> <http://e/o> .\n";
    let rows = [
        ("", "400000"),
        (new, "400000, not 400001"),
        (old, "400000"),
        (gone, "399999"),
        (moved, "400000"),
    ];
    let other = other_over(alloc, 400_000, rows.as_slice())?;
    assert!(rt; other.is_none());
    Ok(())
}
