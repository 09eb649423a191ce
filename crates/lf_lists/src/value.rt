//! The values of objects: literals, references and lists.
ghost use Rattle.std.specs.Prelude.{◌≡◌, IfOk, IsTrue};
ghost use Rattle.std.specs.Option.{option_map};
ghost use Rattle.lf_rdf.specs.declared.term.Term.{Term as TheTerm};
ghost use Rattle.lf_model.specs.ValueBridge.{value_data, values_data};
ghost use Rattle.def_datasets.specs.Cells.{is_cell};
ghost use Rattle.def_datasets.specs.Values.{value_of};
ghost use Rattle.lf_oracle.specs.Asking.{Learns, is_one_graph};
ghost use Rattle.lf_lists.specs.Hearing.{Hears};
ghost use Rattle.lf_lists.specs.Learning.{NearTo};
ghost use Rattle.lf_lists.specs.Walking.{ends_well};
ghost use Rattle.lf_lists.specs.Reading.{AreNear, AreNearIn, ArePartsOf, GoesOn, ReadsAll, StepsOn, TurnTells, list_in};

use crate::asking::quads_out;
use crate::cell::is_cell;
use crate::marks::Marks;
use crate::proper::ends_well;
use crate::reader::{Parts, Reader, Turn, end_list, go_along, go_under, plain_value};
use crate::shape::{first_among, is_nil, rest_among};
use lf_base::{Memory, Steps, TryCopy};
use lf_model::{Value, ValueList};
use lf_oracle::Oracle;
use lf_rdf::{GraphRef, Term};
use std::alloc::Global;
use std::collections::BTreeSet;
use std::sync::ledger::Ledger;

/// The value of an object in a graph (JSON-LD 1.1 Processing Algorithms and API, section 8.2). The
/// graph isn't the merged one. Of an IRI and a literal nothing is asked; a list is read in
/// questions linear in its cells, the lists in it included.
pub fn value_at<O: Oracle, L: Ledger>(
    alloc: Global,
    oracle: &mut O,
    graph: &GraphRef,
    object: &Term,
    steps: &mut Steps<L>,
) -> Result<Value, Memory>
    requires graph { IsTrue (is_one_graph graph.now) }
    ensures value { IfOk result (λ found.
        Learns (NearTo (O.quads oracle.old) object.now) (O.quads oracle.old)
        (O.told oracle.old) (O.told oracle.new) steps.old steps.new
        (λ dataset. value_of dataset graph.now object.now) (value_data found)) }
    ensures quads_stay { O.quads oracle.new ≡ O.quads oracle.old }
{
    let list = list_at(alloc, oracle, graph, object, steps)?;
    match list {
        Some(items) => Ok(Value::List(items)),
        None => {
            let value = plain_value(alloc, object)?;
            Ok(value)
        }
    }
}

/// The items of the list that an object stands for in a graph, and none where it stands for no list
/// (JSON-LD 1.1 Processing Algorithms and API, section 8.2). The graph isn't the merged one. Of an
/// IRI and a literal nothing is asked; `rdf:nil` stands for the empty list.
pub fn list_at<O: Oracle, L: Ledger>(
    alloc: Global,
    oracle: &mut O,
    graph: &GraphRef,
    object: &Term,
    steps: &mut Steps<L>,
) -> Result<Option<ValueList>, Memory>
    requires graph { IsTrue (is_one_graph graph.now) }
    ensures list { IfOk result (λ found.
        Learns (NearTo (O.quads oracle.old) object.now) (O.quads oracle.old)
        (O.told oracle.old) (O.told oracle.new) steps.old steps.new
        (λ dataset. list_in (value_of dataset graph.now object.now))
        (option_map values_data found)) }
    ensures quads_stay { O.quads oracle.new ≡ O.quads oracle.old }
{
    if is_nil(object) {
        return Ok(Some(ValueList::new(alloc)));
    }
    let listed = is_cell(alloc, oracle, graph, object, steps)?;
    if listed {
        let items = read_list(alloc, oracle, graph, object, steps)?;
        return Ok(Some(items));
    }
    Ok(None)
}

// The items of a cell's list, the lists among them too. Of each cell a number of questions is asked
// that doesn't grow with the list.
fn read_list<O: Oracle, L: Ledger>(
    alloc: Global,
    oracle: &mut O,
    graph: &GraphRef,
    head: &Term,
    steps: &mut Steps<L>,
) -> Result<ValueList, Memory>
    requires graph { IsTrue (is_one_graph graph.now) }
    requires cell { IsTrue (is_cell (O.quads oracle.old) graph.now head.now) }
    ensures reads { IfOk result (λ items.
        Hears (NearTo (O.quads oracle.old) head.now) (O.quads oracle.old) (O.told oracle.old)
        (O.told oracle.new) steps.old steps.new
        (λ dataset. ReadsAll dataset graph.now head.now items)) }
    ensures quads_stay { O.quads oracle.new ≡ O.quads oracle.old }
{
    let open = Vec::new(alloc);
    let items = ValueList::new(alloc);
    let rest = head.copy(alloc)?;
    let mut reader = Reader { open, items, rest };
    'read: loop {
        let turned = turn(alloc, oracle, graph, reader, steps)?;
        match turned {
            Turn::Whole(items) => return Ok(items),
            Turn::Goes(after) => reader = after,
        }
    }
}

// One step of a reader: the end of a list, or one cell.
fn turn<O: Oracle, L: Ledger>(
    alloc: Global,
    oracle: &mut O,
    graph: &GraphRef,
    reader: Reader,
    steps: &mut Steps<L>,
) -> Result<Turn, Memory>
    requires graph { IsTrue (is_one_graph graph.now) }
    requires goes { GoesOn (O.quads oracle.old) graph.now reader }
    ensures turns { IfOk result (λ turned.
        Hears (NearTo (O.quads oracle.old) reader.rest) (O.quads oracle.old)
        (O.told oracle.old) (O.told oracle.new) steps.old steps.new
        (λ dataset.
        GoesOn dataset graph.now reader → TurnTells dataset graph.now reader turned)) }
    ensures near { IfOk result (λ turned.
        (origin : TheTerm) → AreNear (O.quads oracle.old) origin reader →
        AreNearIn (O.quads oracle.old) origin turned) }
    ensures quads_stay { O.quads oracle.new ≡ O.quads oracle.old }
{
    if is_nil(&reader.rest) {
        let ended = end_list(reader)?;
        return Ok(ended);
    }
    let after = read_cell(alloc, oracle, graph, reader, steps)?;
    Ok(Turn::Goes(after))
}

// Reads one cell: its item is put behind the others, or is a list that is read next while the rest
// waits.
fn read_cell<O: Oracle, L: Ledger>(
    alloc: Global,
    oracle: &mut O,
    graph: &GraphRef,
    reader: Reader,
    steps: &mut Steps<L>,
) -> Result<Reader, Memory>
    requires graph { IsTrue (is_one_graph graph.now) }
    requires cell { IsTrue (is_cell (O.quads oracle.old) graph.now reader.rest) }
    ensures reads { IfOk result (λ after.
        Hears (NearTo (O.quads oracle.old) reader.rest) (O.quads oracle.old)
        (O.told oracle.old) (O.told oracle.new) steps.old steps.new
        (λ dataset.
        IsTrue (is_cell dataset graph.now reader.rest) → GoesOn dataset graph.now reader →
        StepsOn dataset graph.now reader after)) }
    ensures near { IfOk result (λ after.
        (origin : TheTerm) → AreNear (O.quads oracle.old) origin reader →
        AreNear (O.quads oracle.old) origin after) }
    ensures quads_stay { O.quads oracle.new ≡ O.quads oracle.old }
{
    let parts = read_parts(alloc, oracle, graph, &reader.rest, steps)?;
    let listed = is_list(alloc, oracle, graph, &parts.item, steps)?;
    if listed {
        let under = go_under(alloc, reader, parts)?;
        return Ok(under);
    }
    let along = go_along(alloc, reader, parts)?;
    Ok(along)
}

// The item and the rest of a cell, by one question.
fn read_parts<O: Oracle, L: Ledger>(
    alloc: Global,
    oracle: &mut O,
    graph: &GraphRef,
    cell: &Term,
    steps: &mut Steps<L>,
) -> Result<Parts, Memory>
    requires graph { IsTrue (is_one_graph graph.now) }
    requires cell { IsTrue (is_cell (O.quads oracle.old) graph.now cell.now) }
    ensures parts { IfOk result (λ parts.
        Hears (NearTo (O.quads oracle.old) cell.now) (O.quads oracle.old) (O.told oracle.old)
        (O.told oracle.new) steps.old steps.new
        (λ dataset. ArePartsOf dataset graph.now cell.now parts)) }
    ensures quads_stay { O.quads oracle.new ≡ O.quads oracle.old }
{
    let told = quads_out(alloc, oracle, graph, cell, steps)?;
    let first = first_among(alloc, told.as_slice())?;
    let next = rest_among(alloc, told.as_slice())?;
    match first {
        Some(item) => match next {
            Some(rest) => Ok(Parts { item, rest }),
            None => unreachable!(),
        },
        None => unreachable!(),
    }
}

// Whether an item of a cell is a list: it ends one well, and the cell is its one use.
fn is_list<O: Oracle, L: Ledger>(
    alloc: Global,
    oracle: &mut O,
    graph: &GraphRef,
    item: &Term,
    steps: &mut Steps<L>,
) -> Result<bool, Memory>
    requires graph { IsTrue (is_one_graph graph.now) }
    ensures list { IfOk result (λ found.
        Learns (NearTo (O.quads oracle.old) item.now) (O.quads oracle.old) (O.told oracle.old)
        (O.told oracle.new) steps.old steps.new
        (λ dataset. ends_well dataset graph.now item.now) found) }
    ensures quads_stay { O.quads oracle.new ≡ O.quads oracle.old }
{
    let mut known: Marks = BTreeSet::new(alloc);
    let found = ends_well(alloc, oracle, graph, item, &mut known, steps)?;
    Ok(found)
}
