//! Lists that are read item by item, also lists in one another, by a stack and without recursion:
//! what one step does to the reader.
ghost use Rattle.std.specs.Prelude.{◌≡◌, List, IfOk, IsTrue};
ghost use Rattle.lf_rdf.specs.declared.term.Term.{Term as TheTerm};
ghost use Rattle.lf_rdf.specs.declared.quad.Quad.{Quad};
ghost use Rattle.lf_rdf.specs.declared.question.GraphRef.{GraphRef};
ghost use Rattle.lf_rdf.specs.Vocabulary.{rdf_nil};
ghost use Rattle.lf_model.specs.ValueBridge.{value_data};
ghost use Rattle.def_datasets.specs.Terms.{is_iri};
ghost use Rattle.lf_lists.specs.Reading.{AreNear, AreNearIn, GoesAlong, GoesOn, GoesUnder, TurnTells, plain};

use lf_base::{Memory, TryCopy};
use lf_model::{Value, ValueList};
use lf_rdf::Term;
use std::alloc::Global;

/// A list that waits while one of its items, a list too, is read: its items so far, and where it
/// goes on.
#[derive(Drop)]
pub(crate) struct OpenList {
    pub(crate) items: ValueList,
    pub(crate) rest: Term,
}

/// What is being read: the lists that wait, the outermost first, the items of the innermost list so
/// far, and where it goes on.
#[derive(Drop)]
pub(crate) struct Reader {
    pub(crate) open: Vec<OpenList>,
    pub(crate) items: ValueList,
    pub(crate) rest: Term,
}

/// The item and the rest of a cell.
#[derive(Drop)]
pub(crate) struct Parts {
    pub(crate) item: Term,
    pub(crate) rest: Term,
}

/// What a step leaves: all items of the outermost list, or a reader that goes on.
#[derive(Drop)]
pub(crate) enum Turn {
    Whole(ValueList),
    Goes(Reader),
}

/// Goes on behind the end of a list.
pub(crate) fn end_list(reader: Reader) -> Result<Turn, Memory>
    requires nil { IsTrue (is_iri rdf_nil reader.rest) }
    ensures turns { IfOk result (λ turn.
        (dataset : List Quad) (g : GraphRef) → GoesOn dataset g reader →
        TurnTells dataset g reader turn) }
    ensures near { IfOk result (λ turn.
        (dataset : List Quad) (origin : TheTerm) → AreNear dataset origin reader →
        AreNearIn dataset origin turn) }
{
    let Reader { open, items, rest } = reader;
    drop(rest);
    let mut waiting = open;
    match waiting.pop() {
        Some(outer) => {
            let OpenList {
                items: before,
                rest: next,
            } = outer;
            let mut outer_items = before;
            outer_items.push(Value::List(items))?;
            Ok(Turn::Goes(Reader {
                open: waiting,
                items: outer_items,
                rest: next,
            }))
        }
        None => Ok(Turn::Whole(items)),
    }
}

/// Goes on with the item of a cell, which is a list, while the rest waits.
pub(crate) fn go_under(alloc: Global, reader: Reader, parts: Parts) -> Result<Reader, Memory>
    ensures { IfOk result (λ after. GoesUnder reader parts after) }
{
    let Reader { open, items, rest } = reader;
    drop(rest);
    let Parts { item, rest: next } = parts;
    let mut waiting = open;
    waiting.push(OpenList { items, rest: next })?;
    Ok(Reader {
        open: waiting,
        items: ValueList::new(alloc),
        rest: item,
    })
}

/// Goes on with the rest of a cell, whose item is no list.
pub(crate) fn go_along(alloc: Global, reader: Reader, parts: Parts) -> Result<Reader, Memory>
    ensures { IfOk result (λ after. GoesAlong reader parts after) }
{
    let Reader { open, items, rest } = reader;
    drop(rest);
    let Parts { item, rest: next } = parts;
    let value = plain_value(alloc, &item);
    drop(item);
    let mut more = items;
    more.push(value?)?;
    Ok(Reader {
        open,
        items: more,
        rest: next,
    })
}

/// The value of a term that stands for no list (JSON-LD 1.1 Processing Algorithms and API,
/// section 8.2).
pub(crate) fn plain_value(alloc: Global, object: &Term) -> Result<Value, Memory>
    ensures { IfOk result (λ value. value_data value ≡ plain object.now) }
{
    match object {
        Term::Literal { .. } => Ok(Value::Literal(object.copy(alloc)?)),
        Term::Iri(_) => Ok(Value::Ref(object.copy(alloc)?)),
        Term::Blank(_) => Ok(Value::Ref(object.copy(alloc)?)),
    }
}
