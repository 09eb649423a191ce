//! The document of a frame and of outcomes, as a program asks for it (JSON-LD 1.1 Framing, section
//! 4.1).
ghost use Rattle.std.specs.Prelude.{◌≡◌, Err, IfOk, List, Option, map};
ghost use Rattle.lf_model.specs.declared.table.TermTable.{TermTable};
ghost use Rattle.lf_model.specs.JsonData.{JsonValue};
ghost use Rattle.lf_model.specs.JsonBridge.{json_data};
ghost use Rattle.def_framing.specs.OutcomeBridge.{outcome_data};
ghost use Rattle.def_documents.specs.Document.{compact_all, document_json, printed_doc, pruned, within_bytes};
ghost use Rattle.def_documents.specs.FrameDocument.{document_of};
ghost use Rattle.def_documents.specs.JsonPrint.{json_text};
ghost use Rattle.lf_doc.specs.Gathering.{trees_of};
ghost use Rattle.lf_doc.specs.Maps.{CompactedAll};

use crate::context::shown_context;
use crate::labels::labels_of;
use crate::limits::first_limit;
use crate::maps::maps_of;
use crate::printing::write;
use crate::sheet::Sheet;
use crate::top::top_map;
use lf_base::Memory;
use lf_compact::CompactErr;
use lf_model::{Doc, Frame, Json, OutcomeList};
use lf_select::Inverse;
use std::alloc::Global;

// The text of the context and the maps, unless it is too long.
fn written(alloc: Global, inverse: &Inverse, context: &Json, maps: Vec<Json>) -> Result<Doc, Memory>
    ensures { IfOk result (λ doc. doc ≡ within_bytes
        (json_text (document_json inverse.now (json_data context.now) (map json_data maps.items)))) }
{
    let context = shown_context(alloc, context)?;
    let map = top_map(alloc, inverse, context, maps)?;
    let mut sheet = Sheet::new(alloc);
    write(alloc, &mut sheet, &map)?;
    sheet.doc()
}

// The error of compaction is the document.
fn refused(error: CompactErr) -> Result<Doc, Memory>
    ensures { IfOk result (λ doc. (table : TermTable) (context : JsonValue) (answer : Option (List JsonValue))
        → CompactedAll (Err error) answer → doc ≡ printed_doc table context answer) }
{
    match error {
        CompactErr::Ld(error) => Ok(Doc::Refused(error)),
        CompactErr::Memory => Err(Memory),
    }
}

// The document where no limit of framing is met.
fn printed(alloc: Global, frame: &Frame, outcomes: &OutcomeList) -> Result<Doc, Memory>
    ensures { IfOk result (λ doc. doc ≡ printed_doc frame.now.table (json_data frame.now.context)
        (compact_all frame.now.table (pruned (trees_of (map outcome_data outcomes.now))))) }
{
    let counts = labels_of(alloc, outcomes)?;
    let inverse = Inverse::of(alloc, &frame.table)?;
    match maps_of(alloc, &inverse, &counts, outcomes) {
        Ok(maps) => written(alloc, &inverse, &frame.context, maps),
        Err(error) => refused(error),
    }
}

/// The document of a frame and of the outcomes of a dataset's terms, in order of the terms: a limit
/// of framing, else the error `IRI confused with prefix`, else the limit of its bytes, else its
/// text (JSON-LD 1.1 Framing, section 4.1). It has at most 262,144 items and 33,554,432 bytes. Its
/// time grows as n log n in the items, the terms of the context and the bytes; the context is
/// turned round once. Its calls go as deep as the trees nest: lists nested as deep as a tree has
/// items, 65,536, take below 64 MiB of stack.
pub fn assemble(alloc: Global, frame: &Frame, outcomes: &OutcomeList) -> Result<Doc, Memory>
    ensures { IfOk result (λ doc. doc ≡ document_of frame.now (map outcome_data outcomes.now)) }
{
    match first_limit(outcomes) {
        Some(limit) => Ok(Doc::Over(limit)),
        None => printed(alloc, frame, outcomes),
    }
}
