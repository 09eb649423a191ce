//! The term table of a frame's context.
ghost use Rattle.std.specs.Prelude.{◌≡◌, IfOk, IsTrue};
ghost use Rattle.lf_model.specs.JsonBridge.{json_data};
ghost use Rattle.def_contexts.specs.Table.{table_of};
ghost use Rattle.def_contexts.specs.TableLaws.{ascends};
ghost use Rattle.lf_expand.specs.ContextErrors.{frame_error};
ghost use Rattle.lf_expand.specs.Gives.{Gives};

use crate::error::FrameErr;
use lf_context::{ContextErr, process};
use lf_model::{Json, TermTable};
use std::alloc::Global;

/// The term table of a context, or its error.
pub fn table_by(alloc: Global, context: &Json) -> Result<TermTable, FrameErr>
    ensures table { Gives (λ table. table) result (table_of (json_data context.now)) }
    ensures order { IfOk result (λ table. IsTrue (ascends table.terms)) }
{
    match process(alloc, context) {
        Ok(table) => Ok(table),
        Err(error) => Err(frame_error(error)),
    }
}

// The error of a context as that of its frame.
fn frame_error(error: ContextErr) -> FrameErr
    ensures { result ≡ frame_error error }
{
    match error {
        ContextErr::Ld(error) => FrameErr::Ld(error),
        ContextErr::Memory => FrameErr::Memory,
    }
}
