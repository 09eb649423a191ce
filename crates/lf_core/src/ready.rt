//! What is ready to be put into a state: it holds the memory that this takes.
ghost use Rattle.std.specs.Prelude.{◌≡◌, IfOk};
ghost use Rattle.def_histories.specs.declared.operation.Operation.TheVariants.{Register};
ghost use Rattle.lf_core.specs.Kept.{IsMeant};
ghost use Rattle.lf_core.specs.Prepared.{IsNew, lent_operation};

use lf_base::{Memory, Text, TryCopy};
use lf_board::HomeBoard;
use lf_model::Frame;
use lf_versions::{Commit, Version};
use std::alloc::Global;
use std::marker::Model;
use std::sync::Arc;

/// A frame that is to be registered. The entry takes one handle of its name and its text, and the
/// live frame another.
#[derive(Drop)]
pub struct NewFrame {
    /// The number of the seat that registers it.
    pub seat: u64,
    pub name: Text,
    pub text: Text,
    /// The live frame's handle of the name.
    pub live_name: Text,
    /// The live frame's handle of the text.
    pub live_text: Text,
    /// What the text means.
    pub frame: Frame,
    /// A board of the frame that wasn't turned yet.
    pub board: HomeBoard,
}

/// A commit or a registration.
#[derive(Drop)]
pub enum Prepared {
    /// The commit and the version after it.
    Commit {
        commit: Arc<Commit>,
        version: Version,
    },
    Register(NewFrame),
}

/// An operation that is ready to be put. Contracts see the operation and, for a commit, the version
/// after it.
#[derive(Drop)]
pub struct Ready {
    pub(crate) prepared: Prepared,
}

/// The operation of what is ready, lent: of a commit the handle that the history will hold.
#[derive(Clone, Copy)]
pub enum Lent<'a> {
    Commit(&'a Arc<Commit>),
    Register {
        seat: u64,
        name: &'a Text,
        text: &'a Text,
    },
}

impl Model for Ready {
    ghost use Rattle.std.specs.Coded.{codes};
    ghost use Rattle.lf_model.specs.contracts.json.Json as json;
    ghost use Rattle.lf_core.specs.Prepared.{IsPrepared, Prepares, prepares};

    ghost Value = { Prepares };

    ghost coded = { Prim.hlevel (codes, json.the_row.coded) };

    ghost view = { λ r. prepares r.prepared };

    ghost invariant = { λ r. IsPrepared r.prepared };
}

impl Ready {
    /// The operation that it makes when it is put.
    pub fn operation(&self) -> Lent<'_>
        ensures { lent_operation result ≡ self.now.operation }
    {
        match &self.prepared {
            Prepared::Commit { commit, .. } => Lent::Commit(commit),
            Prepared::Register(new) => Lent::Register {
                seat: new.seat,
                name: &new.name,
                text: &new.text,
            },
        }
    }
}

/// Makes what a registration puts.
pub fn new_frame(
    alloc: Global,
    seat: u64,
    name: &str,
    text: &str,
    frame: Frame,
) -> Result<NewFrame, Memory>
    requires read { IsMeant text.now frame }
    ensures is { IfOk result (λ new. IsNew new) }
    ensures seat { IfOk result (λ new. new.seat ≡ seat) }
    ensures name { IfOk result (λ new. new.name ≡ name.now) }
    ensures text { IfOk result (λ new. new.text ≡ text.now) }
{
    match parts(alloc, name, text, &frame) {
        Ok((name, text, live_name, live_text, copied)) => Ok(NewFrame {
            seat,
            name,
            text,
            live_name,
            live_text,
            frame,
            board: HomeBoard::new(copied),
        }),
        Err(Memory) => {
            drop(frame);
            Err(Memory)
        }
    }
}

// Handles of the name and the text, and a copy of the frame.
fn parts(
    alloc: Global,
    name: &str,
    text: &str,
    frame: &Frame,
) -> Result<(Text, Text, Text, Text, Frame), Memory>
    ensures name { IfOk result (λ made. made.0 ≡ name.now) }
    ensures text { IfOk result (λ made. made.1 ≡ text.now) }
    ensures live_name { IfOk result (λ made. made.2 ≡ name.now) }
    ensures live_text { IfOk result (λ made. made.3 ≡ text.now) }
    ensures frame { IfOk result (λ made. made.4 ≡ frame.now) }
{
    let entry_name = Text::of(alloc, name)?;
    let entry_text = Text::of(alloc, text)?;
    let live_name = entry_name.copy(alloc)?;
    let live_text = entry_text.copy(alloc)?;
    Ok((
        entry_name,
        entry_text,
        live_name,
        live_text,
        frame.copy(alloc)?,
    ))
}
