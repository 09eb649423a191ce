//! Bodies that take memory, as JSON texts in compact form (RFC 8259).
ghost use Rattle.std.specs.Prelude.{◌≡◌, [], IfOk, OnOk};
ghost use Rattle.json.specs.Print.{print};
ghost use Rattle.lf_session.specs.Bodies.{frame_body, fractional_body};
ghost use Rattle.lf_session.specs.Tokens.{fractional_tokens};

use json::Writer;
use lf_base::{Memory, Text};
use std::alloc::Global;

/// The body of a frame's name.
#[tactic(auto, unfolding(crate::specs::Bodies::frame_body))]
pub fn frame_text(alloc: Global, name: &str) -> Result<Text, Memory>
    ensures { IfOk result (λ text. text ≡ frame_body name.now) }
{
    let mut text = String::from_str(alloc, "{\"frame\":\"")?;
    text.push_str(name)?;
    text.push_str("\"}")?;
    Text::from_string(text)
}

// The members of the body of a fractional number.
#[tactic(auto, unfolding(crate::specs::Tokens::fractional_tokens))]
fn write_fractional(writer: &mut Writer, path: &Text) -> Result<(), Memory>
    requires { writer.old.tokens ≡ [] }
    ensures tokens { OnOk result (writer.new.tokens ≡ fractional_tokens path.now) }
    ensures before { OnOk result (writer.new.before ≡ writer.old.before) }
{
    writer.begin_object()?;
    writer.key("error")?;
    writer.string("fractional number")?;
    writer.key("path")?;
    writer.string(path.as_str())?;
    writer.end_object()?;
    Ok(())
}

// The text that was written.
fn text_of(writer: Writer) -> Result<Text, Memory>
    requires { writer.before ≡ [] }
    ensures { IfOk result (λ text. text ≡ print writer.tokens) }
{
    Text::from_string(String::from_utf8(writer.into_inner()).unwrap())
}

/// The body of a number of a frame that is no whole number within range, by its path.
pub fn fractional_text(alloc: Global, path: &Text) -> Result<Text, Memory>
    ensures { IfOk result (λ text. text ≡ fractional_body path.now) }
{
    let mut writer = Writer::new(Vec::new(alloc));
    write_fractional(&mut writer, path)?;
    Ok(text_of(writer)?)
}
