//! JSON texts written, token by token.
ghost use Rattle.std.specs.Prelude.{◌≡◌, [], ◌∷◌, ◌++◌, IfOk, IsFalse, IsUtf8, OnOk};
ghost use Rattle.json.specs.Token as t;
ghost use Rattle.json.specs.Print.{print};
ghost use Rattle.lf_model.specs.JsonBridge.{json_data, items_data, members_data};
ghost use Rattle.def_documents.specs.JsonPrint.{json_text, whole_text};
ghost use Rattle.lf_model.specs.JsonData as j;
ghost use Rattle.lf_json.specs.Tokens.{Appends, value_tokens, item_tokens, member_tokens, has_fraction, items_have_fraction, members_have_fraction};
ghost use Rattle.lf_json.specs.ReadBack.{InKeyOrder, IsReadable, ReadsAs};

use json::Writer;
use lf_base::{Memory, Text};
use lf_model::{Json, JsonList, JsonMap};
use std::alloc::Global;

/// The compact text of a value that holds no fraction (RFC 8259): no space between tokens, members
/// in byte order of their keys. Where its whole numbers are of 64 bits and it nests at most 127
/// levels deep, the text reads back as the value. The cost grows with the length of the text.
pub fn text(alloc: Global, json: &Json) -> Result<Text, Memory>
    requires { IsFalse (has_fraction (json_data json.now)) }
    ensures value { IfOk result (λ text. text ≡ json_text (json_data json.now)) }
    ensures reads_back { IsReadable (json_data json.now)
        → IfOk result (λ text. ReadsAs text (json_data json.now)) }
{
    let mut out = Writer::new(Vec::new(alloc));
    write(json, &mut out)?;
    text_of(out)
}

fn text_of(out: Writer) -> Result<Text, Memory>
    requires { out.before ≡ [] }
    ensures value { IfOk result (λ text. text ≡ print out.tokens) }
    ensures utf8 { IfOk result (λ text. IsUtf8 text) }
{
    Text::from_string(String::from_utf8(out.into_inner()).unwrap())
}

// A whole number in decimal digits.
fn write_whole(whole: i128, out: &mut Writer) -> Result<(), Memory>
    ensures { OnOk result (Appends out.old out.new (t.number (whole_text whole) ∷ [])) }
{
    let mut buffer = itoa::Buffer::new();
    out.number(buffer.format(whole))?;
    Ok(())
}

/// Whether a number in the value is a fraction.
#[cycle(seeking)]
pub fn has_fraction(json: &Json) -> bool
    ensures { result ≡ has_fraction (json_data json.now) }
{
    match json {
        Json::Null => false,
        Json::Bool(_) => false,
        Json::Whole(_) => false,
        Json::Fraction => true,
        Json::Text(_) => false,
        Json::List(items) => items_have_fraction(items),
        Json::Map(members) => members_have_fraction(members),
    }
}

#[cycle(seeking)]
fn items_have_fraction(items: &JsonList) -> bool
    ensures { result ≡ items_have_fraction (items_data items.now) }
{
    for item in items.as_slice() {
        if has_fraction(item) {
            return true;
        }
    }
    false
}

#[cycle(seeking)]
fn members_have_fraction(members: &JsonMap) -> bool
    ensures { result ≡ members_have_fraction (members_data members.now) }
{
    for member in members.as_slice() {
        if has_fraction(&member.value) {
            return true;
        }
    }
    false
}

// The tokens of a value.
#[cycle(writing)]
fn write(json: &Json, out: &mut Writer) -> Result<(), Memory>
    ensures tokens { IsFalse (has_fraction (json_data json.now))
        → OnOk result (Appends out.old out.new (value_tokens (json_data json.now))) }
    ensures order { OnOk result (InKeyOrder (json_data json.now)) }
{
    match json {
        Json::Null => out.null()?,
        Json::Bool(truth) => out.boolean(*truth)?,
        Json::Whole(whole) => write_whole(*whole, out)?,
        Json::Fraction => {}
        Json::Text(text) => out.string(text.as_str())?,
        Json::List(items) => write_items(items, out)?,
        Json::Map(members) => write_members(members, out)?,
    }
    Ok(())
}

#[cycle(writing)]
fn write_items(items: &JsonList, out: &mut Writer) -> Result<(), Memory>
    ensures tokens { IsFalse (items_have_fraction (items_data items.now)) →
        OnOk result
        (Appends out.old out.new (t.begin_array ∷ item_tokens (items_data items.now))) }
    ensures order { OnOk result (InKeyOrder (j.array (items_data items.now))) }
{
    out.begin_array()?;
    for item in items.as_slice() {
        write(item, out)?;
    }
    out.end_array()?;
    Ok(())
}

#[cycle(writing)]
fn write_members(members: &JsonMap, out: &mut Writer) -> Result<(), Memory>
    ensures tokens { IsFalse (members_have_fraction (members_data members.now)) →
        OnOk result
        (Appends out.old out.new (t.begin_object ∷ member_tokens (members_data members.now))) }
    ensures order { OnOk result (InKeyOrder (j.object (members_data members.now))) }
{
    out.begin_object()?;
    for member in members.as_slice() {
        out.key(member.key.as_str())?;
        write(&member.value, out)?;
    }
    out.end_object()?;
    Ok(())
}
