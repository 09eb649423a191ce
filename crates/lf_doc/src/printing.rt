//! JSON values written as their compact texts (RFC 8259, section 2).
ghost use Rattle.std.specs.Prelude.{◌≡◌, ◌++◌, ◌∷◌, [], OnOk};
ghost use Rattle.lf_base.specs.Ascii as ch;
ghost use Rattle.def_printed.specs.JsonText.{json_array, json_object, json_string};
ghost use Rattle.def_documents.specs.JsonPrint.{item_texts, json_text, member_texts, truth_text, whole_text};
ghost use Rattle.lf_model.specs.JsonBridge.{items_data, json_data, members_data};
ghost use Rattle.lf_doc.specs.Sheets.{appended, comma_if};

use crate::sheet::Sheet;
use lf_base::{Memory, Text};
use lf_model::{Json, JsonList, JsonMap};
use std::alloc::Global;

/// A comma, where a value stands before.
pub fn separate(alloc: Global, sheet: &mut Sheet, after: bool) -> Result<(), Memory>
    ensures { OnOk result (sheet.new ≡ appended sheet.old (comma_if after)) }
{
    if after {
        sheet.append(alloc, ",")
    } else {
        sheet.append(alloc, "")
    }
}

/// A key with its colon.
pub fn write_key(alloc: Global, sheet: &mut Sheet, key: &Text) -> Result<(), Memory>
    ensures { OnOk result (sheet.new ≡ appended sheet.old (json_string key.now ++ ch.colon ∷ [])) }
{
    sheet.string(alloc, key.as_str())?;
    sheet.append(alloc, ":")
}

// Writes `true` or `false`.
fn write_truth(alloc: Global, sheet: &mut Sheet, truth: bool) -> Result<(), Memory>
    ensures { OnOk result (sheet.new ≡ appended sheet.old (truth_text truth)) }
{
    if truth {
        sheet.append(alloc, "true")
    } else {
        sheet.append(alloc, "false")
    }
}

// Writes a whole number in decimals.
fn write_whole(alloc: Global, sheet: &mut Sheet, whole: i128) -> Result<(), Memory>
    ensures { OnOk result (sheet.new ≡ appended sheet.old (whole_text whole)) }
{
    let mut buffer = itoa::Buffer::new();
    sheet.append(alloc, buffer.format(whole))
}

/// A value. No document holds a fraction, which has no text.
#[cycle(writing)]
pub fn write(alloc: Global, sheet: &mut Sheet, json: &Json) -> Result<(), Memory>
    ensures { OnOk result (sheet.new ≡ appended sheet.old (json_text (json_data json.now))) }
{
    match json {
        Json::Null => sheet.append(alloc, "null"),
        Json::Bool(truth) => write_truth(alloc, sheet, *truth),
        Json::Whole(whole) => write_whole(alloc, sheet, *whole),
        Json::Fraction => sheet.append(alloc, ""),
        Json::Text(text) => sheet.string(alloc, text.as_str()),
        Json::List(items) => write_items(alloc, sheet, items),
        Json::Map(members) => write_members(alloc, sheet, members),
    }
}

// Writes the items of an array.
#[cycle(writing)]
fn write_items(alloc: Global, sheet: &mut Sheet, items: &JsonList) -> Result<(), Memory>
    ensures { OnOk result
        (sheet.new ≡ appended sheet.old (json_array (item_texts (items_data items.now)))) }
{
    sheet.append(alloc, "[")?;
    let mut after = false;
    for item in items.as_slice() {
        separate(alloc, sheet, after)?;
        write(alloc, sheet, item)?;
        after = true;
    }
    sheet.append(alloc, "]")
}

// Writes the members of a map.
#[cycle(writing)]
fn write_members(alloc: Global, sheet: &mut Sheet, members: &JsonMap) -> Result<(), Memory>
    ensures { OnOk result
        (sheet.new ≡ appended sheet.old (json_object (member_texts (members_data members.now)))) }
{
    sheet.append(alloc, "{")?;
    let mut after = false;
    for member in members.as_slice() {
        separate(alloc, sheet, after)?;
        write_key(alloc, sheet, &member.key)?;
        write(alloc, sheet, &member.value)?;
        after = true;
    }
    sheet.append(alloc, "}")
}
