//! What is wrong with the form of a patch (RFC 8072 section 2.2), in words.
use crate::cause::Cause;
use crate::excerpt::Excerpt;
use serde_json::Value as Json;
use std::alloc::Global;
use yp_base::memory::NoMemory;
use yp_patch::fault::PatchError;
use yp_value::json::member;

/// The one member of the JSON of a patch.
const PATCH: &str = "ietf-yang-patch:yang-patch";

/// The objects that a patch is made of.
#[derive(Clone, Copy, PartialEq, Eq)]
enum Level {
    /// The whole, which has the patch as its one member.
    Whole,
    /// The patch.
    Patch,
    /// An edit.
    Edit,
}

/// The cause of an error of the reader of patches, in the JSON that it read.
pub fn patch_cause(alloc: Global, json: &Json, error: &PatchError) -> Cause {
    Cause::told(Excerpt::made(patch_text(alloc, json, error)))
}

/// What is wrong with a patch, by the error of its reader: of which edit, counted from 1, where it is one's.
fn patch_text(alloc: Global, json: &Json, error: &PatchError) -> Result<String, NoMemory> {
    let wrong = match &error.member {
        Some(name) => member_text(alloc, json, error.edit, name.as_str())?,
        None => String::from_str(alloc, "it is no object")?,
    };
    Ok(match error.edit {
        Some(edit) => format!(in alloc; "edit {edit}: {wrong}")?,
        None => wrong,
    })
}

/// The text that a member of this name is.
fn text_in<'a>(json: &'a Json, name: &str) -> Option<&'a str> {
    member(json, name)?.as_str()
}

/// Whether it is an object of one member.
fn is_alone(json: &Json) -> bool {
    match json.as_object() {
        Some(members) => members.len() == 1,
        None => false,
    }
}

/// The edit of a patch that has this number, from 1 on.
fn edit_at(patch: &Json, number: usize) -> Option<&Json> {
    let edits = member(patch, "edit")?.as_array()?;
    edits.as_slice().get(number.checked_sub(1)?)
}

/// The object of a patch that has a fault, by the number of the edit where it is one's.
fn object_of(json: &Json, edit: Option<usize>) -> Option<(Level, &Json)> {
    let patch = match member(json, PATCH) {
        Some(patch) => patch,
        None => return Some((Level::Whole, json)),
    };
    match edit {
        Some(number) => Some((Level::Edit, edit_at(patch, number)?)),
        None => {
            if is_alone(json) && patch.as_object().is_some() {
                Some((Level::Patch, patch))
            } else {
                Some((Level::Whole, json))
            }
        }
    }
}

/// What is wrong with the member of this name.
fn member_text(
    alloc: Global,
    json: &Json,
    edit: Option<usize>,
    name: &str,
) -> Result<String, NoMemory> {
    let Some((level, object)) = object_of(json, edit) else {
        return Ok(String::from_str(alloc, "it is no object")?);
    };
    let Some(rule) = rule_of(level, name, text_in(object, name).is_some()) else {
        return Ok(format!(in alloc; "the member `{name}` is unknown")?);
    };
    let is_there = member(object, name).is_some();
    if level == Level::Edit {
        if let Some(operation) = text_in(object, "operation") {
            if let Some(text) = operation_text(alloc, name, operation, is_there)? {
                return Ok(text);
            }
        }
    }
    if is_there || name == "point" {
        Ok(String::from_str(alloc, rule)?)
    } else {
        Ok(format!(in alloc; "the member `{name}` is missing")?)
    }
}

/// What is wrong with the operation of an edit, or with the value that it has or lacks by it.
fn operation_text(
    alloc: Global,
    name: &str,
    operation: &str,
    is_there: bool,
) -> Result<Option<String>, NoMemory> {
    Ok(Some(match name {
        "operation" => format!(in alloc; "there is no operation `{operation}`")?,
        "value" if is_there => format!(in alloc; "`{operation}` has no `value`")?,
        "value" => format!(in alloc; "`{operation}` needs a `value`")?,
        _ => return Ok(None),
    }))
}

/// The rule that a member is against, which is a text or not; none where there is no such member.
fn rule_of(level: Level, name: &str, is_text: bool) -> Option<&'static str> {
    Some(match (level, name) {
        (Level::Whole, "ietf-yang-patch:yang-patch") => {
            "`ietf-yang-patch:yang-patch` is an object"
        }
        (Level::Patch, "patch-id") => "`patch-id` is a text",
        (Level::Patch, "comment") => "`comment` is a text",
        (Level::Patch, "edit") => "`edit` is an array",
        (Level::Edit, "edit-id") if is_text => "an edit before it has the same `edit-id`",
        (Level::Edit, "edit-id") => "`edit-id` is a text",
        (Level::Edit, "operation") => "`operation` is a text",
        (Level::Edit, "target") => "`target` is a text",
        (Level::Edit, "value") => {
            "`value` stands with `create`, `insert`, `merge` and `replace` alone"
        }
        (Level::Edit, "point") => {
            "`point` is a text, and stands where `where` is `before` or `after`"
        }
        (Level::Edit, "where") => {
            "`where` is `before`, `after`, `first` or `last`, and stands with `insert` and `move` alone"
        }
        _ => return None,
    })
}
