//! Calls of `yp_base` on texts, atoms, segments, paths and rows.
use case_frame::fault::OrFault;
use case_frame::given::{self, pair, part};
use case_frame::shown::{self, Answer, Told};
use serde_json::Value as Json;
use std::alloc::Global;
use std::cmp::Ordering;
use yp_base::memory::Duplicate;
use yp_base::path::{compare, is_prefix};

pub fn answer(alloc: Global, call: &str, arguments: &Json) -> Answer {
    Ok(Some(match call {
        "copy_txt" => copied_text(alloc, arguments)?,
        "copy_atom" => copied_atom(alloc, arguments)?,
        "copy_segment" => copied_segment(alloc, arguments)?,
        "copy_path" => copied_path(alloc, arguments)?,
        "copy_rows" => copied_rows(alloc, arguments)?,
        "below" => below(alloc, arguments)?,
        "first" => first(alloc, arguments)?,
        "is_prefix" | "equal" | "compare" => of_two(alloc, call, arguments)?,
        _ => return Ok(None),
    }))
}

fn copied_text(alloc: Global, json: &Json) -> OrFault<String> {
    let copy = given::txt(alloc, json)?.copy(alloc)?;
    shown::quoted(alloc, copy.as_str())
}

fn copied_atom(alloc: Global, json: &Json) -> OrFault<String> {
    let copy = given::atom(alloc, json)?.copy(alloc)?;
    shown::atom(alloc, &copy)
}

fn copied_segment(alloc: Global, json: &Json) -> OrFault<String> {
    let copy = given::segment(alloc, json)?.copy(alloc)?;
    let mut told = Told::new(alloc);
    told.segment(&copy);
    told.done()
}

fn copied_path(alloc: Global, json: &Json) -> OrFault<String> {
    let copy = given::path(alloc, json)?.copy(alloc)?;
    shown::path(alloc, &copy)
}

fn copied_rows(alloc: Global, json: &Json) -> OrFault<String> {
    let copy = given::rows(alloc, json)?.copy(alloc)?;
    shown::rows(alloc, &copy)
}

/// The path below another.
fn below(alloc: Global, arguments: &Json) -> OrFault<String> {
    let above = given::path(alloc, part(arguments, "path")?)?;
    let segment = given::segment(alloc, part(arguments, "segment")?)?;
    shown::path(alloc, &above.below(alloc, segment)?)
}

/// The first segments of a path.
fn first(alloc: Global, arguments: &Json) -> OrFault<String> {
    let path = given::path(alloc, part(arguments, "path")?)?;
    let count = given::size(part(arguments, "count")?)?;
    shown::path(alloc, &path.first(count)?)
}

/// How two paths compare.
fn of_two(alloc: Global, call: &str, arguments: &Json) -> OrFault<String> {
    let (one, other) = pair(arguments)?;
    let one = given::path(alloc, one)?;
    let other = given::path(alloc, other)?;
    match call {
        "is_prefix" => shown::truth(alloc, is_prefix(&one, &other)),
        "equal" => shown::truth(alloc, one == other),
        _ => ordered(alloc, compare(&one, &other)),
    }
}

fn ordered(alloc: Global, order: Ordering) -> OrFault<String> {
    shown::quoted(
        alloc,
        match order {
            Ordering::Less => "less",
            Ordering::Equal => "equal",
            Ordering::Greater => "greater",
        },
    )
}
