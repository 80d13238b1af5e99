//! Targets: reading and writing.
ghost use Rattle.std.specs.Prelude.{◌≡◌, ◌<◌, ◌++◌, ◌∷◌, [], length, All, IfOk, OnOk, IfSome, None, Ok, true, option_map, string_bytes};
ghost use Rattle.yp_value.specs.Texts.{is_writable};
ghost use Rattle.yp_base.specs.Cuts.{cut};
ghost use Rattle.yp_schema.specs.Datastore.{is_path_of};
ghost use Rattle.yp_schema.specs.Nodes.{node_at};
ghost use Rattle.yp_path.specs.Texts.{texts_of, parts_of};
ghost use Rattle.yp_path.specs.Targets.{Gives, value_of, values_read, with_values, asked, name_part, key_parts, segment_in, segments_in, target_in, keys_text, segment_text, target_text, are_texts, keys_read};

use crate::cut::cut_once;
use crate::escape::push_key;
use crate::fault::{PathError, PathFault};
use crate::name::child_named;
use crate::texts::{Texts, count, read_texts};
use std::alloc::Global;
use yp_base::atom::Atom;
use yp_base::keys::Keys;
use yp_base::memory::NoMemory;
use yp_base::path::{Path, Seg};
use yp_base::series::Series;
use yp_base::txt::Txt;
use yp_schema::schema::{Kind, Schema};
use yp_value::text::{TextFault, read_text, read_text_fits, write_text};

/// The value of a key's text, by the type of a node.
#[tactic(auto, using(yp_schema::specs::SchemaLaws::type_is))]
pub(crate) fn read_value(
    alloc: Global,
    schema: &Schema,
    node: u32,
    text: &str,
) -> Result<Option<Atom>, NoMemory>
    requires { node < length schema.now }
    ensures { IfOk result (λ value. value ≡ value_of (node_at node schema.now).ty text.now) }
{
    // What each schema keeps: its types are types.
    let _count = schema.count();
    match schema.ty(node) {
        Some(ty) => match read_text(alloc, ty, text) {
            Ok(value) => Ok(Some(value)),
            Err(fault) => match fault {
                TextFault::BadText => Ok(None),
                TextFault::Memory => Err(NoMemory),
            },
        },
        None => Ok(None),
    }
}

/// The values of keys' texts, each by the type of its node.
#[tactic(auto, using(crate::proofs::Cuts::put_between))]
fn read_values(
    alloc: Global,
    schema: &Schema,
    asked: &[u32],
    texts: &[Txt],
) -> Result<Option<Keys>, NoMemory>
    requires { All (λ node. node < length schema.now) asked.now }
    ensures { IfOk result (λ values. values ≡ values_read schema.now asked.now texts.now) }
{
    let mut values = Vec::with_capacity(alloc, asked.len())?;
    let mut rest = texts;
    for node in asked {
        match rest.split_first() {
            Some((text, more)) => match read_value(alloc, schema, *node, text.as_str())? {
                Some(value) => {
                    values.push(value)?;
                    rest = more;
                }
                None => return Ok(None),
            },
            None => {
                let keys = Keys::from_vec(alloc, values)?;
                return Ok(Some(keys));
            }
        }
    }
    let keys = Keys::from_vec(alloc, values)?;
    Ok(Some(keys))
}

/// The values read earlier, and that of the last text.
fn read_last(
    alloc: Global,
    schema: &Schema,
    node: u32,
    text: &str,
    mut earlier: Vec<Atom>,
) -> Result<Option<Keys>, NoMemory>
    requires { node < length schema.now }
    ensures { IfOk result (λ all. all ≡ option_map (λ value. earlier.items ++ value ∷ []) (value_of (node_at node schema.now).ty text.now)) }
{
    match read_value(alloc, schema, node, text)? {
        Some(value) => {
            earlier.push(value)?;
            let keys = Keys::from_vec(alloc, earlier)?;
            Ok(Some(keys))
        }
        None => Ok(None),
    }
}

/// The values of keys that stand without escapes, each by the type of its node.
fn read_bare_values(
    alloc: Global,
    schema: &Schema,
    asked: &[u32],
    keys: &str,
) -> Result<Option<Keys>, NoMemory>
    requires { All (λ node. node < length schema.now) asked.now }
    ensures { IfOk result (λ values. values ≡ values_read schema.now asked.now (cut 44 keys.now)) }
{
    let mut values = Vec::with_capacity(alloc, asked.len())?;
    let mut rest = keys;
    for node in asked {
        match cut_once(rest, ',') {
            Some((text, more)) => match read_value(alloc, schema, *node, text)? {
                Some(value) => {
                    values.push(value)?;
                    rest = more;
                }
                None => return Ok(None),
            },
            None => return read_last(alloc, schema, *node, rest, values),
        }
    }
    let keys = Keys::from_vec(alloc, values)?;
    Ok(Some(keys))
}

/// The values of the keys of a segment, each by the type of its node.
fn read_all_values(
    alloc: Global,
    schema: &Schema,
    asked: &[u32],
    texts: &Texts,
) -> Result<Option<Keys>, NoMemory>
    requires { All (λ node. node < length schema.now) asked.now }
    ensures { IfOk result (λ values. values ≡ values_read schema.now asked.now (texts_of texts.now)) }
{
    match texts {
        Texts::Bare(keys) => read_bare_values(alloc, schema, asked, keys),
        Texts::Read(texts) => read_values(alloc, schema, asked, texts.items()),
    }
}

/// The segment at a node, by the nodes whose types its keys have.
fn read_with_values(
    alloc: Global,
    schema: &Schema,
    node: u32,
    asked: &[u32],
    texts: &Texts,
) -> Result<Seg, PathFault>
    requires { All (λ node. node < length schema.now) asked.now }
    ensures read { Gives result (with_values schema.now node asked.now (texts_of texts.now)) }
    ensures node { IfOk result (λ segment. segment.node ≡ node) }
{
    if asked.len() != count(texts) {
        return Err(PathFault::KeyCount);
    }
    match read_all_values(alloc, schema, asked, texts)? {
        Some(keys) => Ok(Seg { node, keys }),
        None => Err(PathFault::KeyValue),
    }
}

/// The segment at a node: a list has its keys, a leaf-list its value, any other node none.
#[tactic(auto, using(yp_schema::specs::SchemaLaws::keys_within))]
fn read_at_node(alloc: Global, schema: &Schema, node: u32, texts: &Texts) -> Result<Seg, PathFault>
    requires { node < length schema.now }
    ensures read { Gives result (with_values schema.now node (asked node schema.now) (texts_of texts.now)) }
    ensures node { IfOk result (λ segment. segment.node ≡ node) }
{
    // What each schema keeps: the keys of its lists are nodes.
    let _count = schema.count();
    match schema.kind(node) {
        Kind::Container | Kind::Presence | Kind::Leaf => read_with_values(
            alloc,
            schema,
            node,
            &[],
            texts,
        ),
        Kind::List => read_with_values(alloc, schema, node, schema.keys(node), texts),
        Kind::LeafList => read_with_values(alloc, schema, node, &[node], texts),
    }
}

/// The name of a segment, and its keys as they stand in it.
fn split_part(part: &str) -> (&str, Option<&str>)
    ensures name { result.0.now ≡ name_part part.now }
    ensures keys { parts_of result.1 ≡ key_parts part.now }
{
    match cut_once(part, '=') {
        Some((name, keys)) => (name, Some(keys)),
        None => (part, None),
    }
}

/// The texts that the keys of a segment stand for; none where one has none.
fn texts_in(alloc: Global, keys: Option<&str>) -> Result<Option<Texts<'_>>, NoMemory>
    ensures { IfOk result (λ texts. option_map texts_of texts ≡ keys_read (parts_of keys.entry)) }
{
    match keys {
        Some(keys) => read_texts(alloc, keys),
        None => Ok(Some(Texts::Read(Series::from_vec(Vec::new(alloc))))),
    }
}

/// A segment below a node, or at the top.
fn read_segment(
    alloc: Global,
    schema: &Schema,
    parent: Option<u32>,
    part: &str,
) -> Result<Seg, PathFault>
    requires { IfSome parent (λ parent. parent < length schema.now) }
    ensures read { Gives result (segment_in schema.now parent part.now) }
    ensures node { IfOk result (λ segment. segment.node < length schema.now) }
{
    let (name, keys) = split_part(part);
    if name.is_empty() {
        return Err(PathFault::Syntax);
    }
    match texts_in(alloc, keys)? {
        Some(texts) => match child_named(schema, parent, name) {
            Some(node) => read_at_node(alloc, schema, node, &texts),
            None => Err(PathFault::UnknownNode),
        },
        None => Err(PathFault::Syntax),
    }
}

/// The segment that comes after so many others, below a node or at the top.
fn read_next(
    alloc: Global,
    schema: &Schema,
    parent: Option<u32>,
    part: &str,
    before: usize,
) -> Result<Seg, PathError>
    requires { IfSome parent (λ parent. parent < length schema.now) }
    ensures read { Gives result (segment_in schema.now parent part.now) }
    ensures node { IfOk result (λ segment. segment.node < length schema.now) }
{
    match read_segment(alloc, schema, parent, part) {
        Ok(segment) => Ok(segment),
        Err(fault) => {
            let (name, _keys) = split_part(part);
            let node = child_named(schema, parent, name);
            Err(PathError::at(alloc, fault, before, name, node))
        }
    }
}

/// The segments of a text without its leading `/`, from the top down.
#[tactic(auto, using(crate::proofs::Segments::one_segment, crate::proofs::Segments::last_segment, crate::proofs::Segments::one_fault, crate::proofs::Segments::last_fault))]
fn read_segments(alloc: Global, schema: &Schema, text: &str) -> Result<Path, PathError>
    ensures { Gives result (segments_in schema.now None (cut 47 text.now)) }
{
    let mut segments = Vec::new(alloc);
    let mut parent = None;
    let mut rest = text;
    while let Some((part, more)) = cut_once(rest, '/') {
        let segment = read_next(alloc, schema, parent, part, segments.len())?;
        parent = Some(segment.node);
        segments.push(segment)?;
        rest = more;
    }
    let last = read_next(alloc, schema, parent, rest, segments.len())?;
    segments.push(last)?;
    let path = Path::from_vec(alloc, segments)?;
    Ok(path)
}

/// The path that a text is. Names are in member form or
/// qualified, keys percent-decoded and read by their types. The fault is the first of the leftmost
/// segment that has one, which the error names.
#[tactic(auto, using(crate::proofs::Segments::rooted, crate::proofs::Segments::unrooted, crate::proofs::Segments::rootless))]
pub fn read_target(alloc: Global, schema: &Schema, text: &str) -> Result<Path, PathError>
    ensures read { Gives result (target_in schema.now text.now) }
    ensures path { IfOk result (λ path. is_path_of schema.now path ≡ true) }
{
    // What is read of a text fits its type.
    read_text_fits();
    match cut_once(text, '/') {
        Some((front, rest)) => {
            if front.is_empty() {
                read_segments(alloc, schema, rest)
            } else {
                Err(PathError::rootless())
            }
        }
        None => Err(PathError::rootless()),
    }
}

/// Writes keys, the first after this mark and each other after a comma.
fn push_keys(alloc: Global, text: &mut String, keys: &Keys) -> Result<(), NoMemory>
    requires { All (λ key. is_writable key ≡ true) keys.now }
    ensures written { OnOk result (string_bytes text.new ≡ string_bytes text.old ++ keys_text 61 keys.now) }
    ensures texts { OnOk result (are_texts keys.now ≡ true) }
{
    let mut mark = '=';
    for key in keys.items() {
        text.push(mark)?;
        push_key(text, write_text(alloc, key)?.as_str())?;
        mark = ',';
    }
    Ok(())
}

/// Writes a segment.
fn push_segment(
    alloc: Global,
    schema: &Schema,
    text: &mut String,
    segment: &Seg,
) -> Result<(), NoMemory>
    requires node { segment.now.node < length schema.now }
    requires keys { All (λ key. is_writable key ≡ true) segment.now.keys }
    ensures written { OnOk result (string_bytes text.new ≡ string_bytes text.old ++ segment_text schema.now segment.now) }
    ensures texts { OnOk result (are_texts segment.now.keys ≡ true) }
{
    text.push('/')?;
    text.push_str(schema.member_text(segment.node))?;
    push_keys(alloc, text, &segment.keys)
}

/// The text of a path, with names in member form; it is read again as this path. In keys each byte but letters, digits, `-`, `.`, `_`
/// and `~` is escaped with capital digits.
pub fn write_target(alloc: Global, schema: &Schema, path: &Path) -> Result<Txt, NoMemory>
    requires { is_path_of schema.now path.now ≡ true }
    ensures text { IfOk result (λ text. text ≡ target_text schema.now path.now) }
    ensures again { IfOk result (λ text. target_in schema.now text ≡ Ok path.now) }
{
    // What each schema keeps: its types are types.
    let _count = schema.count();
    let mut text = String::with_capacity(alloc, 64)?;
    for segment in path.items() {
        push_segment(alloc, schema, &mut text, segment)?;
    }
    let written = Txt::from_string(alloc, text)?;
    Ok(written)
}
