//! What the JSON of one node says of it. Nothing is looked up.
ghost use Rattle.std.specs.Prelude.{◌≡◌, ℕ, IfOk, option_map};
ghost use Rattle.serde_json.specs.View.{view, members_view};
ghost use Rattle.yp_names.specs.Names.{around_colon};
ghost use Rattle.yp_base.specs.Results.{tested};
ghost use Rattle.yp_schema.specs.Stated.{may_have, is_own, has_only, flag_of, flag_member, texts_member, places_in, decimal_at, integer_in, type_in, all_names, are_key_names, container_kind, container_in, list_in, enumeration_in, typed_in, leaf_in, of_kind, body_in, form_of, form_in, stated_in, node_in};

use crate::schema::Kind;
use serde_json::{Map, Value as Json};
use std::alloc::Global;
use yp_base::leaf_type::{LeafType, Names};
use yp_base::memory::NoMemory;
use yp_base::series::Series;
use yp_base::txt::{Txt, are_distinct, text_of};
use yp_names::names::{around_colon, is_name, last_of, read_path};
use yp_value::enumeration::enumeration_names;
use yp_value::members::{member_in, read_texts, text_in};

/// Which members a node may have, beside `path`, `kind` and `deny-all`.
#[derive(Drop, Clone, Copy, PartialEq, Eq)]
pub enum Shape {
    /// `presence`
    Container,
    /// `keys`
    List,
    /// `type`
    Leaf,
    /// `type` and `names`
    Enumeration,
}

/// What a part says of a node, beside where it stands: its kind, the names of its keys, its type and
/// whether it has default-deny-all. A leaf whose type is unknown has none.
#[derive(Drop)]
pub struct Body {
    pub kind: Kind,
    pub keys: Names,
    pub ty: Option<LeafType>,
    pub deny_all: bool,
}

/// A node as its JSON states it: the names on the way to it, the module that stands in front of the last
/// one, if any does, and that name without it.
#[derive(Drop)]
pub struct Stated {
    pub path: Names,
    pub home: Option<Txt>,
    pub name: Txt,
    pub body: Body,
}

/// Whether a node may have a member.
fn may_have(shape: Shape, name: &str) -> bool
    ensures { result ≡ may_have shape name.now }
{
    if name == "path" || name == "kind" || name == "deny-all" {
        return true;
    }
    match shape {
        Shape::Container => name == "presence",
        Shape::List => name == "keys",
        Shape::Leaf => name == "type",
        Shape::Enumeration => name == "type" || name == "names",
    }
}

/// Whether an object has only the members of a shape.
fn has_only(shape: Shape, members: &Map<String, Json>) -> bool
    ensures { result ≡ has_only shape (members_view members.now.entries) }
{
    for (name, _) in members.iter() {
        if !may_have(shape, name.as_str()) {
            return false;
        }
    }
    true
}

/// A member that is true or false, and false where it isn't there.
fn flag_in(members: &Map<String, Json>, name: &str) -> Option<bool>
    ensures { result ≡ flag_member name.now (members_view members.now.entries) }
{
    match member_in(members, name) {
        Some(json) => json.as_bool(),
        None => Some(false),
    }
}

/// A member that is an array of texts.
fn texts_of(
    alloc: Global,
    members: &Map<String, Json>,
    name: &str,
) -> Result<Option<Names>, NoMemory>
    ensures { IfOk result (λ texts. texts ≡ texts_member name.now (members_view members.now.entries)) }
{
    match member_in(members, name) {
        Some(Json::Array(items)) => read_texts(alloc, items.as_slice()),
        _ => Ok(None),
    }
}

/// 1 to 18, without a leading zero.
fn read_places(digits: &[u8]) -> Option<u8>
    ensures { result ≡ places_in digits.now }
{
    match digits {
        [one] => {
            if 49 <= *one && *one <= 57 {
                Some(*one - 48)
            } else {
                None
            }
        }
        [one, two] => {
            if *one == 49 && 48 <= *two && *two <= 56 {
                Some(10 + (*two - 48))
            } else {
                None
            }
        }
        _ => None,
    }
}

fn read_decimal(text: &str) -> Option<LeafType>
    ensures { result ≡ decimal_at (around_colon text.now) }
{
    match around_colon(text) {
        Some((first, rest)) => {
            if first == "decimal64" {
                match read_places(rest.as_bytes()) {
                    Some(places) => Some(LeafType::Dec { places }),
                    None => None,
                }
            } else {
                None
            }
        }
        None => None,
    }
}

fn read_integer(text: &str) -> Option<LeafType>
    ensures { result ≡ integer_in text.now }
{
    if text == "int8" {
        Some(LeafType::Int { bits: 8 })
    } else if text == "int16" {
        Some(LeafType::Int { bits: 16 })
    } else if text == "int32" {
        Some(LeafType::Int { bits: 32 })
    } else if text == "int64" {
        Some(LeafType::Int { bits: 64 })
    } else if text == "uint8" {
        Some(LeafType::Uint { bits: 8 })
    } else if text == "uint16" {
        Some(LeafType::Uint { bits: 16 })
    } else if text == "uint32" {
        Some(LeafType::Uint { bits: 32 })
    } else if text == "uint64" {
        Some(LeafType::Uint { bits: 64 })
    } else {
        read_decimal(text)
    }
}

/// The type of a text other than `enumeration`. `None` where it is no type.
fn read_type(text: &str) -> Option<LeafType>
    ensures { result ≡ type_in text.now }
{
    if text == "boolean" {
        Some(LeafType::Bool)
    } else if text == "string" {
        Some(LeafType::Text)
    } else if text == "empty" {
        Some(LeafType::Empty)
    } else {
        read_integer(text)
    }
}

fn are_identifiers(names: &[Txt]) -> bool
    ensures { result ≡ all_names names.now }
{
    for name in names {
        if !is_name(name.as_str()) {
            return false;
        }
    }
    true
}

fn read_container(alloc: Global, members: &Map<String, Json>) -> Option<Body>
    ensures { result ≡ container_in (members_view members.now.entries) }
{
    if !has_only(Shape::Container, members) {
        return None;
    }
    match flag_in(members, "deny-all") {
        Some(deny_all) => match flag_in(members, "presence") {
            Some(presence) => Some(Body {
                kind: if presence {
                    Kind::Presence
                } else {
                    Kind::Container
                },
                keys: Series::from_vec(Vec::new(alloc)),
                ty: None,
                deny_all,
            }),
            None => None,
        },
        None => None,
    }
}

/// Key names: one or more, each a name, and distinct.
fn key_names(alloc: Global, names: Names) -> Result<Option<Names>, NoMemory>
    ensures { IfOk result (λ keys. keys ≡ tested are_key_names names) }
{
    if names.len() == 0 {
        return Ok(None);
    }
    if !are_identifiers(names.items()) {
        return Ok(None);
    }
    if are_distinct(alloc, names.items())? {
        Ok(Some(names))
    } else {
        Ok(None)
    }
}

fn read_list(alloc: Global, members: &Map<String, Json>) -> Result<Option<Body>, NoMemory>
    ensures { IfOk result (λ node. node ≡ list_in (members_view members.now.entries)) }
{
    if !has_only(Shape::List, members) {
        return Ok(None);
    }
    match flag_in(members, "deny-all") {
        Some(deny_all) => match texts_of(alloc, members, "keys")? {
            Some(texts) => match key_names(alloc, texts)? {
                Some(keys) => Ok(Some(Body {
                    kind: Kind::List,
                    keys,
                    ty: None,
                    deny_all,
                })),
                None => Ok(None),
            },
            None => Ok(None),
        },
        None => Ok(None),
    }
}

fn read_enumeration(
    alloc: Global,
    kind: Kind,
    members: &Map<String, Json>,
) -> Result<Option<Body>, NoMemory>
    ensures { IfOk result (λ node. node ≡ enumeration_in kind (members_view members.now.entries)) }
{
    if !has_only(Shape::Enumeration, members) {
        return Ok(None);
    }
    match flag_in(members, "deny-all") {
        Some(deny_all) => match texts_of(alloc, members, "names")? {
            Some(texts) => match enumeration_names(alloc, texts)? {
                Some(names) => Ok(Some(Body {
                    kind,
                    keys: Series::from_vec(Vec::new(alloc)),
                    ty: Some(LeafType::Names(names)),
                    deny_all,
                })),
                None => Ok(None),
            },
            None => Ok(None),
        },
        None => Ok(None),
    }
}

/// A leaf or leaf-list of a type. One whose type is unknown is given without a type.
fn read_typed(
    alloc: Global,
    kind: Kind,
    text: &str,
    members: &Map<String, Json>,
) -> Result<Option<Body>, NoMemory>
    ensures { IfOk result (λ node. node ≡ typed_in kind text.now (members_view members.now.entries)) }
{
    if text == "enumeration" {
        return read_enumeration(alloc, kind, members);
    }
    if !has_only(Shape::Leaf, members) {
        return Ok(None);
    }
    match flag_in(members, "deny-all") {
        Some(deny_all) => Ok(Some(Body {
            kind,
            keys: Series::from_vec(Vec::new(alloc)),
            ty: read_type(text),
            deny_all,
        })),
        None => Ok(None),
    }
}

fn read_leaf(
    alloc: Global,
    kind: Kind,
    members: &Map<String, Json>,
) -> Result<Option<Body>, NoMemory>
    ensures { IfOk result (λ node. node ≡ leaf_in kind (members_view members.now.entries)) }
{
    match text_in(members, "type") {
        Some(text) => read_typed(alloc, kind, text, members),
        None => Ok(None),
    }
}

fn read_body(alloc: Global, members: &Map<String, Json>) -> Result<Option<Body>, NoMemory>
    ensures { IfOk result (λ node. node ≡ body_in (members_view members.now.entries)) }
{
    let Some(word) = text_in(members, "kind") else {
        return Ok(None);
    };
    if word == "container" {
        Ok(read_container(alloc, members))
    } else if word == "list" {
        read_list(alloc, members)
    } else if word == "leaf" {
        read_leaf(alloc, Kind::Leaf, members)
    } else if word == "leaf-list" {
        read_leaf(alloc, Kind::LeafList, members)
    } else {
        Ok(None)
    }
}

/// The module that a member form names, if it names one, and the name behind it.
fn split_form(text: &str) -> Option<(Option<&str>, &str)>
    ensures { option_map (λ x. (option_map (λ home. home.now) x.0, x.1.now)) result ≡ form_of text.now (around_colon text.now) }
{
    match around_colon(text) {
        Some((home, name)) => {
            if !is_name(home) {
                return None;
            }
            if is_name(name) {
                Some((Some(home), name))
            } else {
                None
            }
        }
        None => {
            if is_name(text) {
                Some((None, text))
            } else {
                None
            }
        }
    }
}

fn read_form(alloc: Global, text: &str) -> Result<Option<(Option<Txt>, Txt)>, NoMemory>
    ensures { IfOk result (λ form. form ≡ form_in text.now) }
{
    match split_form(text) {
        Some((Some(home), name)) => Ok(Some((Some(text_of(alloc, home)?), text_of(alloc, name)?))),
        Some((None, name)) => Ok(Some((None, text_of(alloc, name)?))),
        None => Ok(None),
    }
}

fn read_stated(alloc: Global, members: &Map<String, Json>) -> Result<Option<Stated>, NoMemory>
    ensures { IfOk result (λ node. node ≡ stated_in (members_view members.now.entries)) }
{
    match text_in(members, "path") {
        Some(text) => match read_path(alloc, text)? {
            Some(path) => match read_form(alloc, last_of(&path))? {
                Some((home, name)) => match read_body(alloc, members)? {
                    Some(body) => Ok(Some(Stated {
                        path,
                        home,
                        name,
                        body,
                    })),
                    None => Ok(None),
                },
                None => Ok(None),
            },
            None => Ok(None),
        },
        None => Ok(None),
    }
}

/// What the JSON of a node says of it. `None` where a member is missing, unknown or bad.
pub fn read_node(alloc: Global, json: &Json) -> Result<Option<Stated>, NoMemory>
    ensures { IfOk result (λ node. node ≡ node_in (view json.now)) }
{
    match json {
        Json::Object(members) => read_stated(alloc, members),
        _ => Ok(None),
    }
}
