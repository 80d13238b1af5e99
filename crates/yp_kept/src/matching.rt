//! Whether content match nodes hold at an instance (RFC 6241 section 6.2.5).
ghost use Rattle.std.specs.Prelude.{◌≡◌, ◌∷◌, ◌++◌, [], ◌+◌, ◌<◌, ◌≤◌, length, true, option_copied, IfOk, OnOk, All, Some};
ghost use Rattle.yp_schema.specs.Datastore.{is_path_of, is_leaf_kind};
ghost use Rattle.yp_schema.specs.declared.schema.Kind.TheVariants.{Leaf, LeafList};
ghost use Rattle.yp_schema.specs.Nodes.{node_at};
ghost use Rattle.yp_nacm.specs.Decision.{visible_rows};
ghost use Rattle.yp_kept.specs.Matches.{atom_in, same_atom, key_among, key_at, keys_asked, match_segment, match_holds};

use crate::visible::Visible;
use std::alloc::Global;
use std::sync::ledger::Ledger;
use yp_base::atom::Atom;
use yp_base::keys::Keys;
use yp_base::memory::{Duplicate, NoMemory};
use yp_base::path::{Path, Seg};
use yp_base::row::Value;
use yp_base::steps::Steps;
use yp_nacm::readable::Readable;
use yp_schema::schema::{Kind, Schema};

/// A path with one more segment.
fn path_below(alloc: Global, at: &[Seg], last: Seg) -> Result<Path, NoMemory>
    ensures { IfOk result (λ path. path ≡ at.now ++ last ∷ []) }
{
    let mut segments = Vec::with_capacity(alloc, at.len().saturating_add(1))?;
    for segment in at {
        segments.push(segment.copy(alloc)?)?;
    }
    segments.push(last)?;
    Path::from_vec(alloc, segments)
}

/// The atom that stands for a key among the keys of an entry.
#[tactic(auto, using(crate::proofs::Keys::key_none))]
fn key_among<'a>(node: u32, keys: &[u32], atoms: &'a [Atom]) -> Option<&'a Atom>
    ensures { option_copied result ≡ key_among node keys.now atoms.now }
{
    let mut rest = atoms;
    for key in keys {
        match rest.split_first() {
            Some((atom, more)) => {
                if node == *key {
                    return Some(atom);
                }
                rest = more;
            }
            None => return None,
        }
    }
    None
}

/// The key that an instance has for a node, where the node is a key of its list.
fn key_at<'a>(schema: &Schema, at: &'a [Seg], node: u32) -> Option<&'a Atom>
    requires { All (λ seg. seg.node < length schema.now) at.now }
    ensures { option_copied result ≡ key_at schema.now at.now node }
{
    match at.last() {
        Some(segment) => key_among(node, schema.keys(segment.node), segment.keys.items()),
        None => None,
    }
}

/// The atom that a row holds.
pub fn atom_in(found: Option<&Value>) -> Option<&Atom>
    ensures { option_copied result ≡ atom_in (option_copied found.entry) }
{
    match found {
        Some(value) => match value {
            Value::Atom(atom) => Some(atom),
            _ => None,
        },
        None => None,
    }
}

/// Whether an atom is the one that a match node asks for.
fn is_asked(atom: Option<&Atom>, value: &Value) -> bool
    ensures { result ≡ same_atom (option_copied atom.entry) (atom_in (Some value.now)) }
{
    match atom {
        Some(atom) => match value {
            Value::Atom(asked) => atom == asked,
            _ => false,
        },
        None => false,
    }
}

/// The keys of the leaf-list entry that a match node asks for.
fn entry_keys(alloc: Global, value: &Value) -> Result<Keys, NoMemory>
    ensures { IfOk result (λ keys. keys ≡ keys_asked LeafList value.now) }
{
    match value {
        Value::Atom(atom) => Ok(Keys::one(atom.copy(alloc)?)),
        _ => Ok(Keys::none()),
    }
}

/// Whether an instance has that leaf with that value, or that key. It counts at most one visit.
fn leaf_holds<R: Readable, L: Ledger>(
    alloc: Global,
    visible: &Visible<R>,
    at: &[Seg],
    node: u32,
    value: &Value,
    steps: &mut Steps<L>,
) -> Result<bool, NoMemory>
    requires way { All (λ seg. seg.node < length visible.now.schema.now) at.now }
    requires kind { (node_at node visible.now.schema.now).kind ≡ Leaf }
    requires path { is_path_of visible.now.schema.now (at.now ++ match_segment visible.now.schema.now node value.now ∷ []) ≡ true }
    ensures holds { IfOk result (λ holds. holds ≡ match_holds visible.now.schema.now (visible_rows (R.may visible.now.readable.now visible.now.schema.now) visible.now.tree.now) at.now node value.now) }
    ensures visits { OnOk result (steps.new ≤ steps.old + 1) }
{
    if let Some(key) = key_at(visible.schema, at, node) {
        return Ok(is_asked(Some(key), value));
    }
    let keys = Keys::none();
    let path = path_below(alloc, at, Seg { node, keys })?;
    let found = visible.value_at(&path, steps);
    Ok(is_asked(atom_in(found), value))
}

/// Whether an instance has a leaf-list entry of that value. It counts at most one visit.
fn entry_holds<R: Readable, L: Ledger>(
    alloc: Global,
    visible: &Visible<R>,
    at: &[Seg],
    node: u32,
    value: &Value,
    steps: &mut Steps<L>,
) -> Result<bool, NoMemory>
    requires kind { (node_at node visible.now.schema.now).kind ≡ LeafList }
    requires path { is_path_of visible.now.schema.now (at.now ++ match_segment visible.now.schema.now node value.now ∷ []) ≡ true }
    ensures holds { IfOk result (λ holds. holds ≡ match_holds visible.now.schema.now (visible_rows (R.may visible.now.readable.now visible.now.schema.now) visible.now.tree.now) at.now node value.now) }
    ensures visits { OnOk result (steps.new ≤ steps.old + 1) }
{
    let keys = entry_keys(alloc, value)?;
    let path = path_below(alloc, at, Seg { node, keys })?;
    let found = visible.value_at(&path, steps);
    Ok(found.is_some())
}

/// Whether a match node holds at an instance: whether the instance has that leaf with that value, or that
/// key, or a leaf-list entry of that value, and it may be read. It counts at most one visit.
pub fn match_holds<R: Readable, L: Ledger>(
    alloc: Global,
    visible: &Visible<R>,
    at: &[Seg],
    node: u32,
    value: &Value,
    steps: &mut Steps<L>,
) -> Result<bool, NoMemory>
    requires way { All (λ seg. seg.node < length visible.now.schema.now) at.now }
    requires node { node < length visible.now.schema.now }
    requires path { is_leaf_kind (node_at node visible.now.schema.now).kind ≡ true → is_path_of visible.now.schema.now (at.now ++ match_segment visible.now.schema.now node value.now ∷ []) ≡ true }
    ensures holds { IfOk result (λ holds. holds ≡ match_holds visible.now.schema.now (visible_rows (R.may visible.now.readable.now visible.now.schema.now) visible.now.tree.now) at.now node value.now) }
    ensures visits { OnOk result (steps.new ≤ steps.old + 1) }
{
    match visible.schema.kind(node) {
        Kind::Leaf => leaf_holds(alloc, visible, at, node, value, steps),
        Kind::LeafList => entry_holds(alloc, visible, at, node, value, steps),
        _ => Ok(false),
    }
}
