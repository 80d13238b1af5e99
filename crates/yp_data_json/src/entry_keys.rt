//! Writing the keys of a list entry among its other members.
ghost use Rattle.std.specs.Prelude.{◌≡◌, ◌<◌, ◌≤◌, ◌++◌, ℕ, Option, Some, drop, length, IfOk, OnOk, string_bytes};
ghost use Rattle.std.specs.List.{AllByRecursion};
ghost use Rattle.serde_json.specs.Data.{Members, no_members};
ghost use Rattle.serde_json.specs.Written.{compact_text, members_text};
ghost use Rattle.yp_schema.specs.Nodes.{node_at};
ghost use Rattle.yp_schema.specs.WellFormed.{IsSchema};
ghost use Rattle.yp_schema.specs.declared.schema.Kind.TheVariants.{List as Listing};
ghost use Rattle.yp_data_json.specs.Writing.{key_data, with_keys};
ghost use Rattle.yp_data_json.specs.EntryKeys.{IsPlaceOf, IsKeyBelow, AreAscending, among, followed_by};

use std::alloc::Global;
use yp_base::atom::Atom;
use yp_base::memory::NoMemory;
use yp_json_text::strings::push_name;
use yp_json_text::values::push_atom;
use yp_schema::schema::Schema;

/// A key of an entry: its leaf, and its value.
#[derive(Drop)]
pub struct Key<'a> {
    leaf: u32,
    value: &'a Atom,
}

/// How many keys are of leaves before one.
pub fn place_of(keys: &[Key], leaf: u32) -> usize
    requires { AreAscending keys.now }
    ensures { IsPlaceOf leaf keys.now result }
{
    let mut low = 0;
    let mut high = keys.len();
    while low < high {
        let middle = low + (high - low) / 2;
        if keys[middle].leaf < leaf {
            low = middle + 1;
        } else {
            high = middle;
        }
    }
    low
}

/// The keys of an entry of a list, in the order of their leaves, which is that of their names.
pub fn in_order<'a>(
    alloc: Global,
    schema: &Schema,
    node: u32,
    keys: &'a [Atom],
) -> Result<Vec<Key<'a>>, NoMemory>
    requires schema { IsSchema schema.now }
    requires within { node < length schema.now }
    requires kind { (node_at node schema.now).kind ≡ Listing }
    ensures below { IfOk result (λ made. AllByRecursion (IsKeyBelow schema.now (Some node)) made.items) }
    ensures ascending { IfOk result (λ made. AreAscending made.items) }
    ensures same { IfOk result (λ made. (ms : Members) → among schema.now made.items ms ≡ with_keys schema.now (node_at node schema.now).keys keys.now ms) }
{
    let mut made = Vec::with_capacity(alloc, keys.len())?;
    let mut left = schema.keys(node);
    for value in keys {
        match left.split_first() {
            Some((leaf, later)) => {
                let place = place_of(made.as_slice(), *leaf);
                made.insert(place, Key { leaf: *leaf, value })?;
                left = later;
            }
            None => break,
        }
    }
    Ok(made)
}

/// Appends a key, or the value of a leaf-list entry, by the type of its node.
pub fn push_key(
    alloc: Global,
    schema: &Schema,
    text: &mut String,
    node: u32,
    key: &Atom,
) -> Result<(), NoMemory>
    requires { node < length schema.now }
    ensures { OnOk result (string_bytes text.new ≡ string_bytes text.old ++ compact_text (key_data (node_at node schema.now).ty key.now)) }
{
    match schema.ty(node) {
        Some(ty) => push_atom(alloc, text, ty, key),
        None => Ok(text.push_str("null")?),
    }
}

/// Appends keys as members, one after another. Answers whether a member stands before the next one.
pub fn push_keys(
    alloc: Global,
    schema: &Schema,
    text: &mut String,
    mut later: bool,
    keys: &[Key],
) -> Result<bool, NoMemory>
    requires { AllByRecursion (λ key. key.leaf < length schema.now) keys.now }
    ensures { IfOk result (λ after. (ms : Members) → string_bytes text.old ++ members_text later (followed_by schema.now keys.now ms) ≡ string_bytes text.new ++ members_text after ms) }
{
    for key in keys {
        push_name(alloc, text, later, schema.member_text(key.leaf))?;
        push_key(alloc, schema, text, key.leaf, key.value)?;
        later = true;
    }
    Ok(later)
}

/// Appends the keys from a place on as members, and the brace after them.
pub fn push_last_keys(
    alloc: Global,
    schema: &Schema,
    text: &mut String,
    later: bool,
    keys: &[Key],
    next: usize,
) -> Result<(), NoMemory>
    requires schema { IsSchema schema.now }
    requires within { next ≤ length keys.now }
    requires below { (parent : Option ℕ) × AllByRecursion (IsKeyBelow schema.now parent) (drop next keys.now) }
    requires ascending { AreAscending (drop next keys.now) }
    ensures { OnOk result (string_bytes text.old ++ members_text later (among schema.now (drop next keys.now) no_members) ≡ string_bytes text.new) }
{
    let (_, left) = keys.split_at(next);
    push_keys(alloc, schema, text, later, left)?;
    text.push_str("}")?;
    Ok(())
}
