//! What stands at the instances on the way to a path, so that each set of a filter is tested once for each
//! instance and not for each row (RFC 6241 section 6.2).
ghost use Rattle.std.specs.Prelude.{◌≡◌, ◌∷◌, ◌++◌, [], ◌+◌, ◌<◌, ◌≤◌, ◌||◌, length, take, drop, true, map, None, IfOk, OnOk, All, List, option_copied, option_to_list};
ghost use Rattle.std.specs.List.{list_any};
ghost use Rattle.yp_base.specs.declared.row.Row.{Row};
ghost use Rattle.yp_schema.specs.declared.schema.SchemaNode.{SchemaNode};
ghost use Rattle.yp_schema.specs.Datastore.{goes_down};
ghost use Rattle.yp_schema.specs.SchemaLaws.{node_after};
ghost use Rattle.yp_filter.specs.Filters.{Nodes, of_set, set_size};
ghost use Rattle.yp_filter.specs.Fits.{node_fits, set_fits};
ghost use Rattle.yp_filter.specs.View.{node_view, set_view};
ghost use Rattle.yp_nacm.specs.Decision.{visible_rows};
ghost use Rattle.yp_kept.specs.Selection.{kept, set_names};
ghost use Rattle.yp_kept.specs.Standing.{views, node_led, set_led, sets_led, select_child, stands_below, stands_at_top, stand_to, is_selected, stands_name, standing_view, StandOnWay, IsWay, SetsFit, StandsFit, child_at, way_keeps, sets_visits, stands_visits, visits_left};
ghost use Rattle.yp_kept.specs.Visits.{inner_count, inner_visits};

use crate::keeping::{all_hold, enters, only_matches, set_names, set_selects};
use crate::visible::Visible;
use std::alloc::Global;
use std::sync::ledger::Ledger;
use yp_base::memory::{Duplicate, NoMemory};
use yp_base::path::{Path, Seg};
use yp_base::steps::Steps;
use yp_filter::filter::{FilterNode, FilterSet};
use yp_nacm::readable::Readable;
use yp_schema::schema::Schema;

/// What stands at an instance for a filter.
#[derive(Drop)]
pub enum Standing<'f> {
    /// All at or below it is selected.
    Whole,
    /// These sets of the filter are processed there: all match nodes of each hold.
    Sets(Vec<&'f FilterSet>),
}

/// The set of a node, where the node leads to the instance at the next segment of a path. What it counts
/// leaves room for a visit for each containment node of that set, and for each node in these.
fn node_led<'f, R: Readable, L: Ledger>(
    alloc: Global,
    visible: &Visible<R>,
    node: &'f FilterNode,
    path: &Path,
    depth: usize,
    steps: &mut Steps<L>,
) -> Result<Option<&'f FilterSet>, NoMemory>
    requires way { goes_down visible.now.schema.now None path.now ≡ true }
    requires depth { depth < length path.now }
    requires fits { node_fits visible.now.schema.now (node_after None (take depth path.now)) (node_view node.now) ≡ true }
    ensures led { IfOk result (λ led. map set_view (option_to_list (option_copied led)) ≡ node_led visible.now.schema.now (visible_rows (R.may visible.now.readable.now visible.now.schema.now) visible.now.tree.now) (take (depth + 1) path.now) (child_at depth path.now) (node_view node.now)) }
    ensures visits { IfOk result (λ led. steps.new + sets_visits (map set_view (option_to_list (option_copied led))) ≤ steps.old + inner_count (node_view node.now)) }
{
    match node {
        FilterNode::Within { node, set } => {
            if path.items()[depth].node != *node {
                return Ok(None);
            }
            if !enters(alloc, visible, path, depth + 1, *node, steps)? {
                return Ok(None);
            }
            let (at, _) = path.items().split_at(depth + 1);
            if !all_hold(alloc, visible, at, set.items(), steps)? {
                return Ok(None);
            }
            Ok(Some(set))
        }
        _ => Ok(None),
    }
}

/// Adds the sets that a set leads to at the instance at the next segment of a path. What it counts leaves
/// room for what these count further down.
fn add_led<'f, R: Readable, L: Ledger>(
    alloc: Global,
    visible: &Visible<R>,
    set: &'f FilterSet,
    path: &Path,
    depth: usize,
    led: &mut Vec<&'f FilterSet>,
    steps: &mut Steps<L>,
) -> Result<(), NoMemory>
    requires way { goes_down visible.now.schema.now None path.now ≡ true }
    requires depth { depth < length path.now }
    requires fits { set_fits visible.now.schema.now (node_after None (take depth path.now)) (set_view set.now) ≡ true }
    ensures led { OnOk result (views led.new.items ≡ views led.old.items ++ set_led visible.now.schema.now (visible_rows (R.may visible.now.readable.now visible.now.schema.now) visible.now.tree.now) (take (depth + 1) path.now) (child_at depth path.now) (set_view set.now)) }
    ensures visits { OnOk result (steps.new + sets_visits (views led.new.items) ≤ steps.old + sets_visits (views led.old.items) + inner_visits (set_view set.now)) }
{
    for node in set.items() {
        if let Some(inner) = node_led(alloc, visible, node, path, depth, steps)? {
            led.push(inner)?;
        }
    }
    Ok(())
}

/// The sets that sets lead to at the instance at the next segment of a path. What it counts leaves room for
/// what these count further down.
fn sets_led<'f, R: Readable, L: Ledger>(
    alloc: Global,
    visible: &Visible<R>,
    sets: &[&'f FilterSet],
    path: &Path,
    depth: usize,
    steps: &mut Steps<L>,
) -> Result<Vec<&'f FilterSet>, NoMemory>
    requires way { goes_down visible.now.schema.now None path.now ≡ true }
    requires depth { depth < length path.now }
    requires fits { SetsFit visible.now.schema.now (node_after None (take depth path.now)) (views sets.now) }
    ensures led { IfOk result (λ led. views led.items ≡ sets_led visible.now.schema.now (visible_rows (R.may visible.now.readable.now visible.now.schema.now) visible.now.tree.now) (take (depth + 1) path.now) (child_at depth path.now) (views sets.now)) }
    ensures visits { IfOk result (λ led. steps.new + sets_visits (views led.items) ≤ steps.old + sets_visits (views sets.now)) }
{
    let mut led = Vec::new(alloc);
    for set in sets {
        add_led(alloc, visible, set, path, depth, &mut led, steps)?;
    }
    Ok(led)
}

/// Whether one of these sets selects all of a child.
fn select_child(node: u32, sets: &[&FilterSet]) -> bool
    ensures { result ≡ select_child node (views sets.now) }
{
    for set in sets {
        if only_matches(set.items()) || set_selects(node, set.items()) {
            return true;
        }
    }
    false
}

/// Whether a match node of one of these sets asks for the row of a segment.
fn some_names(schema: &Schema, segment: &Seg, sets: &[&FilterSet]) -> bool
    requires { segment.now.node < length schema.now }
    ensures { result ≡ list_any (set_names schema.now segment.now) (views sets.now) }
{
    for set in sets {
        if set_names(schema, segment, set.items()) {
            return true;
        }
    }
    false
}

impl<'f> Standing<'f> {
    /// Whether the instance where it stands is selected.
    fn is_selected(&self) -> bool
        ensures { result ≡ is_selected (standing_view self.now) }
    {
        match self {
            Standing::Whole => true,
            Standing::Sets(sets) => !sets.is_empty(),
        }
    }

    /// Whether a match node asks for the row of a segment below the instance where it stands.
    fn names(&self, schema: &Schema, segment: &Seg) -> bool
        requires { segment.now.node < length schema.now }
        ensures { result ≡ stands_name schema.now segment.now (standing_view self.now) }
    {
        match self {
            Standing::Whole => true,
            Standing::Sets(sets) => some_names(schema, segment, sets),
        }
    }
}

/// What stands at the top for a filter's set.
fn standing_at_top<'f, R: Readable, L: Ledger>(
    alloc: Global,
    visible: &Visible<R>,
    set: &'f FilterSet,
    steps: &mut Steps<L>,
) -> Result<Standing<'f>, NoMemory>
    requires fits { set_fits visible.now.schema.now None (set_view set.now) ≡ true }
    ensures stands { IfOk result (λ standing. standing_view standing ≡ stands_at_top visible.now.schema.now (visible_rows (R.may visible.now.readable.now visible.now.schema.now) visible.now.tree.now) (set_view set.now)) }
    ensures visits { IfOk result (λ standing. steps.new + stands_visits (standing_view standing) ≤ steps.old + set_size (set_view set.now)) }
{
    let mut sets = Vec::new(alloc);
    if all_hold(alloc, visible, &[], set.items(), steps)? {
        sets.push(set)?;
    }
    Ok(Standing::Sets(sets))
}

/// What stands at the instance at the next segment of a path, by what stands at the one above it.
fn standing_below<'f, R: Readable, L: Ledger>(
    alloc: Global,
    visible: &Visible<R>,
    above: &Standing<'f>,
    path: &Path,
    depth: usize,
    steps: &mut Steps<L>,
) -> Result<Standing<'f>, NoMemory>
    requires way { goes_down visible.now.schema.now None path.now ≡ true }
    requires depth { depth < length path.now }
    requires fits { StandsFit visible.now.schema.now (node_after None (take depth path.now)) (standing_view above.now) }
    ensures stands { IfOk result (λ standing. standing_view standing ≡ stands_below visible.now.schema.now (visible_rows (R.may visible.now.readable.now visible.now.schema.now) visible.now.tree.now) (take (depth + 1) path.now) (child_at depth path.now) (standing_view above.now)) }
    ensures visits { IfOk result (λ standing. steps.new + stands_visits (standing_view standing) ≤ steps.old + stands_visits (standing_view above.now)) }
{
    match above {
        Standing::Whole => Ok(Standing::Whole),
        Standing::Sets(sets) => {
            if select_child(path.items()[depth].node, sets) {
                return Ok(Standing::Whole);
            }
            Ok(Standing::Sets(sets_led(alloc, visible, sets, path, depth, steps)?))
        }
    }
}

/// What stands at the next instance on the way to a path, by what stands at each before it.
fn next_standing<'f, R: Readable, L: Ledger>(
    alloc: Global,
    visible: &Visible<R>,
    set: &'f FilterSet,
    path: &Path,
    standings: &[Standing<'f>],
    steps: &mut Steps<L>,
) -> Result<Standing<'f>, NoMemory>
    requires way { goes_down visible.now.schema.now None path.now ≡ true }
    requires fits { set_fits visible.now.schema.now None (set_view set.now) ≡ true }
    requires stand { StandOnWay visible.now.schema.now (visible_rows (R.may visible.now.readable.now visible.now.schema.now) visible.now.tree.now) (set_view set.now) path.now standings.now }
    requires short { length standings.now ≤ length path.now }
    ensures stands { IfOk result (λ next. StandOnWay visible.now.schema.now (visible_rows (R.may visible.now.readable.now visible.now.schema.now) visible.now.tree.now) (set_view set.now) path.now (standings.now ++ next ∷ [])) }
    ensures visits { IfOk result (λ next. steps.new + stands_visits (standing_view next) ≤ steps.old + visits_left (set_view set.now) standings.now) }
{
    match standings.last() {
        None => standing_at_top(alloc, visible, set, steps),
        Some(above) => { standing_below(alloc, visible, above, path, standings.len() - 1, steps) }
    }
}

/// Adds what stands at each instance that is left on the way to a path. It counts at most a visit for each
/// node of the filter.
fn stand_to<'f, R: Readable, L: Ledger>(
    alloc: Global,
    visible: &Visible<R>,
    set: &'f FilterSet,
    path: &Path,
    standings: &mut Vec<Standing<'f>>,
    steps: &mut Steps<L>,
) -> Result<(), NoMemory>
    requires way { goes_down visible.now.schema.now None path.now ≡ true }
    requires fits { set_fits visible.now.schema.now None (set_view set.now) ≡ true }
    requires stand { StandOnWay visible.now.schema.now (visible_rows (R.may visible.now.readable.now visible.now.schema.now) visible.now.tree.now) (set_view set.now) path.now standings.old.items }
    requires short { length standings.old.items ≤ length path.now + 1 }
    ensures stand { OnOk result (map standing_view standings.new.items ≡ stand_to visible.now.schema.now (visible_rows (R.may visible.now.readable.now visible.now.schema.now) visible.now.tree.now) (set_view set.now) path.now) }
    ensures visits { OnOk result (steps.new ≤ steps.old + set_size (set_view set.now)) }
{
    while standings.len() <= path.len() {
        let next = next_standing(alloc, visible, set, path, standings.as_slice(), steps)?;
        standings.push(next)?;
    }
    Ok(())
}

/// How many of the first segments of two paths are the same.
fn shared_len(one: &[Seg], other: &[Seg]) -> usize
    ensures same { take result one.now ≡ take result other.now }
    ensures short { result ≤ length other.now }
{
    let mut shared = 0;
    while shared < one.len() && shared < other.len() && one[shared] == other[shared] {
        shared += 1;
    }
    shared
}

/// Of what stands on the way to one path what stands on the way to another too: at the instances that both
/// ways pass.
fn keep_shared(standings: &mut Vec<Standing>, last: &[Seg], path: &[Seg])
    ensures stand { (nodes : List SchemaNode) (rows : List Row) (set : Nodes) → StandOnWay nodes rows set last.now standings.old.items → StandOnWay nodes rows set path.now standings.new.items }
    ensures short { length standings.new.items ≤ length path.now + 1 }
{
    let shared = shared_len(last, path);
    if shared < standings.len() {
        standings.truncate(shared + 1);
    }
}

/// Whether a row is kept, by what stands at the instances on the way to it: where the last is selected, or a
/// match node at the one above it asks for the row.
fn is_kept(schema: &Schema, standings: &[Standing], path: &[Seg]) -> bool
    requires way { All (λ seg. seg.node < length schema.now) path.now }
    requires length { length standings.now ≡ length path.now + 1 }
    ensures { result ≡ way_keeps schema.now (map standing_view standings.now) path.now }
{
    if standings[path.len()].is_selected() {
        return true;
    }
    match path.last() {
        Some(segment) => standings[path.len() - 1].names(schema, segment),
        None => false,
    }
}

/// The way to the path that was tested last, with what stands on it.
#[derive(Drop)]
pub struct Way<'f> {
    pub path: Path,
    pub standings: Vec<Standing<'f>>,
}

impl<'f> Way<'f> {
    /// The way to the top, before anything was tested.
    pub fn new(alloc: Global) -> Result<Way<'f>, NoMemory>
        ensures { IfOk result (λ way. (nodes : List SchemaNode) (rows : List Row) (set : Nodes) → IsWay nodes rows set way) }
    {
        Ok(Way {
            path: Path::top(alloc)?,
            standings: Vec::new(alloc),
        })
    }

    /// Whether a filter's set keeps the row at a path. Of the way before, what the way to this path shares is
    /// not tested again. It counts at most a visit for each node of the set.
    pub fn keeps<R: Readable, L: Ledger>(
        &mut self,
        alloc: Global,
        visible: &Visible<R>,
        set: &'f FilterSet,
        path: &Path,
        steps: &mut Steps<L>,
    ) -> Result<bool, NoMemory>
        requires down { goes_down visible.now.schema.now None path.now ≡ true }
        requires fits { set_fits visible.now.schema.now None (set_view set.now) ≡ true }
        requires way { IsWay visible.now.schema.now (visible_rows (R.may visible.now.readable.now visible.now.schema.now) visible.now.tree.now) (set_view set.now) self.old }
        ensures keeps { IfOk result (λ is. is ≡ kept visible.now.schema.now (of_set (set_view set.now)) (visible_rows (R.may visible.now.readable.now visible.now.schema.now) visible.now.tree.now) path.now) }
        ensures way { OnOk result (IsWay visible.now.schema.now (visible_rows (R.may visible.now.readable.now visible.now.schema.now) visible.now.tree.now) (set_view set.now) self.new) }
        ensures visits { OnOk result (steps.new ≤ steps.old + set_size (set_view set.now)) }
    {
        keep_shared(&mut self.standings, self.path.items(), path.items());
        stand_to(alloc, visible, set, path, &mut self.standings, steps)?;
        self.path = path.copy(alloc)?;
        Ok(is_kept(visible.schema, self.standings.as_slice(), path.items()))
    }
}
