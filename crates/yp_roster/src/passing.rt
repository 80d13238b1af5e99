//! What a policy, and what an entry does to subscriptions, make of slots.
ghost use Rattle.std.specs.Prelude.{◌≡◌, ◌+◌, ◌<◌, filter, length, List, map, true, false, IfOk, OnOk};
ghost use Rattle.std.specs.List.{AllByRecursion};
ghost use Rattle.yp_schema.specs.declared.schema.SchemaNode.{SchemaNode};
ghost use Rattle.yp_journal.specs.History.{JournalState};
ghost use Rattle.yp_attempt.specs.Moments.{is_kept_by};
ghost use Rattle.yp_attempt.specs.Tracks.{Track};
ghost use Rattle.yp_slot.specs.Slots.{IsPresent};
ghost use Rattle.yp_slot.specs.Steps.{IsActOf, IsEnteredByRules, LeavesSelections, act_said, entered_track};
ghost use Rattle.yp_roster.specs.Ordered.{AreClassedTo, AreClassesOf, AreSlotsOf};
ghost use Rattle.yp_roster.specs.Passed.{AreEnteredTo, IsUntouched};

use std::alloc::Global;
use yp_base::memory::NoMemory;
use yp_slot::acts::Act;
use yp_slot::classes::Class;
use yp_slot::following::Entered;
use yp_slot::present::Present;
use yp_slot::slot::Slot;

/// Goes on by a policy with the slot at a place, with the number of its class among those of some slots.
fn enter_rules_at(
    slots: &mut Vec<Slot>,
    place: usize,
    alloc: Global,
    entered: &Entered,
    classes: &mut Vec<Class>,
) -> Result<(), NoMemory>
    requires place { place < length slots.old.items }
    requires entered { (before : JournalState) × IsEnteredByRules entered.now before × ((tracks : List Track) × AreEnteredTo entered.now before place slots.old.items tracks) }
    ensures count { length slots.new.items ≡ length slots.old.items }
    ensures entered { OnOk result ((before : JournalState) (tracks : List Track) → IsEnteredByRules entered.now before → AreEnteredTo entered.now before place slots.old.items tracks
        → AreEnteredTo entered.now before (place + 1) slots.new.items tracks) }
    ensures classed { OnOk result (AreClassedTo entered.now.present.schema.now entered.now.present.state.now classes.old.items place slots.old.items → AreClassedTo entered.now.present.schema.now entered.now.present.state.now classes.new.items (place + 1) slots.new.items) }
{
    slots[place].enter_rules(alloc, entered, classes)
}

/// Goes on by a policy with each slot, and makes all classes anew.
pub(crate) fn enter_rules(
    slots: &mut Vec<Slot>,
    alloc: Global,
    entered: &Entered,
) -> Result<Vec<Class>, NoMemory>
    requires { (before : JournalState) × IsEnteredByRules entered.now before × ((tracks : List Track) × AreSlotsOf entered.now.present.schema.now before slots.old.items tracks) }
    ensures slots { OnOk result ((before : JournalState) (tracks : List Track) → IsEnteredByRules entered.now before → AreSlotsOf entered.now.present.schema.now before slots.old.items tracks
        → AreSlotsOf entered.now.present.schema.now entered.now.present.state.now slots.new.items (map (entered_track entered.now before) tracks)) }
    ensures classes { IfOk result (λ classes. AreClassesOf entered.now.present.schema.now entered.now.present.state.now classes.items slots.new.items) }
{
    let mut classes = Vec::new(alloc);
    for place in 0..slots.len() {
        enter_rules_at(slots, place, alloc, entered, &mut classes)?;
    }
    Ok(classes)
}

/// Gives the slot at a place the number of its class among those of some slots.
fn classify_at(
    slots: &mut Vec<Slot>,
    place: usize,
    alloc: Global,
    present: &Present,
    classes: &mut Vec<Class>,
) -> Result<(), NoMemory>
    requires present { IsPresent present.now.schema.now present.now.state.now present.now.readers.now }
    requires place { place < length slots.old.items }
    requires slots { (tracks : List Track) × AreSlotsOf present.now.schema.now present.now.state.now slots.old.items tracks }
    ensures count { length slots.new.items ≡ length slots.old.items }
    ensures slots { OnOk result ((tracks : List Track) → AreSlotsOf present.now.schema.now present.now.state.now slots.old.items tracks → AreSlotsOf present.now.schema.now present.now.state.now slots.new.items tracks) }
    ensures classed { OnOk result (AreClassedTo present.now.schema.now present.now.state.now classes.old.items place slots.old.items → AreClassedTo present.now.schema.now present.now.state.now classes.new.items (place + 1) slots.new.items) }
{
    slots[place].classify(alloc, present, classes)
}

/// Makes the classes of slots anew, so that none is left that no slot has.
pub(crate) fn classify(
    slots: &mut Vec<Slot>,
    alloc: Global,
    present: &Present,
) -> Result<Vec<Class>, NoMemory>
    requires present { IsPresent present.now.schema.now present.now.state.now present.now.readers.now }
    requires slots { (tracks : List Track) × AreSlotsOf present.now.schema.now present.now.state.now slots.old.items tracks }
    ensures slots { OnOk result ((tracks : List Track) → AreSlotsOf present.now.schema.now present.now.state.now slots.old.items tracks → AreSlotsOf present.now.schema.now present.now.state.now slots.new.items tracks) }
    ensures classes { IfOk result (λ classes. AreClassesOf present.now.schema.now present.now.state.now classes.items slots.new.items) }
{
    let mut classes = Vec::new(alloc);
    for place in 0..slots.len() {
        classify_at(slots, place, alloc, present, &mut classes)?;
    }
    Ok(classes)
}

/// Whether an entry does something to feeds that there are.
pub(crate) fn moves_feeds(act: &Act) -> bool
    ensures { result ≡ false → IsUntouched (act_said act.now) }
{
    match act {
        Act::Quiet => false,
        Act::Starts(_) => false,
        Act::Amends { .. } => true,
        Act::Resyncs(_) => true,
        Act::Ends(_) => true,
        Act::Drops(_) => true,
    }
}

/// Lets the slots go of the subscription that an entry drops, where it drops one.
pub(crate) fn let_go(slots: &mut Vec<Slot>, act: &Act)
    ensures { (nodes : List SchemaNode) (state : JournalState) (tracks : List Track) → AreSlotsOf nodes state slots.old.items tracks
        → AreSlotsOf nodes state slots.new.items (filter (is_kept_by (act_said act.now)) tracks) }
{
    match act {
        Act::Drops(id) => slots.retain(|slot| slot.feed.sub() != *id),
        Act::Quiet => {}
        Act::Starts(_) => {}
        Act::Amends { .. } => {}
        Act::Resyncs(_) => {}
        Act::Ends(_) => {}
    }
}

/// Goes on by what an entry does to subscriptions with the slot at a place.
fn meet_at(
    slots: &mut Vec<Slot>,
    place: usize,
    alloc: Global,
    entered: &Entered,
    act: &Act,
) -> Result<(), NoMemory>
    requires place { place < length slots.old.items }
    requires act { IsActOf entered.now act.now }
    requires entered { (before : JournalState) × LeavesSelections entered.now before × ((tracks : List Track) × AreEnteredTo entered.now before place slots.old.items tracks) }
    ensures count { length slots.new.items ≡ length slots.old.items }
    ensures entered { OnOk result ((before : JournalState) (tracks : List Track) → LeavesSelections entered.now before → AllByRecursion (λ track. is_kept_by (act_said act.now) track ≡ true) tracks
        → AreEnteredTo entered.now before place slots.old.items tracks → AreEnteredTo entered.now before (place + 1) slots.new.items tracks) }
{
    slots[place].meet_act(alloc, entered, act)
}

/// The same with each slot.
pub(crate) fn meet(
    slots: &mut Vec<Slot>,
    alloc: Global,
    entered: &Entered,
    act: &Act,
) -> Result<(), NoMemory>
    requires act { IsActOf entered.now act.now }
    requires entered { (before : JournalState) × LeavesSelections entered.now before × ((tracks : List Track) × AllByRecursion (λ track. is_kept_by (act_said act.now) track ≡ true) tracks × AreSlotsOf entered.now.present.schema.now before slots.old.items tracks) }
    ensures { OnOk result ((before : JournalState) (tracks : List Track) → LeavesSelections entered.now before → AllByRecursion (λ track. is_kept_by (act_said act.now) track ≡ true) tracks
        → AreSlotsOf entered.now.present.schema.now before slots.old.items tracks
        → AreSlotsOf entered.now.present.schema.now entered.now.present.state.now slots.new.items (map (entered_track entered.now before) tracks)) }
{
    for place in 0..slots.len() {
        meet_at(slots, place, alloc, entered, act)?;
    }
    Ok(())
}
