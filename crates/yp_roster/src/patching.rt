//! What a patch makes of slots, by their classes.
ghost use Rattle.std.specs.Prelude.{◌≡◌, ◌+◌, ◌<◌, [], List, length, map, true, false, is_some, Some, IfOk, OnOk};
ghost use Rattle.std.specs.List.{AllByRecursion, slice_get};
ghost use Rattle.yp_filter.specs.View.{filter_view};
ghost use Rattle.yp_journal.specs.History.{JournalState};
ghost use Rattle.yp_attempt.specs.Tracks.{Track};
ghost use Rattle.yp_slot.specs.declared.classes.Class.{Class as ClassThere};
ghost use Rattle.yp_slot.specs.Classes.{AreClasses, IsClass, is_filtered, looks_back, member_of};
ghost use Rattle.yp_roster.specs.Ordered.{AreClassesOf, HaveClasses, AreSlotsOf};
ghost use Rattle.yp_roster.specs.Passed.{AreEnteredTo, AreStepsOf, HasTree};
ghost use Rattle.yp_slot.specs.Steps.{IsEnteredByPatch, IsStepOf, entered_track, step_of};

use std::alloc::Global;
use std::sync::ledger::Ledger;
use yp_base::memory::NoMemory;
use yp_base::steps::Steps;
use yp_slot::classes::{Class, is_filtered};
use yp_slot::following::Entered;
use yp_slot::laws::what_a_patch_makes_of_slots;
use yp_slot::slot::Slot;
use yp_touch::touched::Touched;
use yp_tree::tree::Tree;

/// The roots of the step of what a class selects, from nothing.
fn roots_of<L: Ledger>(
    alloc: Global,
    entered: &Entered,
    class: &Class,
    before: &Tree,
    steps: &mut Steps<L>,
) -> Result<Touched, NoMemory>
    requires entered { (found : JournalState) × IsEnteredByPatch entered.now found × (before.now ≡ found.rows) }
    requires class { IsClass entered.now.present.schema.now (length entered.now.present.state.now.receivers) class.now }
    ensures { IfOk result (λ step. (found : JournalState) → IsEnteredByPatch entered.now found → before.now ≡ found.rows
        → step ≡ step_of entered.now.present.schema.now found entered.now.present.state.now (filter_view class.now.filter) class.now.first) }
{
    let present = &entered.present;
    let rules = present.rules_of(class.first);
    let mut step = Touched::new(alloc);
    step.absorb(
        alloc,
        present.schema,
        &class.filter,
        rules,
        before,
        present.state.tree(),
        entered.changed,
        steps,
    )?;
    Ok(step)
}

/// The same where the class selects all that may be read: what each changed row held is known, and no row
/// before it is looked at.
fn unfiltered_roots_of(alloc: Global, entered: &Entered, class: &Class) -> Result<Touched, NoMemory>
    requires entered { (found : JournalState) × IsEnteredByPatch entered.now found }
    requires class { IsClass entered.now.present.schema.now (length entered.now.present.state.now.receivers) class.now }
    requires all { is_filtered (filter_view class.now.filter) ≡ false }
    ensures { IfOk result (λ step. (found : JournalState) → IsEnteredByPatch entered.now found
        → step ≡ step_of entered.now.present.schema.now found entered.now.present.state.now (filter_view class.now.filter) class.now.first) }
{
    let present = &entered.present;
    let rules = present.rules_of(class.first);
    let mut step = Touched::new(alloc);
    step.absorb_unfiltered(alloc, present.schema, rules, entered.changed)?;
    Ok(step)
}

/// The same where the class sends on change.
fn step_of<L: Ledger>(
    alloc: Global,
    entered: &Entered,
    class: &Class,
    steps: &mut Steps<L>,
) -> Result<Touched, NoMemory>
    requires entered { (before : JournalState) × IsEnteredByPatch entered.now before }
    requires class { IsClass entered.now.present.schema.now (length entered.now.present.state.now.receivers) class.now }
    requires tree { looks_back class.now ≡ true → is_some entered.now.before ≡ true }
    ensures { IfOk result (λ step. (before : JournalState) → IsEnteredByPatch entered.now before → IsStepOf entered.now.present.schema.now before entered.now.present.state.now class.now step) }
{
    if !class.on_change {
        return Ok(Touched::new(alloc));
    }
    if !is_filtered(&class.filter) {
        return unfiltered_roots_of(alloc, entered, class);
    }
    match entered.before {
        Some(before) => roots_of(alloc, entered, class, before, steps),
        None => Ok(Touched::new(alloc)),
    }
}

/// Those of each class.
fn steps_of<L: Ledger>(
    alloc: Global,
    entered: &Entered,
    classes: &[Class],
    steps: &mut Steps<L>,
) -> Result<Vec<Touched>, NoMemory>
    requires entered { (before : JournalState) × IsEnteredByPatch entered.now before }
    requires classes { AreClasses entered.now.present.schema.now (length entered.now.present.state.now.receivers) classes.now }
    requires tree { HasTree entered.now classes.now }
    ensures { IfOk result (λ those. (before : JournalState) → IsEnteredByPatch entered.now before → AreStepsOf entered.now.present.schema.now before entered.now.present.state.now classes.now those.items) }
{
    let mut those = Vec::with_capacity(alloc, classes.len())?;
    for class in classes {
        those.push(step_of(alloc, entered, class, steps)?)?;
    }
    Ok(those)
}

/// Whether none of the steps has a root.
fn touch_nothing(steps: &[Touched]) -> bool
    ensures { result ≡ true → AllByRecursion (λ step. step ≡ []) steps.now }
{
    for step in steps {
        if !step.roots().is_empty() {
            return false;
        }
    }
    true
}

/// The step of the class of this number.
fn step_at(steps: &[Touched], number: usize) -> &Touched
    requires { number < length steps.now }
    ensures { slice_get steps.now number ≡ Some result.now }
{
    &steps[number]
}

/// Goes on by a patch with the slot at a place, by the step of its class.
fn join_at(
    slots: &mut Vec<Slot>,
    place: usize,
    alloc: Global,
    entered: &Entered,
    steps: &[Touched],
) -> Result<(), NoMemory>
    requires place { place < length slots.old.items }
    requires steps { (before : JournalState) × (classes : List ClassThere) × AreStepsOf entered.now.present.schema.now before entered.now.present.state.now classes steps.now × HaveClasses before classes slots.old.items }
    ensures count { length slots.new.items ≡ length slots.old.items }
    ensures members { OnOk result (map member_of slots.new.items ≡ map member_of slots.old.items) }
    ensures entered { OnOk result ((before : JournalState) (classes : List ClassThere) (tracks : List Track) → IsEnteredByPatch entered.now before → AreStepsOf entered.now.present.schema.now before entered.now.present.state.now classes steps.now → HaveClasses before classes slots.old.items
        → AreEnteredTo entered.now before place slots.old.items tracks → AreEnteredTo entered.now before (place + 1) slots.new.items tracks) }
{
    what_a_patch_makes_of_slots();
    let slot = &mut slots[place];
    let step = step_at(steps, slot.class);
    slot.join(alloc, step)
}

/// The same with each slot.
fn join_all(
    slots: &mut Vec<Slot>,
    alloc: Global,
    entered: &Entered,
    steps: &[Touched],
) -> Result<(), NoMemory>
    requires steps { (before : JournalState) × (classes : List ClassThere) × AreStepsOf entered.now.present.schema.now before entered.now.present.state.now classes steps.now × HaveClasses before classes slots.old.items }
    ensures members { OnOk result (map member_of slots.new.items ≡ map member_of slots.old.items) }
    ensures entered { OnOk result ((before : JournalState) (classes : List ClassThere) (tracks : List Track) → IsEnteredByPatch entered.now before → AreStepsOf entered.now.present.schema.now before entered.now.present.state.now classes steps.now → HaveClasses before classes slots.old.items
        → AreSlotsOf entered.now.present.schema.now before slots.old.items tracks
        → AreSlotsOf entered.now.present.schema.now entered.now.present.state.now slots.new.items (map (entered_track entered.now before) tracks)) }
{
    for place in 0..slots.len() {
        join_at(slots, place, alloc, entered, steps)?;
    }
    Ok(())
}

/// Goes on by a patch with each slot, by the steps of classes. Where none of these has a root the slots are
/// not gone over.
pub(crate) fn enter_patch<L: Ledger>(
    slots: &mut Vec<Slot>,
    alloc: Global,
    entered: &Entered,
    classes: &[Class],
    steps: &mut Steps<L>,
) -> Result<(), NoMemory>
    requires entered { (before : JournalState) × IsEnteredByPatch entered.now before × AreClassesOf entered.now.present.schema.now before classes.now slots.old.items }
    requires tree { HasTree entered.now classes.now }
    ensures members { OnOk result (map member_of slots.new.items ≡ map member_of slots.old.items) }
    ensures slots { OnOk result ((before : JournalState) (tracks : List Track) → IsEnteredByPatch entered.now before → HaveClasses before classes.now slots.old.items
        → AreSlotsOf entered.now.present.schema.now before slots.old.items tracks
        → AreSlotsOf entered.now.present.schema.now entered.now.present.state.now slots.new.items (map (entered_track entered.now before) tracks)) }
{
    what_a_patch_makes_of_slots();
    let those = steps_of(alloc, entered, classes, steps)?;
    let list = those.as_slice();
    if touch_nothing(list) {
        return Ok(());
    }
    join_all(slots, alloc, entered, list)
}
