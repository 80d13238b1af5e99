//! The slots of a subscription that starts.
ghost use Rattle.std.specs.Prelude.{◌≡◌, ◌≤◌, ◌∷◌, ◌++◌, [], ℕ, length, nat_le, List, None, OnOk, IfSome, Some};
ghost use Rattle.std.specs.List.{position};
ghost use Rattle.yp_registry.specs.Registry.{live_at};
ghost use Rattle.yp_terms.specs.Terms.{AreTermsOf, Terms as TermsThere};
ghost use Rattle.yp_attempt.specs.Moments.{Moment, Starts};
ghost use Rattle.yp_attempt.specs.Runs.{AreById, with_started};
ghost use Rattle.yp_attempt.specs.Tracks.{Track};
ghost use Rattle.yp_slot.specs.Classes.{KeepNumbers};
ghost use Rattle.yp_slot.specs.Slots.{IsPresent};
ghost use Rattle.yp_slot.specs.Steps.{HasLiveTerms, act_said, names_of};
ghost use Rattle.yp_roster.specs.Ordered.{AreClassesOf, AreSlotsOf};
ghost use Rattle.yp_roster.specs.Passed.{IsMomentAt, new_tracks, place_from, with_new, with_tracks};

use std::alloc::Global;
use yp_base::memory::NoMemory;
use yp_slot::acts::Act;
use yp_slot::classes::{Class, number_of};
use yp_slot::present::Present;
use yp_slot::slot::Slot;
use yp_terms::terms::Terms;

/// Adds the slot of a subscription that starts for a receiver, where the subscription names it.
fn begin_one(
    slots: &mut Vec<Slot>,
    classes: &mut Vec<Class>,
    alloc: Global,
    present: &Present,
    terms: &Terms,
    receiver: u32,
) -> Result<(), NoMemory>
    requires present { IsPresent present.now.schema.now present.now.state.now present.now.readers.now }
    requires terms { AreTermsOf present.now.schema.now (length present.now.state.now.receivers) terms.now }
    ensures slots { OnOk result ((m : Moment) (tracks : List Track) → IsMomentAt present.now.schema.now present.now.state.now m → live_at terms.now.id present.now.state.now.registry.live ≡ Some terms.now
        → AreSlotsOf present.now.schema.now present.now.state.now slots.old.items tracks
        → AreSlotsOf present.now.schema.now present.now.state.now slots.new.items (tracks ++ new_tracks m present.now.state.now.position terms.now (receiver ∷ []))) }
    ensures classes { OnOk result (AreClassesOf present.now.schema.now present.now.state.now classes.old.items slots.old.items → AreClassesOf present.now.schema.now present.now.state.now classes.new.items slots.new.items) }
    ensures numbers { OnOk result (KeepNumbers classes.old.items classes.new.items) }
{
    if terms.receivers().contains(&receiver) {
        let filter = terms.filter();
        let trigger = terms.trigger();
        let class = number_of(alloc, present, receiver, filter, trigger, classes)?;
        slots.push(Slot::start(alloc, present, terms, receiver, class)?)?;
    }
    Ok(())
}

/// Adds the slots of a subscription that starts, for those of some receivers that it names.
fn begin(
    slots: &mut Vec<Slot>,
    classes: &mut Vec<Class>,
    alloc: Global,
    present: &Present,
    terms: &Terms,
    mine: &[u32],
) -> Result<(), NoMemory>
    requires present { IsPresent present.now.schema.now present.now.state.now present.now.readers.now }
    requires terms { AreTermsOf present.now.schema.now (length present.now.state.now.receivers) terms.now }
    ensures slots { OnOk result ((m : Moment) (tracks : List Track) → IsMomentAt present.now.schema.now present.now.state.now m → live_at terms.now.id present.now.state.now.registry.live ≡ Some terms.now
        → AreSlotsOf present.now.schema.now present.now.state.now slots.old.items tracks
        → AreSlotsOf present.now.schema.now present.now.state.now slots.new.items (tracks ++ new_tracks m present.now.state.now.position terms.now mine.now)) }
    ensures classes { OnOk result (AreClassesOf present.now.schema.now present.now.state.now classes.old.items slots.old.items → AreClassesOf present.now.schema.now present.now.state.now classes.new.items slots.new.items) }
    ensures numbers { OnOk result (KeepNumbers classes.old.items classes.new.items) }
{
    for receiver in mine {
        begin_one(slots, classes, alloc, present, terms, *receiver)?;
    }
    Ok(())
}

/// The terms of the subscription that starts, where one does.
pub(crate) fn started<'a>(act: &Act<'a>) -> Option<&'a Terms>
    ensures said { IfSome result (λ terms. act_said act.now ≡ Starts terms.now.id terms.now.trigger terms.now.configured (names_of terms.now)) }
    ensures live { IfSome result (λ terms. (live : List TermsThere) → HasLiveTerms live act.now → live_at terms.now.id live ≡ Some terms.now) }
    ensures none { result ≡ None → (m : Moment) (n : ℕ) (mine : List ℕ) (tracks : List Track) → with_started m n (act_said act.now) mine tracks ≡ tracks }
{
    match act {
        Act::Starts(terms) => Some(*terms),
        Act::Quiet => None,
        Act::Amends { .. } => None,
        Act::Resyncs(_) => None,
        Act::Ends(_) => None,
        Act::Drops(_) => None,
    }
}

/// The place of the first slot of which the subscription's id isn't below an id, where there is one.
fn first_from(slots: &[Slot], id: u32) -> Option<usize>
    ensures { result ≡ position (λ slot. nat_le id slot.feed.sub) slots.now }
{
    slots.iter().position(|slot| id <= slot.feed.sub())
}

/// The same, and past them all where there is none.
fn place_from(slots: &[Slot], id: u32) -> usize
    ensures place { result ≡ place_from id slots.now }
    ensures within { result ≤ length slots.now }
{
    match first_from(slots, id) {
        Some(place) => place,
        None => slots.len(),
    }
}

/// Puts new slots at the place of their subscription's id.
fn put(slots: &mut Vec<Slot>, id: u32, mut new: Vec<Slot>) -> Result<(), NoMemory>
    ensures { OnOk result (slots.new.items ≡ with_new id new.items slots.old.items) }
{
    let place = place_from(slots.as_slice(), id);
    let mut rest = slots.split_off(place)?;
    slots.append(&mut new)?;
    slots.append(&mut rest)?;
    Ok(())
}

/// Adds the slots of a subscription that starts, for those of some receivers that it names, at the place of
/// its id.
pub(crate) fn start(
    slots: &mut Vec<Slot>,
    classes: &mut Vec<Class>,
    alloc: Global,
    present: &Present,
    terms: &Terms,
    mine: &[u32],
) -> Result<(), NoMemory>
    requires present { IsPresent present.now.schema.now present.now.state.now present.now.readers.now }
    requires terms { AreTermsOf present.now.schema.now (length present.now.state.now.receivers) terms.now }
    ensures slots { OnOk result ((m : Moment) (tracks : List Track) → IsMomentAt present.now.schema.now present.now.state.now m → live_at terms.now.id present.now.state.now.registry.live ≡ Some terms.now
        → AreById tracks → AreSlotsOf present.now.schema.now present.now.state.now slots.old.items tracks
        → AreSlotsOf present.now.schema.now present.now.state.now slots.new.items (with_tracks terms.now.id (new_tracks m present.now.state.now.position terms.now mine.now) tracks)) }
    ensures classes { OnOk result (AreClassesOf present.now.schema.now present.now.state.now classes.old.items slots.old.items → AreClassesOf present.now.schema.now present.now.state.now classes.new.items slots.new.items) }
{
    let mut new = Vec::new(alloc);
    begin(&mut new, classes, alloc, present, terms, mine)?;
    put(slots, terms.id(), new)
}
