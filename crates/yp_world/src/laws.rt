//! Laws of the world; nothing runs.
ghost use Rattle.std.specs.Prelude.{◌≡◌, ℕ, ◌<◌, ◌%◌, ◌++◌, ◌↔◌, List, [], ◌∷◌, length, Some};
ghost use Rattle.std.specs.List.{slice_get};
ghost use Rattle.yp_attempt.specs.Attempts.{IsOneOf, own_tracks, replay};
ghost use Rattle.yp_attempt.specs.Content.{Content, IsLawful};
ghost use Rattle.yp_attempt.specs.Moments.{Moment, AllMayFollow};
ghost use Rattle.yp_attempt.specs.Runs.{Standing, Found, first_offer, first_run};
ghost use Rattle.yp_attempt.specs.Workers.{numbers_of};
ghost use Rattle.yp_serial.specs.DueTicks.{GiveDueTicks};
ghost use Rattle.yp_serial.specs.Posts.{Queueing};
ghost use Rattle.yp_serial.specs.Serial.{Taking, serial_run};
ghost use Rattle.yp_mirror.specs.Stories.{Leads, story_of};
ghost use Rattle.yp_world.specs.Headline.{IsServed};
ghost use Rattle.yp_world.specs.Holding.{AreOf, CanBeDone, Holds, IsOwnRunOf, absorbed_by};
ghost use Rattle.yp_world.specs.Serially.{HavePlaces, LeadTo};
ghost use Rattle.yp_world.specs.World.{Accepted, Delivery, Event, MetFull, Nothing, Offer, Setup, World, after_events, first_world, step, with_workers};

use yp_attempt::laws::{
    a_receivers_part_of_a_run_is_its_own_run, the_first_offer_is_found,
    what_is_reached_is_what_replaying_gives,
};
use yp_mirror::laws::{
    a_copy_begins_with_a_full_update, a_journal_tells_its_story,
    a_receivers_copy_is_fresh_after_each_update, every_run_of_a_receiver_is_linked,
    incomplete_updates_follow_full_queues, only_full_queues_suspend, positions_never_fall,
    the_next_resynchronisation_carries_its_own_positions_selection,
};
use yp_serial::laws::a_serial_run_is_a_run;

/// What holds of the world at every moment holds of the first world, is kept by each event, and so it holds
/// after every list of events: the journal is legal, each worker stands where the entries that it absorbed
/// and the answers of its receivers' queues lead, and what a queue accepted its receiver took, or it stands
/// there.
pub fn every_list_of_events_keeps_what_holds()
    ensures first { (setup : Setup) → Holds setup (first_world setup) }
    ensures step { (setup : Setup) (world : World) (event : Event) → Holds setup world → Holds setup (step setup world event).0 }
    ensures events { (setup : Setup) (events : List Event) → Holds setup (after_events setup (first_world setup) events) }
{
    the_first_offer_is_found();
}

/// Nothing happens exactly where an event can't be done: an entry that may not come after those of the
/// journal, a worker that is none, that has absorbed the whole journal or still offers something, one that
/// offers nothing, and a receiver that is none or whose queue is empty. Then nothing changes.
pub fn nothing_happens_where_an_event_cannot_be_done()
    ensures exactly { (setup : Setup) (world : World) → Holds setup world → (event : Event) → ((step setup world event).1 ≡ Nothing) ↔ (CanBeDone setup world event → ⊥) }
    ensures changes { (setup : Setup) (world : World) (event : Event) → (step setup world event).1 ≡ Nothing → (step setup world event).0 ≡ world }
{
    the_first_offer_is_found();
}

/// What a worker offers is accepted exactly where the queue of its receiver has a free place, and meets a full
/// queue exactly where the queue holds as many as its places.
pub fn an_offer_is_accepted_where_there_is_a_free_place()
    ensures accepted { (setup : Setup) (world : World) → Holds setup world → (worker : ℕ) (standing : Standing) → slice_get world.standings worker ≡ Some standing
        → (found : Found) → first_offer setup.content standing.stamp standing.tracks ≡ Some found → (delivery : Delivery) → slice_get world.deliveries found.track.feed.receiver ≡ Some delivery
        → ((step setup world (Offer worker)).1 ≡ Accepted found.track.feed.receiver standing.position) ↔ (length delivery.queue < delivery.places) }
    ensures full { (setup : Setup) (world : World) → Holds setup world → (worker : ℕ) (standing : Standing) → slice_get world.standings worker ≡ Some standing
        → (found : Found) → first_offer setup.content standing.stamp standing.tracks ≡ Some found → (delivery : Delivery) → slice_get world.deliveries found.track.feed.receiver ≡ Some delivery
        → ((step setup world (Offer worker)).1 ≡ MetFull found.track.feed.receiver found.track.feed.sub standing.position) ↔ (length delivery.queue ≡ delivery.places) }
{
    the_first_offer_is_found();
}

/// Where that holds, each receiver is served. Its queue accepted what the definition makes for it of the
/// entries that its worker absorbed, with the answers that the queue gave; the receiver took that, or it
/// stands in the queue, in order. After each update that it took of a mirrored subscription, its copy is what
/// is selected at the update's position; the positions of updates never fall; suspensions and incomplete
/// updates follow only full queues, and the next resynchronisation carries its own position's selection.
pub fn a_world_that_holds_serves_its_receivers()
    ensures { (setup : Setup) → IsLawful setup.content → 0 < setup.workers → (world : World) → Holds setup world → (receiver : ℕ) → receiver < length setup.places
        → Leads setup.content (story_of world.journal receiver) → IsServed setup world receiver }
{
    a_receivers_part_of_a_run_is_its_own_run();
    what_is_reached_is_what_replaying_gives();
    a_journal_tells_its_story();
    every_run_of_a_receiver_is_linked();
    a_receivers_copy_is_fresh_after_each_update();
    a_copy_begins_with_a_full_update();
    positions_never_fall();
    only_full_queues_suspend();
    incomplete_updates_follow_full_queues();
    the_next_resynchronisation_carries_its_own_positions_selection();
}

/// A serial run is a list of events, with one worker: each entry is appended, then receivers take what they
/// take by it, the worker absorbs the entry, and it offers until nothing is offered, where a receiver that takes
/// each notification at once takes what was accepted. They lead to where the serial run stands: there each
/// queue gave the answers that it gave in the serial run, each receiver took the same notifications in the same
/// order, and the same stand in its queue. So what is said of every list of events is said of it.
pub fn a_serial_run_is_a_list_of_events()
    ensures { (c : Content) → IsLawful c → (q : Queueing) (places : List ℕ) → HavePlaces places q → (takes : Taking) (journal : List Moment) → AllMayFollow [] journal → GiveDueTicks journal
        → LeadTo (record { content = c; workers = 1; places = places }) (first_world (record { content = c; workers = 1; places = places })) journal (serial_run c (numbers_of 0 1 (length places)) q takes journal) }
{
    the_first_offer_is_found();
    a_serial_run_is_a_run();
}

/// Each receiver is one of those that its worker serves, and stands among them just once.
#[tactic(auto, using(crate::proofs::Numbers::one_of))]
pub fn a_receiver_is_one_of_those_of_its_worker()
    ensures { (workers receiver count : ℕ) → receiver < count → IsOneOf receiver (numbers_of (receiver % workers) workers count) }
{}

/// A receiver's part of its worker's run is its own run: where the worker stands, with the tracks of the
/// receiver alone, is where the entries that it absorbed and the receiver's own answers lead. So the number of
/// workers doesn't matter: in two worlds with different numbers of workers, a receiver whose workers absorbed
/// the same entries and whose queue answered the same is sent the same, and its feeds are the same.
pub fn the_number_of_workers_does_not_matter()
    ensures part { (setup : Setup) (world : World) → Holds setup world → (receiver : ℕ) → receiver < length setup.places → (delivery : Delivery) (standing : Standing) → AreOf setup world receiver delivery standing
        → IsOwnRunOf setup world receiver delivery standing (replay setup.content (receiver ∷ []) first_run (absorbed_by world standing) delivery.answers).run }
    ensures sent { (setup : Setup) (others : ℕ) (one two : World) → Holds setup one → Holds (with_workers setup others) two → (receiver : ℕ) → receiver < length setup.places
        → (first second : Delivery) (here there : Standing) → AreOf setup one receiver first here → AreOf (with_workers setup others) two receiver second there
        → absorbed_by one here ≡ absorbed_by two there → first.answers ≡ second.answers → first.taken ++ first.queue ≡ second.taken ++ second.queue }
    ensures tracks { (setup : Setup) (others : ℕ) (one two : World) → Holds setup one → Holds (with_workers setup others) two → (receiver : ℕ) → receiver < length setup.places
        → (first second : Delivery) (here there : Standing) → AreOf setup one receiver first here → AreOf (with_workers setup others) two receiver second there
        → absorbed_by one here ≡ absorbed_by two there → first.answers ≡ second.answers → own_tracks receiver here.tracks ≡ own_tracks receiver there.tracks }
{
    a_receivers_part_of_a_run_is_its_own_run();
    what_is_reached_is_what_replaying_gives();
}

/// However writers, workers and receivers interleave, each receiver is served: this holds after every list
/// of events.
pub fn every_list_of_events_serves_each_receiver()
    ensures { (setup : Setup) → IsLawful setup.content → 0 < setup.workers → (events : List Event) (receiver : ℕ) → receiver < length setup.places
        → Leads setup.content (story_of (after_events setup (first_world setup) events).journal receiver) → IsServed setup (after_events setup (first_world setup) events) receiver }
{
    every_list_of_events_keeps_what_holds();
    a_world_that_holds_serves_its_receivers();
}
