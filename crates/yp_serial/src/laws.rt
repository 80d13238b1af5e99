//! Laws of serial runs; nothing runs.
ghost use Rattle.std.specs.Prelude.{◌≡◌, ℕ, ℤ, ◌+◌, ◌<◌, ◌≤◌, ◌++◌, true, List, [], ◌∷◌, length, filter, Some, None};
ghost use Rattle.std.specs.List.{AllByRecursion};
ghost use Rattle.yp_base.specs.declared.notice.Trigger.TheVariants.{Periodic as Every};
ghost use Rattle.yp_attempt.specs.Attempts.{answers_in, of_receiver};
ghost use Rattle.yp_attempt.specs.Content.{Content, IsLawful};
ghost use Rattle.yp_attempt.specs.Moments.{Moment, AllMayFollow};
ghost use Rattle.yp_attempt.specs.Runs.{Standing, Found, Reaches, first_offer, settled, waits};
ghost use Rattle.yp_attempt.specs.Tracks.{Answer, Took, Full, is_taken};
ghost use Rattle.yp_attempt.specs.Workers.{all_ready, puts};
ghost use Rattle.yp_serial.specs.DueTicks.{HasDueTicks, HaveDueTicks, GivesDueTicks, GiveDueTicks};
ghost use Rattle.yp_serial.specs.Posts.{Post, Queueing, answer_by};
ghost use Rattle.yp_serial.specs.Serial.{Served, Taking, all_offered, serial_run, served_advanced, served_settled};
ghost use Rattle.yp_serial.specs.Weights.{weights};

use yp_attempt::laws::{a_look_changes_nothing, the_first_offer_is_found};

/// A periodic trigger with its anchor has due ticks, as each subscription is given one.
#[tactic(auto, using(crate::proofs::Anchored::anchored))]
pub fn an_anchored_trigger_has_due_ticks()
    ensures { (period : ℕ) (anchor : ℤ) → HasDueTicks (Every period (Some anchor)) }
{}

/// Triggers that have their due ticks keep them: by an entry that gives none without due ticks, by the answer
/// to an offer, and so throughout the serial run of a journal whose entries give none.
pub fn due_ticks_stay()
    ensures entry { (c : Content) (receivers : List ℕ) (takes : Taking) (m : Moment) (served : Served) → GivesDueTicks m.act → HaveDueTicks served.run.standing.tracks
        → HaveDueTicks (served_advanced c receivers takes m served).run.standing.tracks }
    ensures offer { (c : Content) (q : Queueing) (served : Served) (found : Found) → HaveDueTicks served.run.standing.tracks → waits c served.run ≡ Some found
        → HaveDueTicks (served_settled c q found served).run.standing.tracks }
    ensures run { (c : Content) (receivers : List ℕ) (q : Queueing) (takes : Taking) (journal : List Moment) → GiveDueTicks journal
        → HaveDueTicks (serial_run c receivers q takes journal).run.standing.tracks }
{
    the_first_offer_is_found();
}

/// Each answer to an offer of a feed whose due ticks pass leaves fewer offers that may still come at the
/// position: of a run, and of a worker that looks at its tracks one after another. So they come to an end.
pub fn each_answer_leaves_fewer_offers()
    ensures run { (c : Content) → IsLawful c → (standing : Standing) (found : Found) (answer : Answer) → HasDueTicks found.track.feed.trigger → first_offer c standing.stamp standing.tracks ≡ Some found
        → weights c standing.stamp (settled c standing found answer) < weights c standing.stamp standing.tracks }
    ensures worker { (c : Content) → IsLawful c → (standing : Standing) (found : Found) (answer : Answer) → HasDueTicks found.track.feed.trigger → first_offer c standing.stamp (all_ready c standing) ≡ Some found
        → weights c standing.stamp (all_ready c (puts (record standing { tracks = all_ready c standing }) found answer)) < weights c standing.stamp (all_ready c standing) }
{
    the_first_offer_is_found();
    a_look_changes_nothing();
}

/// At a position a serial run goes on by the answer to what is offered, until nothing is offered; and then
/// nothing is left. Where a due tick doesn't pass, offers would not end, so each trigger has its due ticks.
pub fn a_serial_run_offers_until_nothing_is_offered()
    ensures goes_on { (c : Content) → IsLawful c → (q : Queueing) (served : Served) (found : Found) → HaveDueTicks served.run.standing.tracks → waits c served.run ≡ Some found
        → all_offered c q served ≡ all_offered c q (served_settled c q found served) }
    ensures ends { (c : Content) (q : Queueing) (served : Served) → waits c served.run ≡ None → all_offered c q served ≡ served }
    ensures idle { (c : Content) → IsLawful c → (q : Queueing) (served : Served) → HaveDueTicks served.run.standing.tracks → waits c (all_offered c q served).run ≡ None }
{
    the_first_offer_is_found();
}

/// One entry more goes on from where the entries before it led. The serial run of a journal, of which each
/// entry may come after those before it and each trigger has its due ticks, is a run to which the entries and
/// its own answers lead, and nothing is offered at its end.
pub fn a_serial_run_is_a_run()
    ensures more { (c : Content) (receivers : List ℕ) (q : Queueing) (takes : Taking) (journal : List Moment) (m : Moment)
        → serial_run c receivers q takes (journal ++ m ∷ []) ≡ all_offered c q (served_advanced c receivers takes m (serial_run c receivers q takes journal)) }
    ensures reaches { (c : Content) → IsLawful c → (receivers : List ℕ) (q : Queueing) (takes : Taking) (journal : List Moment) → AllMayFollow [] journal → GiveDueTicks journal
        → Reaches c receivers journal (answers_in (serial_run c receivers q takes journal).run.done) (serial_run c receivers q takes journal).run }
    ensures idle { (c : Content) → IsLawful c → (receivers : List ℕ) (q : Queueing) (takes : Taking) (journal : List Moment) → GiveDueTicks journal
        → waits c (serial_run c receivers q takes journal).run ≡ None }
{
    the_first_offer_is_found();
}

/// What a receiver's queue accepted, the receiver took, or it stands in the queue; the queue never holds more
/// than it has places, and it answers that it is full exactly where it holds as many.
pub fn queues_hold_what_was_not_taken()
    ensures parts { (c : Content) (receivers : List ℕ) (q : Queueing) (takes : Taking) (journal : List Moment) (receiver : ℕ)
        → length (filter (λ a. is_taken a.answer) (of_receiver receiver (serial_run c receivers q takes journal).run.done))
        ≡ ((serial_run c receivers q takes journal).posts receiver).taken + ((serial_run c receivers q takes journal).posts receiver).held }
    ensures fits { (c : Content) (receivers : List ℕ) (q : Queueing) (takes : Taking) (journal : List Moment) (receiver : ℕ)
        → ((serial_run c receivers q takes journal).posts receiver).held ≤ q.places receiver }
    ensures full { (places : ℕ) (post : Post) → post.held ≤ places → answer_by places post ≡ Full → post.held ≡ places }
    ensures room { (places : ℕ) (post : Post) → post.held < places → answer_by places post ≡ Took }
{}

/// The queue of a receiver that takes each packet at once never fills: all that it is offered is taken.
pub fn an_automatic_receiver_is_never_full()
    ensures { (c : Content) (receivers : List ℕ) (q : Queueing) (takes : Taking) (journal : List Moment) (receiver : ℕ)
        → q.automatic receiver ≡ true → 0 < q.places receiver
        → AllByRecursion (λ a. a.answer ≡ Took) (of_receiver receiver (serial_run c receivers q takes journal).run.done) }
{}
