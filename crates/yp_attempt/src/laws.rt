//! Laws of runs; nothing runs.
ghost use Rattle.std.specs.Prelude.{◌≡◌, ℕ, ◌++◌, ◌==◌, true, false, List, [], ◌∷◌, map, filter, Some, None, option_map};
ghost use Rattle.std.specs.List.{AllByRecursion};
ghost use Rattle.yp_feed.specs.declared.item.Item.{Item};
ghost use Rattle.yp_feed.specs.declared.item.Item.TheVariants.{Changes, Incomplete, Resumed, Suspended, Sync};
ghost use Rattle.yp_feed.specs.Machine.{resyncs};
ghost use Rattle.yp_attempt.specs.Content.{Content, IsLawful};
ghost use Rattle.yp_attempt.specs.Tracks.{Track, Answer, Took, Full, Notice, BeginsAnew, after_answer, item_made, is_state_change, rebased};
ghost use Rattle.yp_attempt.specs.Moments.{Moment, Drops, MayFollow, AllMayFollow, after_rules};
ghost use Rattle.yp_attempt.specs.Runs.{Standing, AreById, Found, IsFirst, Run, Reaches, advanced, first_offer, first_run, waits};
ghost use Rattle.yp_attempt.specs.Attempts.{Replayed, IsReplayOf, replay, attempts, stream, of_receiver, answers_in, own_run, IsOneOf};
ghost use Rattle.yp_attempt.specs.Alike.{AreAlike};
ghost use Rattle.yp_attempt.specs.Examples.{counting, full_queue, many_rows, offers_of};
ghost use Rattle.yp_attempt.specs.Workers.{Stands, ready, all_ready, takes, puts, found_rebased};

/// A run to which entries and answers lead is the one that replaying them gives, with nothing left.
#[tactic(auto, using(crate::proofs::Replays::reached_is_replayed))]
pub fn what_is_reached_is_what_replaying_gives()
    ensures { (c : Content) (receivers : List ℕ) (past : List Moment) (answers : List Answer) (run : Run) → Reaches c receivers past answers run
        → replay c receivers first_run past answers ≡ record { run = run; rest = []; left = [] } }
{}

/// Replaying a journal of which each entry may come after those before it leads to a run: by the entries
/// that it came to, and the answers that met an offer.
pub fn what_replaying_gives_is_reached()
    ensures { (c : Content) (receivers : List ℕ) (journal : List Moment) (answers : List Answer) → AllMayFollow [] journal
        → IsReplayOf c receivers journal answers (replay c receivers first_run journal answers) }
{}

/// Of a run of several receivers, the part of one is that receiver's own run, with the answers that it gave.
#[tactic(auto, using(crate::proofs::OwnRuns::own_reaches))]
pub fn a_receivers_part_of_a_run_is_its_own_run()
    ensures { (c : Content) (receiver : ℕ) (receivers : List ℕ) → IsOneOf receiver receivers
        → (past : List Moment) (answers : List Answer) (run : Run) → Reaches c receivers past answers run
        → Reaches c (receiver ∷ []) past (answers_in (of_receiver receiver run.done)) (own_run receiver run) }
{}

/// The attempts of several receivers, cut to one, are those of this receiver alone, with the answers that it
/// gave. So it doesn't matter by how many workers receivers are served.
pub fn a_receivers_attempts_are_the_same_beside_others()
    ensures { (c : Content) (receiver : ℕ) (receivers : List ℕ) → IsOneOf receiver receivers
        → (journal : List Moment) (answers : List Answer) → AllMayFollow [] journal
        → of_receiver receiver (attempts c receivers journal answers)
        ≡ attempts c (receiver ∷ []) journal (answers_in (of_receiver receiver (attempts c receivers journal answers))) }
{}

/// What a receiver isn't shown has no effect on its attempts, nor on what it is sent: over journals that are
/// alike for it, with equal answers, they are the same.
#[tactic(auto, using(crate::proofs::AlikeRuns::attempts_alike))]
pub fn what_a_receiver_is_not_shown_has_no_effect()
    ensures made { (c : Content) (receiver : ℕ) (ones twos : List Moment) (answers : List Answer) → AreAlike receiver ones twos
        → attempts c (receiver ∷ []) ones answers ≡ attempts c (receiver ∷ []) twos answers }
    ensures sent { (c : Content) (receiver : ℕ) (ones twos : List Moment) (answers : List Answer) → AreAlike receiver ones twos
        → stream c receiver ones answers ≡ stream c receiver twos answers }
{}

/// Each attempt got one answer, in order; those that are left over come after them.
#[tactic(auto, using(crate::proofs::StepLaws::answers_given))]
pub fn each_answer_is_of_one_attempt()
    ensures { (c : Content) (receivers : List ℕ) (journal : List Moment) (answers : List Answer)
        → answers_in (attempts c receivers journal answers) ++ (replay c receivers first_run journal answers).left ≡ answers }
{}

/// What is found offers its item, and the tracks before it offer nothing.
pub fn the_first_offer_is_found()
    ensures { (c : Content) (stamp : ℕ) (tracks : List Track) (found : Found) → first_offer c stamp tracks ≡ Some found
        → IsFirst c stamp tracks found }
{}

/// The tracks of a run stand in the order of their subscriptions' ids, and so they are asked for offers.
#[tactic(auto, using(crate::proofs::Ids::run_by_id))]
pub fn tracks_are_asked_in_the_order_of_ids()
    ensures { (c : Content) (receivers : List ℕ) (past : List Moment) (answers : List Answer) (run : Run) → Reaches c receivers past answers run
        → AreById run.standing.tracks }
{}

/// A full queue moves no base, and leaves the window of selections as it is.
#[tactic(auto, using(crate::proofs::StepLaws::full_base))]
pub fn a_full_attempt_keeps_the_window()
    ensures base { (c : Content) (n stamp : ℕ) (track : Track) (item : Item) → (after_answer c n stamp track item Full).feed.base ≡ track.feed.base }
    ensures first { (c : Content) (n stamp : ℕ) (track : Track) (item : Item) → (after_answer c n stamp track item Full).first ≡ track.first }
    ensures later { (c : Content) (n stamp : ℕ) (track : Track) (item : Item) → (after_answer c n stamp track item Full).later ≡ track.later }
{}

/// A look at a track leaves the record that was set aside.
pub fn a_look_keeps_what_is_set_aside()
    ensures { (c : Content) (n stamp : ℕ) (track : Track) → (rebased c n stamp track).frozen ≡ track.frozen }
{}

/// A subscription that is dropped has no track any more.
#[tactic(auto, using(crate::proofs::StepLaws::dropped_gone))]
pub fn a_dropped_subscription_is_gone()
    ensures { (c : Content) (receivers : List ℕ) (m : Moment) (standing : Standing) (sub : ℕ) → m.act ≡ Drops sub
        → AllByRecursion (λ track. (track.feed.sub == sub) ≡ false) (advanced c receivers m standing).tracks }
{}

/// Where the rules of a receiver's user change, what was set aside for its feeds is dropped; a feed that
/// resynchronises owes all that it selects, and of another one the window begins anew.
#[tactic(auto, using(crate::proofs::StepLaws::rules_drop, crate::proofs::StepLaws::rules_resync, crate::proofs::StepLaws::rules_begin))]
pub fn changed_rules_begin_anew()
    ensures frozen { (n : ℕ) (m : Moment) (track : Track) → m.rules track.feed.receiver ≡ true → track.feed.owed.terminated ≡ false
        → (after_rules n m track).frozen ≡ None }
    ensures resyncs { (n : ℕ) (m : Moment) (track : Track) → m.rules track.feed.receiver ≡ true → track.feed.owed.terminated ≡ false → resyncs track.feed.trigger ≡ true
        → (after_rules n m track).feed.owed.sync ≡ true }
    ensures window { (n : ℕ) (m : Moment) (track : Track) → m.rules track.feed.receiver ≡ true → track.feed.owed.terminated ≡ false → resyncs track.feed.trigger ≡ false
        → BeginsAnew n track (after_rules n m track) }
{}

/// What is made of a change of the subscription's state says which one it is.
#[tactic(auto, using(crate::proofs::StepLaws::state_told))]
pub fn a_change_of_state_is_told_by_its_item()
    ensures { (c : Content) (track : Track) (item : Item) (n stamp : ℕ) → is_state_change item ≡ true
        → (item_made c track item n stamp).body ≡ Notice item }
{}

/// A worker that was opened stands for no entries and no answers.
#[tactic(auto, using(crate::proofs::WorkerSteps::opened_stands))]
pub fn an_opened_worker_stands_for_nothing()
    ensures { (c : Content) (receivers : List ℕ) → Stands c receivers [] [] first_run.standing }
{}

/// A look changes nothing of what a worker stands for, so that it may look at some tracks early; and a second
/// look changes nothing of a track.
#[tactic(auto, using(crate::proofs::WorkerSteps::looks, crate::proofs::WorkerSteps::looked_twice))]
pub fn a_look_changes_nothing()
    ensures looks { (c : Content) (receivers : List ℕ) (past : List Moment) (answers : List Answer) (standing : Standing) (tracks : List Track)
        → map (ready c standing.position standing.stamp) tracks ≡ all_ready c standing
        → Stands c receivers past answers standing → Stands c receivers past answers (record standing { tracks = tracks }) }
    ensures looked_twice { (c : Content) → IsLawful c → (n stamp : ℕ) (looked others : List Track)
        → map (ready c n stamp) (map (ready c n stamp) looked ++ others) ≡ map (ready c n stamp) (looked ++ others) }
{}

/// What a worker finds is what the run offers, with its tracks looked at.
pub fn a_worker_finds_what_its_run_offers()
    ensures { (c : Content) → IsLawful c → (receivers : List ℕ) (past : List Moment) (answers : List Answer) (standing : Standing)
        → (s : Stands c receivers past answers standing)
        → first_offer c standing.stamp (all_ready c standing)
        ≡ option_map (found_rebased c s.run.standing.position s.run.standing.stamp) (waits c s.run) }
{}

/// Where it finds nothing, a worker takes the next entry, and then stands for this too.
pub fn a_worker_takes_the_next_entry()
    ensures { (c : Content) → IsLawful c → (receivers : List ℕ) (past : List Moment) (answers : List Answer) (standing : Standing) (m : Moment)
        → Stands c receivers past answers standing → first_offer c standing.stamp (all_ready c standing) ≡ None → MayFollow past m
        → Stands c receivers (past ++ m ∷ []) answers (takes c receivers m standing) }
{}

/// The answer to what a worker found is the next answer that it stands for.
pub fn a_worker_puts_in_the_next_answer()
    ensures { (c : Content) → IsLawful c → (receivers : List ℕ) (past : List Moment) (answers : List Answer) (standing : Standing) (found : Found) (answer : Answer)
        → Stands c receivers past answers standing → first_offer c standing.stamp (all_ready c standing) ≡ Some found
        → Stands c receivers past (answers ++ answer ∷ []) (puts (record standing { tracks = all_ready c standing }) found answer) }
{}

/// Two journals by example. At eight stamps in a row a queue is full, which suspends the subscription; then
/// the receiver is told so, that it goes on, and all that is selected. And of 257 new rows after a full queue
/// the record is set aside, marked as not all, with all that is selected after it.
#[tactic(auto, using(crate::proofs::Examples::counting_lawful))]
pub fn a_full_queue_by_example()
    ensures lawful { IsLawful counting }
    ensures suspended { offers_of full_queue (Took ∷ Full ∷ Full ∷ Full ∷ Full ∷ Full ∷ Full ∷ Full ∷ Full ∷ Took ∷ Took ∷ Took ∷ [])
        ≡ (Sync, 1, 1, Took) ∷ (Changes, 1, 2, Full) ∷ (Changes, 1, 3, Full) ∷ (Changes, 1, 4, Full) ∷ (Changes, 1, 5, Full) ∷ (Changes, 1, 6, Full)
        ∷ (Changes, 1, 7, Full) ∷ (Changes, 1, 8, Full) ∷ (Changes, 1, 9, Full) ∷ (Suspended, 10, 10, Took) ∷ (Resumed, 10, 10, Took) ∷ (Sync, 10, 10, Took) ∷ [] }
    ensures marked { offers_of many_rows (Took ∷ Full ∷ Took ∷ Took ∷ [])
        ≡ (Sync, 1, 1, Took) ∷ (Changes, 1, 2, Full) ∷ (Incomplete, 1, 3, Took) ∷ (Sync, 3, 3, Took) ∷ [] }
{}
