//! Laws of what receivers are told; nothing runs.
ghost use Rattle.std.specs.Prelude.{◌≡◌, ℕ, ◌≤◌, ◌++◌, Bool, true, false, List, [], ◌∷◌, length, Some, None, is_some};
ghost use Rattle.std.specs.List.{AllByRecursion};
ghost use Rattle.yp_base.specs.declared.notice.Trigger.{Trigger};
ghost use Rattle.yp_feed.specs.declared.item.Item.TheVariants.{Suspended};
ghost use Rattle.yp_attempt.specs.Content.{Content, IsLawful};
ghost use Rattle.yp_attempt.specs.Tracks.{Answer, Took, Full, Attempt, All, Notice, is_taken};
ghost use Rattle.yp_attempt.specs.Moments.{Moment, AllMayFollow, new_track};
ghost use Rattle.yp_attempt.specs.Runs.{Run, Reaches, first_run};
ghost use Rattle.yp_attempt.specs.Attempts.{replay, attempts};
ghost use Rattle.yp_attempt.specs.Examples.{counting, full_queue, many_rows, some_rows};
ghost use Rattle.yp_mirror.specs.Heard.{told_by, of_sub, is_full_update, is_incomplete_update, IsTakenUpdate};
ghost use Rattle.yp_mirror.specs.Stories.{Story, Steady, Leads, IsStory, story_of};
ghost use Rattle.yp_mirror.specs.Following.{IsMadeOf, IsLessThan};
ghost use Rattle.yp_mirror.specs.Keeping.{HasUpdateAtBase, IsSteadySinceBase, KeepsFromUpdate};
ghost use Rattle.yp_mirror.specs.Links.{RunIsLinked, IsRunOf, IsAttemptOf};
ghost use Rattle.yp_mirror.specs.Living.{IsOfLiving};
ghost use Rattle.yp_mirror.specs.FullQueues.{SuspendsAtEighth, FreezesAfterFull, HasFull, HasEightFull};

use yp_attempt::laws::{the_first_offer_is_found, what_replaying_gives_is_reached};

/// What a journal tells of a receiver's subscriptions is their story, if each entry may come after those
/// before it: so what is said of stories is said of each such journal.
pub fn a_journal_tells_its_story()
    ensures { (journal : List Moment) (receiver : ℕ) → AllMayFollow [] journal → IsStory (story_of journal receiver) receiver journal }
{}

/// What a journal makes for a receiver, with whatever answers of its queue, is a run of the receiver over the
/// story of the journal. The laws below are said of such runs.
pub fn what_a_journal_makes_is_a_run_of_its_story()
    ensures { (c : Content) → IsLawful c → (journal : List Moment) (receiver : ℕ) (answers : List Answer) → Leads c (story_of journal receiver) → AllMayFollow [] journal
        → IsRunOf c (story_of journal receiver) receiver (replay c (receiver ∷ []) first_run journal answers).run }
{
    a_journal_tells_its_story();
    what_replaying_gives_is_reached();
}

/// What ties the tracks of a receiver to its attempts, and these to what the journal tells, is kept by every
/// run of the receiver: the laws below rest on it.
pub fn every_run_of_a_receiver_is_linked()
    ensures { (c : Content) → IsLawful c → (story : Story) → Leads c story → (receiver : ℕ) (journal : List Moment) → IsStory story receiver journal
        → (past : List Moment) (answers : List Answer) (run : Run) → Reaches c (receiver ∷ []) past answers run
        → (rest : List Moment) → past ++ rest ≡ journal → RunIsLinked c story receiver past run }
{
    the_first_offer_is_found();
}

/// Each attempt for a receiver is of a subscription that has this receiver where it is offered: one that was
/// started for it, and not dropped since. And each update is of one that hasn't ended there.
pub fn every_attempt_is_of_a_subscription_that_lives()
    ensures { (c : Content) (receiver : ℕ) (past : List Moment) (answers : List Answer) (run : Run) → Reaches c (receiver ∷ []) past answers run
        → AllByRecursion (IsOfLiving receiver past) run.done }
{
    the_first_offer_is_found();
}

/// After each update that it takes, a receiver's copy of a mirrored subscription is what is selected at the
/// journal position where the update was made.
pub fn a_receivers_copy_is_fresh_after_each_update()
    ensures { (c : Content) (story : Story) (receiver : ℕ) (run : Run) → IsRunOf c story receiver run
        → (sub : ℕ) (before : List Attempt) (a : Attempt) → IsAttemptOf run sub before a → IsTakenUpdate a → story.mirrored sub ≡ true
        → (told_by c (before ++ a ∷ [])).rows ≡ story.want sub a.made.position }
{
    every_run_of_a_receiver_is_linked();
}

/// The first update of a mirrored subscription that its receiver takes is a full one.
pub fn a_copy_begins_with_a_full_update()
    ensures { (c : Content) (story : Story) (receiver : ℕ) (run : Run) → IsRunOf c story receiver run
        → (sub : ℕ) (before : List Attempt) (a : Attempt) → IsAttemptOf run sub before a → IsTakenUpdate a → story.mirrored sub ≡ true
        → (told_by c before).last ≡ None → is_full_update a.made.body ≡ true }
{
    every_run_of_a_receiver_is_linked();
}

/// The positions of a subscription's updates never fall, and none is past the position where it is offered.
pub fn positions_never_fall()
    ensures updates { (c : Content) (story : Story) (receiver : ℕ) (run : Run) → IsRunOf c story receiver run
        → (sub : ℕ) (before : List Attempt) (a : Attempt) (between : List Attempt) (b : Attempt) (later : List Attempt)
        → of_sub sub run.done ≡ before ++ a ∷ (between ++ b ∷ later) → IsTakenUpdate a → IsTakenUpdate b
        → a.made.position ≤ b.made.position }
    ensures offered { (c : Content) (story : Story) (receiver : ℕ) (run : Run) → IsRunOf c story receiver run
        → (sub : ℕ) (before : List Attempt) (a : Attempt) → IsAttemptOf run sub before a → IsTakenUpdate a → a.made.position ≤ a.at }
{
    every_run_of_a_receiver_is_linked();
}

/// Each attempt tells of what was selected: a full update is all that was selected at the position where it
/// was made, and edits are the record of what was selected at positions from the one from which they tell to
/// the one where they were made, which isn't past the one where they are offered.
pub fn every_attempt_tells_of_what_was_selected()
    ensures made { (c : Content) (story : Story) (receiver : ℕ) (run : Run) → IsRunOf c story receiver run
        → (sub : ℕ) (before : List Attempt) (a : Attempt) → IsAttemptOf run sub before a → IsMadeOf c story sub a.made }
    ensures from { (c : Content) (story : Story) (receiver : ℕ) (run : Run) → IsRunOf c story receiver run
        → (sub : ℕ) (before : List Attempt) (a : Attempt) → IsAttemptOf run sub before a → a.made.from ≤ a.made.position }
    ensures offered { (c : Content) (story : Story) (receiver : ℕ) (run : Run) → IsRunOf c story receiver run
        → (sub : ℕ) (before : List Attempt) (a : Attempt) → IsAttemptOf run sub before a → a.made.position ≤ a.at }
{
    every_run_of_a_receiver_is_linked();
}

/// From the position from which an attempt tells to the one where it is offered, neither what the
/// subscription asks for nor the rules of the receiver's user change.
pub fn nothing_else_changes_while_an_attempt_waits()
    ensures { (c : Content) (story : Story) (receiver : ℕ) (run : Run) → IsRunOf c story receiver run
        → (sub : ℕ) (before : List Attempt) (a : Attempt) → IsAttemptOf run sub before a → Steady story sub a.made.from a.at }
{
    every_run_of_a_receiver_is_linked();
}

/// Where a subscription resynchronises, and all that is selected is awaited, the next update that is taken
/// is just that: a full update of what is selected at the position where it is offered, and made there.
pub fn the_next_resynchronisation_carries_its_own_positions_selection()
    ensures carries { (c : Content) (story : Story) (receiver : ℕ) (run : Run) → IsRunOf c story receiver run
        → (sub : ℕ) (before : List Attempt) (a : Attempt) → IsAttemptOf run sub before a → IsTakenUpdate a
        → story.resyncing sub ≡ true → (told_by c before).awaits ≡ true → a.made.body ≡ All (story.want sub a.at) }
    ensures position { (c : Content) (story : Story) (receiver : ℕ) (run : Run) → IsRunOf c story receiver run
        → (sub : ℕ) (before : List Attempt) (a : Attempt) → IsAttemptOf run sub before a → IsTakenUpdate a
        → story.resyncing sub ≡ true → (told_by c before).awaits ≡ true → a.made.position ≡ a.at }
{
    every_run_of_a_receiver_is_linked();
}

/// All that is selected is awaited after an incomplete update that was taken, and after eight full answers
/// in a row, until it comes.
pub fn a_resynchronisation_is_awaited()
    ensures incomplete { (c : Content) (before : List Attempt) (a : Attempt) → is_taken a.answer ≡ true → is_incomplete_update a.made.body ≡ true
        → (told_by c (before ++ a ∷ [])).awaits ≡ true }
    ensures eight { (c : Content) (before : List Attempt) (fulls : List Attempt) → length fulls ≡ 8 → AllByRecursion (λ a. is_taken a.answer ≡ false) fulls
        → (told_by c (before ++ fulls)).awaits ≡ true }
    ensures until { (c : Content) (before : List Attempt) (a : Attempt) → is_full_update a.made.body ≡ false → (told_by c before).awaits ≡ true
        → (told_by c (before ++ a ∷ [])).awaits ≡ true }
{}

/// A feed begins without being suspended. It is suspended exactly by the eighth full answer in a row, and
/// nothing else suspends it. And a suspension is told only after eight full answers in a row, since which it
/// wasn't told that the subscription goes on.
pub fn only_full_queues_suspend()
    ensures begins { (m : Moment) (n sub : ℕ) (trigger : Trigger) (configured : Bool) (receiver : ℕ) → (new_track m n sub trigger configured receiver).feed.suspended ≡ false }
    ensures steps { (c : Content) (story : Story) (receiver : ℕ) (run : Run) → IsRunOf c story receiver run
        → AllByRecursion (λ track. SuspendsAtEighth c run.standing.position run.standing.stamp track (told_by c (of_sub track.feed.sub run.done))) run.standing.tracks }
    ensures told { (c : Content) (story : Story) (receiver : ℕ) (run : Run) → IsRunOf c story receiver run
        → (sub : ℕ) (before : List Attempt) (a : Attempt) → IsAttemptOf run sub before a → a.made.body ≡ Notice Suspended → HasEightFull before }
{
    every_run_of_a_receiver_is_linked();
}

/// A feed begins with nothing set aside. A record is set aside exactly where the rule for it holds, and that
/// is after a full answer. And an incomplete update is offered only after a full answer, since which no
/// update was taken.
pub fn incomplete_updates_follow_full_queues()
    ensures begins { (m : Moment) (n sub : ℕ) (trigger : Trigger) (configured : Bool) (receiver : ℕ) → (new_track m n sub trigger configured receiver).feed.owed.incomplete ≡ false }
    ensures steps { (c : Content) (story : Story) (receiver : ℕ) (run : Run) → IsRunOf c story receiver run
        → AllByRecursion (λ track. FreezesAfterFull c run.standing.position run.standing.stamp track (told_by c (of_sub track.feed.sub run.done))) run.standing.tracks }
    ensures told { (c : Content) (story : Story) (receiver : ℕ) (run : Run) → IsRunOf c story receiver run
        → (sub : ℕ) (before : List Attempt) (a : Attempt) → IsAttemptOf run sub before a → is_incomplete_update a.made.body ≡ true → HasFull before }
{
    every_run_of_a_receiver_is_linked();
}

/// What a feed owes tells what it keeps, wherever a run stands. A record is set aside exactly where it is owed.
/// Where neither all that is selected nor the end is owed, nothing changed past the base what the subscription
/// asks for or the rules of its user, and the base of a mirrored one on change is where its last update was
/// made that was taken. And there the record begins that is set aside of a mirrored one.
pub fn what_a_feed_owes_tells_what_it_keeps()
    ensures kept { (c : Content) (story : Story) (receiver : ℕ) (run : Run) → IsRunOf c story receiver run
        → AllByRecursion (λ track. is_some track.frozen ≡ track.feed.owed.incomplete) run.standing.tracks }
    ensures steady { (c : Content) (story : Story) (receiver : ℕ) (run : Run) → IsRunOf c story receiver run
        → AllByRecursion (IsSteadySinceBase story run.standing.position) run.standing.tracks }
    ensures base { (c : Content) (story : Story) (receiver : ℕ) (run : Run) → IsRunOf c story receiver run
        → AllByRecursion (HasUpdateAtBase c story run.done) run.standing.tracks }
    ensures begins { (c : Content) (story : Story) (receiver : ℕ) (run : Run) → IsRunOf c story receiver run
        → AllByRecursion (KeepsFromUpdate c story run.done) run.standing.tracks }
{
    every_run_of_a_receiver_is_linked();
}

/// A queue is met full at rising stamps: so eight full answers in a row are at eight stamps.
pub fn full_answers_come_at_rising_stamps()
    ensures { (c : Content) (story : Story) (receiver : ℕ) (run : Run) → IsRunOf c story receiver run
        → (sub : ℕ) (before : List Attempt) (a : Attempt) → IsAttemptOf run sub before a → is_taken a.answer ≡ false → IsLessThan (told_by c before).last_full a.stamp }
{
    every_run_of_a_receiver_is_linked();
}

/// What a receiver knows by the attempts of two short journals. After eight full answers in a row its copy has
/// still no row, and all that is selected is awaited; once the subscription has gone on, the copy has the one
/// row. And after the incomplete update of 257 new rows all that is selected is awaited, until it comes. The
/// records of the content that they use lead, whatever the story.
#[tactic(auto, using(crate::proofs::Examples::counting_leads))]
pub fn what_a_receiver_knows_by_example()
    ensures leads { (story : Story) → Leads counting story }
    ensures waits { told_by counting (attempts counting (0 ∷ []) full_queue (Took ∷ Full ∷ Full ∷ Full ∷ Full ∷ Full ∷ Full ∷ Full ∷ Full ∷ []))
        ≡ record { rows = []; last = Some 1; fulls = 8; last_full = Some 7; met_full = true; met_eight = true; awaits = true } }
    ensures goes_on { told_by counting (attempts counting (0 ∷ []) full_queue (Took ∷ Full ∷ Full ∷ Full ∷ Full ∷ Full ∷ Full ∷ Full ∷ Full ∷ Took ∷ Took ∷ Took ∷ []))
        ≡ record { rows = some_rows 1; last = Some 10; fulls = 0; last_full = Some 7; met_full = false; met_eight = false; awaits = false } }
    ensures incomplete { told_by counting (attempts counting (0 ∷ []) many_rows (Took ∷ Full ∷ Took ∷ []))
        ≡ record { rows = some_rows 257; last = Some 3; fulls = 0; last_full = Some 0; met_full = false; met_eight = false; awaits = true } }
    ensures whole { told_by counting (attempts counting (0 ∷ []) many_rows (Took ∷ Full ∷ Took ∷ Took ∷ []))
        ≡ record { rows = some_rows 257; last = Some 3; fulls = 0; last_full = Some 0; met_full = false; met_eight = false; awaits = false } }
{}
