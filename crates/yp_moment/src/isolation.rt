//! Laws of what a user may not read; nothing runs.
ghost use Rattle.std.specs.Prelude.{◌≡◌, ℕ, List, [], ◌∷◌};
ghost use Rattle.yp_schema.specs.declared.schema.SchemaNode.{SchemaNode};
ghost use Rattle.yp_journal.specs.declared.entry.Entry.{Entry};
ghost use Rattle.yp_journal.specs.declared.receiver.ReceiverInfo.{ReceiverInfo};
ghost use Rattle.yp_journal.specs.History.{first_state, user_of, IsLegal};
ghost use Rattle.yp_attempt.specs.Alike.{AreAlike};
ghost use Rattle.yp_attempt.specs.Attempts.{attempts, stream};
ghost use Rattle.yp_attempt.specs.Tracks.{Answer};
ghost use Rattle.yp_moment.specs.Entries.{moments_of};
ghost use Rattle.yp_moment.specs.Visible.{AreVisiblyAlike};
ghost use Rattle.yp_moment.specs.Windows.{recorded};

use yp_attempt::laws::what_a_receiver_is_not_shown_has_no_effect;
use yp_journal::laws::a_journal_goes_on_entry_by_entry;

/// What a user may not read has no effect on what receivers of this user are offered. Take two legal journals
/// of one length that have, entry by entry, two patches or the same command that is no patch, with one stamp,
/// and let the user see the same rows at each position. Then to the feeds of every receiver of the user their
/// entries are the same (`alike`); so with equal answers of its queue, its attempts are equal, one by one
/// (`made`), and so is what it is sent (`sent`).
pub fn what_a_user_may_not_read_has_no_effect()
    ensures alike { (nodes : List SchemaNode) (receivers : List ReceiverInfo) (user : List ℕ) (ones twos : List Entry) → IsLegal nodes (first_state receivers) ones → IsLegal nodes (first_state receivers) twos
        → AreVisiblyAlike nodes receivers user ones twos → (receiver : ℕ) → user_of receiver receivers ≡ user
        → AreAlike receiver (moments_of nodes receivers ones) (moments_of nodes receivers twos) }
    ensures made { (nodes : List SchemaNode) (receivers : List ReceiverInfo) (user : List ℕ) (ones twos : List Entry) → IsLegal nodes (first_state receivers) ones → IsLegal nodes (first_state receivers) twos
        → AreVisiblyAlike nodes receivers user ones twos → (receiver : ℕ) → user_of receiver receivers ≡ user
        → (answers : List Answer) → attempts recorded (receiver ∷ []) (moments_of nodes receivers ones) answers ≡ attempts recorded (receiver ∷ []) (moments_of nodes receivers twos) answers }
    ensures sent { (nodes : List SchemaNode) (receivers : List ReceiverInfo) (user : List ℕ) (ones twos : List Entry) → IsLegal nodes (first_state receivers) ones → IsLegal nodes (first_state receivers) twos
        → AreVisiblyAlike nodes receivers user ones twos → (receiver : ℕ) → user_of receiver receivers ≡ user
        → (answers : List Answer) → stream recorded receiver (moments_of nodes receivers ones) answers ≡ stream recorded receiver (moments_of nodes receivers twos) answers }
{
    a_journal_goes_on_entry_by_entry();
    what_a_receiver_is_not_shown_has_no_effect();
}
