//! Laws of what stands in queues throughout serial runs; nothing runs.
ghost use Rattle.std.specs.Prelude.{List};
ghost use Rattle.yp_schema.specs.declared.schema.SchemaNode.{SchemaNode};
ghost use Rattle.yp_journal.specs.declared.entry.Entry.{Entry};
ghost use Rattle.yp_journal.specs.declared.receiver.ReceiverInfo.{ReceiverInfo};
ghost use Rattle.yp_attempt.specs.Runs.{Found};
ghost use Rattle.yp_moment.specs.Windows.{recorded};
ghost use Rattle.yp_serial.specs.Serial.{Served, served_settled};
ghost use Rattle.yp_promise.specs.Posts.{HavePosts};
ghost use Rattle.yp_promise.specs.Serving.{queueing_of, run_entered, run_of};

/// What a receiver's queue accepted, the receiver took, or it stands in the queue: of the serial run of a
/// journal, once it took an entry more, and after each answer to an offer. No more stand there than may, and
/// none where the receiver takes each packet at once.
pub fn queues_hold_what_was_not_taken()
    ensures run { (nodes : List SchemaNode) (receivers : List ReceiverInfo) (entries : List Entry) → HavePosts receivers (run_of nodes receivers entries) }
    ensures enters { (nodes : List SchemaNode) (receivers : List ReceiverInfo) (entries : List Entry) (entry : Entry) → HavePosts receivers (run_entered nodes receivers entries entry) }
    ensures settles { (receivers : List ReceiverInfo) (served : Served) (found : Found)
        → HavePosts receivers served → HavePosts receivers (served_settled recorded (queueing_of receivers) found served) }
{}
