//! Laws of crews that went on by threads; nothing runs.
ghost use Rattle.std.specs.Prelude.{◌≡◌, ℕ, ◌++◌, List};
ghost use Rattle.std.specs.List.{AllByRecursion};
ghost use Rattle.yp_schema.specs.declared.schema.SchemaNode.{SchemaNode};
ghost use Rattle.yp_journal.specs.declared.entry.Entry.{Entry};
ghost use Rattle.yp_journal.specs.declared.receiver.ReceiverInfo.{ReceiverInfo};
ghost use Rattle.yp_journal.specs.History.{IsLegal, JournalState, first_state, state_of};
ghost use Rattle.yp_attempt.specs.Runs.{Run};
ghost use Rattle.yp_crews.specs.declared.crew.Crew.{Crew};
ghost use Rattle.yp_crews.specs.Crews.{AreCrews, AreReady};
ghost use Rattle.yp_published.specs.Histories.{Begins, Known};
ghost use Rattle.yp_published.specs.Reads.{Reading};
ghost use Rattle.yp_handover.specs.declared.closing.Followed.{Followed};
ghost use Rattle.yp_handover.specs.declared.group.Group.{Group};
ghost use Rattle.yp_handover.specs.Handover.{AreBack, AreCrewsBeside, AreHandedBack, AreJobsOf, Follower, GoesOnByThreads, IsMadeOf, IsOfOneQueue, IsReadyToFollow, Pairs, Triples};

/// The jobs of crews that are ready may follow: each worker has nothing to offer, and has got nothing yet.
pub fn jobs_of_crews_may_follow()
    ensures { (nodes : List SchemaNode) (state : JournalState) (receivers : List ReceiverInfo) (workers : ℕ) (crews : List Crew) (followers : List Follower) (groups : List Group)
        → AreReady nodes state crews → Triples (AreJobsOf receivers workers) crews followers groups → AllByRecursion (IsReadyToFollow nodes state) followers }
{}

/// Workers that followed the journal to its end have got all of its entries.
pub fn workers_that_are_back_got_all()
    ensures { (nodes : List SchemaNode) (opening : JournalState) (receivers : List ReceiverInfo) (workers : ℕ) (known : Known) (crews : List Crew) (readers : List Reading) (followed : List Followed) (groups : List Group)
        → AreBack nodes opening receivers workers crews readers followed groups → AllByRecursion (λ reader. Begins reader.got known) readers → AreHandedBack nodes opening receivers workers known.entries crews followed groups }
{}

/// What workers and their receivers hand back: each receiver's job took from the queue of its outbox.
pub fn each_receiver_took_from_its_queue()
    ensures { (nodes : List SchemaNode) (opening : JournalState) (receivers : List ReceiverInfo) (workers : ℕ) (fresh : List Entry) (crews : List Crew) (followed : List Followed) (groups : List Group)
        → AreHandedBack nodes opening receivers workers fresh crews followed groups → Pairs (λ one group. Pairs IsOfOneQueue one.outboxes.items group.takers.items) followed groups }
{}

/// A crew that is made of what a worker and its receivers hand back has served its receivers over the entries of the threads,
/// too, where the worker got all of these.
pub fn a_crew_goes_on_by_threads()
    ensures { (nodes : List SchemaNode) (opening : JournalState) (receivers : List ReceiverInfo) (workers : ℕ) (fresh : List Entry) (crews afters : List Crew) (followed : List Followed) (groups : List Group)
        → AreHandedBack nodes opening receivers workers fresh crews followed groups → Triples (IsMadeOf nodes) followed groups afters → Pairs (GoesOnByThreads nodes opening receivers fresh) crews afters }
{}

/// So crews go on together.
pub fn crews_go_on_by_threads()
    ensures { (nodes : List SchemaNode) (opening : JournalState) (start : ℕ) (receivers : List ReceiverInfo) (workers worker : ℕ) (before fresh : List Entry) (runs : List Run) (crews afters : List Crew)
        → IsLegal nodes (first_state receivers) before → opening ≡ state_of nodes (first_state receivers) before → AreCrews nodes start receivers workers worker before runs crews
        → Pairs (GoesOnByThreads nodes opening receivers fresh) crews afters → AreCrewsBeside nodes start receivers workers worker (before ++ fresh) runs afters }
{}
