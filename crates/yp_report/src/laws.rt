//! Laws of what is told of a run; nothing runs.
ghost use Rattle.std.specs.Prelude.{◌≡◌, ℕ, List, map};
ghost use Rattle.std.specs.List.{flat_map};
ghost use Rattle.yp_schema.specs.declared.schema.SchemaNode.{SchemaNode};
ghost use Rattle.yp_journal.specs.declared.entry.Entry.{Entry};
ghost use Rattle.yp_attempt.specs.Tracks.{Attempt};
ghost use Rattle.yp_promise.specs.Shown.{shown_of};
ghost use Rattle.yp_offer_log.specs.Logs.{log_text, logged};
ghost use Rattle.yp_report.specs.Replies.{replied_lines, replied_of};
ghost use Rattle.yp_report.specs.Report.{reply_lines, shown_text};

/// The lines of the log of attempts, of which so many packets were taken, are those of what is shown of the attempts.
pub fn the_lines_of_a_log_are_those_of_what_is_shown()
    ensures { (nodes : List SchemaNode) (start : ℕ) (name : List ℕ) (attempts : List Attempt) (taken : ℕ)
        → flat_map (shown_text nodes start name) (shown_of taken attempts) ≡ log_text name taken (map (logged nodes start) attempts) }
{}

/// The lines of the replies of entries, as a run keeps them, are those of the entries.
pub fn the_lines_of_replies_are_those_of_entries()
    ensures { (n : ℕ) (entries : List Entry) → replied_lines n (map replied_of entries) ≡ reply_lines n entries }
{}
