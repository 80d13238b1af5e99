//! Laws of turns and of journals of scripts; nothing runs.
ghost use Rattle.std.specs.Prelude.{◌≡◌, List, length, map};
ghost use Rattle.std.specs.List.{AllByRecursion};
ghost use Rattle.yp_schema.specs.declared.schema.SchemaNode.{SchemaNode};
ghost use Rattle.yp_journal.specs.declared.entry.Entry.{Entry};
ghost use Rattle.yp_journal.specs.History.{IsLegal, JournalState};
ghost use Rattle.yp_script.specs.declared.script.Script.{Script};
ghost use Rattle.yp_script.specs.Script.{MayRun, count_commands};
ghost use Rattle.yp_turns.specs.Journal.{IsJournalOf, turn_of};
ghost use Rattle.yp_turns.specs.Turns.{MayTake, entries_from, journal_of, serial_turns};

/// Each turn of a script may come in a journal of its receivers, where each of its commands may.
pub fn each_turn_of_a_script_may_come()
    ensures { (script : Script) → MayRun script → AllByRecursion (MayTake script.schema script.receivers) (serial_turns script.before script.lanes script.after) }
{}

/// A script has as many turns as commands.
pub fn a_script_has_as_many_turns_as_commands()
    ensures { (script : Script) → length (serial_turns script.before script.lanes script.after) ≡ count_commands script }
{}

/// A legal journal is that of its turns.
pub fn a_legal_journal_is_that_of_its_turns()
    ensures { (nodes : List SchemaNode) (state : JournalState) (entries : List Entry) → IsLegal nodes state entries → entries ≡ entries_from nodes state (map turn_of entries) }
{}

/// The journal of a script's serial turns is a journal of the script.
pub fn the_serial_turns_make_a_journal_of_the_script()
    ensures { (script : Script) → IsJournalOf script (journal_of script) }
{}

/// Each journal of a script has as many entries as the script has commands.
pub fn a_journal_of_a_script_has_as_many_entries()
    ensures { (script : Script) (entries : List Entry) → IsJournalOf script entries → length entries ≡ count_commands script }
{}
