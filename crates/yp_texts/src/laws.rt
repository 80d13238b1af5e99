//! Laws of rows and commands whose texts are UTF-8; nothing runs.
ghost use Rattle.std.specs.Prelude.{◌≡◌, ℕ, true, List, IfOk, Ok};
ghost use Rattle.std.specs.List.{AllByRecursion};
ghost use Rattle.serde_json.specs.Data.{Data};
ghost use Rattle.yp_base.specs.declared.path.Seg.{Seg};
ghost use Rattle.yp_base.specs.declared.row.Row.{Row};
ghost use Rattle.yp_schema.specs.declared.schema.SchemaNode.{SchemaNode};
ghost use Rattle.yp_schema.specs.WellFormed.{IsSchema};
ghost use Rattle.yp_path.specs.Targets.{has_texts, target_in};
ghost use Rattle.yp_data_json.specs.AtPath.{rows_read};
ghost use Rattle.yp_patch.specs.declared.patch.Patch.{Patch};
ghost use Rattle.yp_edit.specs.Patches.{applied};
ghost use Rattle.yp_journal.specs.declared.entry.Entry.{Entry};
ghost use Rattle.yp_journal.specs.History.{JournalState, state_of};
ghost use Rattle.yp_receiver.specs.Readable.{HaveTexts};
ghost use Rattle.yp_script.specs.declared.script.Script.{Script};
ghost use Rattle.yp_script.specs.Script.{script_in};
ghost use Rattle.yp_utf8.specs.Utf8.{HasUtf8};
ghost use Rattle.yp_texts.specs.Commands.{CommandHasUtf8, EditHasUtf8, ScriptHasUtf8};

/// The keys of a target that is read have texts that are UTF-8, whatever the text (RFC 8040 section 3.5.3).
#[tactic(auto, using(crate::proofs::Patching::target_texts))]
pub fn a_read_target_has_texts()
    ensures { (nodes : List SchemaNode) (text : List ℕ) → IsSchema nodes → IfOk (target_in nodes text) (λ path. has_texts path ≡ true) }
{}

/// Rows that are read of JSON with UTF-8 strings have keys and values whose texts are UTF-8.
#[tactic(auto, using(crate::proofs::Reading::rows_texts))]
pub fn read_rows_have_texts()
    ensures { (nodes : List SchemaNode) (at : List Seg) (d : Data) → IsSchema nodes → has_texts at ≡ true → HasUtf8 d → IfOk (rows_read nodes at d) HaveTexts }
{}

/// A patch with UTF-8 texts leaves rows whose texts are UTF-8, where those before it are.
#[tactic(auto, using(crate::proofs::Patching::applied_texts))]
pub fn a_patch_keeps_texts()
    ensures { (nodes : List SchemaNode) (rows : List Row) (patch : Patch) → IsSchema nodes → AllByRecursion EditHasUtf8 patch.edits → HaveTexts rows
        → IfOk (applied nodes rows patch) HaveTexts }
{}

/// And so do the entries of a journal whose commands have UTF-8 texts.
#[tactic(auto, using(crate::proofs::Patching::state_texts))]
pub fn a_journal_keeps_texts()
    ensures { (nodes : List SchemaNode) (entries : List Entry) (state : JournalState) → IsSchema nodes → AllByRecursion (λ entry. CommandHasUtf8 entry.command) entries
        → HaveTexts state.rows → HaveTexts (state_of nodes state entries).rows }
{}

/// Each command of a script has UTF-8 texts: a line is read only where it is UTF-8.
pub fn a_scripts_commands_have_utf8()
    ensures { (bytes : List ℕ) (script : Script) → script_in bytes ≡ Ok script → ScriptHasUtf8 script }
{}
