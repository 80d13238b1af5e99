//! Laws of lines: what a publisher writes is heard as what it told. Each call does nothing.
ghost use Rattle.std.specs.Prelude.{◌≡◌, ◌<◌, ◌≤◌, ◌^◌, ℕ, List, map, true, Some, Ok};
ghost use Rattle.std.specs.List.{AllByRecursion};
ghost use Rattle.serde_json.specs.Data.{Data, depth};
ghost use Rattle.serde_json.specs.Read.{max_depth};
ghost use Rattle.serde_json.specs.Written.{compact_text};
ghost use Rattle.yp_base.specs.declared.notice.Notice.{Notice};
ghost use Rattle.yp_base.specs.declared.path.Seg.{Seg};
ghost use Rattle.yp_base.specs.declared.row.Row.{Row};
ghost use Rattle.yp_schema.specs.declared.schema.SchemaNode.{SchemaNode};
ghost use Rattle.yp_schema.specs.WellFormed.{IsSchema};
ghost use Rattle.yp_schema.specs.Datastore.{AreWritable};
ghost use Rattle.yp_path.specs.Targets.{has_texts};
ghost use Rattle.yp_data_json.specs.Writing.{rows_json};
ghost use Rattle.yp_time.specs.Instants.{event_text, IsStart};
ghost use Rattle.yp_time.specs.Ticks.{tick_limit};
ghost use Rattle.yp_encode.specs.Lines.{notification_data, line_of};
ghost use Rattle.yp_value.specs.Json.{json_of};
ghost use Rattle.yp_decode.specs.Grammar.{heard_in, line_heard};
ghost use Rattle.yp_receiver.specs.Hearable.{subscription_of, tells_state, IsHearable, HasReadableText, IsTold};
ghost use Rattle.yp_receiver.specs.Held.{lines_heard, notices_heard};
ghost use Rattle.yp_receiver.specs.Readable.{HaveTexts, IsReadable};

use yp_data_json::writing::written_is_read;
use yp_path::laws::written_target_is_read;
use yp_time::writing::what_is_written_is_an_event_time;

/// The text of readable JSON without white space is read as this JSON (RFC 8259).
pub fn a_written_text_is_read()
    ensures { (json : Data) → IsReadable json → depth json ≤ max_depth → json_of (compact_text json) ≡ Some json }
{}

/// What is written of rows is readable, where their keys and values have texts that are UTF-8.
pub fn the_json_of_rows_is_readable()
    ensures { (nodes : List SchemaNode) (at : List Seg) (rows : List Row) → IsSchema nodes → AreWritable nodes at rows → has_texts at ≡ true → HaveTexts rows
        → IsReadable (rows_json nodes at rows) }
{}

/// The JSON of a notice is heard as this notice, with the event time of its tick.
pub fn the_json_of_a_notice_is_heard()
    ensures { (nodes : List SchemaNode) (start tick : ℕ) (notice : Notice) → IsSchema nodes → IsStart start → tick ≤ tick_limit → IsHearable nodes notice
        → heard_in nodes (notification_data nodes start tick notice) ≡ Ok (record { time = event_text start tick; notice = notice }) }
{
    what_is_written_is_an_event_time();
    written_target_is_read();
    written_is_read();
}

/// What was written as the line of a notice is heard as this notice, with the event time of its tick.
pub fn a_written_line_is_heard()
    ensures { (nodes : List SchemaNode) (start tick : ℕ) (notice : Notice) → IsSchema nodes → IsStart start → tick ≤ tick_limit → IsHearable nodes notice → HasReadableText nodes notice
        → line_heard nodes (line_of nodes start tick notice) ≡ Ok (record { time = event_text start tick; notice = notice }) }
{
    what_is_written_is_an_event_time();
    written_target_is_read();
    written_is_read();
}

/// A change of state that is told in a line can be heard again, whatever the schema, if its id has 32
/// bits.
pub fn a_change_of_state_can_be_heard()
    ensures { (nodes : List SchemaNode) (tick : ℕ) (notice : Notice) → tick ≤ tick_limit → tells_state notice ≡ true → subscription_of notice < 2 ^ 32
        → IsTold nodes (tick, notice) }
{}

/// To hear the lines of notices is to hear the notices: from any rows held, both leave the same rows.
pub fn lines_tell_their_notices()
    ensures { (nodes : List SchemaNode) (start : ℕ) (all : List (ℕ × Notice)) (held : List (ℕ × List Row)) → IsSchema nodes → IsStart start → AllByRecursion (IsTold nodes) all
        → lines_heard nodes held (map (λ each. line_of nodes start each.0 each.1) all) ≡ notices_heard held (map (λ each. each.1) all) }
{
    what_is_written_is_an_event_time();
    written_target_is_read();
    written_is_read();
}
