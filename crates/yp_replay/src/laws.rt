//! Laws of what a receiver holds after lines. Each call does nothing.
ghost use Rattle.std.specs.Prelude.{ℕ, List, [], map};
ghost use Rattle.std.specs.List.{AllByRecursion};
ghost use Rattle.std.specs.List.Sorted.{IsStrictlySortedBy};
ghost use Rattle.std.specs.Ordering.{nat_cmp};
ghost use Rattle.yp_schema.specs.declared.schema.SchemaNode.{SchemaNode};
ghost use Rattle.yp_schema.specs.Datastore.{AreWritable};
ghost use Rattle.yp_receiver.specs.Held.{lines_heard};

use yp_data_json::holding::what_is_read_is_whole;
use yp_value::text::read_text_fits;

/// What a receiver holds after whichever lines can be written at the top: rows of the schema, in order.
pub fn what_is_held_can_be_written()
    ensures { (nodes : List SchemaNode) (lines : List (List ℕ)) → AllByRecursion (λ held. AreWritable nodes [] held.1) (lines_heard nodes [] lines) }
{
    read_text_fits();
    what_is_read_is_whole();
}

/// The ids of what a receiver holds after whichever lines ascend.
pub fn ids_of_what_is_held_ascend()
    ensures { (nodes : List SchemaNode) (lines : List (List ℕ)) → IsStrictlySortedBy nat_cmp (map (λ held. held.0) (lines_heard nodes [] lines)) }
{}
