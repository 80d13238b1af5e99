//! What read data says, whatever the order in which it is read (RFC 7951 sections 4 to 6).
ghost use Rattle.std.specs.Prelude.{◌≡◌, ◌↔◌, Ok, List, Contains, true};
ghost use Rattle.serde_json.specs.Data.{Data};
ghost use Rattle.serde_json.specs.View.{view, items_view, members_view};
ghost use Rattle.yp_base.specs.Rows.{AreInOrder};
ghost use Rattle.yp_base.specs.declared.path.Seg.{Seg};
ghost use Rattle.yp_base.specs.declared.row.Row.{Row};
ghost use Rattle.yp_schema.specs.Datastore.{is_place};
ghost use Rattle.yp_schema.specs.WellFormed.{IsSchema};
ghost use Rattle.yp_schema.specs.declared.schema.SchemaNode.{SchemaNode};
ghost use Rattle.yp_data_json.specs.AtPath.{rows_read};
ghost use Rattle.yp_data_json.specs.Holding.{HasNamesOnce, ItemsHaveNamesOnce, MembersHaveNamesOnce, IsDataAt, HoldsAt};
ghost use Rattle.yp_data_json.specs.ReadLaws.{ReadsWhole};

use serde_json::{Map, Value as Json};

/// What is read at a place is data of the schema there, and the rows are those that it holds, in
/// order; and all such data is read: data where each member names a child, each value is of its type,
/// each entry has its keys, and no two entries of a list and no two values of a leaf-list are equal.
/// It is said of data without two members of one name in one object, as a JSON value is.
#[tactic(auto, using(crate::proofs::HoldingLaws::accepted_is_data, crate::proofs::HoldingLaws::accepted_in_order, crate::proofs::HoldingLaws::accepted_rows, crate::proofs::HoldingLaws::is_accepted, crate::proofs::HoldingLaws::is_read))]
pub fn accepted_data_holds_its_rows()
    ensures accepted { (nodes : List SchemaNode) (at : List Seg) (d : Data) (rows : List Row) → IsSchema nodes → is_place nodes at ≡ true → HasNamesOnce d
        → rows_read nodes at d ≡ Ok rows → IsDataAt nodes at d }
    ensures in_order { (nodes : List SchemaNode) (at : List Seg) (d : Data) (rows : List Row) → is_place nodes at ≡ true
        → rows_read nodes at d ≡ Ok rows → AreInOrder rows }
    ensures rows { (nodes : List SchemaNode) (at : List Seg) (d : Data) (rows : List Row) → IsSchema nodes → is_place nodes at ≡ true → HasNamesOnce d
        → rows_read nodes at d ≡ Ok rows → (row : Row) → Contains rows row ↔ HoldsAt nodes at d row }
    ensures read { (nodes : List SchemaNode) (at : List Seg) (d : Data) (rows : List Row) → IsSchema nodes → is_place nodes at ≡ true → HasNamesOnce d
        → IsDataAt nodes at d → AreInOrder rows → ((row : Row) → Contains rows row ↔ HoldsAt nodes at d row)
        → rows_read nodes at d ≡ Ok rows }
    ensures is_read { (nodes : List SchemaNode) (at : List Seg) (d : Data) → IsSchema nodes → is_place nodes at ≡ true → HasNamesOnce d
        → IsDataAt nodes at d → (rows : List Row) × (rows_read nodes at d ≡ Ok rows) }
{}

/// What is read at a place is all that stands there: rows of the schema in order, at or below the place,
/// with the place's own row where a leaf or an entry stands there, and with the row of each entry that
/// another row is below.
pub fn what_is_read_is_whole()
    ensures { ReadsWhole }
{}

/// No object of a JSON value has two members of one name, so the law speaks of each such value.
#[cycle(names)]
pub fn names_stand_once(json: &Json)
    ensures { HasNamesOnce (view json.now) }
{
    match json {
        Json::Array(items) => item_names_stand_once(items),
        Json::Object(members) => member_names_stand_once(members),
        _ => {}
    }
}

#[cycle(names)]
fn item_names_stand_once(items: &Vec<Json>)
    ensures { ItemsHaveNamesOnce (items_view items.now.items) }
{
    for item in items {
        names_stand_once(item);
    }
}

#[cycle(names)]
fn member_names_stand_once(members: &Map<String, Json>)
    ensures { MembersHaveNamesOnce (members_view members.now.entries) }
{
    for (_, value) in members.iter() {
        names_stand_once(value);
    }
}
