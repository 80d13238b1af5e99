//! Facts about selections, for the crates above. Each call does nothing.
ghost use Rattle.std.specs.Prelude.{◌≡◌, ◌++◌, ◌&&◌, [], List, Bool, true, false, None, if◌then◌else◌};
ghost use Rattle.std.specs.List.{AllByRecursion};
ghost use Rattle.yp_base.specs.declared.path.Seg.{Seg};
ghost use Rattle.yp_base.specs.declared.row.Row.{Row};
ghost use Rattle.yp_base.specs.RowLaws.{picked};
ghost use Rattle.yp_base.specs.Rows.{AreInOrder, rows_within, value_at};
ghost use Rattle.yp_schema.specs.declared.schema.SchemaNode.{SchemaNode};
ghost use Rattle.yp_schema.specs.Datastore.{AreWritable, IsDatastore, IsRowOf};
ghost use Rattle.yp_filter.specs.Filters.{Asked, all_rows};
ghost use Rattle.yp_nacm.specs.Decision.{IsClosed, visible_rows};
ghost use Rattle.yp_kept.specs.Concealed.{AllReadable};
ghost use Rattle.yp_select.specs.Places.{DifferAt, is_moved};
ghost use Rattle.yp_kept.specs.Selection.{kept, selection};

/// The selection of a datastore is a datastore, where what stands above what may be read may be read too.
pub fn selection_is_a_datastore()
    ensures { (nodes : List SchemaNode) (readable : List Seg → Bool) (rows : List Row) → IsClosed readable
        → IsDatastore nodes rows → IsDatastore nodes (visible_rows readable rows) }
{}

/// Each row that is selected may be read, and has the value that it has in the datastore.
#[tactic(auto, using(yp_kept::specs::SelectionLaws::selected_readable, yp_kept::specs::SelectionLaws::value_selected))]
pub fn selected_rows_may_be_read()
    ensures each { (readable : List Seg → Bool) (rows : List Row) → AllReadable readable (visible_rows readable rows) }
    ensures value { (readable : List Seg → Bool) (path : List Seg) (rows : List Row)
        → value_at path (visible_rows readable rows) ≡ (if readable path then value_at path rows else None) }
{}

/// Rows of a schema in order stay so when they are selected, and what is selected at or below a path is the
/// selection of the rows there.
#[tactic(auto, using(yp_kept::specs::SelectionLaws::selection_in_order, yp_kept::specs::SelectionLaws::selection_of_schema, yp_kept::specs::SelectionLaws::selection_within))]
pub fn selection_keeps_rows()
    ensures order { (readable : List Seg → Bool) (rows : List Row) → AreInOrder rows
        → AreInOrder (visible_rows readable rows) }
    ensures schema { (nodes : List SchemaNode) (readable : List Seg → Bool) (rows : List Row)
        → AllByRecursion (IsRowOf nodes) rows → AllByRecursion (IsRowOf nodes) (visible_rows readable rows) }
    ensures within { (readable : List Seg → Bool) (path : List Seg) (rows : List Row)
        → visible_rows readable (rows_within path rows) ≡ rows_within path (visible_rows readable rows) }
{}

/// Rows of a schema in order can be written at the top, and so can a selection of them.
#[tactic(auto, using(yp_kept::specs::SelectionLaws::top_writable))]
pub fn selection_can_be_written()
    ensures rows { (nodes : List SchemaNode) (rows : List Row) → AreInOrder rows → AllByRecursion (IsRowOf nodes) rows
        → AreWritable nodes [] rows }
    ensures selection { (nodes : List SchemaNode) (readable : List Seg → Bool) (rows : List Row) → AreInOrder rows
        → AllByRecursion (IsRowOf nodes) rows → AreWritable nodes [] (visible_rows readable rows) }
{}

/// What a filter keeps, it keeps with each path above.
pub fn what_is_kept_is_kept_above()
    ensures { (nodes : List SchemaNode) (asked : Asked) (rows : List Row) (above rest : List Seg)
        → kept nodes asked rows (above ++ rest) ≡ true → kept nodes asked rows above ≡ true }
{}

/// What a filter selects of a datastore is a datastore, where what stands above what may be read may be read
/// too. Without a filter it is what may be read.
pub fn filtered_selection_is_a_datastore()
    ensures datastore { (nodes : List SchemaNode) (asked : Asked) (readable : List Seg → Bool) (rows : List Row)
        → IsClosed readable → IsDatastore nodes rows → IsDatastore nodes (selection nodes asked readable rows) }
    ensures all { (nodes : List SchemaNode) (readable : List Seg → Bool) (rows : List Row)
        → selection nodes all_rows readable rows ≡ visible_rows readable rows }
{}

/// Each row that a filter selects may be read, is kept, and has the value that it has in the datastore.
pub fn filtered_rows_may_be_read()
    ensures each { (nodes : List SchemaNode) (asked : Asked) (readable : List Seg → Bool) (rows : List Row)
        → AllReadable readable (selection nodes asked readable rows) }
    ensures value { (nodes : List SchemaNode) (asked : Asked) (readable : List Seg → Bool) (path : List Seg) (rows : List Row)
        → value_at path (selection nodes asked readable rows)
        ≡ (if readable path && kept nodes asked (visible_rows readable rows) path then value_at path rows else None) }
{}

/// Rows of a schema in order stay so when a filter selects some, and what is selected at or below a path is
/// what is kept of the rows there that may be read.
pub fn filtered_selection_keeps_rows()
    ensures order { (nodes : List SchemaNode) (asked : Asked) (readable : List Seg → Bool) (rows : List Row)
        → AreInOrder rows → AreInOrder (selection nodes asked readable rows) }
    ensures schema { (nodes : List SchemaNode) (asked : Asked) (readable : List Seg → Bool) (rows : List Row)
        → AllByRecursion (IsRowOf nodes) rows → AllByRecursion (IsRowOf nodes) (selection nodes asked readable rows) }
    ensures within { (nodes : List SchemaNode) (asked : Asked) (readable : List Seg → Bool) (path : List Seg) (rows : List Row)
        → picked (kept nodes asked (visible_rows readable rows)) (visible_rows readable (rows_within path rows))
        ≡ rows_within path (selection nodes asked readable rows) }
{}

/// What a filter selects of rows of a schema in order can be written at the top.
pub fn filtered_selection_can_be_written()
    ensures { (nodes : List SchemaNode) (asked : Asked) (readable : List Seg → Bool) (rows : List Row) → AreInOrder rows
        → AllByRecursion (IsRowOf nodes) rows → AreWritable nodes [] (selection nodes asked readable rows) }
{}

/// Between two datastores what a filter keeps, and what its selection has, can differ only at or below a
/// changed row, and at or below the path above a changed leaf or leaf-list entry on whose node the filter
/// matches.
pub fn selection_is_local()
    ensures kept { (nodes : List SchemaNode) (asked : Asked) (readable : List Seg → Bool) (before after : List Row)
        (changed : List (List Seg)) → DifferAt changed before after → (path : List Seg)
        → is_moved nodes asked changed path ≡ false
        → kept nodes asked (visible_rows readable before) path ≡ kept nodes asked (visible_rows readable after) path }
    ensures selected { (nodes : List SchemaNode) (asked : Asked) (readable : List Seg → Bool) (before after : List Row)
        (changed : List (List Seg)) → DifferAt changed before after → (path : List Seg)
        → is_moved nodes asked changed path ≡ false
        → value_at path (selection nodes asked readable before) ≡ value_at path (selection nodes asked readable after) }
{}
