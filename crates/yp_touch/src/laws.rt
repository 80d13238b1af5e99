//! Facts about records, for the crates above. Each call does nothing.
ghost use Rattle.yp_touch.specs.Windows.{DatastoresAreWhole, EmptyWindowsTouchNothing, OneMoreStep, RecordIsOfTheWindow, RootsAreOfTheWindow, RootsEndAsRows, RowsAreWhole, StepsWithoutRootsLeave, WindowsCanBeSent, WindowsConceal, WindowsEndAsRows, WindowsLead, WindowsStandTopmost};
ghost use Rattle.yp_touch.specs.RecordLaws.{DatastoresCanBeSent, DatastoresLead, EmptyRecordKeeps, RowsConceal, SameRowsHaveNoRecord, SelectionsCanBeSent, SelectionsConceal, SelectionsLead};

/// The record of two datastores leads from the one to the other. So does the record of their selections,
/// and these are one where it is empty.
pub fn the_record_leads()
    ensures datastores { DatastoresLead }
    ensures leads { SelectionsLead }
    ensures none { EmptyRecordKeeps }
{}

/// The record of rows and themselves is empty.
pub fn the_record_of_one_selection_is_empty()
    ensures { SameRowsHaveNoRecord }
{}

/// Each edit of the record of rows that may be read names only what may be read.
pub fn the_record_conceals()
    ensures rows { RowsConceal }
    ensures selections { SelectionsConceal }
{}

/// Each edit of the record of two datastores, or of their selections, can be sent.
pub fn the_record_can_be_sent()
    ensures datastores { DatastoresCanBeSent }
    ensures selections { SelectionsCanBeSent }
{}

/// Roots that go from one selection of a window to the next are the topmost of all the places that a step
/// touched, as they were in its first selection, and their record is the record of the window. One more
/// selection at the end is one more step.
pub fn absorbed_roots_are_those_of_the_window()
    ensures roots { RootsAreOfTheWindow }
    ensures recorded { RecordIsOfTheWindow }
    ensures last { OneMoreStep }
{}

/// A step that touches nothing from nothing leaves roots that stand topmost, and the roots of a window do.
pub fn a_step_without_roots_leaves_the_roots()
    ensures leaves { StepsWithoutRootsLeave }
    ensures topmost { WindowsStandTopmost }
{}

/// A receiver that takes the record of a window over its first selection has its last one, and the record
/// has no edit only where nothing was touched, unless kinds of edits are excluded.
pub fn a_record_leads_from_the_first_to_the_last()
    ensures leads { WindowsLead }
    ensures empty { EmptyWindowsTouchNothing }
{}

/// Each root ends as a row of the schema does: after a step of datastores where the roots before it do, and
/// after a window of them.
pub fn roots_end_as_rows()
    ensures step { RootsEndAsRows }
    ensures window { WindowsEndAsRows }
{}

/// Each edit of the record of a window of selections names only what may be read, where these may be.
pub fn a_window_conceals()
    ensures { WindowsConceal }
{}

/// Each edit of the record of a window of datastores can be sent.
pub fn a_window_can_be_sent()
    ensures { WindowsCanBeSent }
{}

/// A datastore is whole at the top, and what it has at or below one of its rows is whole there. So is a
/// selection of one, at the top and at each root that is selected.
pub fn a_datastore_is_whole()
    ensures top { DatastoresAreWhole }
    ensures below { RowsAreWhole }
{}
