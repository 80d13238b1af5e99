//! What classes select, and the text of it.
ghost use Rattle.std.specs.Prelude.{◌≡◌, ◌<◌, List, length, true, IfOk, IfSome, OnOk};
ghost use Rattle.yp_schema.specs.declared.schema.SchemaNode.{SchemaNode};
ghost use Rattle.yp_filter.specs.Fits.{filter_fits};
ghost use Rattle.yp_filter.specs.View.{filter_view};
ghost use Rattle.yp_journal.specs.History.{JournalState};
ghost use Rattle.yp_slot.specs.Slots.{IsKeptAt, IsPresent};
ghost use Rattle.yp_worker.specs.Contents.{AreSelected, IsContent, selected};

use std::alloc::Global;
use std::sync::ledger::Ledger;
use yp_base::memory::{Duplicate, NoMemory};
use yp_base::row::Rows;
use yp_base::steps::Steps;
use yp_base::txt::Txt;
use yp_encode::contents::contents_text;
use yp_filter::filter::Filter;
use yp_filter::same::same_filter;
use yp_select::laws::filtered_selection_can_be_written;
use yp_select::select::select_all;
use yp_slot::present::Present;
use yp_slot::slot::Slot;

/// Rows that are selected, and the text of them that a full update carries.
#[derive(Drop)]
pub struct Content {
    pub rows: Rows,
    pub text: Txt,
}

/// What the class of a number selects: by a filter, for the users who have the same rules as the user of a
/// receiver, by the number of the first such receiver.
#[derive(Drop)]
pub struct Selected {
    pub class: usize,
    pub first: usize,
    pub filter: Filter,
    pub content: Content,
}

impl Duplicate for Content {
    fn copy(&self, alloc: Global) -> Result<Content, NoMemory> {
        Ok(Content {
            rows: self.rows.copy(alloc)?,
            text: self.text.copy(alloc)?,
        })
    }
}

/// What was selected for the class of this number, by a filter under the rules of a receiver's user, where it
/// was. It is of this filter and this receiver whatever the number says.
fn find(
    alloc: Global,
    contents: &[Selected],
    class: usize,
    first: usize,
    filter: &Filter,
) -> Result<Option<Content>, NoMemory>
    ensures { IfOk result (λ found. IfSome found (λ content. (nodes : List SchemaNode) (state : JournalState)
        → AreSelected nodes state contents.now → IsContent nodes (selected nodes state (filter_view filter.now) first) content)) }
{
    for selected in contents {
        if selected.class == class
            && selected.first == first
            && same_filter(&selected.filter, filter)
        {
            return Ok(Some(selected.content.copy(alloc)?));
        }
    }
    Ok(None)
}

/// Selects by a filter under the rules of a receiver's user.
fn select<L: Ledger>(
    alloc: Global,
    present: &Present,
    first: usize,
    filter: &Filter,
    steps: &mut Steps<L>,
) -> Result<Content, NoMemory>
    requires present { IsPresent present.now.schema.now present.now.state.now present.now.readers.now }
    requires within { first < length present.now.state.now.receivers }
    requires fits { filter_fits present.now.schema.now (filter_view filter.now) ≡ true }
    ensures { IfOk result (IsContent present.now.schema.now (selected present.now.schema.now present.now.state.now (filter_view filter.now) first)) }
{
    filtered_selection_can_be_written();
    let rules = present.rules_of(first);
    let tree = present.state.tree();
    let rows = select_all(alloc, present.schema, filter, rules, tree, steps)?;
    let text = contents_text(alloc, present.schema, &rows)?;
    Ok(Content {
        rows: rows.share(alloc)?,
        text,
    })
}

/// What the class of this number selects, by a filter under the rules of a receiver's user: made once, and
/// found again for each slot of the class.
fn content_for<L: Ledger>(
    alloc: Global,
    present: &Present,
    class: usize,
    first: usize,
    filter: &Filter,
    contents: &mut Vec<Selected>,
    steps: &mut Steps<L>,
) -> Result<Content, NoMemory>
    requires present { IsPresent present.now.schema.now present.now.state.now present.now.readers.now }
    requires within { first < length present.now.state.now.receivers }
    requires fits { filter_fits present.now.schema.now (filter_view filter.now) ≡ true }
    requires contents { AreSelected present.now.schema.now present.now.state.now contents.old.items }
    ensures content { IfOk result (IsContent present.now.schema.now (selected present.now.schema.now present.now.state.now (filter_view filter.now) first)) }
    ensures contents { OnOk result (AreSelected present.now.schema.now present.now.state.now contents.new.items) }
{
    if let Some(found) = find(alloc, contents.as_slice(), class, first, filter)? {
        return Ok(found);
    }
    let content = select(alloc, present, first, filter, steps)?;
    contents.push(Selected {
        class,
        first,
        filter: filter.copy(alloc)?,
        content: content.copy(alloc)?,
    })?;
    Ok(content)
}

/// What a slot selects, which the slots of its class share.
pub(crate) fn content_of<L: Ledger>(
    alloc: Global,
    present: &Present,
    slot: &Slot,
    contents: &mut Vec<Selected>,
    steps: &mut Steps<L>,
) -> Result<Content, NoMemory>
    requires present { IsPresent present.now.schema.now present.now.state.now present.now.readers.now }
    requires kept { IsKeptAt present.now.schema.now present.now.state.now slot.now }
    requires contents { AreSelected present.now.schema.now present.now.state.now contents.old.items }
    ensures content { IfOk result (IsContent present.now.schema.now (selected present.now.schema.now present.now.state.now (filter_view slot.now.filter) slot.now.feed.receiver)) }
    ensures contents { OnOk result (AreSelected present.now.schema.now present.now.state.now contents.new.items) }
{
    let first = present.first_of(slot.feed.receiver() as usize);
    let content = content_for(
        alloc,
        present,
        slot.class,
        first,
        &slot.filter,
        contents,
        steps,
    )?;
    Ok(content)
}
