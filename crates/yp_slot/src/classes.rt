//! The classes of slots: those of a class are told of a patch by the same roots, and share their records.
ghost use Rattle.std.specs.Prelude.{◌≡◌, ℕ, ◌<◌, List, length, true, Some, IfOk, IfSome, OnOk};
ghost use Rattle.std.specs.List.{slice_get};
ghost use Rattle.yp_schema.specs.declared.schema.SchemaNode.{SchemaNode};
ghost use Rattle.yp_filter.specs.Fits.{filter_fits};
ghost use Rattle.yp_filter.specs.View.{filter_view};
ghost use Rattle.yp_feed.specs.Machine.{is_on_change};
ghost use Rattle.yp_slot.specs.Classes.{AreClasses, HasClass, KeepNumbers, is_filtered, look_back, looks_back};
ghost use Rattle.yp_slot.specs.Slots.{IsPresent};

use crate::present::Present;
use crate::records::Told;
use std::alloc::Global;
use yp_base::memory::NoMemory;
use yp_base::notice::Trigger;
use yp_filter::filter::Filter;
use yp_filter::same::same_filter;

/// What the slots of a class share: a filter that says what theirs say, the rules of their receivers' users,
/// by the number of the first receiver whose user has them, and whether they send on change.
#[derive(Drop)]
pub struct Class {
    pub first: usize,
    pub filter: Filter,
    pub on_change: bool,
}

/// The classes of some slots, and the records that they were told at the present position.
#[derive(Drop)]
pub struct Classes {
    pub all: Vec<Class>,
    pub told: Vec<Told>,
}

/// Whether a feed sends on change.
pub(crate) fn is_on_change(trigger: &Trigger) -> bool
    ensures { result ≡ is_on_change trigger.now }
{
    matches!(trigger, Trigger::OnChange { .. })
}

/// The number of the class of a filter, under the rules of a receiver's user, where there is one.
fn find(classes: &[Class], first: usize, filter: &Filter, on_change: bool) -> Option<usize>
    ensures { IfSome result (λ number. (class : Class) × (slice_get classes.now number ≡ Some class) × (class.first ≡ first) × (filter_view class.filter ≡ filter_view filter.now) × (class.on_change ≡ on_change)) }
{
    for number in 0..classes.len() {
        let class = &classes[number];
        if class.first == first
            && class.on_change == on_change
            && same_filter(&class.filter, filter)
        {
            return Some(number);
        }
    }
    None
}

/// The number of the class of a filter, under the rules of a receiver's user. Where there is none, it is a
/// new one.
fn class_of(
    alloc: Global,
    first: usize,
    filter: &Filter,
    on_change: bool,
    classes: &mut Vec<Class>,
) -> Result<usize, NoMemory>
    ensures number { IfOk result (λ number. (class : Class) × (slice_get classes.new.items number ≡ Some class) × (class.first ≡ first) × (filter_view class.filter ≡ filter_view filter.now) × (class.on_change ≡ on_change)) }
    ensures kept { OnOk result (KeepNumbers classes.old.items classes.new.items) }
    ensures classes { OnOk result ((nodes : List SchemaNode) (count : ℕ) → filter_fits nodes (filter_view filter.now) ≡ true → first < count
        → AreClasses nodes count classes.old.items → AreClasses nodes count classes.new.items) }
{
    if let Some(number) = find(classes.as_slice(), first, filter, on_change) {
        return Ok(number);
    }
    let number = classes.len();
    classes.push(Class {
        first,
        filter: filter.copy(alloc)?,
        on_change,
    })?;
    Ok(number)
}

/// The number of the class of a filter, for a receiver, where it is sent for by a trigger.
pub fn number_of(
    alloc: Global,
    present: &Present,
    receiver: u32,
    filter: &Filter,
    trigger: &Trigger,
    classes: &mut Vec<Class>,
) -> Result<usize, NoMemory>
    requires present { IsPresent present.now.schema.now present.now.state.now present.now.readers.now }
    requires receiver { receiver < length present.now.state.now.receivers }
    requires fits { filter_fits present.now.schema.now (filter_view filter.now) ≡ true }
    ensures number { IfOk result (λ number. HasClass present.now.state.now classes.new.items (record { class = number; asked = filter_view filter.now; receiver = receiver; trigger = trigger.now })) }
    ensures kept { OnOk result (KeepNumbers classes.old.items classes.new.items) }
    ensures classes { OnOk result (AreClasses present.now.schema.now (length present.now.state.now.receivers) classes.old.items → AreClasses present.now.schema.now (length present.now.state.now.receivers) classes.new.items) }
{
    let first = present.first_of(receiver as usize);
    class_of(alloc, first, filter, is_on_change(trigger), classes)
}

/// Whether a filter may leave out a row that may be read.
pub fn is_filtered(filter: &Filter) -> bool
    ensures { result ≡ is_filtered (filter_view filter.now) }
{
    !matches!(filter, Filter::All)
}

/// Whether a class sends on change what a filter selects: to tell what a step moves there, the rows before it
/// are looked at.
fn looks_back(class: &Class) -> bool
    ensures { result ≡ looks_back class.now }
{
    class.on_change && is_filtered(&class.filter)
}

/// Whether one of some classes sends on change what a filter selects.
pub fn look_back(classes: &[Class]) -> bool
    ensures { result ≡ look_back classes.now }
{
    classes.iter().any(looks_back)
}
