//! Groups.
ghost use Rattle.std.specs.Prelude.{◌≡◌, [], IfOk};
ghost use Rattle.serde_json.specs.View.{view, items_view};
ghost use Rattle.yp_base.specs.Types.{is_among};
ghost use Rattle.yp_nacm_text.specs.Faults.{Reads};
ghost use Rattle.yp_nacm_text.specs.Members.{each_in};
ghost use Rattle.yp_nacm_text.specs.NameSets.{AddsName};
ghost use Rattle.yp_nacm_text.specs.Policies.{group_in, next_group};

use crate::fault::{Place, PolicyFault, PolicyKind};
use crate::members::{Part, members_as, texts_of};
use crate::names::NameSet;
use serde_json::Value as Json;
use std::alloc::Global;
use yp_base::series::Series;
use yp_base::txt::text_of;
use yp_nacm::policy::{Group, Groups};
use yp_value::members::text_in;

/// Reads a group, whose name is then taken. Of its faults the first is answered.
fn read_group<'a>(
    alloc: Global,
    place: Place,
    names: &mut NameSet<'a>,
    json: &'a Json,
) -> Result<Group, PolicyFault>
    ensures read { Reads result (group_in place (λ name. is_among name names.old) (view json.now)) }
    ensures name { IfOk result (λ group. AddsName names.old names.new group.name) }
{
    let fault = |kind| PolicyFault::At { place, kind };
    let members = members_as(Part::Group, json).ok_or(fault(PolicyKind::Member))?;
    let name = text_in(members, "name").ok_or(fault(PolicyKind::Member))?;
    let users = texts_of(alloc, members, "user-name")?.ok_or(fault(PolicyKind::Member))?;
    if !names.take(name)? {
        return Err(fault(PolicyKind::DuplicateName));
    }
    Ok(Group {
        name: text_of(alloc, name)?,
        users,
    })
}

/// The groups that items are, or the first fault among them.
pub fn read_groups(alloc: Global, items: &[Json]) -> Result<Groups, PolicyFault>
    ensures { Reads result (each_in next_group [] (items_view items.now)) }
{
    let mut groups = Vec::new(alloc);
    let mut names = NameSet::new(alloc);
    for item in items {
        let place = Place::Group(groups.len());
        groups.push(read_group(alloc, place, &mut names, item)?)?;
    }
    Ok(Series::from_vec(groups))
}
