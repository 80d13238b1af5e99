//! What a policy says itself.
ghost use Rattle.std.specs.Prelude.{◌≡◌};
ghost use Rattle.serde_json.specs.View.{members_view};
ghost use Rattle.yp_nacm_text.specs.Policies.{switches_in};

use crate::members::{default_in, switch_in};
use serde_json::{Map, Value as Json};

/// Whether access control is enabled, and what is decided where no rule matches.
#[derive(Drop, Clone, Copy, PartialEq, Eq)]
pub struct Switches {
    pub enabled: bool,
    pub read_permit: bool,
    pub exec_permit: bool,
}

/// What a policy says itself. What it says of writing and of external groups is read, and has no effect.
pub fn switches_in(members: &Map<String, Json>) -> Option<Switches>
    ensures { result ≡ switches_in (members_view members.now.entries) }
{
    let enabled = switch_in(members, "enable-nacm")?;
    let read_permit = default_in(members, "read-default")?;
    default_in(members, "write-default")?;
    let exec_permit = default_in(members, "exec-default")?;
    switch_in(members, "enable-external-groups")?;
    Some(Switches {
        enabled,
        read_permit,
        exec_permit,
    })
}
