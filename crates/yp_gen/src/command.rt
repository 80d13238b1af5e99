//! The commands that are drawn.
ghost use Rattle.std.specs.Prelude.{◌≡◌, ◌++◌, ◌≤◌, OnOk, string_bytes};
ghost use Rattle.yp_gen.specs.Commands.{command_text, drawn_by, edit_head, enabled_leaf, mtu_leaf, patch_end, tick_line, value_of};

use std::alloc::AllocError;

/// What a drawn command does. Entry 7 of the list of interfaces is `eth7`.
#[derive(Debug, Drop, Clone, Copy, PartialEq, Eq)]
pub enum Drawn {
    /// Time goes on.
    Tick,
    /// An entry is merged with this mtu.
    Mtu { entry: u32, mtu: u32 },
    /// An entry is merged, enabled or not.
    Enabled { entry: u32, enabled: bool },
    /// An entry is removed, if it is there.
    Removal { entry: u32 },
}

impl Drawn {
    /// What the command of a draw does.
    pub(crate) fn by(draw: u32) -> Drawn
        ensures { result ≡ drawn_by draw }
    {
        let entry = draw % 64;
        let rest = draw / 256;
        match draw / 64 % 4 {
            0 => Drawn::Tick,
            1 => Drawn::Mtu {
                entry,
                mtu: 576 + rest % 8192,
            },
            2 => Drawn::Enabled {
                entry,
                enabled: rest % 2 == 0,
            },
            _ => Drawn::Removal { entry },
        }
    }
}

/// Adds the line of a tick to a time, in hundredths of a second.
#[tactic(auto, unfolding(crate::specs::Commands::tick_line))]
pub(crate) fn push_tick(text: &mut String, time: u32) -> Result<(), AllocError>
    ensures { OnOk result (string_bytes text.new ≡ string_bytes text.old ++ tick_line time) }
{
    writeln!(text, r#"{{"tick":{time}}}"#)
}

/// Adds a patch with one edit of an entry, up to the target of this edit.
#[tactic(auto, unfolding(crate::specs::Commands::edit_head))]
fn push_edit(text: &mut String, operation: &str, entry: u32) -> Result<(), AllocError>
    ensures { OnOk result (string_bytes text.new ≡ string_bytes text.old ++ edit_head operation.now entry) }
{
    write!(
        text,
        r#"{{"patch":{{"ietf-yang-patch:yang-patch":{{"edit":[{{"edit-id":"1","operation":"{operation}","target":"/acme:interfaces/interface=eth{entry}""#
    )
}

/// Adds a value with the mtu of an entry.
#[tactic(auto, unfolding(crate::specs::Commands::value_of))]
fn push_mtu(text: &mut String, entry: u32, mtu: u32) -> Result<(), AllocError>
    ensures { OnOk result (string_bytes text.new ≡ string_bytes text.old ++ value_of (mtu_leaf mtu) entry) }
{
    write!(
        text,
        r#","value":{{"acme:interface":[{{"mtu":{mtu},"name":"eth{entry}"}}]}}"#
    )
}

/// Adds a value that says whether an entry is enabled.
#[tactic(auto, unfolding(crate::specs::Commands::value_of))]
fn push_enabled(text: &mut String, entry: u32, enabled: bool) -> Result<(), AllocError>
    ensures { OnOk result (string_bytes text.new ≡ string_bytes text.old ++ value_of (enabled_leaf enabled) entry) }
{
    write!(
        text,
        r#","value":{{"acme:interface":[{{"enabled":{enabled},"name":"eth{entry}"}}]}}"#
    )
}

/// Adds what ends a patch: its id.
#[tactic(auto, unfolding(crate::specs::Commands::patch_end))]
fn push_id(text: &mut String, id: u32) -> Result<(), AllocError>
    ensures { OnOk result (string_bytes text.new ≡ string_bytes text.old ++ patch_end id) }
{
    writeln!(text, r#"}}],"patch-id":"{id}"}}}}}}"#)
}

/// Adds the line of the command of a number, by what it does.
pub(crate) fn push_command(text: &mut String, k: u32, drawn: Drawn) -> Result<(), AllocError>
    requires { k ≤ 10000 }
    ensures { OnOk result (string_bytes text.new ≡ string_bytes text.old ++ command_text k drawn) }
{
    match drawn {
        Drawn::Tick => push_tick(text, 10 * k),
        Drawn::Mtu { entry, mtu } => {
            push_edit(text, "merge", entry)?;
            push_mtu(text, entry, mtu)?;
            push_id(text, k)
        }
        Drawn::Enabled { entry, enabled } => {
            push_edit(text, "merge", entry)?;
            push_enabled(text, entry, enabled)?;
            push_id(text, k)
        }
        Drawn::Removal { entry } => {
            push_edit(text, "remove", entry)?;
            push_id(text, k)
        }
    }
}
