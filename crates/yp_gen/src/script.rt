//! The script that is drawn from a seed.
ghost use Rattle.std.specs.Prelude.{◌≡◌, ◌++◌, ◌≤◌, IfOk, OnOk, string_bytes};
ghost use Rattle.yp_gen.specs.Scripts.{drawn_lines, script_text, setting_text, subscriptions_text};

use crate::command::{Drawn, push_command, push_tick};
use crate::draw::{draw, step};
use std::alloc::{AllocError, Global};
use yp_base::memory::NoMemory;
use yp_base::txt::Txt;

const HEAD: &str = r#"{"start":"2026-01-01T00:00:00Z"}
{"schema":[{"path":"/acme:interfaces","kind":"container"},{"path":"/acme:interfaces/interface","kind":"list","keys":["name"]},{"path":"/acme:interfaces/interface/name","kind":"leaf","type":"string"},{"path":"/acme:interfaces/interface/mtu","kind":"leaf","type":"uint16"},{"path":"/acme:interfaces/interface/enabled","kind":"leaf","type":"boolean"},{"path":"/acme:interfaces/interface/secret","kind":"leaf","type":"string","deny-all":true},{"path":"/acme:interfaces/interface/stats","kind":"container"},{"path":"/acme:interfaces/interface/stats/in","kind":"leaf","type":"uint64"}]}
{"receiver":{"name":"r1","user":"ann","queue":8,"take":"auto"}}
{"receiver":{"name":"r2","user":"bob","queue":8,"take":"auto"}}
{"establish":{"by":"r1","datastore":"ietf-datastores:operational","on-change":{}}}
{"establish":{"by":"r2","datastore":"ietf-datastores:operational","datastore-subtree-filter":{"acme:interfaces":{"interface":[{"enabled":true,"mtu":[null]}]}},"on-change":{"dampening-period":50}}}
"#;

/// How many bytes the line of a drawn command takes, a little more than the mean.
const USUAL_LINE: usize = 160;

/// The lines before the drawn commands: the setting of the script, and its subscriptions.
fn head() -> &'static str
    ensures { result.now ≡ setting_text ++ subscriptions_text }
{
    HEAD
}

/// Adds the lines of the drawn commands.
fn push_drawn(text: &mut String, seed: u32, size: u32) -> Result<(), AllocError>
    requires { size ≤ 10000 }
    ensures { OnOk result (string_bytes text.new ≡ string_bytes text.old ++ drawn_lines seed size) }
{
    let mut state = seed as u64;
    for before in 0..size {
        state = step(state);
        push_command(text, before + 1, Drawn::by(draw(state)))?;
    }
    Ok(())
}

/// The text of the script that is drawn from a seed, with so many drawn commands. The same seed and size
/// always give the same text.
pub fn generate(alloc: Global, seed: u32, size: u32) -> Result<Txt, NoMemory>
    requires some { 1 ≤ size }
    requires few { size ≤ 10000 }
    ensures { IfOk result (λ text. text ≡ script_text seed size) }
{
    let mut text = String::with_capacity(alloc, 2048 + USUAL_LINE * size as usize)?;
    text.push_str(head())?;
    push_drawn(&mut text, seed, size)?;
    push_tick(&mut text, 10 * (size + 10))?;
    Txt::from_string(alloc, text)
}
