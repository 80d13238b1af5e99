//! Calls of `yp_nacm_text` and `yp_nacm`: policies, and what they decide.
ghost use Rattle.std.specs.Prelude.{◌≡◌, IfOk, true};
ghost use Rattle.yp_schema.specs.Datastore.{is_path_of};

use case_frame::fault::{CaseFault, OrFault, or_bad};
use case_frame::given::{part, text};
use case_frame::setting::Setting;
use case_frame::shown::{Answer, Told, quoted, truth};
use serde_json::Value as Json;
use std::alloc::Global;
use yp_base::memory::Duplicate;
use yp_base::path::Path;
use yp_nacm::compile::{UserRules, compile, same_rules};
use yp_nacm::decide::permits;
use yp_nacm::execute::{Operation, may_exec};
use yp_nacm::policy::{Group, Policy, Rule, RuleList, Subject};
use yp_nacm::readable::Readable;
use yp_nacm_text::fault::PolicyFault;
use yp_nacm_text::policy::read_policy;
use yp_path::target::read_target;

pub fn answer(alloc: Global, setting: &Setting, call: &str, arguments: &Json) -> Answer {
    Ok(Some(match call {
        "policy" => read(alloc, setting, arguments)?,
        "copy" => copied(alloc, setting)?,
        "reads" => truth(alloc, reads(alloc, setting, arguments)?)?,
        "permits" => truth(alloc, is_permitted(alloc, setting, arguments)?)?,
        "may" => truth(alloc, may(setting, arguments)?)?,
        "same" => truth(alloc, is_same(alloc, setting, arguments)?)?,
        _ => return Ok(None),
    }))
}

/// The policy that a document is, or its fault.
fn read(alloc: Global, setting: &Setting, document: &Json) -> OrFault<String> {
    match read_policy(alloc, &setting.schema, document) {
        Ok(policy) => shown(alloc, &policy),
        Err(fault) => told(alloc, fault),
    }
}

/// A policy's fault, unless memory ran out.
fn told(alloc: Global, fault: PolicyFault) -> OrFault<String> {
    match fault {
        PolicyFault::At { place, kind } => quoted(
            alloc,
            format!(in alloc; "{place}: {kind}")?.as_str(),
        ),
        PolicyFault::Memory => Err(CaseFault::Memory),
    }
}

/// A copy of the policy.
fn copied(alloc: Global, setting: &Setting) -> OrFault<String> {
    shown(alloc, &setting.policy.copy(alloc)?)
}

/// A policy: its switches, each group's name with its users, and its rule lists.
fn shown(alloc: Global, policy: &Policy) -> OrFault<String> {
    let enabled = policy.enabled;
    let exec = policy.exec_permit;
    let read = policy.read_permit;
    let groups = shown_groups(alloc, policy.groups.items())?;
    let lists = shown_lists(alloc, policy.lists.items())?;
    Ok(format!(in alloc;
        "{{\"enabled\":{enabled},\"exec\":{exec},\"groups\":{groups},\"lists\":{lists},\"read\":{read}}}"
    )?)
}

fn shown_groups(alloc: Global, groups: &[Group]) -> OrFault<String> {
    let mut told = Told::new(alloc);
    told.push("[");
    for group in groups {
        told.comma();
        told.push("[");
        told.quoted(group.name.as_str());
        told.texts(group.users.items());
        told.push("]");
    }
    told.push("]");
    told.done()
}

fn shown_lists(alloc: Global, lists: &[RuleList]) -> OrFault<String> {
    let mut told = Told::new(alloc);
    told.push("[");
    for list in lists {
        told.comma();
        tell_list(alloc, &mut told, list)?;
    }
    told.push("]");
    told.done()
}

/// Appends a rule list: its groups, its name, and a line for each rule.
fn tell_list(alloc: Global, told: &mut Told, list: &RuleList) -> OrFault<()> {
    told.push("{\"groups\":[");
    told.texts(list.groups.items());
    told.push("],\"name\":");
    told.quoted(list.name.as_str());
    told.push(",\"rules\":[");
    for rule in list.rules.items() {
        told.comma();
        told.quoted(rule_line(alloc, rule)?.as_str());
    }
    told.push("]}");
    Ok(())
}

/// A rule: its name, its module, whether it is about reading and about calls, its subject, and what it does.
fn rule_line(alloc: Global, rule: &Rule) -> OrFault<String> {
    let name = rule.name.as_str();
    let module = match &rule.module {
        Some(module) => module.as_str(),
        None => "*",
    };
    let read = if rule.read { " read" } else { "" };
    let exec = if rule.exec { " exec" } else { "" };
    let subject = subject_word(&rule.subject);
    let action = if rule.permit { "permit" } else { "deny" };
    Ok(format!(in alloc; "{name} {module}{read}{exec} {subject} {action}")?)
}

/// What a rule is about.
fn subject_word(subject: &Subject) -> &'static str {
    match subject {
        Subject::Any => "all",
        Subject::Path(_) => "path",
        Subject::Operation(Some(_)) => "operation",
        Subject::Operation(None) => "operations",
        Subject::Other => "notification",
    }
}

/// What of the policy decides on the reading of a case's user.
pub fn own_rules(alloc: Global, setting: &Setting, arguments: &Json) -> OrFault<UserRules> {
    let user = text(part(arguments, "user")?)?;
    Ok(compile(alloc, &setting.policy, user)?)
}

/// The path of a case's target.
pub fn path_of(alloc: Global, setting: &Setting, arguments: &Json) -> OrFault<Path>
    ensures { IfOk result (λ path. is_path_of setting.now.schema path ≡ true) }
{
    let target = text(part(arguments, "path")?)?;
    or_bad(read_target(alloc, &setting.schema, target))
}

/// Whether a user may read a target's path.
fn reads(alloc: Global, setting: &Setting, arguments: &Json) -> OrFault<bool> {
    let rules = own_rules(alloc, setting, arguments)?;
    let path = path_of(alloc, setting, arguments)?;
    Ok(rules.readable(&setting.schema, &path))
}

/// Whether a user may read the node at a target by itself, whatever stands above it.
fn is_permitted(alloc: Global, setting: &Setting, arguments: &Json) -> OrFault<bool> {
    let rules = own_rules(alloc, setting, arguments)?;
    let path = path_of(alloc, setting, arguments)?;
    let depth = path.len();
    Ok(depth > 0 && permits(&rules, &setting.schema, &path, depth, None))
}

/// The operation of a word.
fn operation(word: &str) -> OrFault<Operation> {
    match word {
        "establish" => Ok(Operation::Establish),
        "modify" => Ok(Operation::Modify),
        "delete" => Ok(Operation::Delete),
        "kill" => Ok(Operation::Kill),
        "resync" => Ok(Operation::Resync),
        _ => Err(CaseFault::BadArgument),
    }
}

/// Whether a user may call an operation.
fn may(setting: &Setting, arguments: &Json) -> OrFault<bool> {
    let user = text(part(arguments, "user")?)?;
    let called = operation(text(part(arguments, "operation")?)?)?;
    Ok(may_exec(&setting.policy, user, called))
}

/// Whether a user's own rules are the same under the policy and under another.
fn is_same(alloc: Global, setting: &Setting, arguments: &Json) -> OrFault<bool> {
    let user = text(part(arguments, "user")?)?;
    let other = or_bad(read_policy(alloc, &setting.schema, part(arguments, "as")?))?;
    let own = compile(alloc, &setting.policy, user)?;
    Ok(same_rules(&own, &compile(alloc, &other, user)?))
}
