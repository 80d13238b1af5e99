//! The decision on calling an operation (RFC 8341 section 3.4.4).
ghost use Rattle.std.specs.Prelude.{◌≡◌, ◌∷◌, [], not, filter};
ghost use Rattle.yp_nacm.specs.Decision.{matches_call, may_call, module_of, name_of, said_of_call};
ghost use Rattle.yp_nacm.specs.Policies.{groups_of, is_for, rules_in};
ghost use Rattle.yp_base.specs.Types.{is_among};
ghost use Rattle.yp_schema.specs.WellFormed.{is_empty};

use crate::compile::has_text;
use crate::decide::is_named;
use crate::policy::{Group, Policy, Rule, RuleList, Subject};

/// An operation on subscriptions (RFC 8639 section 2.4, RFC 8641 section 4.4).
#[derive(Debug, Drop, Clone, Copy, PartialEq, Eq)]
pub enum Operation {
    /// `establish-subscription`
    Establish,
    /// `modify-subscription`
    Modify,
    /// `delete-subscription`
    Delete,
    /// `kill-subscription`, which has default-deny-all
    Kill,
    /// `resync-subscription`
    Resync,
}

/// The module of an operation.
fn module(op: Operation) -> &'static str
    ensures { result.now ≡ module_of op }
{
    match op {
        Operation::Resync => "ietf-yang-push",
        _ => "ietf-subscribed-notifications",
    }
}

/// Its name.
fn name(op: Operation) -> &'static str
    ensures { result.now ≡ name_of op }
{
    match op {
        Operation::Establish => "establish-subscription",
        Operation::Modify => "modify-subscription",
        Operation::Delete => "delete-subscription",
        Operation::Kill => "kill-subscription",
        Operation::Resync => "resync-subscription",
    }
}

/// Whether a rule is about a call of an operation.
fn is_about_call(rule: &Rule, op: Operation) -> bool
    ensures { result ≡ matches_call op rule.now }
{
    if !is_named(&rule.module, module(op)) || !rule.exec {
        return false;
    }
    match &rule.subject {
        Subject::Any => true,
        Subject::Operation(own) => is_named(own, name(op)),
        Subject::Path(_) | Subject::Other => false,
    }
}

/// What the first of these rules says of a call, where one is about it.
fn word_of_rules(rules: &[Rule], op: Operation) -> Option<bool>
    ensures { result ≡ said_of_call op rules.now }
{
    for rule in rules {
        if is_about_call(rule, op) {
            return Some(rule.permit);
        }
    }
    None
}

/// Whether a group of this name names the user.
fn names_user(groups: &[Group], user: &str, name: &str) -> bool
    ensures { result ≡ is_among name.now (groups_of groups.now user.now) }
{
    for group in groups {
        if has_text(group.users.items(), user) && name == group.name.as_str() {
            return true;
        }
    }
    false
}

/// Whether a rule list is for all groups, or for one that names the user.
fn is_list_for_user(groups: &[Group], user: &str, list: &RuleList) -> bool
    ensures { result ≡ is_for (groups_of groups.now user.now) list.now }
{
    for name in list.groups.items() {
        if name.as_str() == "*" || names_user(groups, user, name.as_str()) {
            return true;
        }
    }
    false
}

/// What the first rule of a rule list says of a call, where the list is for the user and a rule is about
/// the call.
fn word_of_list(groups: &[Group], user: &str, list: &RuleList, op: Operation) -> Option<bool>
    ensures { result ≡ said_of_call op (rules_in (filter (is_for (groups_of groups.now user.now)) (list.now ∷ []))) }
{
    if is_list_for_user(groups, user, list) {
        word_of_rules(list.rules.items(), op)
    } else {
        None
    }
}

/// What the first rule of the user's rule lists says of a call, where one is about it.
#[tactic(auto, using(crate::proofs::Words::lists_first, crate::proofs::Words::lists_next))]
fn word_of_lists(groups: &[Group], user: &str, lists: &[RuleList], op: Operation) -> Option<bool>
    ensures { result ≡ said_of_call op (rules_in (filter (is_for (groups_of groups.now user.now)) lists.now)) }
{
    for list in lists {
        if let Some(permit) = word_of_list(groups, user, list, op) {
            return Some(permit);
        }
    }
    None
}

/// Whether a group names the user.
fn has_group(groups: &[Group], user: &str) -> bool
    ensures { result ≡ not (is_empty (groups_of groups.now user.now)) }
{
    for group in groups {
        if has_text(group.users.items(), user) {
            return true;
        }
    }
    false
}

/// Whether a user may call an operation (RFC 8341 section 3.4.4): where access control isn't enabled,
/// everybody may; the first matching rule of the user's rule lists decides, and the default where there
/// is none. It takes no memory.
pub fn may_exec(policy: &Policy, user: &str, op: Operation) -> bool
    ensures { result ≡ may_call policy.now user.now op }
{
    if !policy.enabled {
        return true;
    }
    let groups = policy.groups.items();
    let word = if has_group(groups, user) {
        word_of_lists(groups, user, policy.lists.items(), op)
    } else {
        None
    };
    match word {
        Some(permit) => permit,
        None => op != Operation::Kill && policy.exec_permit,
    }
}
