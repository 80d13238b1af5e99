//! A user's own rules: what of a policy decides on the user's reading (RFC 8341 section 3.4.5).
ghost use Rattle.std.specs.Prelude.{◌≡◌, ◌↔◌, ◌++◌, IfOk, IsTrue, filter, map};
ghost use Rattle.std.specs.List.{list_any};
ghost use Rattle.yp_base.specs.Types.{is_among};
ghost use Rattle.yp_nacm.specs.Own.{decides_reading, own_rule, own_rules, path_in};
ghost use Rattle.yp_nacm.specs.Policies.{groups_of, is_for, rules_in};
ghost use Rattle.yp_nacm.specs.Same.{are_same_rules};

use crate::policy::{Group, Policy, Rule, RuleList, Subject};
use std::alloc::Global;
use yp_base::memory::{Duplicate, NoMemory};
use yp_base::rule_path::RulePath;
use yp_base::series::Series;
use yp_base::txt::Txt;

/// A rule that can decide on a user's reading: its module, `None` for each; its path, `None` where it is
/// about everything; and whether it permits.
#[derive(Drop, PartialEq, Eq)]
pub struct UserRule {
    pub module: Option<Txt>,
    pub path: Option<RulePath>,
    pub permit: bool,
}

/// What decides on a user's reading: whether access control is enabled, what is decided where no rule
/// matches, and the rules in order.
#[derive(Drop, PartialEq, Eq)]
pub struct UserRules {
    pub enabled: bool,
    pub read_permit: bool,
    pub rules: Series<UserRule>,
}

/// Whether a text is among others.
pub(crate) fn has_text(texts: &[Txt], text: &str) -> bool
    ensures { result ≡ is_among text.now texts.now }
{
    for other in texts {
        if text == other.as_str() {
            return true;
        }
    }
    false
}

/// The names of the groups that name a user.
fn names_of_groups(alloc: Global, groups: &[Group], user: &str) -> Result<Series<Txt>, NoMemory>
    ensures { IfOk result (λ names. names ≡ groups_of groups.now user.now) }
{
    let mut names = Vec::new(alloc);
    for group in groups {
        if has_text(group.users.items(), user) {
            names.push(group.name.copy(alloc)?)?;
        }
    }
    Ok(Series::from_vec(names))
}

/// Whether a rule list is for all groups, or for one of these.
fn is_list_for(groups: &[Txt], list: &RuleList) -> bool
    ensures { result ≡ is_for groups.now list.now }
{
    for name in list.groups.items() {
        if name.as_str() == "*" || has_text(groups, name.as_str()) {
            return true;
        }
    }
    false
}

/// Whether a rule can decide on reading.
fn is_about_reading(rule: &Rule) -> bool
    ensures { result ≡ decides_reading rule.now }
{
    match &rule.subject {
        Subject::Any | Subject::Path(_) => rule.read,
        Subject::Operation(_) | Subject::Other => false,
    }
}

/// The path of a rule's subject, where it has one.
fn path_of_subject(alloc: Global, subject: &Subject) -> Result<Option<RulePath>, NoMemory>
    ensures { IfOk result (λ path. path ≡ path_in subject.now) }
{
    match subject {
        Subject::Path(path) => Ok(Some(path.copy(alloc)?)),
        Subject::Any | Subject::Operation(_) | Subject::Other => Ok(None),
    }
}

/// Takes over the rules of a list that can decide on reading.
fn take_rules(alloc: Global, rules: &[Rule], own: &mut Vec<UserRule>) -> Result<(), NoMemory>
    ensures { IfOk result (λ _. own.new.items ≡ own.old.items ++ map own_rule (filter decides_reading rules.now)) }
{
    for rule in rules {
        if is_about_reading(rule) {
            own.push(UserRule {
                module: rule.module.copy(alloc)?,
                path: path_of_subject(alloc, &rule.subject)?,
                permit: rule.permit,
            })?;
        }
    }
    Ok(())
}

/// Takes over the rules of the lists that are for one of these groups.
fn take_lists(
    alloc: Global,
    groups: &[Txt],
    lists: &[RuleList],
    own: &mut Vec<UserRule>,
) -> Result<(), NoMemory>
    ensures { IfOk result (λ _. own.new.items ≡ own.old.items ++ map own_rule (filter decides_reading (rules_in (filter (is_for groups.now) lists.now)))) }
{
    for list in lists {
        if is_list_for(groups, list) {
            take_rules(alloc, list.rules.items(), own)?;
        }
    }
    Ok(())
}

/// What of a policy decides on a user's reading. Rules of other groups, of other operations, and of
/// other rule types than a path are left out.
pub fn compile(alloc: Global, policy: &Policy, user: &str) -> Result<UserRules, NoMemory>
    ensures { IfOk result (λ rules. rules ≡ own_rules policy.now user.now) }
{
    let groups = names_of_groups(alloc, policy.groups.items(), user)?;
    let mut own = Vec::new(alloc);
    if groups.len() > 0 {
        take_lists(alloc, groups.items(), policy.lists.items(), &mut own)?;
    }
    Ok(UserRules {
        enabled: policy.enabled,
        read_permit: policy.read_permit,
        rules: Series::from_vec(own),
    })
}

/// Whether two users' own rules are the same.
pub fn same_rules(one: &UserRules, other: &UserRules) -> bool
    ensures same { result ≡ are_same_rules one.now other.now }
    ensures one { IsTrue result ↔ (one.now ≡ other.now) }
{
    one == other
}
