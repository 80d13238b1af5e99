//! Policies: groups of users, and rules in lists (RFC 8341 section 3.3).
ghost use Rattle.std.specs.Prelude.{◌≡◌, IfOk};
ghost use Rattle.yp_nacm.specs.Policies.{opening_policy};

use std::alloc::Global;
use yp_base::leaf_type::Names;
use yp_base::memory::{Duplicate, NoMemory};
use yp_base::rule_path::RulePath;
use yp_base::series::Series;
use yp_base::txt::Txt;

/// What a rule is about (RFC 8341 section 3.3.4).
#[derive(Drop)]
pub enum Subject {
    /// Everything: the rule has no rule type.
    Any,
    /// The node that a path names, and all below it.
    Path(RulePath),
    /// The operation of this name, `None` for each.
    Operation(Option<Txt>),
    /// A notification: no decision here is about one.
    Other,
}

/// A rule: the module that it is about, `None` for each; whether it is about reading and about calling
/// operations; what it is about; and whether it permits or denies.
#[derive(Drop)]
pub struct Rule {
    pub name: Txt,
    pub module: Option<Txt>,
    pub read: bool,
    pub exec: bool,
    pub subject: Subject,
    pub permit: bool,
}

/// Rules, in order.
pub type Rules = Series<Rule>;

/// Rules for the users of some groups; a group named `*` stands for each.
#[derive(Drop)]
pub struct RuleList {
    pub name: Txt,
    pub groups: Names,
    pub rules: Rules,
}

/// Rule lists, in order.
pub type RuleLists = Series<RuleList>;

/// A group of users.
#[derive(Drop)]
pub struct Group {
    pub name: Txt,
    pub users: Names,
}

/// Groups, in order.
pub type Groups = Series<Group>;

/// A policy: whether access control is enabled, what is decided where no rule matches, groups, and rule
/// lists (RFC 8341 section 3.5).
#[derive(Drop)]
pub struct Policy {
    pub enabled: bool,
    pub read_permit: bool,
    pub exec_permit: bool,
    pub groups: Groups,
    pub lists: RuleLists,
}

impl Policy {
    /// The policy before any is given: enabled, without groups and rules, and both defaults permit.
    pub fn opening(alloc: Global) -> Policy
        ensures { result ≡ opening_policy }
    {
        Policy {
            enabled: true,
            read_permit: true,
            exec_permit: true,
            groups: Series::from_vec(Vec::new(alloc)),
            lists: Series::from_vec(Vec::new(alloc)),
        }
    }
}

impl Duplicate for Subject {
    fn copy(&self, alloc: Global) -> Result<Subject, NoMemory> {
        Ok(match self {
            Subject::Any => Subject::Any,
            Subject::Path(path) => Subject::Path(path.copy(alloc)?),
            Subject::Operation(name) => Subject::Operation(name.copy(alloc)?),
            Subject::Other => Subject::Other,
        })
    }
}

impl Duplicate for Rule {
    fn copy(&self, alloc: Global) -> Result<Rule, NoMemory> {
        Ok(Rule {
            name: self.name.copy(alloc)?,
            module: self.module.copy(alloc)?,
            read: self.read,
            exec: self.exec,
            subject: self.subject.copy(alloc)?,
            permit: self.permit,
        })
    }
}

impl Duplicate for RuleList {
    fn copy(&self, alloc: Global) -> Result<RuleList, NoMemory> {
        Ok(RuleList {
            name: self.name.copy(alloc)?,
            groups: self.groups.copy(alloc)?,
            rules: self.rules.copy(alloc)?,
        })
    }
}

impl Duplicate for Group {
    fn copy(&self, alloc: Global) -> Result<Group, NoMemory> {
        Ok(Group {
            name: self.name.copy(alloc)?,
            users: self.users.copy(alloc)?,
        })
    }
}

impl Duplicate for Policy {
    fn copy(&self, alloc: Global) -> Result<Policy, NoMemory> {
        Ok(Policy {
            enabled: self.enabled,
            read_permit: self.read_permit,
            exec_permit: self.exec_permit,
            groups: self.groups.copy(alloc)?,
            lists: self.lists.copy(alloc)?,
        })
    }
}
