//! What the users of receivers may read (RFC 8341 section 3.4.5).
ghost use Rattle.std.specs.Prelude.{◌≡◌, ◌<◌, length, IfOk, Some};
ghost use Rattle.std.specs.List.{slice_get};
ghost use Rattle.yp_slot.specs.Readers.{AreShared, rules_of_users};

use std::alloc::Global;
use std::marker::Model;
use yp_base::memory::NoMemory;
use yp_base::txt::Txt;
use yp_nacm::compile::{UserRules, compile, same_rules};
use yp_nacm::policy::Policy;

/// The own rules of the users of receivers, in the order of the receivers' declaration, and for each
/// receiver the number of the first one whose user has the same. Contracts see the list of the rules.
#[derive(Drop)]
pub struct Readers {
    rules: Vec<UserRules>,
    firsts: Vec<usize>,
}

impl Model for Readers {
    ghost use Rattle.std.specs.Prelude.{List};
    ghost use Rattle.yp_nacm.specs.declared.compile.UserRules.{UserRules};
    ghost use Rattle.yp_slot.specs.Readers.{AreShared};

    ghost Value = { List UserRules };

    ghost view = { λ r. r.rules.items };

    ghost invariant = { λ r. AreShared r.rules.items r.firsts.items };
}

/// The own rules of users by a policy.
fn rules_of_users(alloc: Global, policy: &Policy, users: &[Txt]) -> Result<Vec<UserRules>, NoMemory>
    ensures { IfOk result (λ rules. rules.items ≡ rules_of_users policy.now users.now) }
{
    let mut rules = Vec::new(alloc);
    for user in users {
        rules.push(compile(alloc, policy, user.as_str())?)?;
    }
    Ok(rules)
}

/// The first place that has the same rules as this one.
fn first_same(rules: &[UserRules], number: usize) -> usize
    requires { number < length rules.now }
    ensures { slice_get rules.now result ≡ slice_get rules.now number }
{
    for first in 0..number {
        if same_rules(&rules[first], &rules[number]) {
            return first;
        }
    }
    number
}

/// The same of each place.
fn firsts_of(alloc: Global, rules: &[UserRules]) -> Result<Vec<usize>, NoMemory>
    ensures { IfOk result (λ firsts. AreShared rules.now firsts.items) }
{
    let mut firsts = Vec::with_capacity(alloc, rules.len())?;
    for number in 0..rules.len() {
        firsts.push(first_same(rules, number))?;
    }
    Ok(firsts)
}

impl Readers {
    /// What users may read by a policy.
    pub fn of(alloc: Global, policy: &Policy, users: &[Txt]) -> Result<Readers, NoMemory>
        ensures { IfOk result (λ readers. readers ≡ rules_of_users policy.now users.now) }
    {
        let rules = rules_of_users(alloc, policy, users)?;
        let firsts = firsts_of(alloc, rules.as_slice())?;
        Ok(Readers { rules, firsts })
    }

    /// The own rules of the user of the receiver of this number.
    pub fn rules(&self, number: usize) -> &UserRules
        requires { number < length self.now }
        ensures { slice_get self.now number ≡ Some result.now }
    {
        &self.rules[number]
    }

    /// The number of the first receiver whose user has the same rules as this one's.
    pub fn first(&self, number: usize) -> usize
        requires { number < length self.now }
        ensures within { result < length self.now }
        ensures same { slice_get self.now result ≡ slice_get self.now number }
    {
        self.firsts[number]
    }
}
