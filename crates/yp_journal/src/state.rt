//! The state of the journal.
ghost use Rattle.std.specs.Prelude.{◌≡◌, ◌+◌, ◌<◌, ◌≤◌, ◌^◌, [], length, true, IfOk, OnOk, OnErr};
ghost use Rattle.yp_schema.specs.Datastore.{IsDatastore};
ghost use Rattle.yp_edit.specs.Answers.{LeavesAll, NamesOneOf};
ghost use Rattle.yp_changes.specs.Changes.{changed_rows};
ghost use Rattle.yp_edit.specs.Patches.{applied};
ghost use Rattle.yp_journal.specs.declared.command.Command.TheVariants.{Edit};
ghost use Rattle.yp_registry.specs.Registry.{IsRegistryOf};
ghost use Rattle.yp_terms.specs.Terms.{HasAnchor};
ghost use Rattle.yp_journal.specs.History.{first_state, first_registry, one_further, with_tick, with_policy, after_establish, establish_reply, id_at, next_state, reply_to, is_refusal, MayCome};
ghost use Rattle.yp_time.specs.Ticks.{tick_limit};

use crate::command::Command;
use crate::receiver::{ReceiverInfo, Receivers};
use crate::reply::Reply;
use std::alloc::Global;
use std::marker::{Brand, Model};
use std::sync::ledger::{Blank, Ledger};
use yp_base::memory::{Duplicate, NoMemory};
use yp_base::series::Series;
use yp_base::steps::Steps;
use yp_base::txt::Txt;
use yp_changes::changed::Changed;
use yp_edit::applying::apply;
use yp_edit::fault::EditFault;
use yp_nacm::policy::Policy;
use yp_patch::patch::{Edits, Patch};
use yp_registry::registry::Registry;
use yp_schema::schema::Schema;
use yp_terms::ask::Ask;
use yp_terms::refused::Refused;
use yp_tree::tree::Tree;

/// What the journal's commands left.
#[derive(Drop)]
pub struct State {
    tree: Tree,
    pub(crate) policy: Policy,
    pub(crate) stamp: u64,
    position: u64,
    pub(crate) registry: Registry,
    receivers: Receivers,
}

impl Model for State {
    ghost use Rattle.std.specs.Coded.{codes};
    ghost use Rattle.std.specs.Prelude.{◌≡◌, ◌≤◌, length};
    ghost use Rattle.yp_journal.specs.History.{JournalState};
    ghost use Rattle.yp_registry.specs.Coding.{coded_subscriptions};
    ghost use Rattle.yp_time.specs.Ticks.{tick_limit};

    ghost Value = { JournalState };

    ghost coded = { Prim.hlevel (codes, coded_subscriptions) };

    ghost view = { λ s. record { rows = s.tree; policy = s.policy; stamp = s.stamp; position = s.position; registry = s.registry; receivers = s.receivers } };

    ghost invariant = { λ s. (s.stamp ≤ tick_limit) × (length s.registry.users ≡ length s.receivers) };
}

/// What came of a command.
#[derive(Drop)]
pub struct Outcome {
    /// The tick after the command, in centiseconds from the start.
    pub stamp: u64,
    pub reply: Reply,
    /// The rows that differ between the datastore before the command and after it.
    pub changed: Changed,
}

/// Copies of receivers.
fn copies_of(alloc: Global, receivers: &[ReceiverInfo]) -> Result<Receivers, NoMemory>
    ensures { IfOk result (λ copies. copies ≡ receivers.now) }
{
    let mut copies = Vec::new(alloc);
    for receiver in receivers {
        copies.push(receiver.copy(alloc)?)?;
    }
    Ok(Series::from_vec(copies))
}

/// The id of the edit of this number, from 0 on.
fn id_of(alloc: Global, edits: &Edits, number: u32) -> Result<Txt, NoMemory>
    requires { number < length edits.now }
    ensures { IfOk result (λ id. id ≡ id_at number edits.now) }
{
    edits.items()[number as usize].id.copy(alloc)
}

/// Applies a patch, and counts no step of it.
fn apply_with<L: Ledger>(
    alloc: Global,
    schema: &Schema,
    tree: &mut Tree,
    patch: &Patch,
    blank: Blank,
) -> Result<Changed, EditFault>
    requires name { blank.name ≡ L.name }
    requires parts { blank.parts ≡ L.parts }
    requires some { 0 < L.parts }
    requires few { length patch.now.edits < 2 ^ 32 }
    ensures applied { LeavesAll result tree.new (applied schema.now tree.old patch.now) }
    ensures changed { IfOk result (λ changed. changed ≡ changed_rows tree.old tree.new) }
    ensures number { NamesOneOf result (length patch.now.edits) }
    ensures unchanged { OnErr result (tree.new ≡ tree.old) }
    ensures datastore { IsDatastore schema.now tree.old → OnOk result (IsDatastore schema.now tree.new) }
{
    let mut steps = Steps::<L>::open(blank);
    apply(alloc, schema, tree, patch, &mut steps)
}

/// The users and the names of receivers.
fn first_registry(alloc: Global, receivers: &[ReceiverInfo]) -> Result<Registry, NoMemory>
    ensures { IfOk result (λ registry. registry ≡ first_registry receivers.now) }
{
    let mut users = Vec::new(alloc);
    let mut names = Vec::new(alloc);
    for receiver in receivers {
        users.push(receiver.user.copy(alloc)?)?;
        names.push(receiver.name.copy(alloc)?)?;
    }
    Ok(Registry::new(alloc, Series::from_vec(users), Series::from_vec(names)))
}

pub(crate) fn no_changes(alloc: Global) -> Changed
    ensures { result ≡ [] }
{
    Series::from_vec(Vec::new(alloc))
}

impl State {
    /// The state that the first command finds: no rows, the opening policy, no subscription, tick 0 and
    /// position 0, with these receivers.
    pub fn new(
        alloc: Global,
        _schema: &Schema,
        receivers: &[ReceiverInfo],
    ) -> Result<State, NoMemory>
        ensures opening { IfOk result (λ state. state ≡ first_state receivers.now) }
    {
        Ok(State {
            tree: Tree::new(alloc),
            policy: Policy::opening(alloc),
            stamp: 0,
            position: 0,
            registry: first_registry(alloc, receivers)?,
            receivers: copies_of(alloc, receivers)?,
        })
    }

    /// The datastore.
    pub fn tree(&self) -> &Tree
        ensures rows { result.now ≡ self.now.rows }
    {
        &self.tree
    }

    /// The policy of access control (RFC 8341 section 3.5).
    pub fn policy(&self) -> &Policy
        ensures policy { result.now ≡ self.now.policy }
    {
        &self.policy
    }

    /// The tick, in centiseconds from the start.
    pub fn stamp(&self) -> u64
        ensures value { result ≡ self.now.stamp }
        ensures limit { result ≤ tick_limit }
    {
        self.stamp
    }

    /// How many commands were accepted, those included that were refused.
    pub fn position(&self) -> u64
        ensures count { result ≡ self.now.position }
    {
        self.position
    }

    /// The registry of subscriptions. It has a user for each receiver.
    pub fn registry(&self) -> &Registry
        ensures registry { result.now ≡ self.now.registry }
        ensures users { length self.now.registry.users ≡ length self.now.receivers }
    {
        &self.registry
    }

    /// Takes a command: the state goes on to what it leaves, and its reply and the rows that it changed
    /// are told. A command that is refused moves the position alone. After `NoMemory` the state is as it
    /// was. Rows that are a datastore of the schema stay one, and so does a registry of it.
    #[tactic(auto, using(yp_changes::specs::ChangeLaws::none_differ))]
    pub fn accept(
        &mut self,
        alloc: Global,
        schema: &Schema,
        command: &Command,
    ) -> Result<Outcome, NoMemory>
        requires command { MayCome schema.now self.old.receivers command.now }
        requires position { self.old.position < 2 ^ 63 }
        ensures state { OnOk result (self.new ≡ next_state schema.now self.old command.now) }
        ensures reply { IfOk result (λ outcome. outcome.reply ≡ reply_to schema.now self.old command.now) }
        ensures stamp { IfOk result (λ outcome. outcome.stamp ≡ self.new.stamp) }
        ensures changed { IfOk result (λ outcome. outcome.changed ≡ changed_rows self.old.rows self.new.rows) }
        ensures quiet { IfOk result (λ outcome. self.new.rows ≡ self.old.rows → outcome.changed ≡ []) }
        ensures refused { IfOk result (λ outcome. is_refusal outcome.reply ≡ true → self.new ≡ one_further self.old) }
        ensures position { OnOk result (self.new.position ≡ self.old.position + 1) }
        ensures receivers { self.new.receivers ≡ self.old.receivers }
        ensures unchanged { OnErr result (self.new ≡ self.old) }
        ensures datastore { IsDatastore schema.now self.old.rows → IsDatastore schema.now self.new.rows }
        ensures registry { IsRegistryOf schema.now self.old.registry → IsRegistryOf schema.now self.new.registry }
    {
        match command {
            Command::Tick(tick) => Ok(self.tick(alloc, *tick)),
            Command::Edit(patch) => self.edit(alloc, schema, patch),
            Command::Rules(policy) => self.govern(alloc, policy),
            Command::Establish { by, ask } => self.establish(alloc, schema, *by, ask),
            Command::Modify { by, id, amend } => self.modify(alloc, schema, *by, *id, amend),
            Command::Delete { by, id } => self.delete(alloc, *by, *id),
            Command::Kill { by, id } => self.kill(alloc, *by, *id),
            Command::Resync { by, id } => self.resync(alloc, *by, *id),
            Command::Configure { id, receivers, ask } => {
                self.configure(alloc, schema, *id, receivers.items(), ask)
            }
            Command::Reconfigure { id, amend } => self.reconfigure(alloc, schema, *id, amend),
            Command::Unconfigure { id } => self.unconfigure(alloc, *id),
            Command::Take { .. } => Ok(self.advance(Reply::Done, no_changes(alloc))),
        }
    }

    /// Goes one position further, and tells a reply and changed rows.
    pub(crate) fn advance(&mut self, reply: Reply, changed: Changed) -> Outcome
        requires { self.old.position < 2 ^ 63 }
        ensures state { self.new ≡ one_further self.old }
        ensures outcome { result ≡ record { stamp = self.old.stamp; reply = reply; changed = changed } }
    {
        self.position += 1;
        Outcome {
            stamp: self.stamp,
            reply,
            changed,
        }
    }

    /// Time goes on to a tick.
    fn tick(&mut self, alloc: Global, tick: u64) -> Outcome
        requires tick { tick ≤ tick_limit }
        requires position { self.old.position < 2 ^ 63 }
        ensures state { self.new ≡ with_tick self.old tick }
        ensures outcome { result ≡ record { stamp = self.new.stamp; reply = Reply.Done; changed = [] } }
    {
        self.stamp = self.stamp.max(tick);
        self.advance(Reply::Done, no_changes(alloc))
    }

    /// Edits the datastore.
    #[tactic(auto, using(yp_changes::specs::ChangeLaws::none_differ))]
    fn edit(&mut self, alloc: Global, schema: &Schema, patch: &Patch) -> Result<Outcome, NoMemory>
        requires few { length patch.now.edits < 2 ^ 32 }
        requires position { self.old.position < 2 ^ 63 }
        ensures state { OnOk result (self.new ≡ next_state schema.now self.old (Edit patch.now)) }
        ensures reply { IfOk result (λ outcome. outcome.reply ≡ reply_to schema.now self.old (Edit patch.now)) }
        ensures stamp { IfOk result (λ outcome. outcome.stamp ≡ self.new.stamp) }
        ensures changed { IfOk result (λ outcome. outcome.changed ≡ changed_rows self.old.rows self.new.rows) }
        ensures unchanged { OnErr result (self.new ≡ self.old) }
        ensures datastore { IsDatastore schema.now self.old.rows → IsDatastore schema.now self.new.rows }
    {
        match apply_with::<Brand>(alloc, schema, &mut self.tree, patch, Blank::new(1)) {
            Ok(changed) => Ok(self.advance(Reply::Done, changed)),
            Err(EditFault::Refused { edit, tag, path }) => {
                let edit_id = id_of(alloc, &patch.edits, edit)?;
                let reply = Reply::Edit { edit_id, tag, path };
                Ok(self.advance(reply, no_changes(alloc)))
            }
            Err(EditFault::Memory) => Err(NoMemory),
        }
    }

    /// Puts a policy in place of the old one.
    fn govern(&mut self, alloc: Global, policy: &Policy) -> Result<Outcome, NoMemory>
        requires { self.old.position < 2 ^ 63 }
        ensures state { OnOk result (self.new ≡ with_policy self.old policy.now) }
        ensures outcome { IfOk result (λ outcome. outcome ≡ record { stamp = self.old.stamp; reply = Reply.Done; changed = [] }) }
        ensures unchanged { OnErr result (self.new ≡ self.old) }
    {
        self.policy = policy.copy(alloc)?;
        Ok(self.advance(Reply::Done, no_changes(alloc)))
    }
}
