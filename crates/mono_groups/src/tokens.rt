//! Tokens that are cancelled, each with the tokens below it, under keys.
ghost use Rattle.std.specs.Prelude.{◌≡◌, ℕ, [], true, false, is_some, Some, None};
ghost use Rattle.mono_model.specs.Table.{value_at, count_of};
ghost use Rattle.mono_groups.specs.Nodes.{listed_by, owed_by, waiting_in};
ghost use Rattle.mono_groups.specs.Tokens.{Awaits, Cancels, Follows, GivesUp, Grows, IsBelow, IsGrown, IsKept, Makes, Marks, PaysAt, Removes, follows, is_cancelled, leads_itself, leads_on};
ghost use Rattle.mono_sync.specs.Many.{lists_each, tasks_each, waits_each, LeadsEach, NoneBelow};
ghost use Rattle.mono_sync.specs.ManyLeads.{each_some};
ghost use Rattle.mono_groups.specs.Listed.{node_some};
ghost use Rattle.mono_task.specs.Owed.{Hands, Keeps};

use crate::nodes::Token;
pub use crate::token_calls::{CancelledCall, CancelledFuture, cancel, cancelled};
use crate::waiters::Asked;
use mono_table::Table;
use mono_task::SharedState;
use std::alloc::{AllocError, Global};
use std::marker::Model;
use thiserror::Error;

/// The reason why no token was removed.
#[derive(Debug, Drop, Error)]
pub enum RemoveError {
    /// The key was never given out, or its token was removed.
    #[error("no token has this key")]
    Missing,
    /// The token was not cancelled.
    #[error("this token was not cancelled")]
    Live,
    /// A task waits for the token and is owed a wake.
    #[error("a task waits for this token")]
    InUse,
}

/// Tokens, each under a key of its own. The keys count from 0, and none is used again.
///
/// A token may have a parent. If a token is cancelled, so are all tokens below it: its children, their children, and so on.
/// A cancelled token stays cancelled. A key without a token counts as cancelled.
///
/// `cancel` looks at each key after the cancelled one, in their order.
///
/// The value is a list: for each key that was given out its token, or none if it was removed.
#[derive(Drop)]
pub struct Tokens {
    nodes: Table<Token>,
    // No token with a lesser key owes a wake.
    from: u64,
}

impl Model for Tokens {
    ghost use Rattle.mono_model.specs.Table as model;
    ghost use Rattle.mono_groups.specs.declared.nodes.Token.{Token as Node};

    ghost Value = { model.Table Node };

    ghost use Rattle.mono_groups.specs.Tokens.{IsKept};

    ghost view = { λ a. a.nodes };

    ghost invariant = { λ a. IsKept a.nodes a.from };
}

/// Tokens owe a wake to each task that waits for a cancelled one.
impl SharedState for Tokens {
    ghost leads = { LeadsEach Grows waiting_in owed_by };

    ghost names = { waits_each waiting_in };

    ghost lists = { lists_each listed_by };

    ghost waiting = { tasks_each waiting_in };

    ghost owes = { tasks_each owed_by };

    fn next_owed(&mut self) -> Option<u64> {
        hand_out(&mut self.nodes, &mut self.from)
    }

    ghost leads_itself = { leads_itself };

    ghost leads_on = { leads_on };

    ghost lists_some = { each_some listed_by waiting_in node_some };
}

impl Tokens {
    /// Returns a value without tokens, which has given out no key.
    pub fn new(alloc: Global) -> Tokens
        ensures { result ≡ [] }
    {
        Tokens {
            nodes: Table::new(alloc),
            from: 0,
        }
    }

    /// Returns how many tokens there are.
    pub fn len(&self) -> u64
        ensures { result ≡ count_of self.now }
    {
        self.nodes.count()
    }

    /// Returns whether the token with this key was cancelled. A key without a token counts as cancelled.
    pub fn is_cancelled(&self, key: u64) -> bool
        ensures { result ≡ is_cancelled self.now key }
    {
        is_cancelled_at(&self.nodes, key)
    }

    /// Shows that each token below a cancelled one is cancelled.
    pub fn shows_below(&self)
        ensures { (top k : ℕ) → is_cancelled self.now top ≡ true → IsBelow self.now top k → is_cancelled self.now k ≡ true }
    {
        let _nodes = &self.nodes;
    }

    /// Makes a token without a parent, and returns its key. Refused if out of memory, or if the keys are used up.
    pub fn make(&mut self, alloc: Global) -> Result<u64, AllocError>
        ensures made { Makes self.old None result self.new }
        ensures leads { LeadsEach Grows waiting_in owed_by self.old self.new }
        ensures keeps { (me : ℕ) → Keeps (lists_each listed_by) me self.old self.new }
    {
        self.add(alloc, None)
    }

    /// Makes a token below the one with this key, and returns its key. It is cancelled from the start if its parent was, or
    /// if no token has this key. Refused if out of memory, or if the keys are used up.
    pub fn child(&mut self, alloc: Global, parent: u64) -> Result<u64, AllocError>
        ensures made { Makes self.old (Some parent) result self.new }
        ensures leads { LeadsEach Grows waiting_in owed_by self.old self.new }
        ensures keeps { (me : ℕ) → Keeps (lists_each listed_by) me self.old self.new }
    {
        self.add(alloc, Some(parent))
    }

    // Makes a token with this parent.
    pub(crate) fn add(&mut self, alloc: Global, parent: Option<u64>) -> Result<u64, AllocError>
        ensures made { Makes self.old parent result self.new }
        ensures leads { LeadsEach Grows waiting_in owed_by self.old self.new }
        ensures keeps { (me : ℕ) → Keeps (lists_each listed_by) me self.old self.new }
    {
        add_to(&mut self.nodes, alloc, parent)
    }

    /// Cancels the token with this key and all below it: the tasks that wait for them are to be woken. Nothing changes if
    /// it was cancelled before, or if no token has this key.
    pub fn cancel(&mut self, key: u64)
        ensures answer { Cancels key self.old self.new }
        ensures leads { LeadsEach Grows waiting_in owed_by self.old self.new }
        ensures keeps { (me : ℕ) → Keeps (lists_each listed_by) me self.old self.new }
    {
        if is_cancelled_at(&self.nodes, key) {
            return;
        }
        cancel_from(&mut self.nodes, key);
        if key < self.from {
            self.from = key;
        }
    }

    /// Answers a future of this task once the token with this key was cancelled, or makes it wait. The ticket is the one
    /// that the future drew before.
    pub fn cancelled(&mut self, key: u64, ticket: Option<u64>, me: u64) -> Asked<()>
        ensures answer { Awaits key self.old ticket me result self.new }
        ensures leads { LeadsEach Grows waiting_in owed_by self.old self.new }
        ensures keeps { Keeps (lists_each listed_by) me self.old self.new }
    {
        ask_at(&mut self.nodes, key, ticket, me)
    }

    /// Takes a future out of those that wait for the token with this key, in a turn of this task.
    pub fn give_up(&mut self, key: u64, ticket: Option<u64>, me: u64)
        ensures answer { GivesUp key self.old ticket me self.new }
        ensures leads { LeadsEach Grows waiting_in owed_by self.old self.new }
        ensures keeps { Keeps (lists_each listed_by) me self.old self.new }
    {
        leave_at(&mut self.nodes, key, ticket, me)
    }

    /// Removes the token with this key, which counts as cancelled afterwards as it did before.
    ///
    /// Refused with `Missing` if it was removed or never made, with `Live` if it was not cancelled, and with `InUse` while a
    /// task waits for it: the runtime wakes it after the turn.
    pub fn remove(&mut self, key: u64) -> Result<(), RemoveError>
        ensures answer { Removes self.old key result self.new }
        ensures leads { LeadsEach Grows waiting_in owed_by self.old self.new }
        ensures keeps { (me : ℕ) → Keeps (lists_each listed_by) me self.old self.new }
    {
        remove_from(&mut self.nodes, key)
    }
}

// Returns whether the token with this key was cancelled, or is none.
fn is_cancelled_at(nodes: &Table<Token>, key: u64) -> bool
    ensures { result ≡ is_cancelled nodes.now key }
{
    match nodes.get(key) {
        None => true,
        Some(node) => node.is_cancelled,
    }
}

// Returns whether this parent was cancelled.
fn follows(nodes: &Table<Token>, parent: Option<u64>) -> bool
    ensures { result ≡ follows nodes.now parent }
{
    match parent {
        None => false,
        Some(parent) => is_cancelled_at(nodes, parent),
    }
}

// Makes a token with this parent.
fn add_to(nodes: &mut Table<Token>, alloc: Global, parent: Option<u64>) -> Result<u64, AllocError>
    ensures { Makes nodes.old parent result nodes.new }
{
    let key = nodes.len();
    if key == u64::MAX {
        return Err(AllocError);
    }
    let is_cancelled = follows(nodes, parent);
    match nodes.push(alloc, Token::new(alloc, parent, is_cancelled)) {
        Ok(()) => Ok(key),
        Err(_) => Err(AllocError),
    }
}

// Cancels the token with this key.
fn mark(nodes: &mut Table<Token>, key: u64)
    requires { is_some (value_at nodes.old key) ≡ true }
    ensures { Marks key nodes.old nodes.new }
{
    nodes.value_mut(key).is_cancelled = true;
}

// Cancels the token with this key if its parent was cancelled.
fn follow(nodes: &mut Table<Token>, key: u64)
    ensures { Follows key nodes.old nodes.new }
{
    let Some(node) = nodes.get(key) else {
        return;
    };
    if follows(nodes, node.parent) {
        mark(nodes, key);
    }
}

// Cancels the token with this key and all below it. Each of these has a greater key than its parent.
fn cancel_from(nodes: &mut Table<Token>, key: u64)
    requires grown { IsGrown nodes.old }
    requires live { is_cancelled nodes.old key ≡ false }
    ensures { Cancels key nodes.old nodes.new }
{
    let len = nodes.len();
    mark(nodes, key);
    let mut child = key + 1;
    while child < len {
        follow(nodes, child);
        child += 1;
    }
}

// Answers a future of this task once the token with this key was cancelled, or makes it wait.
fn ask_at(nodes: &mut Table<Token>, key: u64, ticket: Option<u64>, me: u64) -> Asked<()>
    ensures { Awaits key nodes.old ticket me result nodes.new }
{
    if nodes.get(key).is_none() {
        return Asked::Got(());
    }
    nodes.value_mut(key).ask(ticket, me)
}

// Takes a future out of those that wait for the token with this key.
fn leave_at(nodes: &mut Table<Token>, key: u64, ticket: Option<u64>, me: u64)
    ensures { GivesUp key nodes.old ticket me nodes.new }
{
    if nodes.get(key).is_none() {
        return;
    }
    nodes.value_mut(key).leave(ticket, me)
}

// Removes the token with this key, if it was cancelled and no task waits for it.
fn remove_from(nodes: &mut Table<Token>, key: u64) -> Result<(), RemoveError>
    ensures { Removes nodes.old key result nodes.new }
{
    let Some(node) = nodes.get(key) else {
        return Err(RemoveError::Missing);
    };
    if !node.is_cancelled {
        return Err(RemoveError::Live);
    }
    if !node.waiters.is_empty() {
        return Err(RemoveError::InUse);
    }
    nodes.remove(key);
    Ok(())
}

// Takes the first task out that the token with this key owes a wake.
fn pay_at(nodes: &mut Table<Token>, key: u64) -> Option<u64>
    ensures { PaysAt key nodes.old result nodes.new }
{
    if nodes.get(key).is_none() {
        return None;
    }
    nodes.value_mut(key).pay()
}

// Takes the first task out that is owed a wake. No token with a key less than `from` owes one.
fn hand_out(nodes: &mut Table<Token>, from: &mut u64) -> Option<u64>
    requires kept { IsKept nodes.old from.old }
    ensures kept { IsKept nodes.new from.new }
    ensures hands { Hands (lists_each listed_by) (tasks_each owed_by) nodes.old result nodes.new }
    ensures leads { LeadsEach Grows waiting_in owed_by nodes.old nodes.new }
{
    while *from < nodes.len() {
        if let Some(task) = pay_at(nodes, *from) {
            return Some(task);
        }
        *from += 1;
    }
    None
}
