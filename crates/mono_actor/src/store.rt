// The store of all actors: the entry of each, and the messages of all mailboxes.
ghost use Rattle.std.specs.Prelude.{◌≡◌, ◌<◌, ◌+◌, ◌-◌, ◌^◌, true, [], ◌∷◌, ◌++◌, None, Some, OnOk, OnErr, IfOk, IfErr, IfSome, is_some, length, slice_set};
ghost use Rattle.slab.specs.Slab.{slab_len};
ghost use Rattle.mono_model.specs.Table.{value_at};
ghost use Rattle.mono_actor.specs.Actors.{queued, got_in, in_mode};
ghost use Rattle.mono_actor.specs.Places.{receipt_of, timing_of, rest_of_turn, delivered, timed_actor, begun_actor, unread, first_of, rested, table_of, Changes};
ghost use Rattle.mono_actor.specs.QueueInvariants.{is_queued, of_actor};
ghost use Rattle.mono_actor.specs.Mailboxes.{Sound};
ghost use Rattle.mono_actor.specs.Uniqueness.{found};
ghost use Rattle.mono_actor.specs.declared.places.Mode.TheVariants as place;

use crate::answers::Got;
use crate::mailboxes::{Letter, Link, Mailbox, put, take};
use crate::places::{
    Entry, Gone, Receipt, Rest, Timing, end_turn, got_of, is_queued, new_entry, notify, ring,
    set_mailbox, set_timeout, start,
};
use mono_table::Table;
use slab::Slab;
use std::alloc::{AllocError, Global};

/// Actors at their numbers, none at the number of a removed one, and the messages in their mailboxes.
///
/// A message takes memory of the one store for all mailboxes, which can be used again once it is taken out. An actor
/// without messages takes that of its entry alone, in a table whose memory follows the number of live actors.
#[derive(Drop)]
pub(crate) struct Store<M> {
    entries: Table<Entry>,
    links: Slab<Link<M>>,
    pub ghost sound: { Sound links.slots (slab_len links) entries } by { Prim.hlevel found },
}

impl<M> Store<M> {
    ghost use Rattle.mono_actor.specs.Store.{places_of};

    /// Returns a store without actors.
    pub(crate) fn new(alloc: Global) -> Store<M>
        ensures { places_of result ≡ [] }
    {
        Store {
            entries: Table::new(alloc),
            links: Slab::new(alloc),
        }
    }

    /// Returns how many numbers were given.
    pub(crate) fn len(&self) -> u64
        ensures { result ≡ length (places_of self.now) }
    {
        self.entries.len()
    }

    /// Returns whether a number has an actor.
    #[inline(always)]
    pub(crate) fn is_there(&self, actor: u64) -> bool
        ensures { result ≡ is_some (value_at (places_of self.now) actor) }
    {
        self.entries.get(actor).is_some()
    }

    /// Returns whether a number has an actor that is queued.
    #[inline(always)]
    pub(crate) fn is_queued(&self, actor: u64) -> bool
        ensures { result ≡ of_actor is_queued (value_at (table_of (places_of self.now)) actor) }
    {
        match self.entries.get(actor) {
            None => false,
            Some(entry) => is_queued(entry),
        }
    }

    /// Adds an actor at the next number, with this key. It is refused only if it is out of memory; nothing changed
    /// then.
    pub(crate) fn push(&mut self, alloc: Global, timer: usize) -> Result<(), AllocError>
        requires { length (places_of self.old) < 2 ^ 64 - 1 }
        ensures after { OnOk result (places_of self.new ≡ places_of self.old ++ Some (record { mode = place.Idle None; mailbox = []; timeout = 0; timer = timer }) ∷ []) }
        ensures refused { OnErr result (places_of self.new ≡ places_of self.old) }
    {
        self.entries.push(alloc, new_entry(timer))
    }

    // Returns the mailbox of an actor.
    #[inline(always)]
    fn mailbox(&self, actor: u64) -> Mailbox
        requires { is_some (value_at self.now.entries actor) ≡ true }
        ensures { IfSome (value_at self.now.entries actor) (λ e. result ≡ e.mailbox) }
    {
        match self.entries.get(actor) {
            None => unreachable!(),
            Some(entry) => entry.mailbox,
        }
    }

    // Returns the key of an actor, and the number of messages in its mailbox.
    #[inline(always)]
    fn left(&self, actor: u64) -> Gone
        requires { is_some (value_at self.now.entries actor) ≡ true }
        ensures timer { IfSome (value_at self.now.entries actor) (λ e. result.timer ≡ e.timer) }
        ensures letters { IfSome (value_at self.now.entries actor) (λ e. result.letters ≡ e.mailbox.count) }
    {
        match self.entries.get(actor) {
            None => unreachable!(),
            Some(entry) => Gone {
                timer: entry.timer,
                letters: entry.mailbox.count as u64,
            },
        }
    }

    // Removes and returns the first message, if any.
    fn take(&mut self, actor: u64) -> Option<Letter<M>>
        requires { is_some (value_at (places_of self.old) actor) ≡ true }
        ensures taken { Changes unread actor (places_of self.old) (places_of self.new) }
        ensures first { IfSome (value_at (places_of self.old) actor) (λ p. result ≡ first_of p.mailbox) }
    {
        let mailbox = self.mailbox(actor);
        let taken = take(&mut self.links, mailbox)?;
        set_mailbox(self.entries.value_mut(actor), taken.rest);
        Some(taken.letter)
    }

    /// Appends a message to the mailbox. It comes back if the store is out of memory.
    pub(crate) fn receive(&mut self, actor: u64, letter: Letter<M>) -> Result<Receipt, Letter<M>>
        requires there { is_some (value_at (places_of self.old) actor) ≡ true }
        requires few { IfSome (value_at (places_of self.old) actor) (λ p. length p.mailbox + 1 < 2 ^ 64) }
        ensures becomes { OnOk result (Changes (delivered letter) actor (places_of self.old) (places_of self.new)) }
        ensures receipt { IfOk result (λ receipt. IfSome (value_at (places_of self.old) actor) (λ p. receipt ≡ receipt_of p)) }
        ensures refused { IfErr result (λ back. (back ≡ letter) × (places_of self.new ≡ places_of self.old)) }
    {
        let mailbox = self.mailbox(actor);
        let longer = put(&mut self.links, mailbox, letter)?;
        Ok(notify(self.entries.value_mut(actor), longer))
    }

    /// Sets the actor's timeout. An idle actor waits anew from now.
    pub(crate) fn set_timeout(&mut self, actor: u64, now: u64, timeout: u64) -> Timing
        requires { is_some (value_at (places_of self.old) actor) ≡ true }
        ensures becomes { Changes (timed_actor now timeout) actor (places_of self.old) (places_of self.new) }
        ensures timing { IfSome (value_at (places_of self.old) actor) (λ p. result ≡ timing_of now timeout p) }
    {
        set_timeout(self.entries.value_mut(actor), now, timeout)
    }

    /// Begins the actor's turn, with its first message or a timeout.
    pub(crate) fn begin_turn(&mut self, actor: u64) -> Got<M>
        requires { is_some (value_at (places_of self.old) actor) ≡ true }
        ensures becomes { Changes begun_actor actor (places_of self.old) (places_of self.new) }
        ensures got { IfSome (value_at (places_of self.old) actor) (λ p. result ≡ got_in p.mailbox) }
    {
        let letter = self.take(actor);
        start(self.entries.value_mut(actor));
        got_of(letter)
    }

    /// Ends the actor's turn, and keeps the actor.
    pub(crate) fn end_turn(&mut self, actor: u64, now: u64) -> Rest
        requires { is_some (value_at (places_of self.old) actor) ≡ true }
        ensures becomes { Changes (rested now) actor (places_of self.old) (places_of self.new) }
        ensures rest { IfSome (value_at (places_of self.old) actor) (λ p. result ≡ rest_of_turn now p) }
    {
        end_turn(self.entries.value_mut(actor), now)
    }

    /// Queues the actor, whose timeout has come.
    pub(crate) fn ring(&mut self, actor: u64)
        requires { is_some (value_at (places_of self.old) actor) ≡ true }
        ensures { Changes (λ a. in_mode a queued) actor (places_of self.old) (places_of self.new) }
    {
        ring(self.entries.value_mut(actor));
    }
}

impl<M: Drop> Store<M> {
    ghost use Rattle.mono_actor.specs.Store.{places_of};

    /// Removes the actor and the messages in its mailbox, which takes a step for each.
    pub(crate) fn take_away(&mut self, actor: u64) -> Gone
        requires { is_some (value_at (places_of self.old) actor) ≡ true }
        ensures gone { places_of self.new ≡ slice_set (places_of self.old) actor None }
        ensures timer { IfSome (value_at (places_of self.old) actor) (λ p. result.timer ≡ p.timer) }
        ensures letters { IfSome (value_at (places_of self.old) actor) (λ p. result.letters ≡ length p.mailbox) }
    {
        let left = self.left(actor);
        while let Some(_) = self.take(actor) {}
        self.entries.remove(actor);
        left
    }
}
