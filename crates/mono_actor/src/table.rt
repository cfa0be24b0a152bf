// Actors by their numbers, and the queue of those that run next.
ghost use Rattle.std.specs.Prelude.{◌≡◌, ◌<◌, ◌≤◌, ◌^◌, ℕ, ◌+◌, ◌-◌, true, None, Some, IfOk, OnOk, IfErr, OnErr, IfSome, is_some, length, vec_len, vec_capacity};
ghost use Rattle.mono_model.specs.Table.{value_at, count_of};
ghost use Rattle.mono_actor.specs.Consistency.{Holds};
ghost use Rattle.mono_actor.specs.Store.{places_of};

use crate::answers::{ActorError, After, Got, SendRefused, Sent};
use crate::mailboxes::Letter;
use crate::places::{Receipt, Rest, Timing, clock_tick, taken};
use crate::queues::Queue;
use crate::store::Store;
use crate::timers::Alarms;
use mono_time::Instant;
use mono_wheel::Steps;
use std::alloc::{AllocError, Global};
use std::sync::ledger::Ledger;

/// Actors with mailboxes, whose turns come one after another, and their receive timeouts.
///
/// An actor is idle, queued or running. An actor's turn is any code between [`Actors::begin`] and [`Actors::end`].
/// Numbers count from 0 and are never given twice. Timeouts are in milliseconds of the clock of [`Actors::clock`].
///
/// Only `new`, `spawn` and `send` take memory. An actor without messages takes that of its entry, and the memory of all
/// entries follows the number of live actors. A message takes memory of one store for all mailboxes, which can be used
/// again once it is read.
#[derive(Drop)]
pub struct Actors<M> {
    // The entries of the live actors, by number.
    places: Store<M>,
    queue: Queue,
    timers: Alarms,
    turn: Option<u64>,
    // The greatest tick of the clock so far.
    greatest: u64,
    most_actors: u64,
    most_messages: u64,
    live: u64,
    letters: u64,
    pub ghost holds: { Holds (places_of places) timers queue.items turn greatest live letters queue.seats },
}

impl<M> Actors<M> {
    ghost use Rattle.mono_actor.specs.Actors.{no_actors, if_granted, spawn_answer, spawned, send_answer, sent, sent_in, received_value, timeout_answer, timed, begin_answer, begun};
    ghost use Rattle.mono_actor.specs.Receives.{begin_of_answer, begun_of, waits_at};
    ghost use Rattle.mono_actor.specs.Callers.{OrLacksMemory, actors_of, without_message};

    /// Returns a table without actors, with room for `actors` live ones and `messages` messages in all mailboxes.
    pub fn new(alloc: Global, actors: u64, messages: u64) -> Result<Actors<M>, AllocError>
        ensures { IfOk result (λ a. actors_of a ≡ no_actors actors messages) }
    {
        let timers = Alarms::new(alloc)?;
        Ok(Actors {
            places: Store::new(alloc),
            queue: Queue::new(alloc),
            timers,
            turn: None,
            greatest: 0,
            most_actors: actors,
            most_messages: messages,
            live: 0,
            letters: 0,
        })
    }

    /// Returns how many actors are live.
    pub fn live(&self) -> usize
        ensures { result ≡ count_of (actors_of self.now).table }
    {
        self.live as usize
    }

    /// Returns whether a turn is running.
    pub fn is_running(&self) -> bool
        ensures { result ≡ is_some (actors_of self.now).turn }
    {
        self.turn.is_some()
    }

    /// Returns whether the actor is live and not queued: no message waits for it, and its timeout has not come.
    pub fn is_waiting(&self, actor: u64) -> bool
        ensures { result ≡ waits_at (actors_of self.now) actor }
    {
        self.places.is_there(actor) && !self.places.is_queued(actor)
    }

    /// Adds an actor with the next number. It is idle, its mailbox is empty, and it has no timeout.
    ///
    /// Refuses the call as `AtCapacity` if and only if the live actors are at the limit or the next number is 2^64 - 1,
    /// and otherwise if it is out of memory (`answer`). A refusal changes nothing (`after`).
    pub fn spawn(&mut self, alloc: Global) -> Result<u64, ActorError>
        ensures answer { OrLacksMemory (spawn_answer (actors_of self.old)) result }
        ensures after { actors_of self.new ≡ if_granted result (actors_of self.old) (spawned (actors_of self.old)) }
    {
        if self.live >= self.most_actors {
            return Err(ActorError::AtCapacity);
        }
        let number = self.places.len();
        if number == u64::MAX {
            return Err(ActorError::AtCapacity);
        }
        match self.enter(alloc) {
            Ok(()) => Ok(number),
            Err(_) => Err(ActorError::Memory),
        }
    }

    // Reserves a place for a new actor.
    fn enter(&mut self, alloc: Global) -> Result<(), AllocError>
        requires room { self.old.live < self.old.most_actors }
        requires number { length (places_of self.old.places) < 2 ^ 64 - 1 }
        ensures entered { OnOk result (actors_of self.new ≡ spawned (actors_of self.old)) }
        ensures refused { OnErr result (actors_of self.new ≡ actors_of self.old) }
    {
        self.queue.reserve(alloc)?;
        let timer = self.timers.add(alloc, self.places.len())?;
        match self.places.push(alloc, timer) {
            Ok(()) => {
                self.queue.add();
                self.live += 1;
                Ok(())
            }
            Err(error) => {
                self.timers.free(timer);
                Err(error)
            }
        }
    }

    /// Sends a message: it is appended to the mailbox of its receiver, with its sender. The answer is `Queued` if and
    /// only if the receiver was idle; it is then queued last, and waits for no tick.
    ///
    /// Refuses the call as `AtCapacity` if and only if the messages in all mailboxes are at the limit. Then it is
    /// refused as `NoActor` if and only if the sender or the receiver is not live, and otherwise if it is out of memory
    /// (`answer`). A refusal changes nothing (`after`) and returns the message (`back`).
    pub fn send(&mut self, from: u64, to: u64, message: M) -> Result<Sent, SendRefused<M>>
        ensures answer { OrLacksMemory (send_answer (actors_of self.old) from to) (without_message result) }
        ensures after { actors_of self.new ≡ if_granted (without_message result) (actors_of self.old) (sent (actors_of self.old) from to message) }
        ensures back { IfErr result (λ refused. refused.message ≡ message) }
    {
        if self.letters >= self.most_messages {
            return Err(SendRefused {
                cause: ActorError::AtCapacity,
                message,
            });
        }
        if !self.places.is_there(from) || !self.places.is_there(to) {
            return Err(SendRefused {
                cause: ActorError::NoActor,
                message,
            });
        }
        let letter = Letter {
            sender: from,
            message,
        };
        match self.deliver(to, letter) {
            Ok(what) => Ok(what),
            Err(back) => Err(SendRefused {
                cause: ActorError::Memory,
                message: back.message,
            }),
        }
    }

    // Delivers a message to an actor.
    fn deliver(&mut self, to: u64, letter: Letter<M>) -> Result<Sent, Letter<M>>
        requires there { is_some (value_at (places_of self.old.places) to) ≡ true }
        requires room { self.old.letters < self.old.most_messages }
        ensures told { IfOk result (λ what. IfSome (value_at (actors_of self.old).table to) (λ actor. what ≡ sent_in actor.mode)) }
        ensures after { OnOk result (actors_of self.new ≡ received_value (value_at (actors_of self.old).table to) (actors_of self.old) letter.sender to letter.message) }
        ensures refused { IfErr result (λ back. (back ≡ letter) × (actors_of self.new ≡ actors_of self.old)) }
    {
        let receipt = self.places.receive(to, letter)?;
        self.letters += 1;
        match receipt {
            Receipt::Queues(timer, tick) => {
                self.timers.clear(timer, tick);
                self.queue.push_back(to);
                Ok(Sent::Queued)
            }
            Receipt::Waits => Ok(Sent::Waits),
        }
    }

    /// Sets the receive timeout of an actor to `ms` milliseconds, or to none if that is 0. An idle actor waits anew
    /// from now.
    ///
    /// Refuses the call as `NoActor` if and only if no live actor has the number; then nothing changes.
    pub fn timeout(&mut self, actor: u64, ms: u64) -> Result<(), ActorError>
        ensures answer { result ≡ timeout_answer (actors_of self.old) actor }
        ensures after { actors_of self.new ≡ timed (actors_of self.old) actor ms }
    {
        if !self.places.is_there(actor) {
            return Err(ActorError::NoActor);
        }
        match self.places.set_timeout(actor, self.greatest, ms) {
            Timing::Rearms(timer, from, to) => {
                self.timers.clear(timer, from);
                self.timers.set(timer, to);
            }
            Timing::Keeps => {}
        }
        Ok(())
    }

    /// Begins the turn of the queue's front. It gets the first message of its mailbox, or a timeout if and only if its
    /// mailbox is empty. No turn may be running.
    ///
    /// Refuses the call as `Idle` if and only if the queue is empty; then nothing changes.
    pub fn begin(&mut self) -> Result<(u64, Got<M>), ActorError>
        requires { (actors_of self.old).turn ≡ None }
        ensures answer { result ≡ begin_answer (actors_of self.old) }
        ensures after { actors_of self.new ≡ begun (actors_of self.old) }
    {
        let front = match self.queue.pop_front() {
            None => return Err(ActorError::Idle),
            Some(front) => front,
        };
        let got = self.places.begin_turn(front);
        self.letters -= taken(&got);
        self.turn = Some(front);
        Ok((front, got))
    }

    /// Begins the turn of this actor if it is queued; it leaves the queue from wherever it is. It gets the first
    /// message of its mailbox, or a timeout if and only if its mailbox is empty. No turn may be running. It takes a few
    /// look-ups, for any number of actors and messages.
    ///
    /// Returns `None` if and only if the actor is live and not queued: no message waits for it, and its timeout has not
    /// come. Refuses the call as `NoActor` if and only if no live actor has the number (`answer`). In both cases nothing
    /// changes (`after`).
    pub fn begin_of(&mut self, actor: u64) -> Result<Option<Got<M>>, ActorError>
        requires { (actors_of self.old).turn ≡ None }
        ensures answer { result ≡ begin_of_answer (actors_of self.old) actor }
        ensures after { actors_of self.new ≡ begun_of (actors_of self.old) actor }
    {
        if !self.places.is_there(actor) {
            return Err(ActorError::NoActor);
        }
        if !self.places.is_queued(actor) {
            return Ok(None);
        }
        self.queue.remove(actor);
        let got = self.places.begin_turn(actor);
        self.letters -= taken(&got);
        self.turn = Some(actor);
        Ok(Some(got))
    }
}

impl<M: Drop> Actors<M> {
    ghost use Rattle.std.specs.Prelude.{false};
    ghost use Rattle.mono_actor.specs.Actors.{end_answer, ended, ended_value, with_table};
    ghost use Rattle.mono_actor.specs.QueueInvariants.{is_running, of_actor};
    ghost use Rattle.mono_model.specs.Table.{without};
    ghost use Rattle.mono_actor.specs.Callers.{actors_of};

    /// Ends the running turn; there has to be one. With `stop` the actor and its mailbox are removed (`Stopped`).
    /// Otherwise it is queued last if its mailbox is not empty (`Again`). If the mailbox is empty, the actor is idle,
    /// and waits for its timeout from now on (`Idle`).
    pub fn end(&mut self, stop: bool) -> After
        requires { is_some (actors_of self.old).turn ≡ true }
        ensures answer { (me : ℕ) → (actors_of self.old).turn ≡ Some me → result ≡ end_answer stop (value_at (actors_of self.old).table me) }
        ensures after { (me : ℕ) → (actors_of self.old).turn ≡ Some me → actors_of self.new ≡ ended stop (actors_of self.old) me }
    {
        let me = match self.turn {
            Some(me) => me,
            None => unreachable!(),
        };
        self.turn = None;
        if stop {
            self.stop(me);
            return After::Stopped;
        }
        self.rest(me)
    }

    // Removes the actor that ran.
    fn stop(&mut self, me: u64)
        requires runs { of_actor is_running (value_at (actors_of self.old).table me) ≡ true }
        requires over { (actors_of self.old).turn ≡ None }
        ensures { actors_of self.new ≡ with_table (actors_of self.old) (without (actors_of self.old).table me) }
    {
        let gone = self.places.take_away(me);
        self.timers.free(gone.timer);
        self.queue.free(me);
        self.letters -= gone.letters;
        self.live -= 1;
    }

    // Keeps the actor that ran.
    fn rest(&mut self, me: u64) -> After
        requires runs { of_actor is_running (value_at (actors_of self.old).table me) ≡ true }
        requires over { (actors_of self.old).turn ≡ None }
        ensures answer { result ≡ end_answer false (value_at (actors_of self.old).table me) }
        ensures after { actors_of self.new ≡ ended_value false (value_at (actors_of self.old).table me) (actors_of self.old) me }
    {
        match self.places.end_turn(me, self.greatest) {
            Rest::Again => {
                self.queue.push_back(me);
                After::Again
            }
            Rest::Waits(timer, tick) => {
                self.timers.set(timer, tick);
                After::Idle
            }
        }
    }
}

impl<M> Actors<M> {
    ghost use Rattle.std.specs.Prelude.{MatchOption, OnSome};
    ghost use Rattle.mono_time.specs.Instants.{nanos_of};
    ghost use Rattle.mono_actor.specs.ClockSteps.{IsNoneDue, RingsFirst, RingsAll, waiting_count};
    ghost use Rattle.mono_actor.specs.Callers.{actors_of, credit_left, ListsAndQueues};

    /// Shows the clock `now`: the greatest tick becomes the greater of itself and the reading's tick, rounded down. The
    /// actors whose wait has come are queued, in ascending ticks, and their numbers are appended to `due` in that order
    /// (`queued`). `due` has to have room for all live actors, and no turn may be running. The steps are exactly the
    /// fall of the wheel's credit.
    pub fn clock<L: Ledger>(&mut self, now: Instant, due: &mut Vec<u64>, steps: &mut Steps<L>)
        requires over { (actors_of self.old).turn ≡ None }
        requires room { vec_len due.old + count_of (actors_of self.old).table ≤ vec_capacity due.old }
        ensures queued { ListsAndQueues (actors_of self.old) (nanos_of now) due.old.items due.new.items (actors_of self.new) }
        ensures capacity { vec_capacity due.new ≡ vec_capacity due.old }
        ensures steps { steps.new + credit_left self.new ≡ steps.old + credit_left self.old }
    {
        self.greatest = self.greatest.max(clock_tick(now));
        self.ring_all(due, steps);
    }

    // Queues all actors whose wait has come.
    fn ring_all<L: Ledger>(&mut self, due: &mut Vec<u64>, steps: &mut Steps<L>)
        requires over { (actors_of self.old).turn ≡ None }
        requires room { vec_len due.old + waiting_count (actors_of self.old) ≤ vec_capacity due.old }
        ensures rings { RingsAll (actors_of self.old) due.old.items due.new.items (actors_of self.new) }
        ensures capacity { vec_capacity due.new ≡ vec_capacity due.old }
        ensures steps { steps.new + credit_left self.new ≡ steps.old + credit_left self.old }
    {
        while let Some(actor) = self.ring_first(steps) {
            due.push_reserved(actor);
        }
    }

    // Queues the first actor whose wait has come.
    fn ring_first<L: Ledger>(&mut self, steps: &mut Steps<L>) -> Option<u64>
        requires { (actors_of self.old).turn ≡ None }
        ensures rings { MatchOption result (IsNoneDue (actors_of self.old) × (actors_of self.new ≡ actors_of self.old)) (RingsFirst (actors_of self.old) (actors_of self.new)) }
        ensures fewer { OnSome result (waiting_count (actors_of self.new) + 1 ≡ waiting_count (actors_of self.old)) }
        ensures steps { steps.new + credit_left self.new ≡ steps.old + credit_left self.old }
    {
        let actor = self.timers.poll(self.greatest, steps)?;
        self.places.ring(actor);
        self.queue.push_back(actor);
        Some(actor)
    }
}
