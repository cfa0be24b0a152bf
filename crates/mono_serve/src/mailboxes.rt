// Actors with mailboxes as a plain value, with the tasks that wait for messages.
ghost use Rattle.std.specs.Prelude.{◌≡◌, ◌+◌, ◌≤◌, None};
ghost use Rattle.std.specs.VecDeque.{deque_len, deque_capacity};
ghost use Rattle.mono_actor.specs.Callers.{actors_of};

use mono_actor::{ActorError, Actors, Got, SendRefused, Sent};
use mono_task::SharedState;
use std::alloc::{AllocError, Global};
use std::collections::VecDeque;

/// A task that waits for a message to an actor, with the ticket that its future drew.
#[derive(Clone, Copy, Debug, PartialEq, Eq)]
pub struct Receiver {
    pub(crate) ticket: u64,
    pub(crate) actor: u64,
    pub(crate) task: u64,
}

/// Actors with mailboxes, and the tasks that wait for messages, first come, first served for each actor.
///
/// Each receive is a whole turn of its actor. Once an actor has a message or was removed, the first task that waits for
/// it is called: it is owed a wake, and no other task is called for the actor until its future has its answer.
#[derive(Drop)]
pub struct Mailboxes<M> {
    pub(crate) actors: Actors<M>,
    // The waiting tasks of all actors that were not called, in the order of their arrival.
    pub(crate) waiters: VecDeque<Receiver>,
    // The tasks that were called, and have not asked again.
    pub(crate) called: VecDeque<Receiver>,
    // The tasks that are owed a wake, in order, with their places.
    pub(crate) due: VecDeque<Receiver>,
    // The next ticket.
    pub(crate) next: u64,
    pub ghost over: { (actors_of actors).turn ≡ None },
    // Each waiting task may be called.
    pub ghost seats: { deque_len called + deque_len waiters ≤ deque_capacity called },
    // A task becomes due if it is called, and if it leaves in a turn of another task.
    pub ghost room: { deque_len due + (deque_len called + (deque_len waiters + deque_len waiters)) ≤ deque_capacity due },
}

/// The answer to a future that asks for a message.
#[derive(Debug, PartialEq, Eq, Drop)]
pub enum Received<M> {
    /// The first message of the actor's mailbox, with its sender. The task waits no longer.
    Got(u64, M),
    /// No message is there for the future, and the task waits with this ticket.
    Waits(u64),
    /// No live actor has the number, or out of memory. The task waits no longer.
    Refused(ActorError),
}

/// Calls alone lead from some mailboxes to others. A task is listed at the actor and the ticket with which it waits.
impl<M> SharedState for Mailboxes<M> {
    ghost use Rattle.mono_sync.specs.Runs.{Leads, leads_itself, leads_on};
    ghost use Rattle.mono_serve.specs.MailCalls.{listed_in, lists_task, waiting_in, owed_by, some_waits, Step};

    ghost leads = { Leads Step };

    ghost names = { lists_task };

    ghost lists = { listed_in };

    ghost waiting = { waiting_in };

    ghost owes = { owed_by };

    fn next_owed(&mut self) -> Option<u64> {
        if self.due.is_empty() {
            return None;
        }
        let Some(first) = self.due.pop_front() else {
            unreachable!()
        };
        Some(first.task)
    }

    ghost leads_itself = { leads_itself Step };

    ghost leads_on = { leads_on Step };

    ghost lists_some = { some_waits };
}

impl<M> Mailboxes<M> {
    ghost use Rattle.std.specs.Prelude.{◌==◌, ◌<◌, ◌++◌, [], OnSome, IfOk, OnOk};
    ghost use Rattle.std.specs.List.{list_any};
    ghost use Rattle.mono_actor.specs.Actors.{no_actors};
    ghost use Rattle.mono_serve.specs.MailCalls.{place_of, first_place, is_there, has_actor, is_ready, others, SameLine, SameBut, Spawns, Sends, Joins, CallsAt, CallsPlace, CallsNext, LeavesLine, OutOfCalled, LeavesCalled, GivesUp, Then};

    /// Returns mailboxes without actors. At most `actors` may be live, with at most `messages` messages in all.
    pub fn new(alloc: Global, actors: u64, messages: u64) -> Result<Mailboxes<M>, AllocError>
        ensures actors { IfOk result (λ made. actors_of made.actors ≡ no_actors actors messages) }
        ensures waiters { IfOk result (λ made. made.waiters.items ≡ []) }
        ensures called { IfOk result (λ made. made.called.items ≡ []) }
        ensures due { IfOk result (λ made. made.due.items ≡ []) }
        ensures next { IfOk result (λ made. made.next ≡ 0) }
    {
        let actors = Actors::new(alloc, actors, messages)?;
        Ok(Mailboxes {
            actors,
            waiters: VecDeque::new(alloc),
            called: VecDeque::new(alloc),
            due: VecDeque::new(alloc),
            next: 0,
        })
    }

    /// Adds an actor, as [`Actors::spawn`] does.
    pub fn spawn(&mut self, alloc: Global) -> Result<u64, ActorError>
        ensures { Spawns self.old result self.new }
    {
        self.actors.spawn(alloc)
    }

    // Sends a message.
    fn deliver(&mut self, from: u64, to: u64, message: M) -> Result<Sent, SendRefused<M>>
        ensures { Sends self.old from to message result self.new }
    {
        self.actors.send(from, to, message)
    }

    /// Sends a message, as [`Actors::send`] does. The first task that waits for it is owed a wake, if none was called.
    pub fn send(&mut self, from: u64, to: u64, message: M) -> Result<Sent, SendRefused<M>>
        ensures { Then (Sends self.old from to message result) to self.new }
    {
        let answer = self.deliver(from, to, message);
        self.call_next(to);
        answer
    }

    // Returns the place of the future with this ticket in the line.
    fn place_of(&self, ticket: u64) -> Option<usize>
        ensures { result ≡ place_of self.now.waiters.items ticket }
    {
        self.waiters.iter().position(|w| w.ticket == ticket)
    }

    // Returns the place of the future with this ticket among those that were called.
    fn called_place(&self, ticket: u64) -> Option<usize>
        ensures { result ≡ place_of self.now.called.items ticket }
    {
        self.called.iter().position(|w| w.ticket == ticket)
    }

    // Returns the place of the first task that waits for the actor, and was not called.
    fn first_place(&self, actor: u64) -> Option<usize>
        ensures { result ≡ first_place self.now.waiters.items actor }
    {
        self.waiters.iter().position(|w| w.actor == actor)
    }

    // Returns whether this task waits for the actor with the ticket, and was not called.
    fn is_there(&self, ticket: u64, actor: u64, task: u64) -> bool
        ensures { result ≡ is_there self.now.waiters.items ticket actor task }
    {
        self.waiters.iter().any(|w| w.ticket == ticket && w.actor == actor && w.task == task)
    }

    // Returns whether this task was called for the actor with the ticket.
    fn is_called(&self, ticket: u64, actor: u64, task: u64) -> bool
        ensures { result ≡ is_there self.now.called.items ticket actor task }
    {
        self.called.iter().any(|w| w.ticket == ticket && w.actor == actor && w.task == task)
    }

    // Returns whether a task waits for the actor, and was not called.
    fn has_waiter(&self, actor: u64) -> bool
        ensures { result ≡ has_actor self.now.waiters.items actor }
    {
        self.waiters.iter().any(|w| w.actor == actor)
    }

    // Returns whether a task was called for the actor.
    fn has_called(&self, actor: u64) -> bool
        ensures { result ≡ has_actor self.now.called.items actor }
    {
        self.called.iter().any(|w| w.actor == actor)
    }

    // Returns whether the first task that waits for the actor is to be called.
    fn is_ready(&self, actor: u64) -> bool
        ensures { result ≡ is_ready self.now actor }
    {
        !self.actors.is_waiting(actor) && !self.has_called(actor)
    }

    // Calls the task at this place of the line.
    fn call_at(&mut self, place: usize)
        requires { place < deque_len self.old.waiters }
        ensures { CallsAt place self.old self.new }
    {
        let first = self.waiters[place];
        let _ = self.waiters.remove(place);
        self.called.push_back_reserved(first);
        self.due.push_back_reserved(first);
    }

    // Calls the first task that waits for the actor.
    fn call_first(&mut self, actor: u64)
        ensures { CallsPlace (first_place self.old.waiters.items actor) self.old self.new }
    {
        if let Some(place) = self.first_place(actor) {
            self.call_at(place);
        }
    }

    // Calls the first task that waits for the actor, if the actor has a message or was removed and no task was called.
    fn call_next(&mut self, actor: u64)
        ensures { CallsNext self.old actor self.new }
    {
        if self.is_ready(actor) {
            self.call_first(actor);
        }
    }

    // Makes a task due that waits no longer, unless it is the running one.
    fn owe_left(&mut self, left: Receiver, me: u64)
        requires { deque_len self.old.due + (deque_len self.old.called + (deque_len self.old.waiters + deque_len self.old.waiters)) < deque_capacity self.old.due }
        ensures due { self.new.due.items ≡ self.old.due.items ++ others left me }
        ensures line { SameBut self.old self.new }
    {
        if left.task != me {
            self.due.push_back_reserved(left);
        }
    }

    // Takes the future at this place out of the line, in a turn of the task `me`.
    fn leave_line(&mut self, place: usize, me: u64)
        requires { place < deque_len self.old.waiters }
        ensures { LeavesLine place self.old me self.new }
    {
        let left = self.waiters[place];
        let _ = self.waiters.remove(place);
        self.owe_left(left, me);
    }

    // Takes the future at this place out of those that were called, in a turn of the task `me`.
    fn drop_called(&mut self, place: usize, me: u64) -> Receiver
        requires { place < deque_len self.old.called }
        ensures { OutOfCalled place self.old me result self.new }
    {
        let left = self.called[place];
        let _ = self.called.remove(place);
        self.owe_left(left, me);
        left
    }

    // Takes the future at this place out of those that were called, in a turn of the task `me`. The next one of its actor
    // is called.
    fn leave_called(&mut self, place: usize, me: u64)
        requires { place < deque_len self.old.called }
        ensures { LeavesCalled place self.old me self.new }
    {
        let left = self.drop_called(place, me);
        self.call_next(left.actor);
    }

    /// Takes the future with this ticket out of the line, in a turn of the task `me`. If another task waits with the
    /// ticket, it is owed a wake. If the future was called, the next one of its actor is called.
    pub fn give_up(&mut self, ticket: u64, me: u64)
        ensures { GivesUp self.old ticket me self.new }
    {
        match self.called_place(ticket) {
            Some(place) => self.leave_called(place, me),
            None => {
                if let Some(place) = self.place_of(ticket) {
                    self.leave_line(place, me);
                }
            }
        }
    }

    // Makes room for one more waiting task.
    fn reserve(&mut self) -> Result<(), AllocError>
        ensures same { SameBut self.old self.new × (self.new.due.items ≡ self.old.due.items) }
        ensures waiter { OnOk result (deque_len self.new.waiters < deque_capacity self.new.waiters) }
        ensures seat { OnOk result (deque_len self.new.called + deque_len self.new.waiters < deque_capacity self.new.called) }
        ensures due { OnOk result (deque_len self.new.due + (deque_len self.new.called + (deque_len self.new.waiters + deque_len self.new.waiters)) + 2 ≤ deque_capacity self.new.due) }
    {
        let count = self.waiters.len();
        let Some(seats) = count.checked_add(1) else {
            return Err(AllocError);
        };
        let Some(twice) = seats.checked_add(seats) else {
            return Err(AllocError);
        };
        let Some(more) = twice.checked_add(self.called.len()) else {
            return Err(AllocError);
        };
        self.due.reserve(more)?;
        self.called.reserve(seats)?;
        self.waiters.reserve(1)
    }

    // Appends a task to the line, with the next ticket.
    fn join(&mut self, actor: u64, task: u64) -> Received<M>
        ensures { Joins self.old actor task result self.new }
    {
        let ticket = self.next;
        let Some(next) = ticket.checked_add(1) else {
            return Received::Refused(ActorError::Memory);
        };
        match self.reserve() {
            Err(_) => Received::Refused(ActorError::Memory),
            Ok(()) => {
                self.next = next;
                self.waiters.push_back_reserved(Receiver {
                    ticket,
                    actor,
                    task,
                });
                Received::Waits(ticket)
            }
        }
    }
}

impl<M: Drop> Mailboxes<M> {
    ghost use Rattle.mono_serve.specs.MailCalls.{take_answer, taken, SameLine, Stops, Collects, Fresh, Asks, Returns, Receives, Then};

    // Takes the first message of an actor, as a whole turn of it.
    fn take(&mut self, actor: u64) -> Result<Option<(u64, M)>, ActorError>
        ensures answer { result ≡ take_answer (actors_of self.old.actors) actor }
        ensures actors { actors_of self.new.actors ≡ taken (actors_of self.old.actors) actor }
        ensures line { SameLine self.old self.new }
    {
        match self.actors.begin_of(actor) {
            Err(error) => Err(error),
            Ok(None) => Ok(None),
            Ok(Some(got)) => {
                let _ = self.actors.end(false);
                match got {
                    Got::Message(from, message) => Ok(Some((from, message))),
                    Got::Timeout => Ok(None),
                }
            }
        }
    }

    // Removes an actor that has a message.
    fn remove(&mut self, actor: u64) -> Result<(), ActorError>
        ensures { Stops self.old actor result self.new }
    {
        match self.actors.begin_of(actor) {
            Err(error) => Err(error),
            Ok(None) => Err(ActorError::Idle),
            Ok(Some(_)) => {
                let _ = self.actors.end(true);
                Ok(())
            }
        }
    }

    /// Removes an actor that has a message, and its mailbox. The first task that waits for it is owed a wake, if none was
    /// called.
    ///
    /// Refuses the call as `NoActor` if and only if no live actor has the number, and as `Idle` if and only if no
    /// message waits for it.
    pub fn stop(&mut self, actor: u64) -> Result<(), ActorError>
        ensures { Then (Stops self.old actor result) actor self.new }
    {
        let answer = self.remove(actor);
        self.call_next(actor);
        answer
    }

    // Answers a future that was called.
    fn collect(&mut self, ticket: u64, actor: u64, task: u64) -> Received<M>
        ensures { Collects self.old ticket actor task result self.new }
    {
        match self.take(actor) {
            Ok(Some((from, message))) => {
                self.give_up(ticket, task);
                Received::Got(from, message)
            }
            Ok(None) => {
                self.give_up(ticket, task);
                self.join(actor, task)
            }
            Err(error) => {
                self.give_up(ticket, task);
                Received::Refused(error)
            }
        }
    }

    // Answers a future that is not in the line, while no task waits for the actor.
    fn take_or_join(&mut self, actor: u64, task: u64) -> Received<M>
        ensures { Asks self.old actor task result self.new }
    {
        match self.take(actor) {
            Ok(Some((from, message))) => Received::Got(from, message),
            Ok(None) => self.join(actor, task),
            Err(error) => Received::Refused(error),
        }
    }

    // Answers a future that is not in the line.
    fn ask_anew(&mut self, actor: u64, task: u64) -> Received<M>
        ensures { Fresh self.old actor task result self.new }
    {
        if self.has_waiter(actor) || self.has_called(actor) {
            return self.join(actor, task);
        }
        self.take_or_join(actor, task)
    }

    /// Answers a future that asks for the first message of an actor. It gets the message if it was called, or if no task
    /// waits for the actor. Otherwise the task waits: with this ticket if it has it, and else with a new one.
    pub fn receive(&mut self, ticket: Option<u64>, actor: u64, task: u64) -> Received<M>
        ensures { Receives self.old ticket actor task result self.new }
    {
        match ticket {
            None => self.ask_anew(actor, task),
            Some(ticket) => {
                if self.is_there(ticket, actor, task) {
                    return Received::Waits(ticket);
                }
                self.ask_again(ticket, actor, task)
            }
        }
    }

    // Answers a future with a ticket that does not wait in the line for this task.
    fn ask_again(&mut self, ticket: u64, actor: u64, task: u64) -> Received<M>
        ensures { Returns self.old ticket actor task result self.new }
    {
        if self.is_called(ticket, actor, task) {
            return self.collect(ticket, actor, task);
        }
        self.give_up(ticket, task);
        self.ask_anew(actor, task)
    }
}
