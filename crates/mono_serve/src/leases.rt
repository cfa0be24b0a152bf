// Leases as a plain value, with the tasks that wait for keys.
ghost use Rattle.std.specs.Prelude.{◌≡◌, ◌<◌, ◌≤◌, ◌+◌, [], ℕ, List, Option, OnSome, OnOk, IfOk};
ghost use Rattle.std.specs.VecDeque.{deque_len, deque_capacity};

use mono_session::{SessionError, Sessions};
use mono_task::SharedState;
use mono_time::Instant;
use std::alloc::{AllocError, Global};
use std::collections::VecDeque;

/// A task that waits for a key in the name of a session, with the ticket that its future drew.
#[derive(Clone, Copy, Debug, PartialEq, Eq)]
pub struct LockWaiter {
    pub(crate) ticket: u64,
    pub(crate) session: u64,
    pub(crate) key: u64,
    pub(crate) task: u64,
}

/// Sessions that stay open by heartbeats, the queues of their keys, and the tasks that wait for keys.
///
/// Each call first shows the sessions' clock the instant that it is given. So no call finds a session open whose time
/// is over. Each call makes the tasks due whose session waits no longer: they are owed a wake. The keeper is owed one if
/// it sleeps past the next tick at which a session may be closed.
#[derive(Drop)]
pub struct Leases {
    pub(crate) sessions: Sessions,
    // The waiting tasks of all keys, in the order of their arrival.
    pub(crate) waiters: VecDeque<LockWaiter>,
    // The tasks that are owed a wake, in order, with their places.
    pub(crate) due: VecDeque<LockWaiter>,
    // The next ticket.
    pub(crate) next: u64,
    // The keeper's task, if it sleeps.
    pub(crate) keeper: Option<u64>,
    // The tick until which the keeper sleeps; none if it waits for a session.
    pub(crate) alarm: Option<u64>,
    // Whether the keeper sleeps past the next tick at which a session may be closed.
    pub(crate) late: bool,
    // Each waiting task may become due.
    pub ghost room: { deque_len due + deque_len waiters ≤ deque_capacity due },
}

/// The answer to a future that asks for a key.
#[derive(Clone, Copy, Debug, PartialEq, Eq)]
pub enum Claimed {
    /// The session holds the key.
    Held,
    /// The session is in the key's queue behind another, and its task waits with this ticket.
    Waits(u64),
    /// The session did not enter the queue.
    Refused(SessionError),
}

/// The answer to a future that waits for a key.
#[derive(Clone, Copy, Debug, PartialEq, Eq)]
pub enum Looked {
    /// The session holds the key, and its task waits no longer.
    Held,
    /// The session is still behind another, and the task that asks waits with this ticket.
    Waits(u64),
    /// The session was closed, or left the queue by another call. Its task waits no longer.
    Lost,
    /// Out of memory. The session left the queue, and its task waits no longer.
    Memory,
}

/// Calls alone lead from some leases to others. A task is listed at the key and the ticket with which it waits. The
/// keeper is not listed.
impl SharedState for Leases {
    ghost use Rattle.mono_sync.specs.Runs.{Leads, leads_itself, leads_on};
    ghost use Rattle.mono_serve.specs.LeaseCalls.{listed_in, lists_task, waiting_in, owed_by, some_waits, Step};

    ghost leads = { Leads Step };

    ghost names = { lists_task };

    ghost lists = { listed_in };

    ghost waiting = { waiting_in };

    ghost owes = { owed_by };

    fn next_owed(&mut self) -> Option<u64> {
        match self.late_keeper() {
            Some(task) => {
                self.keeper = None;
                Some(task)
            }
            None => self.next_due(),
        }
    }

    ghost leads_itself = { leads_itself Step };

    ghost leads_on = { leads_on Step };

    ghost lists_some = { some_waits };
}

impl Leases {
    ghost use Rattle.mono_time.specs.Instants.{nanos_of};
    ghost use Rattle.mono_session.specs.Answers.{of_number, of_done};
    ghost use Rattle.mono_session.specs.Calls as call;
    ghost use Rattle.mono_session.specs.Keeper.{Keeper, no_sessions, is_open, owner_answer};
    ghost use Rattle.mono_session.specs.Refinement.{StandsFor};
    ghost use Rattle.mono_serve.specs.LeaseCalls.{place_of, is_there, late_one, still_waits, without, MovesTo, ShownTo, ShownAt, Calls, Claims, Sees, Lingers, Looks, GivesUp, first_served, Serves, ServesAll, IsNext, Rests, Forgets, Notes, Settles, Then, NextDue, LineJoins, SameLine, SameRest, is_late};

    // Shows the sessions' clock an instant.
    fn show(sessions: &mut Sessions, alloc: Global, now: Instant) -> Result<(), AllocError>
        ensures { MovesTo sessions.old (ShownTo (nanos_of now) result) sessions.new }
    {
        let mut closed = Vec::new(alloc);
        sessions.advance(alloc, now, &mut closed)
    }

    // Returns the keeper's task, if it sleeps too long.
    fn late_keeper(&self) -> Option<u64>
        ensures { result ≡ late_one self.now.late self.now.keeper }
    {
        if self.late { self.keeper } else { None }
    }

    // Takes out the first task that is due.
    fn next_due(&mut self) -> Option<u64>
        ensures { NextDue self.old result self.new }
    {
        if self.due.is_empty() {
            return None;
        }
        let Some(first) = self.due.pop_front() else {
            unreachable!()
        };
        Some(first.task)
    }

    /// Returns leases without sessions. At most `sessions` may be open, with at most `entries` entries in all queues.
    pub fn new(alloc: Global, sessions: u64, entries: u64) -> Result<Leases, AllocError>
        ensures sessions { IfOk result (λ made. StandsFor made.sessions (no_sessions sessions entries)) }
        ensures waiters { IfOk result (λ made. made.waiters.items ≡ []) }
        ensures due { IfOk result (λ made. made.due.items ≡ []) }
        ensures next { IfOk result (λ made. made.next ≡ 0) }
    {
        let sessions = Sessions::new(alloc, sessions, entries)?;
        Ok(Leases {
            sessions,
            waiters: VecDeque::new(alloc),
            due: VecDeque::new(alloc),
            next: 0,
            keeper: None,
            alarm: None,
            late: false,
        })
    }

    /// Returns whether a session is open, as of the latest instant that the clock was shown.
    pub fn is_open(&self, session: u64) -> bool
        ensures { (k : Keeper) → StandsFor self.now.sessions k → result ≡ is_open k session }
    {
        self.sessions.is_open(session)
    }

    /// Returns the session that owns a key, if any, as of the latest instant that the clock was shown.
    pub fn owner(&self, key: u64) -> Option<u64>
        ensures { (k : Keeper) → StandsFor self.now.sessions k → result ≡ owner_answer k key }
    {
        self.sessions.owner(key)
    }

    // Shows the sessions' clock an instant.
    fn advance_clock(&mut self, alloc: Global, now: Instant) -> Result<(), AllocError>
        ensures { ShownAt self.old (nanos_of now) result self.new }
    {
        Leases::show(&mut self.sessions, alloc, now)
    }

    /// Shows the sessions' clock an instant, and closes those whose time is over. If out of memory, no session is closed.
    pub fn advance(&mut self, alloc: Global, now: Instant) -> Result<(), AllocError>
        ensures { Then (ShownAt self.old (nanos_of now) result) self.new }
    {
        let answer = self.advance_clock(alloc, now);
        self.settle();
        answer
    }

    // Opens a session.
    fn open_session(
        &mut self,
        alloc: Global,
        now: Instant,
        limit_ms: u64,
    ) -> Result<u64, SessionError>
        ensures { Calls self.old (nanos_of now) (call.Open limit_ms) (of_number result) self.new }
    {
        match Leases::show(&mut self.sessions, alloc, now) {
            Ok(()) => self.sessions.open(alloc, limit_ms),
            Err(_) => Err(SessionError::Memory),
        }
    }

    /// Opens a session at an instant, as [`Sessions::open`] does.
    pub fn open(&mut self, alloc: Global, now: Instant, limit_ms: u64) -> Result<u64, SessionError>
        ensures { Then (Calls self.old (nanos_of now) (call.Open limit_ms) (of_number result)) self.new }
    {
        let answer = self.open_session(alloc, now, limit_ms);
        self.settle();
        answer
    }

    // Renews a session.
    fn beat_session(
        &mut self,
        alloc: Global,
        now: Instant,
        session: u64,
    ) -> Result<(), SessionError>
        ensures { Calls self.old (nanos_of now) (call.Beat session) (of_done result) self.new }
    {
        match Leases::show(&mut self.sessions, alloc, now) {
            Ok(()) => self.sessions.beat(session),
            Err(_) => Err(SessionError::Memory),
        }
    }

    /// Renews a session at an instant, as [`Sessions::beat`] does.
    pub fn beat(&mut self, alloc: Global, now: Instant, session: u64) -> Result<(), SessionError>
        ensures { Then (Calls self.old (nanos_of now) (call.Beat session) (of_done result)) self.new }
    {
        let answer = self.beat_session(alloc, now, session);
        self.settle();
        answer
    }

    // Closes a session.
    fn close_session(
        &mut self,
        alloc: Global,
        now: Instant,
        session: u64,
    ) -> Result<(), SessionError>
        ensures { Calls self.old (nanos_of now) (call.Close session) (of_done result) self.new }
    {
        match Leases::show(&mut self.sessions, alloc, now) {
            Ok(()) => self.sessions.close(session),
            Err(_) => Err(SessionError::Memory),
        }
    }

    /// Closes a session at an instant, as [`Sessions::close`] does.
    pub fn close(&mut self, alloc: Global, now: Instant, session: u64) -> Result<(), SessionError>
        ensures { Then (Calls self.old (nanos_of now) (call.Close session) (of_done result)) self.new }
    {
        let answer = self.close_session(alloc, now, session);
        self.settle();
        answer
    }

    // Removes a session from the queue of a key.
    fn release_key(
        &mut self,
        alloc: Global,
        now: Instant,
        session: u64,
        key: u64,
    ) -> Result<(), SessionError>
        ensures { Calls self.old (nanos_of now) (call.Release session key) (of_done result) self.new }
    {
        match Leases::show(&mut self.sessions, alloc, now) {
            Ok(()) => self.sessions.release(session, key),
            Err(_) => Err(SessionError::Memory),
        }
    }

    /// Removes a session from the queue of a key at an instant, as [`Sessions::release`] does. The next holder's task is
    /// owed a wake, if it waits.
    pub fn release(
        &mut self,
        alloc: Global,
        now: Instant,
        session: u64,
        key: u64,
    ) -> Result<(), SessionError>
        ensures { Then (Calls self.old (nanos_of now) (call.Release session key) (of_done result)) self.new }
    {
        let answer = self.release_key(alloc, now, session, key);
        self.settle();
        answer
    }

    // Makes room for one more waiting task, which may become due.
    fn reserve(&mut self) -> Result<(), AllocError>
        ensures sessions { self.new.sessions ≡ self.old.sessions }
        ensures line { SameLine self.old self.new }
        ensures rest { SameRest self.old self.new }
        ensures waiter { OnOk result (deque_len self.new.waiters < deque_capacity self.new.waiters) }
        ensures due { OnOk result (deque_len self.new.due + deque_len self.new.waiters < deque_capacity self.new.due) }
    {
        let Some(more) = self.waiters.len().checked_add(1) else {
            return Err(AllocError);
        };
        self.due.reserve(more)?;
        self.waiters.reserve(1)
    }

    // Appends a session to the queue of a key.
    fn acquire_key(
        &mut self,
        alloc: Global,
        now: Instant,
        session: u64,
        key: u64,
        task: u64,
    ) -> Claimed
        ensures { Claims self.old (nanos_of now) session key task result self.new }
    {
        let Some(next) = self.next.checked_add(1) else {
            return Claimed::Refused(SessionError::Memory);
        };
        match self.reserve() {
            Ok(()) => self.enter(alloc, now, session, key, task, next),
            Err(_) => Claimed::Refused(SessionError::Memory),
        }
    }

    /// Appends a session to the queue of a key at an instant, as [`Sessions::acquire`] does. If it is not the first
    /// there, the task waits from now on.
    pub fn acquire(
        &mut self,
        alloc: Global,
        now: Instant,
        session: u64,
        key: u64,
        task: u64,
    ) -> Claimed
        ensures { Then (Claims self.old (nanos_of now) session key task result) self.new }
    {
        let answer = self.acquire_key(alloc, now, session, key, task);
        self.settle();
        answer
    }

    // Appends a session to the queue of a key. There is room for the task, and the ticket after its own is `next`.
    fn enter(
        &mut self,
        alloc: Global,
        now: Instant,
        session: u64,
        key: u64,
        task: u64,
        next: u64,
    ) -> Claimed
        requires room { deque_len self.old.waiters < deque_capacity self.old.waiters }
        requires due { deque_len self.old.due + deque_len self.old.waiters < deque_capacity self.old.due }
        requires next { next ≡ self.old.next + 1 }
        ensures { Claims self.old (nanos_of now) session key task result self.new }
    {
        match Leases::show(&mut self.sessions, alloc, now) {
            Err(_) => Claimed::Refused(SessionError::Memory),
            Ok(()) => match self.sessions.acquire(alloc, session, key) {
                Err(error) => Claimed::Refused(error),
                Ok(true) => Claimed::Held,
                Ok(false) => {
                    let ticket = self.next;
                    self.next = next;
                    self.waiters.push_back_reserved(LockWaiter {
                        ticket,
                        session,
                        key,
                        task,
                    });
                    Claimed::Waits(ticket)
                }
            },
        }
    }

    // Returns the place of the future with this ticket.
    fn place_of(&self, ticket: u64) -> Option<usize>
        ensures { result ≡ place_of self.now.waiters.items ticket }
    {
        self.waiters.iter().position(|w| w.ticket == ticket)
    }

    // Returns whether this task waits with the ticket.
    fn is_there(&self, ticket: u64, task: u64) -> bool
        ensures { result ≡ is_there self.now.waiters.items ticket task }
    {
        self.waiters
            .iter()
            .any(|w| w.ticket == ticket && w.task == task)
    }

    // Returns whether the future with this ticket waits, and its session is in the key's queue behind another.
    fn still_waits(&self, ticket: u64, session: u64, key: u64) -> bool
        ensures { (k : Keeper) → StandsFor self.now.sessions k → result ≡ still_waits self.now.waiters.items ticket session key k }
    {
        match self.place_of(ticket) {
            None => false,
            Some(_) => self.sessions.is_waiting(session, key),
        }
    }

    // Takes this task out of the line at the ticket.
    fn leave(&mut self, ticket: u64, me: u64)
        ensures waiters { self.new.waiters.items ≡ without self.old.waiters.items ticket me }
        ensures sessions { self.new.sessions ≡ self.old.sessions }
        ensures next { self.new.next ≡ self.old.next }
        ensures due { self.new.due.items ≡ self.old.due.items }
        ensures rest { SameRest self.old self.new }
    {
        self.waiters
            .retain(|w| !(w.ticket == ticket && w.task == me));
    }

    // Answers the future with this ticket at an instant.
    fn look_at(
        &mut self,
        alloc: Global,
        now: Instant,
        ticket: u64,
        session: u64,
        key: u64,
        task: u64,
    ) -> Looked
        ensures { Looks self.old (nanos_of now) ticket session key task result self.new }
    {
        match Leases::show(&mut self.sessions, alloc, now) {
            Ok(()) => self.see(ticket, session, key, task),
            Err(_) => {
                self.drop_out(ticket, session, key, task);
                Looked::Memory
            }
        }
    }

    /// Answers the future with this ticket at an instant. Its task waits while its session is in the key's queue behind
    /// another: with this ticket, or with a new one if another task waits with this one. Otherwise it leaves the line, and
    /// it holds the key if its session does.
    pub fn look(
        &mut self,
        alloc: Global,
        now: Instant,
        ticket: u64,
        session: u64,
        key: u64,
        task: u64,
    ) -> Looked
        ensures { Then (Looks self.old (nanos_of now) ticket session key task result) self.new }
    {
        let answer = self.look_at(alloc, now, ticket, session, key, task);
        self.settle();
        answer
    }

    // Answers the future with this ticket.
    fn see(&mut self, ticket: u64, session: u64, key: u64, task: u64) -> Looked
        ensures { Sees self.old ticket session key task result self.new }
    {
        if self.still_waits(ticket, session, key) {
            return self.linger(ticket, session, key, task);
        }
        self.leave(ticket, task);
        if self.sessions.is_holder(session, key) {
            Looked::Held
        } else {
            Looked::Lost
        }
    }

    // Lets a task wait for a session that waits: with this ticket if it has it, and else with a new one.
    fn linger(&mut self, ticket: u64, session: u64, key: u64, task: u64) -> Looked
        ensures { Lingers self.old ticket session key task result self.new }
    {
        if self.is_there(ticket, task) {
            return Looked::Waits(ticket);
        }
        match self.join(session, key, task) {
            Ok(new) => Looked::Waits(new),
            Err(_) => {
                self.drop_out(ticket, session, key, task);
                Looked::Memory
            }
        }
    }

    // Appends a task to the line. Refused if out of memory, or if no ticket is left.
    fn join(&mut self, session: u64, key: u64, task: u64) -> Result<u64, AllocError>
        ensures sessions { self.new.sessions ≡ self.old.sessions }
        ensures line { LineJoins self.old session key task result self.new }
        ensures rest { SameRest self.old self.new }
    {
        let ticket = self.next;
        let Some(next) = ticket.checked_add(1) else {
            return Err(AllocError);
        };
        self.reserve()?;
        self.waiters.push_back_reserved(LockWaiter {
            ticket,
            session,
            key,
            task,
        });
        self.next = next;
        Ok(ticket)
    }

    // Takes this task out of the line at the ticket, and the session out of the key's queue.
    fn drop_out(&mut self, ticket: u64, session: u64, key: u64, me: u64)
        ensures { GivesUp self.old ticket session key me self.new }
    {
        self.leave(ticket, me);
        let _ = self.sessions.release(session, key);
    }

    /// Takes the future with this ticket out of the line, in a turn of the task `me`, and its session out of the key's
    /// queue. If another task waits with the ticket, it is owed a wake.
    pub fn give_up(&mut self, ticket: u64, session: u64, key: u64, me: u64)
        ensures { Then (GivesUp self.old ticket session key me) self.new }
    {
        self.drop_out(ticket, session, key, me);
        self.settle();
    }

    // Returns the place of the first task in the line whose session no longer waits.
    fn first_served(&self) -> Option<usize>
        ensures { (k : Keeper) → StandsFor self.now.sessions k → result ≡ first_served k self.now.waiters.items }
    {
        let sessions = &self.sessions;
        self.waiters
            .iter()
            .position(|w| !sessions.is_waiting(w.session, w.key))
    }

    // Makes the first task in the line due whose session no longer waits: it holds the key, or is out of the queue.
    fn serve(&mut self) -> Option<u64>
        ensures serves { Serves self.old result self.new }
        ensures fewer { OnSome result (deque_len self.new.waiters < deque_len self.old.waiters) }
    {
        match self.first_served() {
            None => None,
            Some(index) => match self.waiters.remove(index) {
                None => None,
                Some(waiter) => {
                    self.due.push_back_reserved(waiter);
                    Some(waiter.task)
                }
            },
        }
    }

    // Makes each task due whose session no longer waits.
    fn serve_all(&mut self)
        ensures { (tasks : List ℕ) × ServesAll self.old tasks self.new }
    {
        while let Some(task) = self.serve() {
            let _ = task;
        }
    }

    // Makes each task due whose session no longer waits, and notes whether the keeper sleeps too long.
    fn settle(&mut self)
        ensures { Settles self.old self.new }
    {
        self.serve_all();
        self.note();
    }

    /// Notes the keeper's task, which sleeps until the tick that is returned, or until it is woken.
    pub fn rest(&mut self, task: u64) -> Option<u64>
        ensures { Rests self.old task result self.new }
    {
        let next = self.sessions.next_expiration();
        self.keeper = Some(task);
        self.alarm = next;
        self.late = false;
        next
    }

    /// Notes that this task is the keeper no longer.
    pub fn forget(&mut self, task: u64)
        ensures { Forgets self.old task self.new }
    {
        if let Some(keeper) = self.keeper {
            if keeper == task {
                self.keeper = None;
            }
        }
    }

    // Returns whether the keeper sleeps past the next tick at which a session may be closed.
    fn is_late(&self) -> bool
        ensures { (next : Option ℕ) × IsNext self.now.sessions next × (result ≡ is_late self.now.alarm next) }
    {
        match self.sessions.next_expiration() {
            None => false,
            Some(next) => match self.alarm {
                None => true,
                Some(alarm) => next < alarm,
            },
        }
    }

    // Notes whether the keeper sleeps past the next tick at which a session may be closed.
    fn note(&mut self)
        ensures { Notes self.old self.new }
    {
        self.late = self.is_late();
    }
}
