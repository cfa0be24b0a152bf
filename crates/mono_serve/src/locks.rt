// The calls of a task on leases: it opens, renews and closes sessions, and acquires and releases keys.
ghost use Rattle.std.specs.Prelude.{◌≡◌, false};
ghost use Rattle.std.specs.declared.option.Option.TheVariants.{None};
ghost use Rattle.mono_model.specs.Poll.{OnPending};
ghost use Rattle.mono_session.specs.Answers.{of_number, of_done};
ghost use Rattle.mono_session.specs.Calls as call;
ghost use Rattle.mono_serve.specs.LeaseCalls.{Calls, Claims, Looks, GivesUp, Then};
ghost use Rattle.mono_serve.specs.Locks.{CallsIn, LeavesLock, AsksFor, LooksAgain, AcquirePolls, AcquireGives, AcquireCancels};
ghost use Rattle.mono_serve.specs.Spent.{acquire_spent};

use crate::lease_parts::{
    acquire_part, beat_part, close_part, give_up_part, look_part, open_part, release_part,
};
use crate::leases::{Claimed, Leases, Looked};
use mono_forms::FutureExt;
use mono_model::{Host, Poll};
use mono_session::SessionError;
use mono_sync::Holds;
use mono_task::{SharedContext, TaskFuture};
use mono_time::Instant;
use std::alloc::Global;
use std::marker::PhantomData;

/// A future that acquires a key for a session, and waits in the key's queue until the session holds it.
///
/// Two futures of one session and one key share its place in the queue: one that is given up takes it away from both.
#[derive(Drop)]
pub struct Acquire<W> {
    pub(crate) session: u64,
    pub(crate) key: u64,
    pub(crate) ticket: Option<u64>,
    pub(crate) has_answered: bool,
    shared: PhantomData<W>,
}

/// The reason why a key was not acquired.
#[derive(Debug, Drop)]
pub enum AcquireError {
    /// The sessions refused the call, or were out of memory.
    Refused(SessionError),
    /// The session was closed while it waited, or left the queue by another call.
    Lost,
}

impl<W> FutureExt for Acquire<W> {}

impl<W> Acquire<W> {
    /// Returns a future that acquires the key for the session.
    pub fn new(session: u64, key: u64) -> Acquire<W>
        ensures session { result.session ≡ session }
        ensures key { result.key ≡ key }
        ensures ticket { result.ticket ≡ None }
        ensures unspent { result.has_answered ≡ false }
    {
        Acquire {
            session,
            key,
            ticket: None,
            has_answered: false,
            shared: PhantomData,
        }
    }
}

// Opens a session at the turn's reading of the clock.
fn open_now<W: Holds<Leases>, C: SharedContext<W>>(
    alloc: Global,
    cx: &mut C,
    limit_ms: u64,
) -> Result<u64, SessionError>
    ensures answer { Then (Calls (W.part (C.shared cx.old)) (C.nanos cx.old) (call.Open limit_ms) (of_number result)) (W.part (C.shared cx.new)) }
    ensures work { C.work cx.new ≡ C.work cx.old }
    ensures reached { C.reaches cx.old cx.new }
{
    let now = Instant::now(cx);
    open_part(cx.shared_mut(), alloc, now, limit_ms)
}

// Renews a session at the turn's reading of the clock.
fn beat_now<W: Holds<Leases>, C: SharedContext<W>>(
    alloc: Global,
    cx: &mut C,
    session: u64,
) -> Result<(), SessionError>
    ensures answer { Then (Calls (W.part (C.shared cx.old)) (C.nanos cx.old) (call.Beat session) (of_done result)) (W.part (C.shared cx.new)) }
    ensures work { C.work cx.new ≡ C.work cx.old }
    ensures reached { C.reaches cx.old cx.new }
{
    let now = Instant::now(cx);
    beat_part(cx.shared_mut(), alloc, now, session)
}

// Closes a session at the turn's reading of the clock.
fn close_now<W: Holds<Leases>, C: SharedContext<W>>(
    alloc: Global,
    cx: &mut C,
    session: u64,
) -> Result<(), SessionError>
    ensures answer { Then (Calls (W.part (C.shared cx.old)) (C.nanos cx.old) (call.Close session) (of_done result)) (W.part (C.shared cx.new)) }
    ensures work { C.work cx.new ≡ C.work cx.old }
    ensures reached { C.reaches cx.old cx.new }
{
    let now = Instant::now(cx);
    close_part(cx.shared_mut(), alloc, now, session)
}

// Releases a key at the turn's reading of the clock.
fn release_now<W: Holds<Leases>, C: SharedContext<W>>(
    alloc: Global,
    cx: &mut C,
    session: u64,
    key: u64,
) -> Result<(), SessionError>
    ensures answer { Then (Calls (W.part (C.shared cx.old)) (C.nanos cx.old) (call.Release session key) (of_done result)) (W.part (C.shared cx.new)) }
    ensures work { C.work cx.new ≡ C.work cx.old }
    ensures reached { C.reaches cx.old cx.new }
{
    let now = Instant::now(cx);
    release_part(cx.shared_mut(), alloc, now, session, key)
}

/// Opens a session at the turn's reading of the clock, as [`Leases::open`] does. The tasks that are served are owed a wake.
pub fn open<W: Holds<Leases>, C: SharedContext<W>>(
    alloc: Global,
    cx: &mut C,
    limit_ms: u64,
) -> Result<u64, SessionError>
    ensures calls { CallsIn (λ x. W.part (C.shared x)) C.nanos C.work (call.Open limit_ms) (of_number result) cx.old cx.new }
    ensures reached { C.reaches cx.old cx.new }
{
    open_now::<W, C>(alloc, cx, limit_ms)
}

/// Renews a session at the turn's reading of the clock, as [`Leases::beat`] does. The tasks that are served are owed a
/// wake.
pub fn beat<W: Holds<Leases>, C: SharedContext<W>>(
    alloc: Global,
    cx: &mut C,
    session: u64,
) -> Result<(), SessionError>
    ensures calls { CallsIn (λ x. W.part (C.shared x)) C.nanos C.work (call.Beat session) (of_done result) cx.old cx.new }
    ensures reached { C.reaches cx.old cx.new }
{
    beat_now::<W, C>(alloc, cx, session)
}

/// Closes a session at the turn's reading of the clock, as [`Leases::close`] does. The tasks that are served are owed a
/// wake.
pub fn close<W: Holds<Leases>, C: SharedContext<W>>(
    alloc: Global,
    cx: &mut C,
    session: u64,
) -> Result<(), SessionError>
    ensures calls { CallsIn (λ x. W.part (C.shared x)) C.nanos C.work (call.Close session) (of_done result) cx.old cx.new }
    ensures reached { C.reaches cx.old cx.new }
{
    close_now::<W, C>(alloc, cx, session)
}

/// Releases a key at the turn's reading of the clock, as [`Leases::release`] does. The tasks that are served are owed a
/// wake: the next holder's, if it waits.
pub fn release<W: Holds<Leases>, C: SharedContext<W>>(
    alloc: Global,
    cx: &mut C,
    session: u64,
    key: u64,
) -> Result<(), SessionError>
    ensures calls { CallsIn (λ x. W.part (C.shared x)) C.nanos C.work (call.Release session key) (of_done result) cx.old cx.new }
    ensures reached { C.reaches cx.old cx.new }
{
    release_now::<W, C>(alloc, cx, session, key)
}

// Appends the session to the queue of the key, for the running task.
fn claim<W: Holds<Leases>, C: SharedContext<W>>(
    alloc: Global,
    cx: &mut C,
    session: u64,
    key: u64,
) -> Claimed
    ensures answer { Then (Claims (W.part (C.shared cx.old)) (C.nanos cx.old) session key (C.number cx.old) result) (W.part (C.shared cx.new)) }
    ensures work { C.work cx.new ≡ C.work cx.old }
    ensures reached { C.reaches cx.old cx.new }
{
    let now = Instant::now(cx);
    let me = cx.me();
    acquire_part(cx.shared_mut(), alloc, now, session, key, me)
}

// Answers the running task's future that waits.
fn look<W: Holds<Leases>, C: SharedContext<W>>(
    alloc: Global,
    cx: &mut C,
    ticket: u64,
    session: u64,
    key: u64,
) -> Looked
    ensures answer { Then (Looks (W.part (C.shared cx.old)) (C.nanos cx.old) ticket session key (C.number cx.old) result) (W.part (C.shared cx.new)) }
    ensures work { C.work cx.new ≡ C.work cx.old }
    ensures reached { C.reaches cx.old cx.new }
{
    let now = Instant::now(cx);
    let me = cx.me();
    look_part(cx.shared_mut(), alloc, now, ticket, session, key, me)
}

// Takes the running task's future out of the line, and its session out of the queue.
fn give_up<W: Holds<Leases>, C: SharedContext<W>>(cx: &mut C, ticket: u64, session: u64, key: u64)
    ensures answer { Then (GivesUp (W.part (C.shared cx.old)) ticket session key (C.number cx.old)) (W.part (C.shared cx.new)) }
    ensures work { C.work cx.new ≡ C.work cx.old }
    ensures reached { C.reaches cx.old cx.new }
{
    let me = cx.me();
    give_up_part(cx.shared_mut(), ticket, session, key, me)
}

// Takes the running task's future out of the line and out of the queue, and says so in one clause.
fn drop_out<W: Holds<Leases>, C: SharedContext<W>>(cx: &mut C, ticket: u64, session: u64, key: u64)
    ensures left { LeavesLock (λ x. W.part (C.shared x)) C.number C.work ticket session key cx.old cx.new }
    ensures reached { C.reaches cx.old cx.new }
{
    give_up::<W, C>(cx, ticket, session, key);
}

impl<W> Acquire<W> {
    // Asks for the key.
    fn first_poll<C: SharedContext<W>>(
        &mut self,
        alloc: Global,
        cx: &mut C,
    ) -> Poll<Result<(), AcquireError>>
    where
        W: Holds<Leases>,
        ensures asks { AsksFor (λ x. W.part (C.shared x)) C.number C.nanos C.work self.old.session self.old.key cx.old result self.new.ticket cx.new }
        ensures again { OnPending result (self.new.has_answered ≡ false) }
        ensures session { self.new.session ≡ self.old.session }
        ensures key { self.new.key ≡ self.old.key }
        ensures reached { C.reaches cx.old cx.new }
    {
        let answer = claim::<W, C>(alloc, cx, self.session, self.key);
        match answer {
            Claimed::Waits(ticket) => {
                self.ticket = Some(ticket);
                self.has_answered = false;
                Poll::Pending
            }
            Claimed::Held => {
                self.ticket = None;
                self.has_answered = true;
                Poll::Ready(Ok(()))
            }
            Claimed::Refused(error) => {
                self.ticket = None;
                self.has_answered = true;
                Poll::Ready(Err(AcquireError::Refused(error)))
            }
        }
    }

    // Asks again, with the ticket of the wait.
    fn next_poll<C: SharedContext<W>>(
        &mut self,
        alloc: Global,
        cx: &mut C,
        ticket: u64,
    ) -> Poll<Result<(), AcquireError>>
    where
        W: Holds<Leases>,
        ensures looks { LooksAgain (λ x. W.part (C.shared x)) C.number C.nanos C.work ticket self.old.session self.old.key cx.old result self.new.ticket cx.new }
        ensures again { OnPending result (self.new.has_answered ≡ false) }
        ensures session { self.new.session ≡ self.old.session }
        ensures key { self.new.key ≡ self.old.key }
        ensures reached { C.reaches cx.old cx.new }
    {
        let answer = look::<W, C>(alloc, cx, ticket, self.session, self.key);
        match answer {
            Looked::Waits(ticket) => {
                self.ticket = Some(ticket);
                self.has_answered = false;
                Poll::Pending
            }
            Looked::Held => {
                self.ticket = None;
                self.has_answered = true;
                Poll::Ready(Ok(()))
            }
            Looked::Lost => {
                self.ticket = None;
                self.has_answered = true;
                Poll::Ready(Err(AcquireError::Lost))
            }
            Looked::Memory => {
                self.ticket = None;
                self.has_answered = true;
                Poll::Ready(Err(AcquireError::Refused(SessionError::Memory)))
            }
        }
    }
}

/// The future answers once its session holds the key. It fails if the sessions refuse the call, or if the session is
/// closed or leaves the queue before it holds the key.
impl<W: Holds<Leases>, C: SharedContext<W>> TaskFuture<C> for Acquire<W> {
    type Output = Result<(), AcquireError>;

    ghost is_spent = { acquire_spent };

    ghost polls = { λ f c r g d. AcquirePolls (λ x. W.part (C.shared x)) C.number C.nanos C.work f.ticket f.session f.key c r g.ticket d };

    ghost gives = { λ f. AcquireGives (λ x. W.part (C.shared x)) C.number C.nanos C.work f.session f.key };

    ghost cancels = { λ f c d. AcquireCancels (λ x. W.part (C.shared x)) C.number C.work f.ticket f.session f.key c d };

    fn spent(&self) -> bool {
        self.has_answered
    }

    fn poll<R: Host>(
        &mut self,
        _rt: &R,
        alloc: Global,
        cx: &mut C,
    ) -> Poll<Result<(), AcquireError>> {
        match self.ticket {
            None => self.first_poll(alloc, cx),
            Some(ticket) => self.next_poll(alloc, cx, ticket),
        }
    }

    fn cancel(self, cx: &mut C) {
        if let Some(ticket) = self.ticket {
            drop_out::<W, C>(cx, ticket, self.session, self.key);
        }
    }
}
