// The locked queue of a pool.
ghost use Rattle.std.specs.Prelude.{◌≡◌, ◌↔◌, IsTrue, true, false, [], ◌∷◌, ◌++◌, OnOk, IfErr, IfNone, MatchOption};

use crate::signal::Signal;
use mono_model::Host;
use std::alloc::Global;
use std::collections::VecDeque;
use std::sync::Mutex;
use std::sync::atomic::{AtomicBool, Ordering};

/// The items that wait for a worker, in order, and whether the pool is closed.
#[derive(Drop)]
pub(crate) struct QueueState<T> {
    waiting: VecDeque<T>,
    is_closed: bool,
}

impl<T: Drop> QueueState<T> {
    /// Returns an open queue in which nothing waits.
    fn new(alloc: Global) -> QueueState<T>
        ensures waiting { result.waiting.items ≡ [] }
        ensures open { result.is_closed ≡ false }
    {
        QueueState {
            waiting: VecDeque::new(alloc),
            is_closed: false,
        }
    }

    /// Appends an item. If it is out of memory, the item comes back and nothing changes.
    fn put(&mut self, item: T) -> Result<(), T>
        ensures put { OnOk result (self.new.waiting.items ≡ self.old.waiting.items ++ item ∷ []) }
        ensures refused { IfErr result (λ back. (back ≡ item) × (self.new.waiting.items ≡ self.old.waiting.items)) }
        ensures closed { self.new.is_closed ≡ self.old.is_closed }
    {
        if self.waiting.reserve(1).is_err() {
            return Err(item);
        }
        self.waiting.push_back_reserved(item);
        Ok(())
    }

    /// Removes and returns the first item. Returns `None` if and only if nothing waits; a worker sees that only once
    /// the pool is closed.
    fn take(&mut self) -> Option<T>
        requires { self.old.waiting.items ≡ [] → self.old.is_closed ≡ true }
        ensures ended { IfNone result (self.old.is_closed ≡ true) }
        ensures taken { MatchOption result ((self.old.waiting.items ≡ []) × (self.new.waiting.items ≡ [])) (λ item. self.old.waiting.items ≡ item ∷ self.new.waiting.items) }
        ensures closed { self.new.is_closed ≡ self.old.is_closed }
    {
        self.waiting.pop_front()
    }

    /// Closes the pool. The waiting items still wait.
    fn close(&mut self)
        ensures closed { self.new.is_closed ≡ true }
        ensures waiting { self.new.waiting.items ≡ self.old.waiting.items }
    {
        self.is_closed = true;
    }

    /// Returns whether a worker has to wait: no item waits and the pool is open.
    fn is_idle(&self) -> bool
        ensures { IsTrue result ↔ (self.now.waiting.items ≡ []) × (self.now.is_closed ≡ false) }
    {
        self.waiting.is_empty() && !self.is_closed
    }
}

/// The queue under its lock, the mark of a closed pool, and the signal that wakes its workers. The mark lies beside the
/// lock since the drop of a pool may not wait.
#[derive(Drop)]
pub(crate) struct Queue<T> {
    state: Mutex<QueueState<T>>,
    has_closed: AtomicBool,
    changed: Signal,
}

impl<T: Drop> Queue<T> {
    /// Returns an open queue in which nothing waits.
    pub(crate) fn new(alloc: Global) -> Queue<T> {
        Queue {
            state: Mutex::new(QueueState::new(alloc)),
            has_closed: AtomicBool::new(false),
            changed: Signal::new(),
        }
    }

    /// Appends an item, and notifies one worker. If it is out of memory, the item comes back.
    pub(crate) fn put<R: Host>(&self, rt: &R, item: T) -> Result<(), T>
        ensures { IfErr result (λ back. back ≡ item) }
    {
        self.state.lock(rt).put(item)?;
        self.changed.notify_one();
        Ok(())
    }

    /// Waits for an item, and removes and returns the first. Returns `None` only if the pool is closed and nothing
    /// waits.
    pub(crate) fn next<R: Host>(&self, rt: &R) -> Option<T> {
        for _ in rt.forever() {
            let seen = self.changed.count();
            let mut state = self.state.lock(rt);
            if self.has_closed.load(Ordering::SeqCst) {
                state.close();
            }
            if !state.is_idle() {
                return state.take();
            }
            drop(state);
            self.changed.wait(rt, seen);
        }
        None
    }

    /// Closes the pool, and notifies all workers. It takes no lock, so it never waits.
    pub(crate) fn close(&self) {
        self.has_closed.store(true, Ordering::SeqCst);
        self.changed.notify_all();
    }
}
