// A spawner whose threads the program joins before it exits.
ghost use Rattle.std.specs.Prelude.{◌≡◌, ◌<◌, ℕ, IfNone, IfSome};
ghost use Rattle.std.specs.Vec.{vec_len, vec_capacity};
ghost use Rattle.mono_blocking.specs.Counts.{counted_by};

use mono_blocking::Spawner;
use std::alloc::Global;
use std::thread::{JoinHandle, Threads};

/// A spawner whose threads can be joined.
pub trait Joins: Spawner {
    /// How many of its threads were not joined.
    ghost running: { Self → ℕ };

    /// Joins each thread that was started. Close each pool whose workers they run first: until then they do not end.
    fn join<R: Threads>(&mut self, rt: &R)
        ensures running { running self.new ≡ 0 }
        ensures starts { Self.starts self.new ≡ Self.starts self.old };
}

/// A spawner that starts a thread for each worker, and keeps it until `join`. Its counts stop at 2^64 - 1.
#[derive(Drop)]
pub struct JoinSpawner {
    threads: Vec<JoinHandle<()>>,
    starts: u64,
    refusals: u64,
}

impl JoinSpawner {
    /// Returns a spawner that was never asked: it has no thread, and both counts are 0.
    pub fn new(alloc: Global) -> JoinSpawner
        ensures threads { vec_len result.threads ≡ 0 }
        ensures starts { result.starts ≡ 0 }
        ensures refusals { result.refusals ≡ 0 }
    {
        JoinSpawner {
            threads: Vec::new(alloc),
            starts: 0,
            refusals: 0,
        }
    }

    /// Returns how many of its threads were not joined.
    pub fn running(&self) -> usize
        ensures { result ≡ vec_len self.now.threads }
    {
        self.threads.len()
    }
}

/// It refuses a start if it is out of memory to keep a thread, or if the system makes none.
impl Spawner for JoinSpawner {
    type Entry = ();

    ghost starts = { λ spawner. spawner.starts };

    ghost refusals = { λ spawner. spawner.refusals };

    ghost can_keep = { λ spawner. vec_len spawner.threads < vec_capacity spawner.threads };

    fn admit(&mut self) -> Option<()>
        ensures starts { self.new.starts ≡ counted_by 1 self.old.starts }
        ensures admitted { IfSome result (λ _. (vec_len self.new.threads < vec_capacity self.new.threads) × (self.new.refusals ≡ self.old.refusals)) }
        ensures refused { IfNone result (self.new.refusals ≡ counted_by 1 self.old.refusals) }
    {
        self.starts = self.starts.saturating_add(1);
        if self.threads.reserve(1).is_err() {
            self.refusals = self.refusals.saturating_add(1);
            return None;
        }
        Some(())
    }

    fn keep(&mut self, thread: JoinHandle<()>)
        requires { vec_len self.old.threads < vec_capacity self.old.threads }
        ensures starts { self.new.starts ≡ self.old.starts }
        ensures refusals { self.new.refusals ≡ self.old.refusals }
    {
        self.threads.push_reserved(thread);
    }

    fn refuse(&mut self)
        ensures starts { self.new.starts ≡ self.old.starts }
        ensures refusals { self.new.refusals ≡ counted_by 1 self.old.refusals }
    {
        self.refusals = self.refusals.saturating_add(1);
    }
}

impl Joins for JoinSpawner {
    ghost use Rattle.std.specs.Vec.{vec_len};

    ghost running = { λ spawner. vec_len spawner.threads };

    fn join<R: Threads>(&mut self, rt: &R) {
        while let Some(thread) = self.threads.pop() {
            thread.join(rt);
        }
    }
}
