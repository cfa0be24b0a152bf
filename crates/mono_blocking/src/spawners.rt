// A spawner that refuses each start, and a spawner that starts threads and joins them.
ghost use Rattle.std.specs.Prelude.{◌≡◌, ◌<◌, IsNone, IfNone, IfSome, ⊤};
ghost use Rattle.std.specs.Vec.{vec_len, vec_capacity};
ghost use Rattle.mono_blocking.specs.Counts.{counted_by};

use crate::spawner::Spawner;
use std::alloc::Global;
use std::thread::{JoinHandle, Threads};

/// How often a spawner was asked, and how often it refused. Both counts stop at 2^64 - 1.
#[derive(Drop)]
struct Asked {
    starts: u64,
    refusals: u64,
}

impl Asked {
    /// Returns counts of zero.
    fn never() -> Asked
        ensures starts { result.starts ≡ 0 }
        ensures refusals { result.refusals ≡ 0 }
    {
        Asked {
            starts: 0,
            refusals: 0,
        }
    }

    /// Counts a start.
    fn count(&mut self)
        ensures starts { self.new.starts ≡ counted_by 1 self.old.starts }
        ensures refusals { self.new.refusals ≡ self.old.refusals }
    {
        self.starts = self.starts.saturating_add(1);
    }

    /// Counts a refusal.
    fn refuse(&mut self)
        ensures starts { self.new.starts ≡ self.old.starts }
        ensures refusals { self.new.refusals ≡ counted_by 1 self.old.refusals }
    {
        self.refusals = self.refusals.saturating_add(1);
    }
}

/// A spawner that refuses each start: it admits none (`has_admitted`).
#[derive(Drop)]
pub struct NoSpawner {
    asked: Asked,
}

impl NoSpawner {
    /// Returns a spawner that was never asked: both counts are 0.
    pub fn new() -> NoSpawner
        ensures starts { result.asked.starts ≡ 0 }
        ensures refusals { result.asked.refusals ≡ 0 }
    {
        NoSpawner {
            asked: Asked::never(),
        }
    }
}

impl Spawner for NoSpawner {
    type Entry = ();

    ghost starts = { λ spawner. spawner.asked.starts };

    ghost refusals = { λ spawner. spawner.asked.refusals };

    ghost has_admitted = { λ _. ⊥ };

    fn admit(&mut self) -> Option<()>
        ensures starts { self.new.asked.starts ≡ counted_by 1 self.old.asked.starts }
        ensures none { IsNone result }
        ensures admitted { IfSome result (λ _. ⊤ × (self.new.asked.refusals ≡ self.old.asked.refusals)) }
        ensures granted { IfSome result (λ _. ⊥) }
        ensures refused { IfNone result (self.new.asked.refusals ≡ counted_by 1 self.old.asked.refusals) }
    {
        self.asked.count();
        self.asked.refuse();
        None
    }

    fn keep(&mut self, thread: JoinHandle<()>)
        requires { ⊤ }
        ensures starts { self.new.asked.starts ≡ self.old.asked.starts }
        ensures refusals { self.new.asked.refusals ≡ self.old.asked.refusals }
    {
        drop(thread);
    }

    fn refuse(&mut self)
        ensures starts { self.new.asked.starts ≡ self.old.asked.starts }
        ensures refusals { self.new.asked.refusals ≡ counted_by 1 self.old.asked.refusals }
    {
        self.asked.refuse();
    }
}

/// A spawner that starts a thread for each worker, and keeps it until `join`.
#[derive(Drop)]
pub struct ThreadSpawner {
    threads: Vec<JoinHandle<()>>,
    asked: Asked,
}

impl ThreadSpawner {
    /// Returns a spawner that was never asked: it has no thread, and both counts are 0.
    pub fn new(alloc: Global) -> ThreadSpawner
        ensures starts { result.asked.starts ≡ 0 }
        ensures refusals { result.asked.refusals ≡ 0 }
    {
        ThreadSpawner {
            threads: Vec::new(alloc),
            asked: Asked::never(),
        }
    }

    /// Joins each thread that was started. Close each pool whose workers they run first: until then they do not end.
    pub fn join<R: Threads>(self, rt: &R) {
        for thread in self.threads {
            thread.join(rt);
        }
    }
}

/// It refuses a start if it is out of memory to keep a thread, or if the system makes none.
impl Spawner for ThreadSpawner {
    type Entry = ();

    ghost starts = { λ spawner. spawner.asked.starts };

    ghost refusals = { λ spawner. spawner.asked.refusals };

    ghost can_keep = { λ spawner. vec_len spawner.threads < vec_capacity spawner.threads };

    fn admit(&mut self) -> Option<()>
        ensures starts { self.new.asked.starts ≡ counted_by 1 self.old.asked.starts }
        ensures admitted { IfSome result (λ _. (vec_len self.new.threads < vec_capacity self.new.threads) × (self.new.asked.refusals ≡ self.old.asked.refusals)) }
        ensures refused { IfNone result (self.new.asked.refusals ≡ counted_by 1 self.old.asked.refusals) }
    {
        self.asked.count();
        if self.threads.reserve(1).is_err() {
            self.asked.refuse();
            return None;
        }
        Some(())
    }

    fn keep(&mut self, thread: JoinHandle<()>)
        requires { vec_len self.old.threads < vec_capacity self.old.threads }
        ensures starts { self.new.asked.starts ≡ self.old.asked.starts }
        ensures refusals { self.new.asked.refusals ≡ self.old.asked.refusals }
    {
        self.threads.push_reserved(thread);
    }

    fn refuse(&mut self)
        ensures starts { self.new.asked.starts ≡ self.old.asked.starts }
        ensures refusals { self.new.asked.refusals ≡ counted_by 1 self.old.asked.refusals }
    {
        self.asked.refuse();
    }
}
