// A run whose worker begins late: the runtime parks on its driver, and the worker's wake ends the park.
ghost use Rattle.std.specs.Prelude.{◌≡◌, ◌<◌, IfNone, IfSome};
ghost use Rattle.std.specs.Vec.{vec_len, vec_capacity};
ghost use Rattle.mono_blocking.specs.Counts.{counted_by};

use crate::runs::{ROOM, split};
use mono_blocking::{Entry, Spawner, ThreadSpawner};
use mono_model::Host;
use mono_script::{Clock, Instant, MemSink, MemSource, program};
use std::alloc::{AllocError, Global};
use std::sync::Arc;
use std::sync::atomic::{AtomicU64, Ordering};
use std::thread::JoinHandle;

/// The clock's reading right before the first park: one reading comes before the first turn.
const BEFORE_THE_PARK: u64 = 2;

/// A clock that always reads the first instant, and counts its readings.
#[derive(Drop)]
struct CountingClock {
    first: Instant,
    readings: Arc<AtomicU64, Global>,
}

impl Clock for CountingClock {
    fn now(&mut self) -> Instant {
        self.readings.fetch_add(1, Ordering::SeqCst);
        self.first
    }
}

/// A job that waits until the runtime is about to park.
#[derive(Drop)]
struct WaitsFirst(Arc<AtomicU64, Global>);

impl Entry for WaitsFirst {
    fn enter(self) {
        for _ in 0..u64::MAX {
            if self.0.load(Ordering::SeqCst) >= BEFORE_THE_PARK {
                return;
            }
        }
    }
}

/// A spawner of threads that begin late.
#[derive(Drop)]
struct LateSpawner {
    inner: ThreadSpawner,
    readings: Arc<AtomicU64, Global>,
}

impl Spawner for LateSpawner {
    type Entry = WaitsFirst;

    ghost starts = { λ spawner. spawner.inner.asked.starts };

    ghost refusals = { λ spawner. spawner.inner.asked.refusals };

    ghost can_keep = { λ spawner. vec_len spawner.inner.threads < vec_capacity spawner.inner.threads };

    fn admit(&mut self) -> Option<WaitsFirst>
        ensures starts { self.new.inner.asked.starts ≡ counted_by 1 self.old.inner.asked.starts }
        ensures admitted { IfSome result (λ _. (vec_len self.new.inner.threads < vec_capacity self.new.inner.threads) × (self.new.inner.asked.refusals ≡ self.old.inner.asked.refusals)) }
        ensures refused { IfNone result (self.new.inner.asked.refusals ≡ counted_by 1 self.old.inner.asked.refusals) }
    {
        self.inner.admit()?;
        match Arc::try_clone(&self.readings) {
            Ok(readings) => Some(WaitsFirst(readings)),
            Err(_) => {
                self.inner.refuse();
                None
            }
        }
    }

    fn keep(&mut self, thread: JoinHandle<()>)
        requires { vec_len self.old.inner.threads < vec_capacity self.old.inner.threads }
        ensures starts { self.new.inner.asked.starts ≡ self.old.inner.asked.starts }
        ensures refusals { self.new.inner.asked.refusals ≡ self.old.inner.asked.refusals }
    {
        self.inner.keep(thread);
    }

    fn refuse(&mut self)
        ensures starts { self.new.inner.asked.starts ≡ self.old.inner.asked.starts }
        ensures refusals { self.new.inner.asked.refusals ≡ counted_by 1 self.old.inner.asked.refusals }
    {
        self.inner.refuse();
    }
}

/// A script whose main task waits for a job, the words of its run, and the park in its journal.
#[derive(Clone, Copy)]
struct Case {
    words: &'static str,
    script: &'static [u8],
    park: &'static str,
}

const CASES: [Case; 3] = [
    // another task sleeps for 63 milliseconds, and the clock stands still, so each park ends soon: a runtime that does not
    // drain its inbox spends its budget, and does not hang
    Case {
        words: "run 1 400",
        script: b"limits 8 8 8\ntask\nspawn 1\nblock 4\nawait-job 0\ndone 1\ntask\nawait-sleep 63000000\ndone 2\n",
        park: "\npark 63\n",
    },
    // another task sleeps for an hour, until the start of a slot of the wheel, so the park has an end
    Case {
        words: "run 1 100",
        script: b"limits 8 8 8\ntask\nspawn 1\nblock 4\nawait-job 0\ndone 1\ntask\nawait-sleep 3407872000000\ndone 2\n",
        park: "\npark 3407872\n",
    },
    // no task sleeps, so the park has no end
    Case {
        words: "run 1 100",
        script: b"limits 8 8 8\ntask\nblock 4\nawait-job 0\ndone 1\n",
        park: "\npark\n",
    },
];

// Returns whether the run parks so, its worker's wake is listed, and it ends with its main task's output.
fn is_woken<R: Host + Send + 'static>(
    rt: &R,
    alloc: Global,
    spawner: &mut LateSpawner,
    case: &Case,
) -> Option<bool> {
    let words = split(alloc, case.words).ok()?;
    let mut source = MemSource::new(Vec::from_slice(alloc, case.script).ok()?, Vec::new(alloc));
    let mut sink = MemSink::new(alloc, ROOM, Vec::new(alloc)).ok()?;
    let clock = CountingClock {
        first: Instant::from_nanos(0)?,
        readings: Arc::try_clone(&spawner.readings).ok()?,
    };
    let status = program(rt, alloc, &words, &mut source, &mut sink, clock, spawner);
    let output = str::from_utf8(sink.bytes()).ok()?;
    let is_listed = output.contains("\nremote 0 -> listed\n");
    Some(status == 0 && output.contains(case.park) && is_listed && output.ends_with("\nmain 1\n"))
}

// The worker begins once the main task waits for its job. No park of the last two cases ends by itself within the time of a
// test, so only the worker's wake can end one.
#[test]
fn a_worker_that_begins_late_wakes_the_main_task(rt: HostRuntime) -> Result<(), AllocError> {
    let alloc = rt.alloc();
    for case in CASES {
        let mut spawner = LateSpawner {
            inner: ThreadSpawner::new(alloc),
            readings: Arc::new(alloc, AtomicU64::new(0))?,
        };
        let woken = is_woken(&rt, alloc, &mut spawner, &case);
        let LateSpawner { inner, readings } = spawner;
        readings.store(BEFORE_THE_PARK, Ordering::SeqCst);
        inner.join(&rt);
        assert!(&rt; matches!(woken, Some(true)));
    }
    Ok(())
}
