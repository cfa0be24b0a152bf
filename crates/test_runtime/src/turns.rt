// A task that asks for blocking jobs, and the jobs.
ghost use Rattle.std.specs.Prelude.{⊤, false};
ghost use Rattle.mono_rt.specs.Reaches.{Reaches};

use mono_blocking::{Job, Outcome, ThreadPool};
use mono_inbox::{RemoteWaker, UnparkHandle};
use mono_model::Host;
use mono_rt::{Cx, JobHandle, JoinError, PollJob, Refusal, SpawnError};
use mono_task::{Poll, TaskFuture};
use std::alloc::{AllocError, Global};
use std::sync::atomic::{AtomicU64, Ordering};
use std::sync::{Arc, Mutex};

/// How often a job reads its flag.
const LOOKS: u64 = 500000000;

/// A job that returns its number, at once or once its flag is set.
#[derive(Drop)]
pub(crate) struct Gives {
    number: u64,
    flag: Option<Arc<AtomicU64, Global>>,
}

impl Outcome for Gives {
    ghost output_number = { λ job. job.number };

    fn number(&self) -> u64 {
        self.number
    }
}

impl Job for Gives {
    type Output = u64;

    type Unpark = UnparkHandle;

    fn run(self) -> u64 {
        if let Some(flag) = &self.flag {
            for _ in 0..LOOKS {
                if flag.load(Ordering::SeqCst) == 1 {
                    break;
                }
            }
        }
        self.number
    }
}

/// The state that a task shares with another thread: the last waker that the task handed out, and how many turns it has
/// had.
#[derive(Drop)]
pub(crate) struct Shared {
    pub(crate) waker: Mutex<Option<RemoteWaker<UnparkHandle>>>,
    pub(crate) turns: AtomicU64,
}

/// One call of a task in its turn.
#[derive(Clone, Copy)]
pub(crate) enum Call {
    /// Makes a job with this number, which ends once the flag is set.
    Block(u64),
    /// Polls a job.
    Poll(u64),
    /// Drops the handle of a job.
    Drop(u64),
    /// Sets the flag of jobs.
    SetFlag,
    /// Asks for a remote waker, which another thread may take.
    Waker,
}

pub(crate) const PENDING: u64 = 1005;

pub(crate) const NO_OUTPUT: u64 = 1006;

pub(crate) const NO_POOL: u64 = 1007;

/// Another refusal, a canceled job, or out of memory, none of which a test expects.
const ANOTHER: u64 = 1015;

fn of_spawn(answer: &Result<JobHandle, SpawnError<Gives>>) -> u64 {
    match answer {
        Ok(handle) => handle.job(),
        Err(SpawnError::NoPool(_)) => NO_POOL,
        Err(_) => ANOTHER,
    }
}

fn of_poll(answer: Result<Poll<Result<u64, JoinError>>, PollJob>) -> u64 {
    match answer {
        Ok(Poll::Ready(Ok(output))) => output,
        Ok(Poll::Pending) => PENDING,
        _ => ANOTHER,
    }
}

fn of_drop(answer: Result<Option<Result<u64, JoinError>>, Refusal>) -> u64 {
    match answer {
        Ok(Some(Ok(output))) => output,
        Ok(None) => NO_OUTPUT,
        _ => ANOTHER,
    }
}

/// The calls of a task in its first turn, and the later ones, if there are any, in a second. It is ready after these, in
/// its turn of this number. Its answers must be these.
#[derive(Clone, Copy)]
pub(crate) struct Task {
    pub(crate) calls: &'static [Call],
    pub(crate) later: &'static [Call],
    pub(crate) turns: u64,
    pub(crate) answers: &'static [u64],
}

/// A task without calls.
pub(crate) const IDLE: Task = Task {
    calls: &[],
    later: &[],
    turns: 0,
    answers: &[],
};

/// A future that makes a task's calls, and is ready in its last turn, with 1 if the answers were the expected ones,
/// else with 0.
#[derive(Drop)]
pub(crate) struct Turns {
    pub(crate) task: Task,
    pub(crate) seen: Vec<u64>,
    pub(crate) shared: Arc<Shared, Global>,
    pub(crate) flag: Arc<AtomicU64, Global>,
}

impl Turns {
    /// Stores an answer.
    fn keep(&mut self, answer: u64) {
        if self.seen.reserve(1).is_ok() {
            self.seen.push_reserved(answer);
        }
    }

    /// Stores the task of a waker, and hands the waker out.
    fn keep_waker<R: Host>(
        &mut self,
        rt: &R,
        answer: Result<RemoteWaker<UnparkHandle>, AllocError>,
    ) {
        match answer {
            Ok(waker) => {
                self.keep(waker.task());
                *self.shared.waker.lock(rt) = Some(waker);
            }
            Err(_) => self.keep(ANOTHER),
        }
    }

    /// Makes a job with this number, and stores the answer.
    fn block<R: Host, O: Outcome + Drop, P: ThreadPool<Job = Gives> + Drop>(
        &mut self,
        rt: &R,
        alloc: Global,
        cx: &mut Cx<Turns, O, P, UnparkHandle>,
        number: u64,
    )
        ensures { Reaches O.output_number cx.old cx.new }
    {
        let flag = Arc::try_clone(&self.flag).ok();
        let answer = cx.spawn_blocking(rt, alloc, Gives { number, flag });
        self.keep(of_spawn(&answer));
    }

    /// Makes one call, and stores its answer.
    fn ask<R: Host, O: Outcome + Drop, P: ThreadPool<Job = Gives> + Drop>(
        &mut self,
        rt: &R,
        alloc: Global,
        cx: &mut Cx<Turns, O, P, UnparkHandle>,
        call: Call,
    )
        ensures { Reaches O.output_number cx.old cx.new }
    {
        match call {
            Call::Block(number) => self.block(rt, alloc, cx, number),
            Call::Poll(job) => self.keep(of_poll(cx.poll_job(job))),
            Call::Drop(job) => self.keep(of_drop(cx.drop_job(job))),
            Call::SetFlag => self.flag.store(1, Ordering::SeqCst),
            Call::Waker => self.keep_waker(rt, cx.remote_waker()),
        }
    }

    /// Makes one call after the other.
    fn ask_all<R: Host, O: Outcome + Drop, P: ThreadPool<Job = Gives> + Drop>(
        &mut self,
        rt: &R,
        alloc: Global,
        cx: &mut Cx<Turns, O, P, UnparkHandle>,
    )
        ensures { Reaches O.output_number cx.old cx.new }
    {
        let calls = self.task.calls;
        for place in 0..calls.len() {
            self.ask(rt, alloc, cx, calls[place]);
        }
    }

    /// Ends a turn.
    fn end(&mut self) -> Poll<u64> {
        let turns = self.shared.turns.fetch_add(1, Ordering::SeqCst);
        let has_later = self.task.later.len() > 0;
        self.task.calls = self.task.later;
        self.task.later = &[];
        if has_later || turns < self.task.turns {
            return Poll::Pending;
        }
        Poll::Ready(u64::from(self.seen.as_slice() == self.task.answers))
    }
}

impl<P: ThreadPool<Job = Gives> + Drop> TaskFuture<Cx<Turns, u64, P, UnparkHandle>> for Turns {
    type Output = u64;

    ghost is_spent = { λ f. false };

    ghost polls = { λ f c r g d. ⊤ };

    ghost cancels = { λ f c d. ⊤ };

    fn spent(&self) -> bool {
        false
    }

    fn poll<R: Host>(
        &mut self,
        rt: &R,
        alloc: Global,
        cx: &mut Cx<Turns, u64, P, UnparkHandle>,
    ) -> Poll<u64> {
        self.ask_all(rt, alloc, cx);
        self.end()
    }

    fn cancel(self, _cx: &mut Cx<Turns, u64, P, UnparkHandle>) {}
}
