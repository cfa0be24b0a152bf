// A job with the runner's end of its word.
ghost use Rattle.std.specs.Prelude.{◌≡◌, ℕ, true, false, IfOk, IfErr};
ghost use Rattle.mono_joinword.specs.Views.{fresh};
ghost use Rattle.mono_joinword.specs.Ends.{runner_view, joiner_view, SamePair};
ghost use Rattle.mono_blocking.specs.Tasks.{HasEnded};

use mono_inbox::{RemoteWaker, Unpark};
use mono_joinword::{JoinError, Joiner, Outcome, Runner, RunnerSeat, Wakes, pair};
use mono_model::Host;
use std::alloc::Global;
use std::marker::Model;

/// Work that may block, and that may move to another thread.
///
/// A job has a number, which is its output's number. An output whose value has no such number carries its job's number
/// as well.
pub trait Job: Outcome + Drop {
    /// The job's output.
    type Output: Outcome + Drop;

    /// The value that ends the wait of the thread whose task asks for the output.
    type Unpark: Unpark;

    /// Does the work.
    fn run(self) -> Self::Output
        ensures { Self.Output.output_number result ≡ Self.output_number self };
}

/// A remote waker as the waker in a job's word. A contract sees its task's number.
#[derive(Drop)]
pub struct JobWaker<U: Unpark> {
    waker: RemoteWaker<U>,
    task: u64,
}

impl<U: Unpark> Model for JobWaker<U> {
    ghost use Rattle.std.specs.Prelude.{ℕ, ◌≡◌};

    ghost Value = { ℕ };

    ghost view = { λ a. a.task };

    ghost invariant = { λ a. a.task ≡ a.waker };
}

impl<U: Unpark> JobWaker<U> {
    /// Returns the same waker, of the same task.
    pub fn new(waker: RemoteWaker<U>) -> JobWaker<U>
        ensures { result ≡ waker }
    {
        let task = waker.task();
        JobWaker { waker, task }
    }

    /// Wakes the task.
    fn wake<R: Host>(self, rt: &R) {
        let _listed = self.waker.wake(rt);
    }
}

impl<U: Unpark> Wakes for JobWaker<U> {
    ghost waker_number = { λ waker. waker };

    fn number(&self) -> u64 {
        self.task
    }
}

/// The joiner's end of a job's word.
pub type JobJoiner<J: Job> = Joiner<J::Output, JobWaker<J::Unpark>>;

/// A job with the runner's end of its word. `run` or `cancel` spends it.
///
/// A drop completes its word with `Canceled`, and wakes no task, since a drop has no `rt`.
#[derive(Drop)]
pub struct BlockingTask<J: Job> {
    pub(crate) job: J,
    pub(crate) runner: Runner<J::Output, JobWaker<J::Unpark>>,
    ghost same: { J.output_number job ≡ (runner_view runner).number },
}

/// A blocking task that was run or cancelled: the runner's seat of its word, after the one completing step. Contracts
/// see its view. It may be dropped at any time.
#[derive(Drop)]
pub struct Spent<J: Job> {
    pub(crate) seat: RunnerSeat<J::Output, JobWaker<J::Unpark>>,
}

impl<J: Job> BlockingTask<J> {
    /// Returns a task for the job, and the joiner of its word, whose number is the job's. The job comes back if and
    /// only if the call is out of memory.
    pub fn new(alloc: Global, job: J) -> Result<(BlockingTask<J>, JobJoiner<J>), J>
        ensures job { IfOk result (λ made. made.0.job ≡ job) }
        ensures joiner { IfOk result (λ made. joiner_view made.1 ≡ fresh (J.output_number job)) }
        ensures word { IfOk result (λ made. SamePair made.0.runner made.1) }
        ensures refused { IfErr result (λ back. back ≡ job) }
    {
        match pair(alloc, job.number()) {
            Ok((runner, joiner)) => Ok((BlockingTask { job, runner }, joiner)),
            Err(_) => Err(job),
        }
    }

    /// Runs the job and completes the word with its output, by one step. Then it wakes the waker that the step found.
    pub fn run<R: Host>(self, rt: &R) -> Spent<J>
        ensures { HasEnded false (J.output_number self.job) self.runner result.seat }
    {
        let Self { job, runner } = self;
        let done = runner.complete(Ok(job.run()));
        wake_found(rt, done.woke);
        Spent { seat: done.seat }
    }

    /// Completes the word with `Canceled`, by one step, and returns the job unrun. Then it wakes the waker that the
    /// step found.
    pub fn cancel<R: Host>(self, rt: &R) -> (J, Spent<J>)
        ensures job { result.0 ≡ self.job }
        ensures spent { HasEnded true (J.output_number self.job) self.runner result.1.seat }
    {
        let Self { job, runner } = self;
        let done = runner.complete(Err(JoinError::Canceled));
        wake_found(rt, done.woke);
        (job, Spent { seat: done.seat })
    }
}

// Wakes the waker that the completing step found, if it found one.
fn wake_found<U: Unpark, R: Host>(rt: &R, woke: Option<JobWaker<U>>) {
    if let Some(waker) = woke {
        waker.wake(rt);
    }
}
