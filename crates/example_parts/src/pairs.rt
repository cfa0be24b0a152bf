//! Two jobs on a pool, whose outputs are joined through an inbox.

ghost use Rattle.std.specs.Prelude.{◌≡◌, false, IfOk};
ghost use Rattle.mono_joinword.specs.Ends.{joiner_view};

use mono_blocking::{BlockingTask, Job, JobJoiner, JobWaker, JoinError, ScheduleError, ThreadPool};
use mono_inbox::{Inbox, Parker};
use mono_model::{Host, Poll};
use std::alloc::{AllocError, Global};

/// The reasons for which there are no two outputs.
#[derive(Drop)]
pub enum PairError {
    /// An allocation failed.
    Memory,
    /// The pool refused a job.
    Refused,
    /// A job was cancelled.
    Canceled,
}

// Gives a job to a pool, and returns the joiner of its output.
fn offer<R: Host, P: ThreadPool>(
    rt: &R,
    alloc: Global,
    pool: &mut P,
    job: P::Job,
) -> Result<JobJoiner<P::Job>, PairError>
    ensures untaken { IfOk result (λ joiner. (joiner_view joiner).took ≡ false) }
    ensures number { IfOk result (λ joiner. (joiner_view joiner).number ≡ P.Job.output_number job) }
{
    let Ok((task, joiner)) = BlockingTask::new(alloc, job) else {
        return Err(PairError::Memory);
    };
    match pool.schedule_task(rt, alloc, task) {
        Ok(()) => Ok(joiner),
        Err(ScheduleError::Memory(_)) => Err(PairError::Memory),
        Err(ScheduleError::Refused(_)) => Err(PairError::Refused),
    }
}

// Waits until the output is there: the job's end puts the task into the inbox and ends the wait.
fn wait_for<R: Host, J: Job>(
    rt: &R,
    alloc: Global,
    inbox: &Inbox<J::Unpark>,
    parker: &Parker,
    joiner: JobJoiner<J>,
    task: u64,
) -> Result<J::Output, PairError>
    requires { (joiner_view joiner).took ≡ false }
    ensures { IfOk result (λ output. J.Output.output_number output ≡ (joiner_view joiner).number) }
{
    let mut joiner = joiner;
    let mut listed = Vec::new(alloc);
    for _ in rt.forever() {
        let Ok(waker) = inbox.waker(rt, alloc, task) else {
            return Err(PairError::Memory);
        };
        match joiner.poll(JobWaker::new(waker)) {
            Poll::Ready(Ok(output)) => return Ok(output),
            Poll::Ready(Err(JoinError::Canceled)) => return Err(PairError::Canceled),
            Poll::Pending => {
                parker.park(rt);
                if inbox.drain(rt, alloc, &mut listed).is_err() {
                    return Err(PairError::Memory);
                }
                listed.clear();
            }
        }
    }
    unreachable!()
}

/// Gives two jobs to a pool and waits for both outputs. Each output has its job's number.
pub fn both<R: Host, P: ThreadPool>(
    rt: &R,
    alloc: Global,
    pool: &mut P,
    inbox: &Inbox<<P::Job as Job>::Unpark>,
    parker: &Parker,
    first: P::Job,
    second: P::Job,
) -> Result<(<P::Job as Job>::Output, <P::Job as Job>::Output), PairError>
    ensures numbers { IfOk result (λ outputs. (P.Job.Output.output_number outputs.0 ≡ P.Job.output_number first) × (P.Job.Output.output_number outputs.1 ≡ P.Job.output_number second)) }
{
    let one = offer(rt, alloc, pool, first)?;
    let two = offer(rt, alloc, pool, second)?;
    let a = wait_for::<R, P::Job>(rt, alloc, inbox, parker, one, 0)?;
    let b = wait_for::<R, P::Job>(rt, alloc, inbox, parker, two, 1)?;
    Ok((a, b))
}
