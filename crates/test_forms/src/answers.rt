// Functions that rest on what the handles of tasks and jobs may answer.
ghost use Rattle.mono_blocking.specs.Handles.{OfHandle};
ghost use Rattle.mono_task.specs.Joins.{IsOfHandle};

use crate::contexts::begin;
use crate::jobs::run;
use mono_forms::FutureExt;
use mono_rt::{
    BlockingStrategy, Host, JoinContext, JoinError, JoinHandle, Poll, PollJob, Refusal, RunError,
    TaskError, TaskFuture,
};
use std::alloc::Global;
use std::process::Abort;

// Returns the output, or a code for each refusal that a handle has.
fn task_code(answer: Result<u64, TaskError>) -> u64
    requires { IsOfHandle answer }
{
    match answer {
        Ok(output) => output,
        Err(TaskError::NoTask) => 1001,
        Err(TaskError::NoHandle) => 1002,
        Err(TaskError::Taken) => 1003,
        Err(TaskError::Idle) => unreachable!(),
    }
}

// Returns the output, or a code for each refusal that a handle has.
fn job_code(answer: Result<Result<u64, JoinError>, PollJob>) -> u64
    requires { OfHandle answer }
{
    match answer {
        Ok(Ok(output)) => output,
        Ok(Err(_)) => 2001,
        Err(PollJob::Memory) => 2002,
        Err(PollJob::Refused(Refusal::NoTask)) => 2003,
        Err(PollJob::Refused(Refusal::NoHandle)) => 2004,
        Err(PollJob::Refused(Refusal::Taken)) => 2005,
        Err(PollJob::Refused(_)) => unreachable!(),
    }
}

/// Polls the handle of the task of this number once, and answers its code; 9000 if it is pending. It does not give the
/// handle up: the task may be the main one, whose handle `block_on` reads.
#[derive(Drop)]
struct Asks(u64);

impl<C: JoinContext<u64>> TaskFuture<C> for Asks {
    type Output = u64;

    fn spent(&self) -> bool {
        false
    }

    fn poll<R: Host>(&mut self, rt: &R, alloc: Global, cx: &mut C) -> Poll<u64> {
        let handle: JoinHandle<u64> = JoinHandle::of_task(self.0);
        let mut task = handle.map(task_code);
        match task.poll(rt, alloc, cx) {
            Poll::Ready(code) => Poll::Ready(code),
            Poll::Pending => Poll::Ready(9000),
        }
    }

    fn cancel(self, _cx: &mut C) {}
}

/// Asks for the output of the task of this number in a main task of the number 0, and returns the code.
fn asked<R: Host + Abort>(rt: &R, alloc: Global, task: u64) -> Result<u64, RunError> {
    run(rt, alloc, BlockingStrategy::Panic, 0, Asks(task))
}

#[test]
fn a_handle_is_refused_or_pending(rt: HostRuntime) {
    assert_eq!(rt; asked(&rt, rt.alloc(), 7), Ok(1001));
    assert_eq!(rt; asked(&rt, rt.alloc(), 0), Ok(9000));
}

#[test]
fn a_closure_gets_what_the_handle_of_a_job_answers(rt: HostRuntime) {
    let task = begin(9).flatten().map(job_code);
    let strategy = BlockingStrategy::ExecuteLocal;
    assert_eq!(rt; run(&rt, rt.alloc(), strategy, 1, task), Ok(9));
}
