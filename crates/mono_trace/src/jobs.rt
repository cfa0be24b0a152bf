// Blocking jobs whose handles are kept, with changes that can be taken back.
ghost use Rattle.std.specs.Prelude.{◌≡◌, OnOk, IfOk, is_some, true, None};
ghost use Rattle.mono_model.specs.Table.{value_at, next_number, is_full};
ghost use Rattle.mono_model.specs.Jobs.{no_jobs, running, ended_ok};
ghost use Rattle.mono_machine.specs.Acts.{reply_of};
ghost use Rattle.mono_machine.specs.JobCalls.{with_job, without_job, with_next_job, kept_job, drop_answer, job_dropped, finished_answer, end_answer, ended_as, job_ended, poll_answer, job_polled};
ghost use Rattle.mono_trace.specs.Versions.{kept, changed};
ghost use Rattle.mono_trace.specs.Tables.{job_of, found_job};

use crate::places::Places;
use mono_machine::{How, Refusal, Reply};
use std::alloc::{AllocError, Global};
use std::marker::Model;

/// A job whose handle is kept. It runs, with its output to come and the task that waits for it; or it has ended; or its
/// output was taken.
#[derive(Clone, Copy)]
pub enum Job {
    Running(u64, Option<u64>),
    EndedOk(u64),
    EndedCanceled,
    Taken,
}

/// The jobs by their numbers, and the limit on their count.
///
/// Contracts see the jobs of the machine, as they are and as they were when their changes were last kept.
#[derive(Drop)]
pub struct Jobs {
    places: Places<Job>,
    limit: u64,
}

impl Model for Jobs {
    ghost use Rattle.mono_model.specs.Jobs as model;
    ghost use Rattle.mono_trace.specs.Versions.{Versions};
    ghost use Rattle.mono_trace.specs.Tables.{jobs_of};

    ghost Value = { Versions model.Jobs };

    ghost view = { λ a. record { now = jobs_of a.places.now a.limit; before = jobs_of a.places.before a.limit } };
}

/// Returns the job after it has ended in this way.
fn ended_as(how: How, output: u64) -> Job
    ensures { job_of result ≡ ended_as how output }
{
    match how {
        How::Ran => Job::EndedOk(output),
        How::Canceled => Job::EndedCanceled,
    }
}

impl Jobs {
    /// Returns a table without jobs.
    pub fn new(alloc: Global, limit: u64) -> Jobs
        ensures { result ≡ kept (no_jobs limit) }
    {
        Jobs {
            places: Places::new(alloc),
            limit,
        }
    }

    /// Returns whether no further job may be made.
    pub fn is_full(&self) -> bool
        ensures { result ≡ is_full self.now.now.table self.now.now.limit }
    {
        self.places.live() >= self.limit || self.places.next_number() == u64::MAX
    }

    /// Adds a job, and returns its number, which is the next.
    fn add(&mut self, job: Job) -> Result<u64, AllocError>
        ensures number { IfOk result (λ j. j ≡ next_number self.old.now.table) }
        ensures jobs { OnOk result (self.new ≡ changed self.old (with_next_job self.old.now (job_of job))) }
    {
        let j = self.places.next_number();
        self.places.push(job)?;
        Ok(j)
    }

    /// Adds a job that runs elsewhere, and returns its number.
    pub fn start(&mut self, output: u64) -> Result<u64, AllocError>
        ensures number { IfOk result (λ j. j ≡ next_number self.old.now.table) }
        ensures jobs { OnOk result (self.new ≡ changed self.old (with_next_job self.old.now (running output None))) }
    {
        self.add(Job::Running(output, None))
    }

    /// Adds a job that has run here, and returns its number.
    pub fn run(&mut self, output: u64) -> Result<u64, AllocError>
        ensures number { IfOk result (λ j. j ≡ next_number self.old.now.table) }
        ensures jobs { OnOk result (self.new ≡ changed self.old (with_next_job self.old.now (ended_ok output))) }
    {
        self.add(Job::EndedOk(output))
    }

    /// Returns the job, if its handle is kept.
    fn kept(&self, j: u64) -> Result<Job, Refusal>
        ensures { found_job result ≡ kept_job self.now.now j }
    {
        if !self.places.is_issued(j) {
            return Err(Refusal::NoTask);
        }
        match self.places.get(j) {
            None => Err(Refusal::NoHandle),
            Some(job) => Ok(job),
        }
    }

    /// Stores the new state of a job.
    fn set(&mut self, j: u64, job: Job) -> Result<(), AllocError>
        requires { is_some (value_at self.old.now.table j) ≡ true }
        ensures { OnOk result (self.new ≡ changed self.old (with_job self.old.now j (job_of job))) }
    {
        self.places.set(j, job)
    }

    /// Removes a job.
    fn remove(&mut self, j: u64) -> Result<(), AllocError>
        requires { is_some (value_at self.old.now.table j) ≡ true }
        ensures { OnOk result (self.new ≡ changed self.old (without_job self.old.now j)) }
    {
        self.places.remove(j)
    }

    /// Drops the handle of a job.
    pub fn drop_handle(&mut self, j: u64) -> Result<Reply, AllocError>
        ensures reply { IfOk result (λ r. r ≡ reply_of (drop_answer self.old.now j)) }
        ensures jobs { OnOk result (self.new ≡ changed self.old (job_dropped self.old.now j)) }
    {
        match self.kept(j) {
            Err(refusal) => Ok(Reply::Refused(refusal)),
            Ok(Job::EndedOk(output)) => {
                self.remove(j)?;
                Ok(Reply::Dropped(Some(output)))
            }
            Ok(_) => {
                self.remove(j)?;
                Ok(Reply::Dropped(None))
            }
        }
    }

    /// Returns whether a job has ended.
    pub fn has_ended(&self, j: u64) -> Reply
        ensures { result ≡ reply_of (finished_answer self.now.now j) }
    {
        match self.kept(j) {
            Err(refusal) => Reply::Refused(refusal),
            Ok(Job::Running(_, _)) => Reply::No,
            Ok(_) => Reply::Yes,
        }
    }

    /// Ends a job. The answer has the task that waited for it.
    pub fn end(&mut self, j: u64, how: How) -> Result<Reply, AllocError>
        ensures reply { IfOk result (λ r. r ≡ reply_of (end_answer self.old.now j)) }
        ensures jobs { OnOk result (self.new ≡ changed self.old (job_ended self.old.now j how)) }
    {
        match self.kept(j) {
            Ok(Job::Running(output, waiter)) => {
                self.set(j, ended_as(how, output))?;
                Ok(Reply::Ended(waiter))
            }
            Ok(_) => Ok(Reply::Refused(Refusal::Ended)),
            Err(Refusal::NoHandle) => Ok(Reply::Ended(None)),
            Err(refusal) => Ok(Reply::Refused(refusal)),
        }
    }

    /// Polls a job's handle for a task.
    pub fn poll(&mut self, j: u64, by: u64) -> Result<Reply, AllocError>
        ensures reply { IfOk result (λ r. r ≡ reply_of (poll_answer self.old.now j)) }
        ensures jobs { OnOk result (self.new ≡ changed self.old (job_polled self.old.now j by)) }
    {
        match self.kept(j) {
            Err(refusal) => Ok(Reply::Refused(refusal)),
            Ok(Job::Running(output, _)) => {
                self.set(j, Job::Running(output, Some(by)))?;
                Ok(Reply::Pending)
            }
            Ok(Job::EndedOk(output)) => {
                self.set(j, Job::Taken)?;
                Ok(Reply::Output(output))
            }
            Ok(Job::EndedCanceled) => {
                self.set(j, Job::Taken)?;
                Ok(Reply::Canceled)
            }
            Ok(Job::Taken) => Ok(Reply::Refused(Refusal::Taken)),
        }
    }

    /// Keeps all changes, so that they cannot be taken back any more.
    pub fn keep(&mut self)
        ensures { self.new ≡ kept self.old.now }
    {
        self.places.keep();
    }

    /// Takes back all changes since they were last kept.
    pub fn take_back(&mut self)
        ensures { self.new ≡ kept self.old.before }
    {
        self.places.take_back();
    }
}
