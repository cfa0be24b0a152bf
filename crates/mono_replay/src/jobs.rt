// Blocking jobs whose handles are kept.
ghost use Rattle.std.specs.Prelude.{◌≡◌, ◌<◌, ◌-◌, ◌^◌, IfOk, OnOk, is_some, true, false, None};
ghost use Rattle.mono_model.specs.Table.{value_at, next_number, is_full};
ghost use Rattle.mono_model.specs.Jobs.{no_jobs, running, ended_ok};
ghost use Rattle.mono_replay.specs.JobTable.{job_of, found_of};
ghost use Rattle.mono_machine.specs.JobCalls.{with_job, without_job, with_next_job, kept_job, drop_answer, job_dropped, finished_answer, end_answer, job_ended, poll_answer, job_polled};

use crate::{How, Refusal, Reply};
use mono_table::Table;
use std::alloc::{AllocError, Global};
use std::marker::Model;

/// A job whose handle is kept: it runs, with its output to come and the task that waits for it, or it has ended, or its
/// result was taken already.
#[derive(Clone, Copy, Debug, PartialEq, Eq)]
pub enum Job {
    Running(u64, Option<u64>),
    EndedOk(u64),
    EndedCanceled,
    Taken,
}

/// The jobs by their numbers, and how many there may be. A job whose handle was dropped leaves nothing.
#[derive(Drop)]
pub struct Jobs {
    places: Table<Job>,
    limit: u64,
}

impl Model for Jobs {
    ghost use Rattle.mono_model.specs.Jobs as model;

    ghost Value = { model.Jobs };

    ghost use Rattle.mono_replay.specs.JobTable.{jobs_of};

    ghost view = { λ a. jobs_of a.places a.limit };
}

impl Jobs {
    /// Returns the table without jobs.
    pub fn new(alloc: Global, limit: u64) -> Jobs
        ensures { result ≡ no_jobs limit }
    {
        Jobs {
            places: Table::new(alloc),
            limit,
        }
    }

    /// Returns whether no further job may be made. If one may be made, there is a next number (`room`).
    pub fn is_full(&self) -> bool
        ensures full { result ≡ is_full self.now.table self.now.limit }
        ensures room { result ≡ false → next_number self.now.table < 2 ^ 64 - 1 }
    {
        self.places.count() >= self.limit || self.places.len() == u64::MAX
    }

    /// Adds a job with the next number, and returns that number.
    fn add(&mut self, alloc: Global, job: Job) -> Result<u64, AllocError>
        requires { next_number self.old.table < 2 ^ 64 - 1 }
        ensures number { IfOk result (λ j. j ≡ next_number self.old.table) }
        ensures jobs { OnOk result (self.new ≡ with_next_job self.old (job_of job)) }
    {
        let j = self.places.len();
        self.places.push(alloc, job)?;
        Ok(j)
    }

    /// Makes a job that runs elsewhere, and returns its number.
    pub fn start(&mut self, alloc: Global, output: u64) -> Result<u64, AllocError>
        requires { next_number self.old.table < 2 ^ 64 - 1 }
        ensures number { IfOk result (λ j. j ≡ next_number self.old.table) }
        ensures jobs { OnOk result (self.new ≡ with_next_job self.old (running output None)) }
    {
        self.add(alloc, Job::Running(output, None))
    }

    /// Makes a job that has run here, and returns its number.
    pub fn run(&mut self, alloc: Global, output: u64) -> Result<u64, AllocError>
        requires { next_number self.old.table < 2 ^ 64 - 1 }
        ensures number { IfOk result (λ j. j ≡ next_number self.old.table) }
        ensures jobs { OnOk result (self.new ≡ with_next_job self.old (ended_ok output)) }
    {
        self.add(alloc, Job::EndedOk(output))
    }

    /// Returns the job if its handle is kept.
    fn kept(&self, j: u64) -> Result<Job, Refusal>
        ensures { found_of result ≡ kept_job self.now j }
    {
        if j >= self.places.len() {
            return Err(Refusal::NoTask);
        }
        match self.places.get(j) {
            None => Err(Refusal::NoHandle),
            Some(job) => Ok(*job),
        }
    }

    /// Stores the new state of a job whose handle is kept.
    fn set(&mut self, j: u64, job: Job)
        requires { is_some (value_at self.old.table j) ≡ true }
        ensures { self.new ≡ with_job self.old j (job_of job) }
    {
        self.places.set(j, job);
    }

    /// Removes the job. It takes no memory.
    fn remove(&mut self, j: u64)
        requires { is_some (value_at self.old.table j) ≡ true }
        ensures { self.new ≡ without_job self.old j }
    {
        self.places.remove(j);
    }

    /// Drops the handle of a job.
    pub fn drop_handle(&mut self, j: u64) -> Result<Reply, Refusal>
        ensures answer { result ≡ drop_answer self.old j }
        ensures jobs { self.new ≡ job_dropped self.old j }
    {
        let output = match self.kept(j)? {
            Job::EndedOk(output) => Some(output),
            _ => None,
        };
        self.remove(j);
        Ok(Reply::Dropped(output))
    }

    /// Returns whether a job has ended.
    pub fn has_ended(&self, j: u64) -> Result<Reply, Refusal>
        ensures { result ≡ finished_answer self.now j }
    {
        match self.kept(j)? {
            Job::Running(_, _) => Ok(Reply::No),
            _ => Ok(Reply::Yes),
        }
    }

    /// Ends a job, and returns the task that waited for it.
    pub fn end(&mut self, j: u64, how: How) -> Result<Reply, Refusal>
        ensures answer { result ≡ end_answer self.old j }
        ensures jobs { self.new ≡ job_ended self.old j how }
    {
        match self.kept(j) {
            Ok(Job::Running(output, waiter)) => {
                match how {
                    How::Ran => self.set(j, Job::EndedOk(output)),
                    How::Canceled => self.set(j, Job::EndedCanceled),
                }
                Ok(Reply::Ended(waiter))
            }
            Ok(_) => Err(Refusal::Ended),
            Err(Refusal::NoHandle) => Ok(Reply::Ended(None)),
            Err(refusal) => Err(refusal),
        }
    }

    /// Polls a job's handle for a task.
    pub fn poll(&mut self, j: u64, by: u64) -> Result<Reply, Refusal>
        ensures answer { result ≡ poll_answer self.old j }
        ensures jobs { self.new ≡ job_polled self.old j by }
    {
        match self.kept(j)? {
            Job::Running(output, _) => {
                self.set(j, Job::Running(output, Some(by)));
                Ok(Reply::Pending)
            }
            Job::EndedOk(output) => {
                self.set(j, Job::Taken);
                Ok(Reply::Output(output))
            }
            Job::EndedCanceled => {
                self.set(j, Job::Taken);
                Ok(Reply::Canceled)
            }
            Job::Taken => Err(Refusal::Taken),
        }
    }
}
