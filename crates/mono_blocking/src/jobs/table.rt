// Jobs whose handles are kept, with the joiners of those that run and the outputs of those that have ended.
ghost use Rattle.std.specs.Prelude.{◌≡◌, IfOk, OnOk, IfSome, IfNone, is_some, true, None, Ok, Err, Some};
ghost use Rattle.mono_model.specs.Table.{value_at, next_number, is_full};
ghost use Rattle.mono_model.specs.Jobs.{no_jobs, running, ended_ok, taken};
ghost use Rattle.mono_machine.specs.Watches.{job_waiter};
ghost use Rattle.mono_joinword.specs.Ends.{joiner_view};
ghost use Rattle.mono_joinword.specs.Views.{fresh};
ghost use Rattle.mono_machine.specs.JobCalls.{with_next_job, with_job, kept_job, poll_answer, job_polled, drop_answer, job_dropped};
ghost use Rattle.mono_blocking.specs.JobTable.{HasPlace, job_of, joiner_of, found_of, job_held, IsSound};
ghost use Rattle.mono_blocking.specs.JobAnswers.{IsEnd, after_end, refusal_in, polled_reply, dropped_reply, joiner_at, used, left, PollShown, DropShown, FinishShown};

use crate::jobs::ends::{Answered, End, PolledJob, how_of};
use crate::{Job, JobJoiner, JobWaker, JoinError};
use mono_joinword::{Cancelled, Wakes};
use mono_machine::Refusal;
use mono_model::Poll;
use mono_table::ReadyTable;
use std::alloc::{AllocError, Global};
use std::marker::Model;

/// A job whose handle is kept: it runs and a task may wait for it, or it has ended, or its output was taken.
#[derive(Drop)]
pub enum Place<J: Job> {
    /// It runs: the number of its output, its joiner, and the task that waits for it.
    Running(u64, JobJoiner<J>, Option<u64>),
    /// It has ended with this output, or was canceled.
    Ended(u64, Result<J::Output, JoinError>),
    /// Its output was taken. The place has this value, too, while a call holds the job itself.
    Taken,
}

/// The jobs by their numbers, and the limit on their count. Nothing remains of a job whose handle was dropped.
#[derive(Drop)]
pub struct JobTable<J: Job> {
    places: ReadyTable<Place<J>>,
    limit: u64,
}

impl<J: Job> Model for JobTable<J> {
    ghost use Rattle.mono_blocking.specs.JobTable.{Seen};

    ghost Value = { Seen };

    ghost use Rattle.mono_blocking.specs.JobTable.{jobs_of, joiners_of, AreSound};

    ghost view = { λ a. record { jobs = jobs_of a.places.table a.limit; joiners = joiners_of a.places.table; room = a.places.room } };

    ghost invariant = { λ a. AreSound J.Output.output_number a.places.table };
}

impl<J: Job> JobTable<J> {
    /// Returns a table without jobs.
    pub fn new(alloc: Global, limit: u64) -> JobTable<J>
        ensures { result.jobs ≡ no_jobs limit }
    {
        JobTable {
            places: ReadyTable::new(alloc),
            limit,
        }
    }

    /// Returns whether no further job may be made.
    pub fn is_full(&self) -> bool
        ensures { result ≡ is_full self.now.jobs.table self.now.jobs.limit }
    {
        self.places.count() >= self.limit || self.places.len() == u64::MAX
    }

    /// Reserves a place for one more job. Refuses it if it is out of memory, or if the numbers are used up.
    pub fn reserve(&mut self, alloc: Global) -> Result<(), AllocError>
        ensures place { OnOk result (HasPlace self.new) }
        ensures jobs { self.new.jobs ≡ self.old.jobs }
    {
        self.places.reserve(alloc, Place::Taken)
    }

    /// Returns how many numbers were given to jobs.
    pub fn issued(&self) -> u64
        ensures { result ≡ next_number self.now.jobs.table }
    {
        self.places.len()
    }

    /// Returns the task that waits for a job, if one does. Only a running job has such a task.
    pub fn waiter(&self, j: u64) -> Option<u64>
        ensures { result ≡ job_waiter (value_at self.now.jobs.table j) }
    {
        match self.places.get(j) {
            Some(Place::Running(_number, _joiner, waiter)) => *waiter,
            _ => None,
        }
    }

    /// Adds a job that runs elsewhere, with the number of its output, and returns the job's number.
    pub fn start(&mut self, number: u64, joiner: JobJoiner<J>) -> u64
        requires place { HasPlace self.old }
        requires fresh { joiner_view joiner ≡ fresh number }
        ensures number { result ≡ next_number self.old.jobs.table }
        ensures jobs { self.new.jobs ≡ with_next_job self.old.jobs (running number None) }
    {
        self.add(Place::Running(number, joiner, None))
    }

    /// Adds a job that has run here, and returns its number.
    pub fn keep(&mut self, number: u64, output: J::Output) -> u64
        requires place { HasPlace self.old }
        requires same { J.Output.output_number output ≡ number }
        ensures number { result ≡ next_number self.old.jobs.table }
        ensures jobs { self.new.jobs ≡ with_next_job self.old.jobs (ended_ok number) }
    {
        self.add(Place::Ended(number, Ok(output)))
    }

    /// Adds a job, and returns its number.
    fn add(&mut self, place: Place<J>) -> u64
        requires place { HasPlace self.old }
        requires sound { IsSound J.Output.output_number place }
        ensures number { result ≡ next_number self.old.jobs.table }
        ensures jobs { self.new.jobs ≡ with_next_job self.old.jobs (job_of place) }
    {
        self.places.add(place)
    }

    /// Takes the place of a job whose handle is kept, for a call to hold. Until the call puts it back, the job's output
    /// counts as taken.
    fn take(&mut self, j: u64) -> Result<Place<J>, Refusal>
        ensures found { found_of result ≡ kept_job self.old.jobs j }
        ensures jobs { self.new.jobs ≡ job_held self.old.jobs j }
        ensures kept { OnOk result (is_some (value_at self.new.jobs.table j) ≡ true) }
        ensures sound { IfOk result (IsSound J.Output.output_number) }
        ensures joiner { IfOk result (λ place. joiner_at self.old j ≡ joiner_of place) }
    {
        if j >= self.places.len() {
            return Err(Refusal::NoTask);
        }
        if !self.places.has(j) {
            return Err(Refusal::NoHandle);
        }
        Ok(self.hold(j))
    }

    /// Takes the place of a job.
    fn hold(&mut self, j: u64) -> Place<J>
        requires { is_some (value_at self.old.jobs.table j) ≡ true }
        ensures found { value_at self.old.jobs.table j ≡ Some (job_of result) }
        ensures jobs { self.new.jobs ≡ with_job self.old.jobs j taken }
        ensures sound { IsSound J.Output.output_number result }
        ensures joiner { joiner_at self.old j ≡ joiner_of result }
    {
        self.places.replace(j, Place::Taken)
    }

    /// Removes a job whose handle is kept from the table. It takes no memory.
    fn take_out(&mut self, j: u64) -> Result<Place<J>, Refusal>
        ensures found { found_of result ≡ kept_job self.old.jobs j }
        ensures jobs { self.new.jobs ≡ job_dropped self.old.jobs j }
        ensures sound { IfOk result (IsSound J.Output.output_number) }
        ensures joiner { IfOk result (λ place. joiner_at self.old j ≡ joiner_of place) }
    {
        let place = self.take(j)?;
        self.places.remove(j);
        Ok(place)
    }

    /// Puts back the place that a call held.
    fn put(&mut self, j: u64, place: Place<J>)
        requires kept { is_some (value_at self.old.jobs.table j) ≡ true }
        requires sound { IsSound J.Output.output_number place }
        ensures jobs { self.new.jobs ≡ with_job self.old.jobs j (job_of place) }
        ensures joiner { joiner_at self.new j ≡ joiner_of place }
    {
        drop(self.places.replace(j, place));
    }

    /// Returns why a poll of a job's handle is refused: as `NoTask`, then as `NoHandle`, and then as `Taken`. Returns None if
    /// it is not refused. A caller without a waker asks this.
    pub fn poll_refusal(&self, j: u64) -> Option<Refusal>
        ensures refused { IfSome result (λ refusal. poll_answer self.now.jobs j ≡ Err refusal) }
        ensures asked { IfNone result (refusal_in (poll_answer self.now.jobs j) ≡ None) }
    {
        if j >= self.places.len() {
            return Some(Refusal::NoTask);
        }
        match self.places.get(j) {
            None => Some(Refusal::NoHandle),
            Some(Place::Taken) => Some(Refusal::Taken),
            Some(Place::Running(_, _, _)) => None,
            Some(Place::Ended(_, Ok(_))) => None,
            Some(Place::Ended(_, Err(_))) => None,
        }
    }

    /// Polls a job's handle with a waker; its task waits for the job from then on if it runs. `end` is the job's end if
    /// this call saw it; `answer` and `jobs` are the machine's after it. `shown` says which answers come from a poll of
    /// the joiner in this call.
    pub fn poll(&mut self, j: u64, waker: JobWaker<J::Unpark>) -> PolledJob<J>
        ensures end { IsEnd result.end self.old.jobs j }
        ensures answer { polled_reply J.Output.output_number result.answer ≡ poll_answer (after_end result.end self.old.jobs j) j }
        ensures jobs { self.new.jobs ≡ job_polled (after_end result.end self.old.jobs j) j waker }
        ensures shown { PollShown J.Output.output_number self.old j waker result.answer (used result.joiner) self.new }
    {
        match self.take(j) {
            Err(refusal) => PolledJob::told(Err(refusal)),
            Ok(Place::Taken) => PolledJob::told(Err(Refusal::Taken)),
            Ok(Place::Ended(_number, output)) => PolledJob::told(Ok(Poll::Ready(output))),
            Ok(Place::Running(number, joiner, waiter)) => {
                let mut joiner = joiner;
                let by = waker.number();
                match joiner.poll(waker) {
                    Poll::Pending => {
                        self.put(j, Place::Running(number, joiner, Some(by)));
                        PolledJob::told(Ok(Poll::Pending))
                    }
                    Poll::Ready(output) => {
                        let how = how_of(&output);
                        PolledJob {
                            end: Some(End { how, waiter }),
                            answer: Ok(Poll::Ready(output)),
                            joiner: Some(joiner),
                        }
                    }
                }
            }
        }
    }

    /// Drops the handle of a job. `end` is the job's end if this call saw it; `answer` and `jobs` are the machine's
    /// after it. By `shown`, if it returns no output of a job that had not ended, the joiner's one step in this call
    /// found none.
    pub fn drop_handle(&mut self, j: u64) -> Answered<J, Option<Result<J::Output, JoinError>>>
        ensures end { IsEnd result.end self.old.jobs j }
        ensures answer { dropped_reply J.Output.output_number result.answer ≡ drop_answer (after_end result.end self.old.jobs j) j }
        ensures jobs { self.new.jobs ≡ job_dropped (after_end result.end self.old.jobs j) j }
        ensures shown { DropShown J.Output.output_number self.old j result.answer (left result.seat) }
    {
        match self.take_out(j) {
            Err(refusal) => Answered::told(Err(refusal)),
            Ok(Place::Taken) => Answered::told(Ok(None)),
            Ok(Place::Ended(_number, output)) => Answered::told(Ok(Some(output))),
            Ok(Place::Running(_number, joiner, waiter)) => {
                let Cancelled { output, seat } = joiner.cancel_with_seat();
                let seat = Some(seat);
                match output {
                    None => Answered {
                        end: None,
                        answer: Ok(None),
                        seat,
                    },
                    Some(output) => {
                        let how = how_of(&output);
                        Answered {
                            end: Some(End { how, waiter }),
                            answer: Ok(Some(output)),
                            seat,
                        }
                    }
                }
            }
        }
    }

    /// Returns whether a job has ended. The query changes nothing for the machine (`jobs`): a job whose load sees an
    /// end stays running in the table, until a poll or a drop sees that end. By `shown`, a refusal is the machine's. If
    /// the table has the job running, both Yes and No come from a load of the joiner in this call.
    pub fn has_ended(&mut self, j: u64) -> Result<bool, Refusal>
        ensures jobs { self.new.jobs ≡ self.old.jobs }
        ensures shown { FinishShown self.old j result self.new }
    {
        match self.take(j) {
            Err(refusal) => Err(refusal),
            Ok(Place::Taken) => Ok(true),
            Ok(Place::Ended(number, output)) => {
                self.put(j, Place::Ended(number, output));
                Ok(true)
            }
            Ok(Place::Running(number, joiner, waiter)) => {
                let mut joiner = joiner;
                let ended = joiner.is_finished();
                self.put(j, Place::Running(number, joiner, waiter));
                Ok(ended)
            }
        }
    }
}
