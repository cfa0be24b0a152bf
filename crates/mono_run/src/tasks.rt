// A script's task: one poll runs its lines from where the poll before stopped.
ghost use Rattle.std.specs.Prelude.{◌≡◌, ◌<◌, ◌≤◌, ◌-◌, ◌+◌, ◌^◌, ◌∷◌, [], ℕ, List, Option, true, false, IfSome, IfNone, IfOk, Some, None, length, slice_index_or};
ghost use Rattle.mono_machine.specs.declared.events.Act.TheVariants as act;
ghost use Rattle.mono_machine.specs.declared.events.TurnStep.TheVariants as step;
ghost use Rattle.mono_time.specs.Instants.{nanos_of};
ghost use Rattle.mono_time.specs.Futures.{deadline_after};
ghost use Rattle.mono_rt.specs.Reaches.{Reaches};
ghost use Rattle.mono_run.specs.declared.scripts.body.BodyLine.{BodyLine};
ghost use Rattle.mono_run.specs.ScriptTurns.{Place, place, turn_from, stops_at, acted, asked, with_handle, join_steps, job_steps, sleep_steps, yielded, if_made, none_made, task_in, sleep_in, job_in};
ghost use Rattle.mono_run.specs.TaskStages.{body_len};
ghost use Rattle.mono_run.specs.TaskPolls.{HasKept, Stands, Fits, GrewAtMost, PollsTask, kind_of, left_of, output_of, no_own};
ghost use Rattle.mono_run.specs.Segments.{Rest, Goes, waits, HasPlaces, if_over, next_if, next_behind, sleep_line, behind_line, at_task, behind_step};
ghost use Rattle.mono_run.specs.declared.tasks.Next.TheVariants as next;
ghost use Rattle.mono_run.specs.declared.tasks.ScriptTask.{ScriptTask};

use crate::drivers::ScriptUnpark;
use crate::handles::Handles;
use crate::jobs::ScriptJob;
use crate::parser::{BodyLine, TaskKind};
use mono_blocking::DefaultThreadPool;
use mono_model::Host;
use mono_rt::Cx;
use mono_task::{Context, JoinContext, Poll, TaskFuture};
use mono_time::{Instant, TimeContext};
use std::alloc::{AllocError, Global};
use std::time::Duration;

/// The context of a script's task.
pub type ScriptContext<'a> = Cx<ScriptTask<'a>, u64, DefaultThreadPool<ScriptJob>, ScriptUnpark>;

/// A task of a kind of a script.
///
/// Each poll runs lines of the kind's body from where the poll before stopped. It ends when a line has to wait, or
/// yields, or the body is done. A refused call leaves no handle, and the task continues. A task takes the memory for its
/// handles when it is made. One poll makes at most 510 acts (`few` of `PollsTask`), so that a journal never becomes full.
#[derive(Drop)]
pub struct ScriptTask<'a> {
    kinds: &'a [TaskKind],
    kind: usize,
    at: usize,
    own: Own,
}

// The handles that the task made, and the sleep for which it waits.
#[derive(Drop)]
struct Own {
    tasks: Handles,
    jobs: Handles,
    sleeping: Option<u64>,
}

// How the task continues after a line.
#[derive(Clone, Copy)]
enum Next {
    // The next line follows.
    GoesOn,
    // The turn ends; the next one continues after the line.
    Stops,
    // The turn ends; the next one begins with the line.
    Stays,
}

// The length in seconds of a sleep whose deadline would be past the last instant.
const FAR_OFF_SECONDS: u64 = 946080000;

// Returns whether the task has to wait for the source that it polled.
fn waits<T, E>(answer: &Result<Poll<T>, E>) -> bool
    ensures { result ≡ waits answer.now }
{
    match answer {
        Ok(Poll::Pending) => true,
        Ok(Poll::Ready(_)) => false,
        Err(_) => false,
    }
}

// Waits for the sleep, and drops it. Returns false if the task has to wait.
fn await_sleep(cx: &mut ScriptContext, number: u64) -> bool
    ensures reached { Reaches (λ n. n) cx.old cx.new }
    ensures few { GrewAtMost 2 cx.old.parts.acts cx.new.parts.acts }
    ensures goes { (task : ScriptTask) (here : Place) (f : Rest) → HasKept cx.new.parts → Goes task (sleep_steps number here f) (if_over result f here) cx.old cx.new }
{
    let answer = cx.poll_sleep(number);
    if waits(&answer) {
        return false;
    }
    let _ = cx.drop_sleep(number);
    true
}

// Returns the deadline of a sleep of `nanos` nanoseconds that is made now.
fn deadline_from(now: Instant, nanos: u64) -> Option<Instant>
    ensures none { IfNone result (deadline_after (nanos_of now) nanos ≡ None) }
    ensures some { IfSome result (λ deadline. deadline_after (nanos_of now) nanos ≡ Some (nanos_of deadline)) }
{
    match now.checked_add(Duration::from_nanos(nanos)) {
        Some(deadline) => Some(deadline),
        None => now.checked_add(Duration::from_secs(FAR_OFF_SECONDS)),
    }
}

// Makes a sleep until a deadline, and returns its number unless it is refused.
fn add_sleep(alloc: Global, cx: &mut ScriptContext, deadline: Instant) -> Option<u64>
    ensures reached { Reaches (λ n. n) cx.old cx.new }
    ensures few { GrewAtMost 1 cx.old.parts.acts cx.new.parts.acts }
    ensures goes { (task : ScriptTask) (k : Option ℕ → Rest) → Stands cx.old.parts → HasKept cx.new.parts → Goes task (asked (step.Act (act.NewSleep (nanos_of deadline))) sleep_in none_made k) (k result) cx.old cx.new }
{
    match cx.add_sleep(alloc, deadline) {
        Ok(number) => Some(number),
        Err(_) => None,
    }
}

// Makes a sleep of `nanos` nanoseconds, and returns its number unless it is refused.
fn make_sleep(alloc: Global, cx: &mut ScriptContext, nanos: u64) -> Option<u64>
    ensures reached { Reaches (λ n. n) cx.old cx.new }
    ensures few { GrewAtMost 1 cx.old.parts.acts cx.new.parts.acts }
    ensures goes { (task : ScriptTask) (k : Option ℕ → Rest) → Stands cx.old.parts → HasKept cx.new.parts → Goes task (with_handle (deadline_after (nanos_of cx.old.parts.now) nanos) (λ d q. asked (step.Act (act.NewSleep d)) sleep_in none_made k q) (k None)) (k result) cx.old cx.new }
{
    match deadline_from(Instant::now(cx), nanos) {
        Some(deadline) => add_sleep(alloc, cx, deadline),
        None => None,
    }
}

// Waits for the task's output, and drops its handle. Returns false if the task has to wait.
fn await_task(cx: &mut ScriptContext, number: u64) -> bool
    ensures reached { Reaches (λ n. n) cx.old cx.new }
    ensures few { GrewAtMost 2 cx.old.parts.acts cx.new.parts.acts }
    ensures goes { (task : ScriptTask) (here : Place) (f : Rest) → HasKept cx.new.parts → Goes task (join_steps number here f) (if_over result f here) cx.old cx.new }
{
    let answer = cx.poll_join(number);
    if waits(&answer) {
        return false;
    }
    let _ = cx.drop_join(number);
    true
}

// Wakes the running task itself.
fn wake_self(cx: &mut ScriptContext)
    ensures reached { Reaches (λ n. n) cx.old cx.new }
    ensures few { GrewAtMost 1 cx.old.parts.acts cx.new.parts.acts }
    ensures goes { (task : ScriptTask) (here : Place) → HasKept cx.new.parts → Goes task (yielded cx.old.parts.me here) (stops_at here) cx.old cx.new }
{
    let me = cx.me();
    let _ = cx.wake(me);
}

// Waits for the job, and drops its handle. Returns false if the task has to wait.
fn await_job(cx: &mut ScriptContext, number: u64) -> bool
    ensures reached { Reaches (λ n. n) cx.old cx.new }
    ensures few { GrewAtMost 4 cx.old.parts.acts cx.new.parts.acts }
    ensures goes { (task : ScriptTask) (here : Place) (f : Rest) → HasKept cx.new.parts → Goes task (job_steps number here f) (if_over result f here) cx.old cx.new }
{
    let answer = cx.poll_job(number);
    if waits(&answer) {
        return false;
    }
    let _ = cx.drop_job(number);
    true
}

// Spawns a task of this kind, and returns its number unless it was refused.
fn spawn_kind<'a>(
    alloc: Global,
    cx: &mut ScriptContext<'a>,
    kinds: &'a [TaskKind],
    kind: u64,
) -> Option<u64>
    ensures reached { Reaches (λ n. n) cx.old cx.new }
    ensures few { GrewAtMost 1 cx.old.parts.acts cx.new.parts.acts }
    ensures goes { (task : ScriptTask) (k : Option ℕ → Rest) → task.kinds ≡ kinds.entry → HasKept cx.new.parts → Goes task (asked (step.Act act.Spawn) task_in (λ h. if_made h kind) k) (k result) cx.old cx.new }
{
    let Ok(task) = ScriptTask::new(alloc, kinds, kind as usize) else {
        cx.note_out_of_memory();
        return None;
    };
    match cx.spawn(alloc, task) {
        Ok(handle) => Some(handle.task()),
        Err(_refused) => None,
    }
}

// Spawns a job with this output, and returns its number unless it was refused.
fn block<R: Host>(rt: &R, alloc: Global, cx: &mut ScriptContext, output: u64) -> Option<u64>
    ensures reached { Reaches (λ n. n) cx.old cx.new }
    ensures few { GrewAtMost 1 cx.old.parts.acts cx.new.parts.acts }
    ensures goes { (task : ScriptTask) (k : Option ℕ → Rest) → HasKept cx.new.parts → Goes task (asked (step.Act (act.Block output)) job_in none_made k) (k result) cx.old cx.new }
{
    match cx.spawn_blocking(rt, alloc, ScriptJob::new(output)) {
        Ok(handle) => Some(handle.job()),
        Err(_) => None,
    }
}

// Returns how the task continues after a line that waits.
fn next_if(is_over: bool) -> Next
    ensures { result ≡ next_if is_over }
{
    if is_over { Next::GoesOn } else { Next::Stays }
}

// Returns how the task continues after a line that makes a source and waits for it.
fn next_behind(is_over: bool) -> Next
    ensures { result ≡ next_behind is_over }
{
    if is_over { Next::GoesOn } else { Next::Stops }
}

impl Own {
    // Returns the state before the first line: no handle and no sleep. It fails only if out of memory.
    fn new(alloc: Global) -> Result<Own, AllocError>
        ensures { IfOk result (λ own. own ≡ no_own) }
    {
        let tasks = Handles::new(alloc)?;
        let jobs = Handles::new(alloc)?;
        Ok(Own {
            tasks,
            jobs,
            sleeping: None,
        })
    }

    // Waits for the sleep that the task made, if there is one. Returns false if the task has to wait.
    fn end_sleep(&mut self, cx: &mut ScriptContext) -> bool
        ensures own { self.new ≡ record self.old { sleeping = self.new.sleeping } }
        ensures over { result ≡ true → self.new.sleeping ≡ None }
        ensures still { result ≡ false → self.new.sleeping ≡ self.old.sleeping }
        ensures reached { Reaches (λ n. n) cx.old cx.new }
        ensures few { GrewAtMost 2 cx.old.parts.acts cx.new.parts.acts }
        ensures goes { (task : ScriptTask) (here : Place) (f : Rest) → HasKept cx.new.parts → Goes task (with_handle self.old.sleeping (λ s q. sleep_steps s here f q) f) (if_over result f here) cx.old cx.new }
    {
        match self.sleeping {
            Some(number) => {
                if await_sleep(cx, number) {
                    self.sleeping = None;
                    true
                } else {
                    false
                }
            }
            None => true,
        }
    }

    // Runs a line on the task's own tasks.
    fn join(&self, cx: &mut ScriptContext, i: u64) -> bool
        ensures reached { Reaches (λ n. n) cx.old cx.new }
        ensures few { GrewAtMost 2 cx.old.parts.acts cx.new.parts.acts }
        ensures goes { (task : ScriptTask) (here : Place) (f : Rest) → HasKept cx.new.parts → Goes task (with_handle (slice_index_or self.now.tasks i None) (λ h q. join_steps h here f q) f) (if_over result f here) cx.old cx.new }
    {
        match self.tasks.get(i) {
            Some(number) => await_task(cx, number),
            None => true,
        }
    }

    fn detach(&self, cx: &mut ScriptContext, i: u64)
        ensures reached { Reaches (λ n. n) cx.old cx.new }
        ensures few { GrewAtMost 1 cx.old.parts.acts cx.new.parts.acts }
        ensures goes { (task : ScriptTask) (f : Rest) → HasKept cx.new.parts → Goes task (with_handle (slice_index_or self.now.tasks i None) (λ h q. acted (step.Act (act.DropJoin h)) f q) f) f cx.old cx.new }
    {
        match self.tasks.get(i) {
            Some(number) => {
                let _ = cx.drop_join(number);
            }
            None => {}
        }
    }

    // Runs a line on the task's own jobs.
    fn await_own_job(&self, cx: &mut ScriptContext, i: u64) -> bool
        ensures reached { Reaches (λ n. n) cx.old cx.new }
        ensures few { GrewAtMost 4 cx.old.parts.acts cx.new.parts.acts }
        ensures goes { (task : ScriptTask) (here : Place) (f : Rest) → HasKept cx.new.parts → Goes task (with_handle (slice_index_or self.now.jobs i None) (λ h q. job_steps h here f q) f) (if_over result f here) cx.old cx.new }
    {
        match self.jobs.get(i) {
            Some(number) => await_job(cx, number),
            None => true,
        }
    }

    fn drop_own_job(&self, cx: &mut ScriptContext, i: u64)
        ensures reached { Reaches (λ n. n) cx.old cx.new }
        ensures few { GrewAtMost 2 cx.old.parts.acts cx.new.parts.acts }
        ensures goes { (task : ScriptTask) (f : Rest) → HasKept cx.new.parts → Goes task (with_handle (slice_index_or self.now.jobs i None) (λ h q. acted (step.Act (act.DropJob h)) f q) f) f cx.old cx.new }
    {
        match self.jobs.get(i) {
            Some(number) => {
                let _ = cx.drop_job(number);
            }
            None => {}
        }
    }

    // Runs a line that makes a sleep and waits for it.
    fn sleep_for(&mut self, alloc: Global, cx: &mut ScriptContext, nanos: u64) -> bool
        ensures own { self.new ≡ record self.old { sleeping = self.new.sleeping } }
        ensures over { result ≡ true → self.new.sleeping ≡ None }
        ensures reached { Reaches (λ n. n) cx.old cx.new }
        ensures few { GrewAtMost 3 cx.old.parts.acts cx.new.parts.acts }
        ensures goes { (task : ScriptTask) (left : List BodyLine) (o : ℕ) (f : Rest) → Stands cx.old.parts → HasKept cx.new.parts → Goes task (sleep_line (deadline_after (nanos_of cx.old.parts.now) nanos) left o self.old f) (if_over result f (place left o self.new.tasks self.new.jobs self.new.sleeping)) cx.old cx.new }
    {
        self.sleeping = make_sleep(alloc, cx, nanos);
        self.end_sleep(cx)
    }

    // Runs one line.
    fn run_line<'a, R: Host>(
        &mut self,
        rt: &R,
        alloc: Global,
        cx: &mut ScriptContext<'a>,
        kinds: &'a [TaskKind],
        line: BodyLine,
    ) -> Next
        ensures rests { self.old.sleeping ≡ None → result ≡ next.GoesOn → self.new.sleeping ≡ None }
        ensures tasks { length self.new.tasks ≤ length self.old.tasks + 1 }
        ensures jobs { length self.new.jobs ≤ length self.old.jobs + 1 }
        ensures stays { result ≡ next.Stays → (length self.new.tasks ≤ length self.old.tasks) × (length self.new.jobs ≤ length self.old.jobs) }
        ensures reached { Reaches (λ n. n) cx.old cx.new }
        ensures few { GrewAtMost 4 cx.old.parts.acts cx.new.parts.acts }
        ensures goes { (task : ScriptTask) (left : List BodyLine) (o me t : ℕ) → task.kinds ≡ kinds.entry → me ≡ cx.old.parts.me → t ≡ nanos_of cx.old.parts.now → HasPlaces self.old → self.old.sleeping ≡ None → Stands cx.old.parts → HasKept cx.new.parts → Goes task (turn_from (line ∷ left) me t o self.old.tasks self.old.jobs) (behind_line result line left me t o self.new) cx.old cx.new }
    {
        match line {
            BodyLine::Spawn(kind) => {
                let number = spawn_kind(alloc, cx, kinds, kind);
                self.tasks.push(number);
                Next::GoesOn
            }
            BodyLine::Join(i) => next_if(self.join(cx, i)),
            BodyLine::Detach(i) => {
                self.detach(cx, i);
                Next::GoesOn
            }
            BodyLine::AwaitSleep(nanos) => next_behind(self.sleep_for(alloc, cx, nanos)),
            BodyLine::Block(output) => {
                let number = block(rt, alloc, cx, output);
                self.jobs.push(number);
                Next::GoesOn
            }
            BodyLine::AwaitJob(i) => next_if(self.await_own_job(cx, i)),
            BodyLine::DropJob(i) => {
                self.drop_own_job(cx, i);
                Next::GoesOn
            }
            BodyLine::Yield => {
                wake_self(cx);
                Next::Stops
            }
        }
    }
}

impl<'a> ScriptTask<'a> {
    /// Returns a task of this kind, at its first line. It fails only if out of memory.
    pub fn new(
        alloc: Global,
        kinds: &'a [TaskKind],
        kind: usize,
    ) -> Result<ScriptTask<'a>, AllocError>
        ensures { IfOk result (λ task. task ≡ record { kinds = kinds.entry; kind = kind; at = 0; own = no_own }) }
    {
        let own = Own::new(alloc)?;
        Ok(ScriptTask {
            kinds,
            kind,
            at: 0,
            own,
        })
    }

    // Returns the kind of the task, if there is one of this number.
    fn kind(&self) -> Option<&'a TaskKind>
        ensures some { IfSome result (λ kind. kind_of self.now ≡ Some kind.now) }
        ensures none { IfNone result (kind_of self.now ≡ None) }
    {
        self.kinds.get(self.kind)
    }

    // Returns the line at which the task is; None at the end of the body.
    fn line(&self) -> Option<BodyLine>
        ensures inside { IfSome result (λ _. self.now.at < body_len self.now) }
        ensures few { IfSome result (λ _. self.now.at < 127) }
        ensures line { IfSome result (λ line. left_of (kind_of self.now) self.now.at ≡ line ∷ left_of (kind_of self.now) (self.now.at + 1)) }
        ensures none { IfNone result (left_of (kind_of self.now) self.now.at ≡ []) }
    {
        match self.kind() {
            Some(kind) if self.at < kind.body.len() => Some(kind.body[self.at]),
            _ => None,
        }
    }

    // Returns the output of the task's kind.
    fn output(&self) -> u64
        ensures { result ≡ output_of (kind_of self.now) }
    {
        match self.kind() {
            Some(kind) => kind.output,
            None => 0,
        }
    }

    // Runs the line at which the task is.
    fn step<R: Host>(
        &mut self,
        rt: &R,
        alloc: Global,
        cx: &mut ScriptContext<'a>,
        line: BodyLine,
    ) -> Next
        requires { self.old.at < 2 ^ 64 - 1 }
        ensures kinds { self.new.kinds ≡ self.old.kinds }
        ensures kind { self.new.kind ≡ self.old.kind }
        ensures on { result ≡ next.GoesOn → self.new.at ≡ self.old.at + 1 }
        ensures rests { self.old.own.sleeping ≡ None → result ≡ next.GoesOn → self.new.own.sleeping ≡ None }
        ensures fits { Fits self.old → Fits self.new }
        ensures reached { Reaches (λ n. n) cx.old cx.new }
        ensures few { GrewAtMost 4 cx.old.parts.acts cx.new.parts.acts }
        ensures goes { (maker : ScriptTask) (me t : ℕ) → maker.kinds ≡ self.old.kinds → me ≡ cx.old.parts.me → t ≡ nanos_of cx.old.parts.now → self.old.at < 127 → Fits self.old → self.old.own.sleeping ≡ None → left_of (kind_of self.old) self.old.at ≡ line ∷ left_of (kind_of self.old) (self.old.at + 1) → Stands cx.old.parts → HasKept cx.new.parts → Goes maker (at_task me t self.old) (behind_step result me t self.new) cx.old cx.new }
    {
        match self.own.run_line(rt, alloc, cx, self.kinds, line) {
            Next::GoesOn => {
                self.at += 1;
                Next::GoesOn
            }
            Next::Stops => {
                self.at += 1;
                Next::Stops
            }
            Next::Stays => Next::Stays,
        }
    }
}

impl<'a> TaskFuture<ScriptContext<'a>> for ScriptTask<'a> {
    type Output = u64;

    // a task that has answered is dropped
    ghost is_spent = { λ task. false };

    ghost polls = { λ task c answer left d. PollsTask task c answer left d };

    ghost cancels = { λ task c d. d ≡ c };

    fn spent(&self) -> bool {
        false
    }

    fn poll<R: Host>(&mut self, rt: &R, alloc: Global, cx: &mut ScriptContext<'a>) -> Poll<u64> {
        if !self.own.end_sleep(cx) {
            return Poll::Pending;
        }
        'lines: while let Some(line) = self.line() {
            match self.step(rt, alloc, cx, line) {
                Next::GoesOn => {}
                Next::Stops => return Poll::Pending,
                Next::Stays => return Poll::Pending,
            }
        }
        Poll::Ready(self.output())
    }

    /// Makes no call.
    fn cancel(self, _cx: &mut ScriptContext<'a>) {}
}
