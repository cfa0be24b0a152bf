// A small context over a table of tasks, and futures that note each poll and each cancel in it.
ghost use Rattle.std.specs.Prelude.{◌≡◌, ⊤, None, true, false, refl};
ghost use Rattle.std.proofs.Common.{◌∙◌};
ghost use Rattle.mono_model.specs.Tasks.{woken};
ghost use Rattle.mono_model.specs.Joins.{wake_answer};
ghost use Rattle.mono_task.specs.Work.{without_outputs};

use mono_model::{Host, Poll};
use mono_task::{Context, TaskError, TaskFuture, Tasks, Woke};
use std::alloc::Global;
use std::process::Abort;

/// A context over a table of tasks, with the notes of the futures as the digits of a number, the latest last, and how
/// often a task was woken.
#[derive(Drop)]
pub(crate) struct Board {
    pub(crate) tasks: Tasks<u64>,
    pub(crate) notes: u64,
    pub(crate) wakes: u64,
}

impl Context for Board {
    ghost number = { λ c. 0 };

    ghost nanos = { λ c. 7 };

    ghost is_out_of_memory = { λ c. true };

    ghost work = { λ c. without_outputs c.tasks.tasks };

    ghost reaches = { λ c d. d.tasks.turn ≡ c.tasks.turn };

    ghost wakes = { λ c t r d. (r ≡ wake_answer c.tasks.tasks t) × (d.tasks.tasks ≡ woken c.tasks.tasks t) };

    fn me(&self) -> u64 {
        0
    }

    fn now(&self) -> u128 {
        7
    }

    fn wake(&mut self, task: u64) -> Result<Woke, TaskError> {
        self.wakes = self.wakes.wrapping_add(1);
        self.tasks.wake(task)
    }

    ghost reaches_itself = { λ c. refl };

    ghost reaches_on = { λ a b c p q. q ∙ p };

    ghost same_number = { λ a b r. refl };

    ghost same_nanos = { λ a b r. refl };

    ghost stays_out_of_memory = { λ a b r h. refl };
}

impl Board {
    fn note(&mut self, digit: u64)
        ensures { self.new.tasks ≡ self.old.tasks }
    {
        self.notes = self.notes.wrapping_mul(10).wrapping_add(digit);
    }
}

/// Returns a board with room for `tasks` tasks, and no notes.
pub(crate) fn empty_board<R: Abort>(rt: &R, alloc: Global, tasks: u64) -> Board
    ensures { result.tasks.turn ≡ None }
{
    Board {
        tasks: Tasks::new(alloc, tasks).expect(rt, "memory"),
        notes: 0,
        wakes: 0,
    }
}

/// A future that waits for a number of polls and then gives a value. It notes its digit in each poll, and five more in
/// its cancel.
#[derive(Drop)]
pub(crate) struct Step {
    pub(crate) digit: u64,
    pub(crate) waits: u64,
    pub(crate) value: u64,
}

impl TaskFuture<Board> for Step {
    type Output = u64;

    ghost is_spent = { λ f. false };

    ghost polls = { λ f c r g d. ⊤ };

    ghost cancels = { λ f c d. ⊤ };

    fn spent(&self) -> bool {
        false
    }

    fn poll<R: Host>(&mut self, _rt: &R, _alloc: Global, cx: &mut Board) -> Poll<u64> {
        cx.note(self.digit);
        if self.waits == 0 {
            return Poll::Ready(self.value);
        }
        self.waits -= 1;
        Poll::Pending
    }

    fn cancel(self, cx: &mut Board) {
        cx.note(self.digit.wrapping_add(5));
    }
}

/// The same future, which may fail: then it gives its value as the error.
#[derive(Drop)]
pub(crate) struct Trial {
    pub(crate) step: Step,
    pub(crate) fails: bool,
}

impl TaskFuture<Board> for Trial {
    type Output = Result<u64, u64>;

    ghost is_spent = { λ f. false };

    ghost polls = { λ f c r g d. ⊤ };

    ghost cancels = { λ f c d. ⊤ };

    fn spent(&self) -> bool {
        false
    }

    fn poll<R: Host>(&mut self, rt: &R, alloc: Global, cx: &mut Board) -> Poll<Result<u64, u64>> {
        match self.step.poll(rt, alloc, cx) {
            Poll::Ready(value) if self.fails => Poll::Ready(Err(value)),
            Poll::Ready(value) => Poll::Ready(Ok(value)),
            Poll::Pending => Poll::Pending,
        }
    }

    fn cancel(self, cx: &mut Board) {
        self.step.cancel(cx);
    }
}

/// Polls a form until it is ready, at most `polls` times. Returns its output and the number of that poll, counted from
/// 0.
fn first_answer<R: Host, F: TaskFuture<Board>>(
    rt: &R,
    alloc: Global,
    cx: &mut Board,
    form: &mut F,
    polls: u64,
) -> Option<(u64, F::Output)>
    requires unspent { F.is_spent form.old ≡ false }
    requires callable { F.can_poll form.old }
{
    for poll in 0..polls {
        if let Poll::Ready(output) = form.poll(rt, alloc, cx) {
            return Some((poll, output));
        }
    }
    None
}

/// Polls it in the same way on a board without notes, and returns the notes, too. Then it gives the form up.
pub(crate) fn told<R: Host, F: TaskFuture<Board>>(
    rt: &R,
    alloc: Global,
    cx: &mut Board,
    mut form: F,
    polls: u64,
) -> (Option<(u64, F::Output)>, u64)
    requires unspent { F.is_spent form ≡ false }
    requires callable { F.can_poll form }
{
    cx.notes = 0;
    let answer = first_answer(rt, alloc, cx, &mut form, polls);
    let notes = cx.notes;
    form.cancel(cx);
    (answer, notes)
}
