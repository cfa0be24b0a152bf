// Two branches; the answer is the first output that is ready and passes its predicate.
ghost use Rattle.std.specs.Prelude.{◌≡◌, ◌<◌, ◌||◌, ◌==◌, ◌%◌, ◌/◌, true, false, if◌then◌else◌};
ghost use Rattle.mono_combine.specs.Looks.{branch_spent, BranchCanPoll, TestsGiven};
ghost use Rattle.mono_combine.specs.Selects.{Selects, SelectPolls, SelectGives, SelectCancels, PickGives, SelectNarrows, select_spent, as_second, as_first, then_look, or_disabled, left_out_if};

use crate::branch::{Branch, Look, branch_of};
use crate::start::Start;
use mono_model::{Host, Poll};
use mono_task::{Context, TaskFuture};
use std::alloc::Global;

/// The answer of a select of two branches.
#[derive(Clone, Copy, Debug, PartialEq, Eq, Drop)]
pub enum Out2<X, Y> {
    /// The output of the first branch.
    First(X),
    /// The output of the second branch.
    Second(Y),
    /// No branch is left that could be picked.
    Disabled,
}

/// Two futures; the answer is the first output that is ready and passes its predicate (`select_rule`).
///
/// Each poll draws anew which branch has its turn first. A branch that is ready is given up at once and is out from
/// then on, even if its predicate is false. Once a branch is picked or none is left, the unfinished branches are given
/// up in the written order, including those that the mask left out. The select is spent once it has answered.
///
/// A poll requires (`can_poll`) that a predicate may be called with each output that its branch may give.
///
/// ```rust
/// let form = Select2::new(
///     pair.0,
///     pair.1,
///     |x: &u64| *x % 2 == 0,
///     |_: &u64| true,
///     mask,
///     start,
/// );
/// ```
#[derive(Drop)]
pub struct Select2<A, B, G, H> {
    first: Branch<A>,
    second: Branch<B>,
    first_test: G,
    second_test: H,
    start: Start,
    has_answered: bool,
}

// Returns the pick, given this answer of the branch that had its turn last.
fn then_second<X, Y>(some_wait: bool, look: Look<Y>) -> Poll<Option<Out2<X, Y>>>
    ensures { result ≡ then_look some_wait (as_second look) }
{
    match look {
        Look::Passes(y) => Poll::Ready(Some(Out2::Second(y))),
        Look::Waits => Poll::Pending,
        Look::Rests => {
            if some_wait {
                Poll::Pending
            } else {
                Poll::Ready(None)
            }
        }
    }
}

fn then_first<X, Y>(some_wait: bool, look: Look<X>) -> Poll<Option<Out2<X, Y>>>
    ensures { result ≡ then_look some_wait (as_first look) }
{
    match look {
        Look::Passes(x) => Poll::Ready(Some(Out2::First(x))),
        Look::Waits => Poll::Pending,
        Look::Rests => {
            if some_wait {
                Poll::Pending
            } else {
                Poll::Ready(None)
            }
        }
    }
}

fn answer_of<X, Y>(pick: Option<Out2<X, Y>>) -> Out2<X, Y>
    ensures { result ≡ or_disabled pick }
{
    match pick {
        Some(out) => out,
        None => Out2::Disabled,
    }
}

impl<A, B, G, H> Select2<A, B, G, H> {
    /// Returns the select of two futures that are not spent, with a predicate for each. Bit 0 of the mask leaves the
    /// first out, and bit 1 the second; further bits have no effect.
    pub fn new(a: A, b: B, g: G, h: H, mask: u8, start: Start) -> Select2<A, B, G, H>
        ensures first { result.first ≡ left_out_if (mask % 2 == 1) a }
        ensures second { result.second ≡ left_out_if (mask / 2 % 2 == 1) b }
        ensures first_test { result.first_test ≡ g }
        ensures second_test { result.second_test ≡ h }
        ensures start { result.start ≡ start }
        ensures fresh { result.has_answered ≡ false }
    {
        let leaves_first_out = mask % 2 == 1;
        let leaves_second_out = mask / 2 % 2 == 1;
        Select2 {
            first: branch_of(a, leaves_first_out),
            second: branch_of(b, leaves_second_out),
            first_test: g,
            second_test: h,
            start,
            has_answered: false,
        }
    }

    // Gives the first branch its turn first.
    fn in_order<R: Host, C: Context>(
        &mut self,
        rt: &R,
        alloc: Global,
        cx: &mut C,
    ) -> Poll<Option<Out2<A::Output, B::Output>>>
    where
        A: TaskFuture<C, Output: Drop>,
        B: TaskFuture<C, Output: Drop>,
        G: Fn(&A::Output) -> bool,
        H: Fn(&B::Output) -> bool,
        requires first { branch_spent A.TaskFuture self.old.first ≡ false }
        requires second { branch_spent B.TaskFuture self.old.second ≡ false }
        requires first_callable { BranchCanPoll A.TaskFuture self.old.first }
        requires second_callable { BranchCanPoll B.TaskFuture self.old.second }
        requires first_test { TestsGiven A.gives G.Fn self.old.first_test self.old.first }
        requires second_test { TestsGiven B.gives H.Fn self.old.second_test self.old.second }
        ensures selects { Selects A.TaskFuture B.TaskFuture G.Fn H.Fn self.old.first_test self.old.second_test 0 (record { first = self.old.first; second = self.old.second; cx = cx.old }) result (record { first = self.new.first; second = self.new.second; cx = cx.new }) }
        ensures kept { self.new ≡ record self.old { first = self.new.first; second = self.new.second } }
        ensures given { PickGives A.gives B.gives G.Fn H.Fn self.old result }
        ensures narrows { SelectNarrows A.gives B.gives self.new self.old }
        ensures first { branch_spent A.TaskFuture self.new.first ≡ false }
        ensures second { branch_spent B.TaskFuture self.new.second ≡ false }
        ensures first_callable { BranchCanPoll A.TaskFuture self.new.first }
        ensures second_callable { BranchCanPoll B.TaskFuture self.new.second }
        ensures reached { C.reaches cx.old cx.new }
    {
        match self.first.look(&self.first_test, rt, alloc, cx) {
            Look::Passes(x) => Poll::Ready(Some(Out2::First(x))),
            Look::Waits => then_second(true, self.second.look(&self.second_test, rt, alloc, cx)),
            Look::Rests => then_second(false, self.second.look(&self.second_test, rt, alloc, cx)),
        }
    }

    // Gives the second branch its turn first.
    fn reversed<R: Host, C: Context>(
        &mut self,
        rt: &R,
        alloc: Global,
        cx: &mut C,
    ) -> Poll<Option<Out2<A::Output, B::Output>>>
    where
        A: TaskFuture<C, Output: Drop>,
        B: TaskFuture<C, Output: Drop>,
        G: Fn(&A::Output) -> bool,
        H: Fn(&B::Output) -> bool,
        requires first { branch_spent A.TaskFuture self.old.first ≡ false }
        requires second { branch_spent B.TaskFuture self.old.second ≡ false }
        requires first_callable { BranchCanPoll A.TaskFuture self.old.first }
        requires second_callable { BranchCanPoll B.TaskFuture self.old.second }
        requires first_test { TestsGiven A.gives G.Fn self.old.first_test self.old.first }
        requires second_test { TestsGiven B.gives H.Fn self.old.second_test self.old.second }
        ensures selects { Selects A.TaskFuture B.TaskFuture G.Fn H.Fn self.old.first_test self.old.second_test 1 (record { first = self.old.first; second = self.old.second; cx = cx.old }) result (record { first = self.new.first; second = self.new.second; cx = cx.new }) }
        ensures kept { self.new ≡ record self.old { first = self.new.first; second = self.new.second } }
        ensures given { PickGives A.gives B.gives G.Fn H.Fn self.old result }
        ensures narrows { SelectNarrows A.gives B.gives self.new self.old }
        ensures first { branch_spent A.TaskFuture self.new.first ≡ false }
        ensures second { branch_spent B.TaskFuture self.new.second ≡ false }
        ensures first_callable { BranchCanPoll A.TaskFuture self.new.first }
        ensures second_callable { BranchCanPoll B.TaskFuture self.new.second }
        ensures reached { C.reaches cx.old cx.new }
    {
        match self.second.look(&self.second_test, rt, alloc, cx) {
            Look::Passes(y) => Poll::Ready(Some(Out2::Second(y))),
            Look::Waits => then_first(true, self.first.look(&self.first_test, rt, alloc, cx)),
            Look::Rests => then_first(false, self.first.look(&self.first_test, rt, alloc, cx)),
        }
    }

    // Gives the branches their turns from the start on.
    fn select_from<R: Host, C: Context>(
        &mut self,
        start: u32,
        rt: &R,
        alloc: Global,
        cx: &mut C,
    ) -> Poll<Option<Out2<A::Output, B::Output>>>
    where
        A: TaskFuture<C, Output: Drop>,
        B: TaskFuture<C, Output: Drop>,
        G: Fn(&A::Output) -> bool,
        H: Fn(&B::Output) -> bool,
        requires below { start < 2 }
        requires first { branch_spent A.TaskFuture self.old.first ≡ false }
        requires second { branch_spent B.TaskFuture self.old.second ≡ false }
        requires first_callable { BranchCanPoll A.TaskFuture self.old.first }
        requires second_callable { BranchCanPoll B.TaskFuture self.old.second }
        requires first_test { TestsGiven A.gives G.Fn self.old.first_test self.old.first }
        requires second_test { TestsGiven B.gives H.Fn self.old.second_test self.old.second }
        ensures selects { Selects A.TaskFuture B.TaskFuture G.Fn H.Fn self.old.first_test self.old.second_test start (record { first = self.old.first; second = self.old.second; cx = cx.old }) result (record { first = self.new.first; second = self.new.second; cx = cx.new }) }
        ensures kept { self.new ≡ record self.old { first = self.new.first; second = self.new.second } }
        ensures given { PickGives A.gives B.gives G.Fn H.Fn self.old result }
        ensures narrows { SelectNarrows A.gives B.gives self.new self.old }
        ensures first { branch_spent A.TaskFuture self.new.first ≡ false }
        ensures second { branch_spent B.TaskFuture self.new.second ≡ false }
        ensures first_callable { BranchCanPoll A.TaskFuture self.new.first }
        ensures second_callable { BranchCanPoll B.TaskFuture self.new.second }
        ensures reached { C.reaches cx.old cx.new }
    {
        if start == 0 {
            self.in_order(rt, alloc, cx)
        } else {
            self.reversed(rt, alloc, cx)
        }
    }
}

impl<C, A, B, G, H> TaskFuture<C> for Select2<A, B, G, H>
where
    C: Context,
    A: TaskFuture<C, Output: Drop>,
    B: TaskFuture<C, Output: Drop>,
    G: Fn(&A::Output) -> bool + Drop,
    H: Fn(&B::Output) -> bool + Drop,
{
    type Output = Out2<A::Output, B::Output>;

    ghost is_spent = { select_spent A.TaskFuture B.TaskFuture };

    ghost can_poll = { λ s. BranchCanPoll A.TaskFuture s.first × BranchCanPoll B.TaskFuture s.second × TestsGiven A.gives G.Fn s.first_test s.first × TestsGiven B.gives H.Fn s.second_test s.second };

    ghost polls = { SelectPolls A.TaskFuture B.TaskFuture G.Fn H.Fn };

    ghost gives = { SelectGives A.gives B.gives G.Fn H.Fn };

    ghost cancels = { SelectCancels A.TaskFuture B.TaskFuture };

    fn spent(&self) -> bool {
        self.has_answered || self.first.spent() || self.second.spent()
    }

    fn poll<R: Host>(&mut self, rt: &R, alloc: Global, cx: &mut C) -> Poll<Self::Output> {
        let start = self.start.draw(2);
        match self.select_from(start, rt, alloc, cx) {
            Poll::Ready(pick) => {
                self.first.give_up(cx);
                self.second.give_up(cx);
                self.has_answered = true;
                Poll::Ready(answer_of(pick))
            }
            Poll::Pending => Poll::Pending,
        }
    }

    fn cancel(mut self, cx: &mut C) {
        self.first.give_up(cx);
        self.second.give_up(cx);
    }
}
