// Selects over sleeps. A select ends with the shortest sleep, and leaves none behind for which a task parks.
ghost use Rattle.test_built.specs.Predicates.{MayTest, MayTestAt};

use crate::runs::{Ended, millis, poll_form, run};
use mono_combine::{
    Out3, Out4, Out5, Select2, Select3, Select4, Select5, SelectList, Start, select3, select4,
    select5,
};
use mono_model::FastRand;
use mono_rt::{Host, Poll, SleepError, SleepFor, TaskFuture, TimeContext};
use std::alloc::Global;

/// The answer of a sleep.
type Slept = Result<(), SleepError>;

type Three = Out3<Slept, Slept, Slept>;

type Four = Out4<Slept, Slept, Slept, Slept>;

type Five = Out5<Slept, Slept, Slept, Slept, Slept>;

/// A select over sleeps.
#[derive(Drop)]
enum Selects<F, G, H, I, J> {
    Two(Select2<SleepFor, SleepFor, F, F>),
    Three(Select3<SleepFor, SleepFor, SleepFor, G>),
    Four(Select4<SleepFor, SleepFor, SleepFor, SleepFor, H>),
    Five(Select5<SleepFor, SleepFor, SleepFor, SleepFor, SleepFor, I>),
    List(SelectList<SleepFor, J>),
}

impl<C, F, G, H, I, J> TaskFuture<C> for Selects<F, G, H, I, J>
where
    C: TimeContext,
    F: Fn(&Slept) -> bool + Drop,
    G: Fn(u32, &Three) -> bool + Drop,
    H: Fn(u32, &Four) -> bool + Drop,
    I: Fn(u32, &Five) -> bool + Drop,
    J: Fn(u32, &Slept) -> bool + Drop,
{
    type Output = u64;

    ghost can_poll = { λ _. MayTest F.Fn × MayTestAt G.Fn × MayTestAt H.Fn × MayTestAt I.Fn × MayTestAt J.Fn };

    fn spent(&self) -> bool {
        false
    }

    fn poll<R: Host>(&mut self, rt: &R, alloc: Global, cx: &mut C) -> Poll<u64> {
        match self {
            Selects::Two(select) => poll_form(rt, alloc, cx, select),
            Selects::Three(select) => poll_form(rt, alloc, cx, select),
            Selects::Four(select) => poll_form(rt, alloc, cx, select),
            Selects::Five(select) => poll_form(rt, alloc, cx, select),
            Selects::List(select) => poll_form(rt, alloc, cx, select),
        }
    }

    // A form that has answered has given its parts up.
    fn cancel(self, _cx: &mut C) {}
}

fn two<F: Copy + Drop, G: Drop, H: Drop, I: Drop, J: Drop>(
    test: F,
) -> Option<Selects<F, G, H, I, J>> {
    let select = Select2::new(millis(5), millis(3), test, test, 0, Start::Biased);
    Some(Selects::Two(select))
}

// The second branch is masked out: the first of the others answers.
fn three<F: Drop, G: Drop, H: Drop, I: Drop, J: Drop>(
    alloc: Global,
    test: G,
) -> Option<Selects<F, G, H, I, J>> {
    let (a, b, c) = (millis(5), millis(3), millis(4));
    match select3(alloc, a, b, c, test, 2, Start::Biased) {
        Ok(select) => Some(Selects::Three(select)),
        Err(_) => None,
    }
}

fn four<F: Drop, G: Drop, H: Drop, I: Drop, J: Drop>(
    alloc: Global,
    test: H,
) -> Option<Selects<F, G, H, I, J>> {
    let (a, b, c, d) = (millis(5), millis(8), millis(3), millis(6));
    let start = Start::Random(FastRand::new(7));
    match select4(alloc, a, b, c, d, test, 0, start) {
        Ok(select) => Some(Selects::Four(select)),
        Err(_) => None,
    }
}

fn five<F: Drop, G: Drop, H: Drop, I: Drop, J: Drop>(
    alloc: Global,
    test: I,
) -> Option<Selects<F, G, H, I, J>> {
    let (a, b, c, d, e) = (millis(5), millis(8), millis(4), millis(6), millis(2));
    match select5(alloc, a, b, c, d, e, test, 0, Start::Biased) {
        Ok(select) => Some(Selects::Five(select)),
        Err(_) => None,
    }
}

fn list<F: Drop, G: Drop, H: Drop, I: Drop, J: Drop>(
    alloc: Global,
    test: J,
) -> Option<Selects<F, G, H, I, J>> {
    let parts = Vec::from_array(alloc, [millis(6), millis(2), millis(4)]).ok()?;
    match SelectList::new(alloc, parts, test, 0, Start::Biased) {
        Ok(select) => Some(Selects::List(select)),
        Err(_) => None,
    }
}

// Returns the run of each select, with these predicates.
fn all_with<F, G, H, I, J, R>(
    rt: &R,
    alloc: Global,
    tests: (F, G, H, I, J),
) -> [(&'static str, Ended); 5]
where
    F: Fn(&Slept) -> bool + Copy + Drop,
    G: Fn(u32, &Three) -> bool + Drop,
    H: Fn(u32, &Four) -> bool + Drop,
    I: Fn(u32, &Five) -> bool + Drop,
    J: Fn(u32, &Slept) -> bool + Drop,
    R: Host,
    requires { MayTest F.Fn × MayTestAt G.Fn × MayTestAt H.Fn × MayTestAt I.Fn × MayTestAt J.Fn }
{
    let (f, g, h, i, j) = tests;
    [
        (
            "select2",
            run::<Selects<F, G, H, I, J>, R>(rt, alloc, two(f)),
        ),
        (
            "select3",
            run::<Selects<F, G, H, I, J>, R>(rt, alloc, three(alloc, g)),
        ),
        (
            "select4",
            run::<Selects<F, G, H, I, J>, R>(rt, alloc, four(alloc, h)),
        ),
        (
            "select5",
            run::<Selects<F, G, H, I, J>, R>(rt, alloc, five(alloc, i)),
        ),
        (
            "select_list",
            run::<Selects<F, G, H, I, J>, R>(rt, alloc, list(alloc, j)),
        ),
    ]
}

fn passes(_: &Slept) -> bool {
    true
}

fn any_of_three(_: u32, _: &Three) -> bool {
    true
}

fn any_of_four(_: u32, _: &Four) -> bool {
    true
}

fn any_of_five(_: u32, _: &Five) -> bool {
    true
}

fn any_of_list(_: u32, _: &Slept) -> bool {
    true
}

/// Returns the run of each select.
pub(crate) fn all<R: Host>(rt: &R, alloc: Global) -> [(&'static str, Ended); 5] {
    let tests = (passes, any_of_three, any_of_four, any_of_five, any_of_list);
    all_with(rt, alloc, tests)
}
