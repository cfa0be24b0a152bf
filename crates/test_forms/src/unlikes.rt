// A select of five unlike futures as a main task of a built runtime. One of three or four is a select of a list, too.
use crate::chains::run;
use mono_combine::{Out5, Start, select5};
use mono_forms::{FutureExt, ready};
use mono_time::{SleepError, SleepFor, sleep_for};
use std::time::Duration;

/// The answer of a sleep.
type Slept = Result<(), SleepError>;

fn millis(count: u64) -> SleepFor {
    sleep_for(Duration::from_millis(count))
}

fn none_left() -> u64 {
    99
}

/// The outputs of five branches.
type Five = Out5<u8, bool, char, u64, Slept>;

/// Returns whether it is the output of the fifth branch.
fn fifth_alone(number: u32, out: &Five) -> bool {
    match out {
        Out5::First(x) => *x == 2,
        Out5::Second(x) => !*x,
        Out5::Third(x) => *x == 'd',
        Out5::Fourth(x) => *x == 5,
        Out5::Fifth(slept) => number == 4 && slept.is_ok(),
    }
}

fn number_of_five(number: u32, _: Five) -> u64 {
    number as u64
}

// Each branch but the fifth is refused by the predicate, and answers nothing from then on.
#[test]
fn the_predicate_of_five_sees_each_output(rt: HostRuntime) {
    let alloc = rt.alloc();
    let select = select5(
        alloc,
        ready(1u8),
        ready(true),
        ready('c'),
        ready(4u64),
        millis(3),
        fifth_alone,
        0,
        Start::Biased,
    );
    let task = select
        .ok()
        .expect(&rt, "memory")
        .with_body(number_of_five, none_left);
    assert_eq!(rt; run(&rt, alloc, task), (Ok(4), (2, 1, 3)));
}
