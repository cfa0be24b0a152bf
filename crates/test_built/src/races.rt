// Races over sleeps. A race ends with the shortest sleep, and leaves none behind for which a task parks.
use crate::runs::{Ended, millis, poll_form, run};
use mono_forms::{Race, RaceEither, RaceList, race, race_either, race_list, race3, race4, race5};
use mono_rt::{Host, Poll, SleepFor, TaskFuture, TimeContext};
use std::alloc::Global;

type Race2 = Race<SleepFor, SleepFor>;

type Race3 = Race<Race2, SleepFor>;

type Race4 = Race<Race3, SleepFor>;

/// A race over sleeps.
#[derive(Drop)]
enum Races {
    Two(Race2),
    Three(Race3),
    Four(Race4),
    Five(Race<Race4, SleepFor>),
    List(RaceList<SleepFor>),
    Either(RaceEither<SleepFor, SleepFor>),
}

impl<C: TimeContext> TaskFuture<C> for Races {
    type Output = u64;

    fn spent(&self) -> bool {
        false
    }

    fn poll<R: Host>(&mut self, rt: &R, alloc: Global, cx: &mut C) -> Poll<u64> {
        match self {
            Races::Two(race) => poll_form(rt, alloc, cx, race),
            Races::Three(race) => poll_form(rt, alloc, cx, race),
            Races::Four(race) => poll_form(rt, alloc, cx, race),
            Races::Five(race) => poll_form(rt, alloc, cx, race),
            Races::List(race) => poll_form(rt, alloc, cx, race),
            Races::Either(race) => poll_form(rt, alloc, cx, race),
        }
    }

    // A form that has answered has given its parts up.
    fn cancel(self, _cx: &mut C) {}
}

fn two() -> Races {
    Races::Two(race(millis(6), millis(2)))
}

fn three() -> Races {
    Races::Three(race3(millis(6), millis(2), millis(4)))
}

fn four() -> Races {
    Races::Four(race4(millis(6), millis(2), millis(4), millis(5)))
}

fn five() -> Races {
    Races::Five(race5(millis(6), millis(3), millis(4), millis(5), millis(2)))
}

// Returns none if out of memory.
fn list(alloc: Global) -> Option<Races> {
    let parts = Vec::from_array(alloc, [millis(6), millis(2), millis(4)]).ok()?;
    Some(Races::List(race_list(parts)))
}

fn either() -> Races {
    Races::Either(race_either(millis(6), millis(2)))
}

/// Returns the run of each race.
pub(crate) fn all<R: Host>(rt: &R, alloc: Global) -> [(&'static str, Ended); 6] {
    [
        ("race", run(rt, alloc, Some(two()))),
        ("race3", run(rt, alloc, Some(three()))),
        ("race4", run(rt, alloc, Some(four()))),
        ("race5", run(rt, alloc, Some(five()))),
        ("race_list", run(rt, alloc, list(alloc))),
        ("race_either", run(rt, alloc, Some(either()))),
    ]
}
