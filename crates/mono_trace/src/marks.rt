// What the lines of a journal are for their order.
ghost use Rattle.std.specs.Prelude.{◌≡◌};
ghost use Rattle.mono_trace.specs.Order.{pair_mark, spawn_mark, drop_mark, turn_mark, clock_mark, next_stage, after_start, after_round, after_now, after_park, after_hearing, after_wait, after_wake, after_drop, drained_to, ends_after, parked_if, reading_if, output_if, is_last};

use mono_machine::{Act, Event, MAX_NANOS, Refusal, Reply, Report};

/// What a line of a journal is for the order of its lines.
#[derive(Clone, Copy, Debug, PartialEq, Eq)]
pub enum Mark {
    /// The task with this number was made by an act alone.
    Spawn(u64),
    /// No task could be made, for want of a place.
    NoPlace,
    /// The clock showed so many nanoseconds.
    Now(u128),
    /// A task had its turn.
    Turn,
    /// The driver was parked, for at most so many milliseconds if it has a limit.
    Park(Option<u64>),
    /// Another thread woke a task.
    Wake,
    /// The inbox was drained.
    Drain,
    /// A clock step to so many nanoseconds.
    Clock(u128),
    /// The handle of this task was dropped by an act alone, or was gone, and gave this output, if any.
    Drop(u64, Option<u64>),
    /// The output of the main task.
    Main(u64),
    /// Any other event with its report.
    Other,
}

/// How far the journal of calls of `block_on` has come: the number of the call's main task, and the greatest tick of a clock
/// step so far.
#[derive(Clone, Copy, Debug, PartialEq, Eq)]
pub enum Stage {
    /// No call has begun, or the last one has ended: the main task of the next call is made next, if there is one.
    Start(u128),
    /// The clock is read next, or the inbox is drained, or the handle of the main task is dropped.
    Round(u64, u128),
    /// The clock was read, and showed the last tick: a turn is next, or a park that ends after the greatest tick.
    Reading(u64, u128, u128),
    /// The driver was parked: the inbox is drained next, or the handle dropped if memory ran out.
    Parked(u64, u128),
    /// Other threads woke tasks after a park: the inbox is drained next.
    Hearing(u64, u128),
    /// With timers the inbox was drained after a park: a clock step is next, or the handle is dropped if memory ran out.
    Waited(u64, u128),
    /// Other threads woke tasks: the inbox is drained next.
    Woken(u64, u128),
    /// The handle of the main task was dropped, and gave this output. The line of this output is next, or the next call.
    Dropped(Option<u64>, u128),
}

fn spawn_mark(report: &Report) -> Mark
    ensures { result ≡ spawn_mark report.now }
{
    match report {
        Report::Reply(Reply::Task(t)) => Mark::Spawn(*t),
        Report::Reply(Reply::Refused(Refusal::AtCapacity)) => Mark::NoPlace,
        _ => Mark::Other,
    }
}

fn drop_mark(t: u64, report: &Report) -> Mark
    ensures { result ≡ drop_mark t report.now }
{
    match report {
        Report::Reply(Reply::Dropped(output)) => Mark::Drop(t, *output),
        _ => Mark::Drop(t, None),
    }
}

fn turn_mark(report: &Report) -> Mark
    ensures { result ≡ turn_mark report.now }
{
    match report {
        Report::Turn(_, _, _) => Mark::Turn,
        _ => Mark::Other,
    }
}

fn clock_mark(n: u128, report: &Report) -> Mark
    ensures { result ≡ clock_mark n report.now }
{
    match report {
        Report::Fired(_) => Mark::Clock(n),
        _ => Mark::Other,
    }
}

/// Returns what an event with its report is for the order of a journal's lines.
pub fn pair_mark(event: &Event, report: &Report) -> Mark
    ensures { result ≡ pair_mark event.now report.now }
{
    match event {
        Event::Act(Act::Spawn) => spawn_mark(report),
        Event::Act(Act::DropJoin(t)) => drop_mark(*t, report),
        Event::Act(_) => Mark::Other,
        Event::Turn(_, _) => turn_mark(report),
        Event::Clock(n) => clock_mark(*n, report),
        Event::Remote(_) => Mark::Wake,
        Event::Drain => Mark::Drain,
    }
}

fn after_start(greatest: u128, mark: Mark) -> Option<Stage>
    ensures { result ≡ after_start greatest mark }
{
    match mark {
        Mark::Spawn(main) => Some(Stage::Round(main, greatest)),
        Mark::NoPlace => Some(Stage::Start(greatest)),
        _ => None,
    }
}

// The clock was read, unless no clock shows so much.
fn reading_if(main: u64, greatest: u128, n: u128) -> Option<Stage>
    ensures { result ≡ reading_if main greatest n }
{
    if n <= MAX_NANOS {
        Some(Stage::Reading(main, greatest, n / 1000000))
    } else {
        None
    }
}

// The handle of the main task was dropped, if it is the main task's.
fn output_if(main: u64, greatest: u128, t: u64, output: Option<u64>) -> Option<Stage>
    ensures { result ≡ output_if main greatest t output }
{
    if t == main {
        Some(Stage::Dropped(output, greatest))
    } else {
        None
    }
}

// Whether a park for at most so many milliseconds ends after the greatest tick, if the clock showed this tick before it.
fn ends_after(greatest: u128, tick: u128, millis: u64) -> bool
    ensures { result ≡ ends_after greatest tick millis }
{
    match tick.checked_add(u128::from(millis)) {
        None => true,
        Some(until) => greatest < until,
    }
}

// The driver was parked. It has a limit only with timers, and one that ends after the greatest tick.
fn parked_if(
    timers: bool,
    main: u64,
    greatest: u128,
    tick: u128,
    limit: Option<u64>,
) -> Option<Stage>
    ensures { result ≡ parked_if timers main greatest tick limit }
{
    match limit {
        None => Some(Stage::Parked(main, greatest)),
        Some(millis) => {
            if timers && ends_after(greatest, tick, millis) {
                Some(Stage::Parked(main, greatest))
            } else {
                None
            }
        }
    }
}

// The inbox was drained after a park; with timers a clock step follows.
fn drained_to(timers: bool, main: u64, greatest: u128) -> Stage
    ensures { result ≡ drained_to timers main greatest }
{
    if timers {
        Stage::Waited(main, greatest)
    } else {
        Stage::Round(main, greatest)
    }
}

fn after_round(main: u64, greatest: u128, mark: Mark) -> Option<Stage>
    ensures { result ≡ after_round main greatest mark }
{
    match mark {
        Mark::Now(n) => reading_if(main, greatest, n),
        Mark::Wake => Some(Stage::Woken(main, greatest)),
        Mark::Drain => Some(Stage::Round(main, greatest)),
        Mark::Drop(t, output) => output_if(main, greatest, t, output),
        _ => None,
    }
}

fn after_now(timers: bool, main: u64, greatest: u128, tick: u128, mark: Mark) -> Option<Stage>
    ensures { result ≡ after_now timers main greatest tick mark }
{
    match mark {
        Mark::Turn => Some(Stage::Round(main, greatest)),
        Mark::Park(limit) => parked_if(timers, main, greatest, tick, limit),
        _ => None,
    }
}

fn after_park(timers: bool, main: u64, greatest: u128, mark: Mark) -> Option<Stage>
    ensures { result ≡ after_park timers main greatest mark }
{
    match mark {
        Mark::Wake => Some(Stage::Hearing(main, greatest)),
        Mark::Drain => Some(drained_to(timers, main, greatest)),
        Mark::Drop(t, output) => output_if(main, greatest, t, output),
        _ => None,
    }
}

fn after_hearing(timers: bool, main: u64, greatest: u128, mark: Mark) -> Option<Stage>
    ensures { result ≡ after_hearing timers main greatest mark }
{
    match mark {
        Mark::Wake => Some(Stage::Hearing(main, greatest)),
        Mark::Drain => Some(drained_to(timers, main, greatest)),
        _ => None,
    }
}

fn after_wait(main: u64, greatest: u128, mark: Mark) -> Option<Stage>
    ensures { result ≡ after_wait main greatest mark }
{
    match mark {
        Mark::Clock(n) => Some(Stage::Round(main, greatest.max(n / 1000000))),
        Mark::Drop(t, output) => output_if(main, greatest, t, output),
        _ => None,
    }
}

fn after_wake(main: u64, greatest: u128, mark: Mark) -> Option<Stage>
    ensures { result ≡ after_wake main greatest mark }
{
    match mark {
        Mark::Wake => Some(Stage::Woken(main, greatest)),
        Mark::Drain => Some(Stage::Round(main, greatest)),
        _ => None,
    }
}

// The line of the output ends the call, if the drop gave this output; any other line begins the next call.
fn after_drop(output: Option<u64>, greatest: u128, mark: Mark) -> Option<Stage>
    ensures { result ≡ after_drop output greatest mark }
{
    match mark {
        Mark::Main(o) => {
            if output == Some(o) {
                Some(Stage::Start(greatest))
            } else {
                None
            }
        }
        mark => after_start(greatest, mark),
    }
}

impl Stage {
    /// Returns the stage after a line, or none if no call of `block_on` leaves the line there. The runtime has timers, or
    /// it has none.
    pub fn after(self, timers: bool, mark: Mark) -> Option<Stage>
        ensures { result ≡ next_stage timers self mark }
    {
        match self {
            Stage::Start(greatest) => after_start(greatest, mark),
            Stage::Round(main, greatest) => after_round(main, greatest, mark),
            Stage::Reading(main, greatest, tick) => after_now(timers, main, greatest, tick, mark),
            Stage::Parked(main, greatest) => after_park(timers, main, greatest, mark),
            Stage::Hearing(main, greatest) => after_hearing(timers, main, greatest, mark),
            Stage::Waited(main, greatest) => after_wait(main, greatest, mark),
            Stage::Woken(main, greatest) => after_wake(main, greatest, mark),
            Stage::Dropped(output, greatest) => after_drop(output, greatest, mark),
        }
    }

    /// Returns whether the journal of whole calls may end here.
    pub fn is_last(self) -> bool
        ensures { result ≡ is_last self }
    {
        match self {
            Stage::Start(_) => true,
            Stage::Dropped(_, _) => true,
            _ => false,
        }
    }
}
