// Small cases with their answers: the wheel and its lists, timers, tasks, instants, intervals, timeouts and combined
// futures. `lists`, `interval_ticks`, `streams`, `combinators` and `retries` have the rest.
ghost use Rattle.std.specs.Prelude.{◌≡◌, ◌<◌, ◌≤◌, length, None, false};

use crate::boards::{Board, Step, Trial, empty_board, told};
use crate::desks::{Desk, at_millis, empty_desk, polled};
use crate::interval_ticks::{go_to, ticks_at};
use crate::many::{Told, joined, listed, tried};
use crate::wheels::put;
use mono_combine::{Join2, MaybeDone, Out, SelectList, Start, TryJoin2, maybe_done};
use mono_model::{Host, MAX_NANOS};
use mono_task::{Ended, Poll, SpawnTask, TaskError, TaskFuture, Tasks};
use mono_time::*;
use mono_wheel::{InsertError, Links, Steps, Wheel};
use std::alloc::{AllocError, Global};
use std::marker::Brand;
use std::process::Abort;
use std::sync::ledger::{Blank, Ledger};
use std::time::Duration;

fn two_lists<R: Abort, L: Ledger>(rt: &R, alloc: Global, blank: Blank) -> bool
    requires { (blank.name ≡ L.name) × (blank.parts ≡ L.parts) × (0 < L.parts) }
{
    let mut steps: Steps<L> = Steps::new(blank);
    let mut links = Links::new(alloc, 2).expect(rt, "memory");
    links.reserve(alloc, 2).expect(rt, "memory");
    let a = links.add_node();
    let b = links.add_node();
    links.push_front(0, a);
    links.push_front(0, b);
    let ends = (links.first(0), links.last(0));
    links.take(0, 1);
    let is_empty = links.is_empty(0);
    let back = links.pop_back(1, &mut steps);
    let front = links.pop_front(1);
    let are_in_order = ends == (Some(b), Some(a)) && (back, front) == (Some(a), Some(b));
    are_in_order && is_empty && links.is_empty(1)
}

#[test]
fn a_list_is_read_at_both_ends(rt: HostRuntime) {
    assert!(rt; two_lists::<HostRuntime, Brand>(&rt, rt.alloc(), Blank::new(1)));
}

fn ends(links: &Links) -> (Option<usize>, Option<usize>)
    requires { 0 < length links.now.lists }
{
    (links.first(0), links.last(0))
}

// Makes three nodes, the last of them at the back of the first list.
fn put_three(links: &mut Links)
    requires room { 3 ≤ links.old.room }
    requires lists { 0 < length links.old.lists }
    ensures { length links.new.lists ≡ length links.old.lists }
{
    let a = links.add_node();
    links.push_back(0, a);
    let b = links.add_node();
    links.push_back(0, b);
    let c = links.add_node();
    links.push_back(0, c);
}

// Returns the odd nodes of the first list, and then the ends of the rest, as two digits each.
fn odd_nodes(links: &mut Links) -> usize
    requires { 0 < length links.old.lists }
{
    let mut told = 0usize;
    for node in links.drain_filter(0, |node| node % 2 == 1) {
        told = told.wrapping_mul(100).wrapping_add(node);
    }
    let (first, last) = ends(links);
    let told = told.wrapping_mul(100).wrapping_add(first.unwrap_or(0));
    told.wrapping_mul(100).wrapping_add(last.unwrap_or(0))
}

#[test]
fn a_filter_takes_the_odd_nodes(rt: HostRuntime) {
    let mut links = Links::new(rt.alloc(), 1).expect(&rt, "memory");
    links.reserve(rt.alloc(), 3).expect(&rt, "memory");
    put_three(&mut links);
    // the nodes 1 and 3, and then 2 at both ends
    assert!(rt; odd_nodes(&mut links) == 1_03_02_02);
}

fn polled_to<L: Ledger>(wheel: &mut Wheel, now: u64, blank: Blank) -> Option<usize>
    requires { (blank.name ≡ L.name) × (blank.parts ≡ L.parts) × (0 < L.parts) }
{
    if now < wheel.elapsed() || now >= 1 << 63 {
        return None;
    }
    let mut steps: Steps<L> = Steps::new(blank);
    wheel.poll(now, &mut steps)
}

// Returns the key that fires up to a tick.
fn comes_out(wheel: &mut Wheel, now: u64) -> Option<usize> {
    polled_to::<Brand>(wheel, now, Blank::new(1))
}

// Returns the next expiration of a new wheel that was polled to a tick and then has one key at another.
fn next_after<R: Abort>(rt: &R, alloc: Global, elapsed: u64, tick: u64) -> Option<u64> {
    let mut wheel = Wheel::new(alloc).expect(rt, "memory");
    comes_out(&mut wheel, elapsed);
    put(rt, alloc, &mut wheel, tick);
    wheel.next_expiration_time()
}

// The ticks of a poll and of a key that is inserted after it, and the next expiration.
const NEXT: [(u64, u64, u64); 6] = [
    (0, 100, 64),
    (64, 100, 100),
    (0, 1 << 30, 1 << 30),
    (0, 1 << 36, 1 << 36),
    (5, (1 << 36) + (1 << 31), 1 << 36),
    (5, (1 << 42) + (1 << 37), 1 << 37),
];

#[test]
fn the_next_expiration_is_the_start_of_a_slot(rt: HostRuntime) {
    for (elapsed, tick, next) in NEXT {
        assert!(rt; next_after(&rt, rt.alloc(), elapsed, tick) == Some(next));
    }
}

// Makes a key that is refused at the tick 0, and is then inserted at 100.
fn put_late<R: Abort>(rt: &R, alloc: Global, wheel: &mut Wheel) -> Option<usize> {
    let key = wheel.reserve_entry(alloc).expect(rt, "memory");
    if !matches!(wheel.insert(key, 0), Err(InsertError::Elapsed)) {
        return None;
    }
    if !matches!(wheel.insert(key, 100), Ok(100)) {
        return None;
    }
    Some(key)
}

// Returns whether a key can be moved to a tick.
fn extends(wheel: &mut Wheel, key: usize, tick: u64) -> bool {
    wheel.is_in(key) && tick < 1 << 63 && wheel.extend(key, tick)
}

// Returns whether one key is moved and fires at its later tick.
fn is_moved(wheel: &mut Wheel, key: usize) -> bool {
    let next = wheel.next_expiration_time();
    let earlier = extends(wheel, key, 99);
    let later = extends(wheel, key, 130);
    let none = comes_out(wheel, 64);
    let moved = wheel.next_expiration_time();
    let due = comes_out(wheel, 130);
    let is_moved = (next, moved) == (Some(64), Some(128)) && !earlier && later;
    is_moved && (none, due) == (None, Some(key))
}

#[test]
fn a_moved_key_fires_at_its_later_tick(rt: HostRuntime) {
    let mut wheel = Wheel::new(rt.alloc()).expect(&rt, "memory");
    let key = put_late(&rt, rt.alloc(), &mut wheel).expect(&rt, "a key at 100 alone");
    assert!(rt; is_moved(&mut wheel, key));
}

// Returns the answer of a poll and the next tick of new timers with one sleep.
fn one_sleep<R: Abort>(
    rt: &R,
    alloc: Global,
    deadline: Instant,
) -> (Result<Poll<()>, Error>, Option<u64>) {
    let mut timers = Timers::new(alloc, 1, true).expect(rt, "memory");
    timers.add(alloc, deadline).ok().expect(rt, "memory");
    (timers.poll(0, 0), timers.next_expiration_time())
}

// A deadline in nanoseconds, the answer of its sleep's poll, and the next tick.
const ROUNDED: [(u128, Poll<()>, Option<u64>); 4] = [
    (0, Poll::Ready(()), None),
    (1, Poll::Pending, Some(1)),
    (1000000, Poll::Pending, Some(1)),
    (1000001, Poll::Pending, Some(2)),
];

#[test]
fn a_deadline_is_rounded_up(rt: HostRuntime) {
    for (nanos, answer, next) in ROUNDED {
        let deadline = Instant::from_nanos(nanos).expect(&rt, "an instant");
        assert!(rt; one_sleep(&rt, rt.alloc(), deadline) == (Ok(answer), next));
    }
}

#[test]
fn without_timers_a_sleep_is_shut_down(rt: HostRuntime) {
    let mut timers = Timers::new(rt.alloc(), 1, false).expect(&rt, "memory");
    let added = timers.add(rt.alloc(), at_millis(0));
    assert!(rt; added == Err(SleepError::Timer(Error::shutdown())));
}

// Returns whether a sleep that is due is added, polled and removed once; there is room for one.
fn comes_and_goes(alloc: Global, timers: &mut Timers) -> bool {
    let first = timers.add(alloc, at_millis(0));
    let second = timers.add(alloc, at_millis(0));
    let early = timers.is_elapsed(0);
    let answer = timers.poll(0, 4);
    let late = timers.is_elapsed(0);
    let removed = timers.remove(0);
    let gone = timers.poll(0, 4);
    let is_one = first == Ok(0) && second == Err(SleepError::Timer(Error::at_capacity()));
    let is_due = (early, answer, late) == (Ok(false), Ok(Poll::Ready(())), Ok(true));
    is_one && is_due && removed == Ok(()) && gone == Err(Error::shutdown())
}

#[test]
fn a_sleep_comes_and_goes(rt: HostRuntime) {
    let mut timers = Timers::new(rt.alloc(), 1, true).expect(&rt, "memory");
    assert!(rt; comes_and_goes(rt.alloc(), &mut timers));
}

// Returns whether one task is spawned and a second refused.
fn spawns_one(alloc: Global, tasks: &mut Tasks<u64>) -> bool
    requires { tasks.old.turn ≡ None }
    ensures { tasks.new.turn ≡ None }
{
    let first = tasks.spawn(alloc);
    let second = tasks.spawn(alloc);
    first == Ok(0) && second == Err(SpawnTask::AtCapacity)
}

// Returns whether the first task ends in its turn with an output, which its handle takes once.
fn ends_once(tasks: &mut Tasks<u64>) -> bool
    requires { tasks.old.turn ≡ None }
{
    if tasks.begin_turn() != Ok(0) {
        return false;
    }
    let ended = tasks.end_turn(Poll::Ready(3));
    let joined = (tasks.poll_join(0, 0), tasks.poll_join(0, 0));
    let dropped = tasks.drop_join(0);
    let is_taken_once = joined == (Ok(Poll::Ready(3)), Err(TaskError::Taken));
    ended == Ended::Done && is_taken_once && dropped == Ok(None)
}

#[test]
fn a_task_gives_its_output_once(rt: HostRuntime) {
    let mut tasks: Tasks<u64> = Tasks::new(rt.alloc(), 1).expect(&rt, "memory");
    assert!(rt; spawns_one(rt.alloc(), &mut tasks) && ends_once(&mut tasks));
}

fn have_an_end() -> bool {
    Instant::from_nanos(MAX_NANOS).is_some() && Instant::from_nanos(MAX_NANOS + 1) == None
}

fn are_counted(five: Instant, six: Instant, nine: Instant) -> bool {
    five.checked_add(Duration::from_nanos(1)) == Some(six)
        && five.checked_sub(Duration::from_nanos(6)) == None
        && five.saturating_duration_since(nine).as_nanos() == 0
        && five.checked_duration_since(nine).is_none()
}

#[test]
fn instants_are_counted_and_have_an_end(rt: HostRuntime) {
    let five = Instant::from_nanos(5).expect(&rt, "5");
    let six = Instant::from_nanos(6).expect(&rt, "6");
    let nine = Instant::from_nanos(9).expect(&rt, "9");
    assert!(rt; have_an_end() && are_counted(five, six, nine));
}

// Returns whether an interval of 10 ms ticks at three times, 10 ms apart.
fn ticks_thrice(cx: &mut Desk, ticks: &mut Interval, first: u32) -> bool {
    go_to(cx, first);
    let is_first = ticks_at(cx, ticks, first);
    go_to(cx, first.wrapping_add(10));
    let is_second = ticks_at(cx, ticks, first.wrapping_add(10));
    go_to(cx, first.wrapping_add(20));
    is_first && is_second && ticks_at(cx, ticks, first.wrapping_add(20))
}

#[test]
fn intervals_tick_in_time(rt: HostRuntime) {
    let mut cx = empty_desk(&rt, rt.alloc(), at_millis(0));
    let ten = Duration::from_millis(10);
    let mut ticks = interval(rt.alloc(), &mut cx, ten)
        .ok()
        .expect(&rt, "memory");
    assert!(rt; ticks_thrice(&mut cx, &mut ticks, 0));
    let later = interval_at(rt.alloc(), &mut cx, at_millis(50), ten);
    assert!(rt; ticks_thrice(&mut cx, &mut later.ok().expect(&rt, "memory"), 50));
}

#[test]
fn missed_ticks_follow_at_once(rt: HostRuntime) {
    let mut cx = empty_desk(&rt, rt.alloc(), at_millis(0));
    let fifty = Duration::from_millis(50);
    let mut ticks = interval(rt.alloc(), &mut cx, fifty)
        .ok()
        .expect(&rt, "memory");
    go_to(&mut cx, 199);
    for millis in [0, 50, 100, 150] {
        assert!(rt; ticks_at(&mut cx, &mut ticks, millis));
    }
    assert!(rt; ticks.poll_tick(&mut cx) == Ok(Poll::Pending));
}

// A future that answers the same at each poll.
#[derive(Drop)]
struct Answer {
    value: Option<u64>,
}

impl TaskFuture<Desk> for Answer {
    type Output = u64;

    ghost is_spent = { λ f. false };

    ghost polls = { λ f c r g d. d ≡ c };

    ghost cancels = { λ f c d. d ≡ c };

    fn spent(&self) -> bool {
        false
    }

    fn poll<R: Host>(&mut self, _rt: &R, _alloc: Global, _cx: &mut Desk) -> Poll<u64> {
        match self.value {
            Some(value) => Poll::Ready(value),
            None => Poll::Pending,
        }
    }

    fn cancel(self, _cx: &mut Desk) {}
}

// Returns whether a future with a deadline that has come answers this.
fn limited<R: Host>(
    rt: &R,
    alloc: Global,
    cx: &mut Desk,
    value: Option<u64>,
    told: Result<u64, TimeoutError>,
) -> bool {
    match timeout_at(alloc, cx, at_millis(0), Answer { value }) {
        Ok(mut limited) => polled(rt, alloc, cx, &mut limited) == Poll::Ready(told),
        Err(_) => false,
    }
}

#[test]
fn a_deadline_that_has_come_lets_a_ready_value_pass(rt: HostRuntime) {
    let mut cx = empty_desk(&rt, rt.alloc(), at_millis(0));
    let late = Err(TimeoutError::Elapsed(Elapsed));
    assert!(rt; limited(&rt, rt.alloc(), &mut cx, Some(5), Ok(5)));
    assert!(rt; limited(&rt, rt.alloc(), &mut cx, None, late));
}

fn is_taken_back(alloc: Global, cx: &mut Desk) -> bool {
    let value = Answer { value: Some(6) };
    let Ok(timeout) = timeout(alloc, cx, Duration::from_secs(1), value) else {
        return false;
    };
    let kept = timeout.get_ref().value;
    let back = timeout.into_inner(cx);
    (kept, back.value) == (Some(6), Some(6)) && cx.sleep_elapsed(0) == Err(Error::Shutdown)
}

#[test]
fn a_future_is_taken_back_from_its_timeout(rt: HostRuntime) {
    let mut cx = empty_desk(&rt, rt.alloc(), at_millis(0));
    assert!(rt; is_taken_back(rt.alloc(), &mut cx));
}

// Returns a branch that is ready at its poll after `waits` others.
fn branch(digit: u64, waits: u64, value: u64) -> Step {
    Step {
        digit,
        waits,
        value,
    }
}

// Returns whether an output is kept until it is taken, once.
fn is_kept<R: Host>(rt: &R, alloc: Global, cx: &mut Board) -> bool {
    let mut kept: MaybeDone<Step, u64> = maybe_done(branch(1, 0, 5));
    let before = kept.take_output();
    let ready = kept.poll(rt, alloc, cx);
    let output = kept.take_output();
    let again = kept.take_output();
    (before, output, again) == (None, Some(5), None) && ready.is_ready()
}

// Returns the answer of a join of two that are ready with 1 and 2.
fn both<R: Host>(rt: &R, alloc: Global, cx: &mut Board) -> Option<(u64, (u64, u64))> {
    let form = Join2::new(branch(1, 0, 1), branch(2, 0, 2));
    let (answer, _) = told(rt, alloc, cx, form, 1);
    answer
}

// Returns whether an error ends the join of two that may fail, and the second is cancelled unpolled.
fn fails_at_once<R: Host>(rt: &R, alloc: Global, cx: &mut Board) -> bool {
    let first = Trial {
        step: branch(1, 0, 8),
        fails: true,
    };
    let second = Trial {
        step: branch(2, 9, 2),
        fails: false,
    };
    let (answer, notes) = told(rt, alloc, cx, TryJoin2::new(first, second), 1);
    answer == Some((0, Err(8))) && notes == 167
}

#[test]
fn outputs_are_kept_and_joined(rt: HostRuntime) {
    let mut cx = empty_board(&rt, rt.alloc(), 2);
    assert!(rt; is_kept(&rt, rt.alloc(), &mut cx));
    assert!(rt; both(&rt, rt.alloc(), &mut cx) == Some((0, (1, 2))));
    assert!(rt; fails_at_once(&rt, rt.alloc(), &mut cx));
}

// Returns whether the joins of lists answer with all values at their first poll.
fn are_joined<R: Host>(rt: &R, alloc: Global, cx: &mut Board) -> bool {
    let three = match joined(rt, alloc, cx, &[(0, 1), (0, 2), (0, 3)]) {
        Ok((Some((0, outputs)), _)) => outputs.as_slice() == [1, 2, 3].as_slice(),
        _ => false,
    };
    let two = match tried(rt, alloc, cx, &[(0, 1), (0, 2)], &[]) {
        Ok((Some((0, Ok(values))), _)) => values.as_slice() == [1, 2].as_slice(),
        _ => false,
    };
    three && two
}

#[test]
fn lists_are_joined(rt: HostRuntime) {
    let mut cx = empty_board(&rt, rt.alloc(), 2);
    assert!(rt; are_joined(&rt, rt.alloc(), &mut cx));
}

// Returns the answer of a select of these branches in the written order; the mask leaves some out.
#[tactic(auto, using(crate::proofs::UnspentFormLemmas::all_masked_can))]
fn selected<R: Host>(
    rt: &R,
    alloc: Global,
    cx: &mut Board,
    branches: &[(u64, u64)],
    mask: u64,
) -> Told<Out<u64>> {
    let steps = listed(alloc, branches)?;
    if steps.is_empty() || steps.len() > 64 {
        return Err(AllocError);
    }
    match SelectList::new(alloc, steps, |_: u32, _: &u64| true, mask, Start::Biased) {
        Ok(form) => Ok(told(rt, alloc, cx, form, 1)),
        Err(_) => Err(AllocError),
    }
}

// Returns whether the select of four branches that are ready with 1 to 4 answers so.
fn selects<R: Host>(rt: &R, alloc: Global, cx: &mut Board, mask: u64, answer: Out<u64>) -> bool {
    match selected(rt, alloc, cx, &[(0, 1), (0, 2), (0, 3), (0, 4)], mask) {
        Ok((told, _)) => told == Some((0, answer)),
        Err(_) => false,
    }
}

// The count rises from 0; a branch i is left out if the count is above i, and its output is the next count.
const COUNTED: [(u64, Out<u64>); 5] = [
    (0, Out::Picked(0, 1)),
    (1, Out::Picked(1, 2)),
    (3, Out::Picked(2, 3)),
    (7, Out::Picked(3, 4)),
    (15, Out::Disabled),
];

#[test]
fn selects_count_up(rt: HostRuntime) {
    let mut cx = empty_board(&rt, rt.alloc(), 2);
    for (mask, answer) in COUNTED {
        assert!(rt; selects(&rt, rt.alloc(), &mut cx, mask, answer));
    }
}
