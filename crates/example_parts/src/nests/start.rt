// A nest from the start.
ghost use Rattle.std.specs.Prelude.{◌≡◌, ◌<◌, true, IfOk, OnErr, [], ◌∷◌};
ghost use Rattle.mono_model.specs.Tasks.{all_woken};
ghost use Rattle.mono_model.specs.Ticks.{up};
ghost use Rattle.mono_time.specs.Instants.{nanos_of};
ghost use Rattle.example_parts.specs.Nests.{Limited, MayBegin, Waits, AddsNone, AddsOnly, AddsTwo};

use crate::nests::by_hand::Countdown;
use crate::nests::races::{Answer, Limited, polled_once};
use mono_model::Host;
use mono_task::TaskFuture;
use mono_time::{Instant, SleepError, TimeContext, timeout_at};
use std::alloc::Global;

// Makes a countdown with a deadline that is not due, or returns why there is none.
fn limited<C: TimeContext>(
    alloc: Global,
    cx: &mut C,
    deadline: Instant,
    left: u64,
) -> Result<Limited, SleepError>
    requires not_due { (C.sleeps cx.old).greatest < up (nanos_of deadline) }
    requires counts { 0 < left }
    ensures waits { IfOk result (λ t. MayBegin (C.sleeps cx.new) t) }
    ensures others { (t : Limited) → Waits (C.sleeps cx.old) t → Waits (C.sleeps cx.new) t }
    ensures greatest { (C.sleeps cx.new).greatest ≡ (C.sleeps cx.old).greatest }
    ensures only { IfOk result (λ t. AddsOnly (C.sleeps cx.old) (C.sleeps cx.new) t.delay.number) }
    ensures none { OnErr result (AddsNone (C.sleeps cx.old) (C.sleeps cx.new)) }
    ensures work { C.work cx.new ≡ C.work cx.old }
    ensures reached { C.reaches cx.old cx.new }
{
    match timeout_at(alloc, cx, deadline, Countdown::new(left, left)) {
        Ok(limited) => Ok(limited),
        Err(refused) => Err(refused.cause),
    }
}

// Makes two countdowns with one deadline that is not due. If the second is refused, the first is given up.
fn pair<C: TimeContext>(
    alloc: Global,
    cx: &mut C,
    deadline: Instant,
    left: (u64, u64),
) -> Result<(Limited, Limited), SleepError>
    requires not_due { (C.sleeps cx.old).greatest < up (nanos_of deadline) }
    requires counts { (0 < left.0) × (0 < left.1) }
    ensures waits { IfOk result (λ p. MayBegin (C.sleeps cx.new) p.0 × MayBegin (C.sleeps cx.new) p.1) }
    ensures others { IfOk result (λ p. (t : Limited) → Waits (C.sleeps cx.old) t → Waits (C.sleeps cx.new) t) }
    ensures greatest { IfOk result (λ p. (C.sleeps cx.new).greatest ≡ (C.sleeps cx.old).greatest) }
    ensures only { IfOk result (λ p. AddsTwo (C.sleeps cx.old) (C.sleeps cx.new) p.0.delay.number p.1.delay.number) }
    ensures none { OnErr result (AddsNone (C.sleeps cx.old) (C.sleeps cx.new)) }
    ensures work { C.work cx.new ≡ C.work cx.old }
    ensures reached { C.reaches cx.old cx.new }
{
    let a = limited(alloc, cx, deadline, left.0)?;
    match limited(alloc, cx, deadline, left.1) {
        Ok(b) => Ok((a, b)),
        Err(cause) => {
            a.cancel(cx);
            Err(cause)
        }
    }
}

// Passes every answer: a predicate.
fn passes(_answer: &Answer) -> bool {
    true
}

/// Returns whether a nest of four countdowns waits at its first poll. It does if all four have polls left and neither
/// deadline, one for each race, is due at the clock (`waits`). Each countdown woke the running task once (`polled`). An
/// `Err` is the context's refusal of a sleep; then no task was woken (`refused`), and the countdowns that were made are
/// given up. Either way the table has no new sleep (`gone`).
pub fn begin<C: TimeContext, R: Host>(
    rt: &R,
    alloc: Global,
    cx: &mut C,
    deadlines: (Instant, Instant),
    left: ((u64, u64), (u64, u64)),
) -> Result<bool, SleepError>
    requires not_due { ((C.sleeps cx.old).greatest < up (nanos_of deadlines.0)) × ((C.sleeps cx.old).greatest < up (nanos_of deadlines.1)) }
    requires first { (0 < left.0.0) × (0 < left.0.1) }
    requires second { (0 < left.1.0) × (0 < left.1.1) }
    ensures waits { IfOk result (λ waits. waits ≡ true) }
    ensures polled { IfOk result (λ waits. C.work cx.new ≡ all_woken (C.work cx.old) (C.number cx.old ∷ C.number cx.old ∷ C.number cx.old ∷ C.number cx.old ∷ [])) }
    ensures refused { OnErr result (C.work cx.new ≡ C.work cx.old) }
    ensures gone { AddsNone (C.sleeps cx.old) (C.sleeps cx.new) }
    ensures reached { C.reaches cx.old cx.new }
{
    let first = pair(alloc, cx, deadlines.0, left.0)?;
    match pair(alloc, cx, deadlines.1, left.1) {
        Ok(second) => Ok(polled_once(
            rt,
            alloc,
            cx,
            first,
            second,
            (passes, passes),
            (passes, passes),
        )),
        Err(cause) => {
            let (a, b) = first;
            a.cancel(cx);
            b.cancel(cx);
            Err(cause)
        }
    }
}
