// Forms on the futures of channels and semaphores, as main tasks of built runtimes.
use mono_combine::{Join2, SelectList, Start, TryJoin2};
use mono_forms::{FutureExt, Pending, pending, race, ready};
use mono_rt::{
    Cx, Host, NoPool, NoUnpark, Outcome, RunError, RuntimeBuilder, SharedState, StepDriver,
    TaskFuture, TimeDriver,
};
use mono_sync::mpsc::{self, Channel, Send, SendError};
use mono_sync::{Acquire, AcquireError, Only, Semaphore};
use std::alloc::{AllocError, Global};

/// Runs a main task on a runtime of its own, whose tasks share this value. Returns none if out of memory.
fn run<F, O, X, R: Host>(rt: &R, alloc: Global, part: X, future: F) -> Option<Result<O, RunError>>
where
    F: TaskFuture<Cx<F, O, NoPool, NoUnpark, Only<X>>, Output = O> + Drop,
    O: Outcome + Drop,
    X: SharedState + Drop,
    requires { (f : F) → F.can_poll f }
{
    let driver = TimeDriver::new(StepDriver::new(Vec::new(alloc)));
    let builder: RuntimeBuilder<_, NoPool> = RuntimeBuilder::new(driver);
    let mut runtime = match builder.build_sharing(alloc, Only { part }) {
        Ok(made) => made,
        Err(_) => return None,
    };
    match runtime.block_on(rt, alloc, future, 10) {
        Err(RunError::Memory) => None,
        answer => Some(answer),
    }
}

/// Returns the message, or 0 if none came.
fn message_of(answer: Result<Option<u64>, AllocError>) -> u64 {
    match answer {
        Ok(Some(message)) => message,
        _ => 0,
    }
}

#[test]
fn a_message_is_received_after_it_was_sent(rt: HostRuntime) {
    let send: Send<Only<Channel<u64>>, u64> = Send::new(7);
    let task = send
        .then(|_: Result<(), SendError<u64>>| mpsc::Recv::<Only<Channel<u64>>, u64>::new())
        .map(message_of);
    if let Some(answer) = run(&rt, rt.alloc(), Channel::new(rt.alloc(), 1), task) {
        assert_eq!(rt; answer, Ok(7));
    }
}

#[test]
fn a_permit_is_acquired(rt: HostRuntime) {
    let acquire: Acquire<Only<Semaphore>> = Acquire::new();
    let task = acquire
        .map_err(|_: AcquireError| 1u64)
        .map_ok(|_: ()| 2u64)
        .map(|answer: Result<u64, u64>| answer.unwrap_or(0));
    if let Some(answer) = run(&rt, rt.alloc(), Semaphore::new(rt.alloc(), 1), task) {
        assert_eq!(rt; answer, Ok(2));
    }
}

/// A list of `Either`s selects among three unlike futures: the message that the second sends wakes the first, which is picked.
///
/// It catches a select that drops a branch that waits once another has answered with an output that does not pass.
#[test]
fn a_select_of_three(rt: HostRuntime) {
    let alloc = rt.alloc();
    let recv = mpsc::Recv::<Only<Channel<u64>>, u64>::new().map(message_of);
    let send = Send::<Only<Channel<u64>>, u64>::new(7).map(|_: Result<(), SendError<u64>>| 0u64);
    let branches = Vec::from_array(
        alloc,
        [
            recv.left_future(),
            send.left_future().right_future(),
            ready(5u64).right_future().right_future(),
        ],
    )
    .expect(&rt, "memory");
    let is_first = |number: u32, _: &u64| number == 0;
    let task = SelectList::new(alloc, branches, is_first, 0, Start::Biased)
        .ok()
        .expect(&rt, "memory")
        .with_body(|_: u32, message: u64| message, || 99);
    if let Some(answer) = run(&rt, alloc, Channel::new(alloc, 1), task) {
        assert_eq!(rt; answer, Ok(7));
    }
}

/// The channel of a test as the whole shared value.
type One = Only<Channel<u64>>;

/// The answer of a receive.
type Received = Result<Option<u64>, AllocError>;

/// The answer of a send.
type Sent = Result<(), SendError<u64>>;

/// Returns the message if it was sent and received.
fn message_of_join(both: (Received, Sent)) -> u64 {
    if both.1.is_ok() {
        message_of(both.0)
    } else {
        0
    }
}

fn refused_recv(_: AllocError) -> u64 {
    1
}

fn refused_send(_: SendError<u64>) -> u64 {
    1
}

/// Returns the message if both parts succeeded.
fn message_of_try(both: Result<(Option<u64>, ()), u64>) -> u64 {
    match both {
        Ok((Some(message), ())) => message,
        _ => 0,
    }
}

fn forever(_: Sent) -> Pending<u64> {
    pending()
}

/// Returns the answer, or 7 if out of memory.
fn or_seven(answer: Option<Result<u64, RunError>>) -> Result<u64, RunError> {
    answer.unwrap_or(Ok(7))
}

fn recv() -> mpsc::Recv<One, u64> {
    mpsc::Recv::new()
}

fn send() -> Send<One, u64> {
    Send::new(7)
}

/// A join, a try and a race over both ends: the message that the second part sends wakes the first, which waits for it.
#[test]
fn forms_over_both_ends(rt: HostRuntime) {
    let alloc = rt.alloc();
    let join = Join2::new(recv(), send()).map(message_of_join);
    let both = TryJoin2::new(recv().map_err(refused_recv), send().map_err(refused_send));
    let first = race(recv().map(message_of), send().then(forever));
    let joined = run(&rt, alloc, Channel::new(alloc, 1), join);
    let tried = run(&rt, alloc, Channel::new(alloc, 1), both.map(message_of_try));
    let raced = run(&rt, alloc, Channel::new(alloc, 1), first);
    let (joined, tried, raced) = (or_seven(joined), or_seven(tried), or_seven(raced));
    assert_eq!(rt; [joined, tried, raced], [Ok(7), Ok(7), Ok(7)]);
}
