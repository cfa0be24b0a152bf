// Each form once, with the logs of its parts. The expected logs follow the rules of the crate `futures`. A form polls in the
// written order. The next part has its first poll as soon as the one before has answered. A part that has answered is
// dropped.
use crate::logs::{Part, goes, make_part};
use mono_forms::{
    Either, FutureExt, Pending, lazy, pending, race, race_either, race_list, race3, ready,
    yield_now,
};

/// Returns a value, which is an error from 100 on.
fn tried(x: u64) -> Result<u64, u64> {
    if x < 100 { Ok(x) } else { Err(x) }
}

fn next(x: u64) -> u64 {
    x.wrapping_add(1)
}

/// Returns a second part that may fail.
fn second_tried(x: u64) -> Part<Result<u64, u64>> {
    make_part('b', 1, tried(next(x)))
}

#[test]
fn an_error_goes_on_by_another_part(rt: HostRuntime) {
    let alloc = rt.alloc();
    let failed = make_part('a', 1, tried(100)).or_else(second_tried);
    goes(&rt, alloc, failed, 3, Some(Err(101)), "a.aAb.bB.");
    let mapped = make_part('a', 1, tried(100)).map_err(next);
    goes(&rt, alloc, mapped, 2, Some(Err(101)), "a.aA.");
}

/// Returns the answer of either side.
fn either_side(side: Either<u64, u64>) -> u64 {
    match side {
        Either::Left(x) => x,
        Either::Right(y) => y,
    }
}

#[test]
fn a_race_gives_all_up_in_the_written_order(rt: HostRuntime) {
    let alloc = rt.alloc();
    let (a, b, c) = (
        make_part('a', 2, 1u64),
        make_part('b', 2, 2u64),
        make_part('c', 1, 3u64),
    );
    let either = race_either(a, c).map(either_side);
    goes(&rt, alloc, either, 2, Some(3), "ac.acAC.");
    goes(&rt, alloc, race3(a, b, c), 2, Some(3), "abc.abcABC.");
    let list = vec![in alloc; a, b, c].expect(&rt, "memory");
    goes(&rt, alloc, race_list(list), 2, Some(3), "abc.abcABC.");
}

/// Waits forever.
fn never(_: u64) -> Pending<u64> {
    pending()
}

#[test]
fn a_fused_future_waits_after_its_answer(rt: HostRuntime) {
    let alloc = rt.alloc();
    let raced = race(make_part('a', 0, 7u64).fuse(), pending::<u64>());
    goes(&rt, alloc, raced, 1, Some(7), "aA.");
    let waits = make_part('a', 0, 7u64).fuse().then(never);
    goes(&rt, alloc, waits, 3, None, "aA...");
}

#[test]
fn a_boxed_future_polls_and_cancels_as_without_its_box(rt: HostRuntime) {
    let alloc = rt.alloc();
    match make_part('a', 1, 7u64).boxed(alloc) {
        Ok(task) => goes(&rt, alloc, task, 2, Some(7), "a.a.A"),
        Err(_) => assert!(rt; false),
    }
}

fn seven() -> u64 {
    7
}

fn one_part() -> Part<u64> {
    make_part('a', 1, 7)
}

#[test]
fn small_forms_answer_at_once_or_in_the_next_poll(rt: HostRuntime) {
    let alloc = rt.alloc();
    goes(&rt, alloc, ready(7u64), 1, Some(7), ".");
    goes(&rt, alloc, lazy(seven), 1, Some(7), ".");
    goes(&rt, alloc, yield_now(), 2, Some(()), "!..");
    let inspected = make_part('a', 1, 7u64).inspect(|x: &u64| {
        prove!(*x < 8);
    });
    goes(&rt, alloc, inspected, 2, Some(7), "a.aA.");
    goes(&rt, alloc, lazy(one_part).flatten(), 2, Some(7), "a.aA.");
}
