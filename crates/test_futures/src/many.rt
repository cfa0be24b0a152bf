// Joins of 64 futures, the most that there may be, which are ready at different polls.
use crate::boards::{Board, Step, Trial, empty_board, told};
use mono_combine::{JoinList, TryJoinList};
use mono_model::Host;
use std::alloc::{AllocError, Global};

pub(crate) type Told<T> = Result<(Option<(u64, T)>, u64), AllocError>;

/// Returns the listed branches, each with the polls that it waits and its value; they note 1, 2 and so on.
pub(crate) fn listed(alloc: Global, branches: &[(u64, u64)]) -> Result<Vec<Step>, AllocError> {
    let mut steps = Vec::new(alloc);
    for (waits, value) in branches {
        steps.push(Step {
            digit: (steps.len() as u64).wrapping_add(1),
            waits: *waits,
            value: *value,
        })?;
    }
    Ok(steps)
}

/// Returns the same branches; those whose values are listed fail.
fn trials(
    alloc: Global,
    branches: &[(u64, u64)],
    failing: &[u64],
) -> Result<Vec<Trial>, AllocError> {
    let mut trials = Vec::new(alloc);
    for (waits, value) in branches {
        let step = Step {
            digit: (trials.len() as u64).wrapping_add(1),
            waits: *waits,
            value: *value,
        };
        let fails = failing.contains(value);
        trials.push(Trial { step, fails })?;
    }
    Ok(trials)
}

/// Returns the branches 0 to 63. The branch i is ready with 1000 + i at its poll i mod 5, counted from 0.
fn sixty_four() -> [(u64, u64); 64] {
    let mut branches = [(0, 0); 64];
    for i in 0..64usize {
        branches[i] = (i as u64 % 5, i as u64 + 1000);
    }
    branches
}

/// Returns whether these are the numbers of the branches 0 to 63, in order.
fn are_all(numbers: &[u64]) -> bool {
    let mut next = 1000u64;
    for number in numbers {
        if *number != next {
            return false;
        }
        next = next.wrapping_add(1);
    }
    next == 1064
}

/// Returns the poll, the outputs and the notes of the join of these branches.
pub(crate) fn joined<R: Host>(
    rt: &R,
    alloc: Global,
    cx: &mut Board,
    branches: &[(u64, u64)],
) -> Told<Vec<u64>> {
    let steps = listed(alloc, branches)?;
    if steps.len() > 64 {
        return Err(AllocError);
    }
    match JoinList::<Step, u64>::new(alloc, steps) {
        Ok(form) => Ok(told(rt, alloc, cx, form, 9)),
        Err(_) => Err(AllocError),
    }
}

/// Returns at which poll the join of all is ready with all numbers in order.
fn joined_all<R: Host>(rt: &R, alloc: Global, cx: &mut Board) -> Option<u64> {
    match joined(rt, alloc, cx, &sixty_four()) {
        Ok((Some((poll, outputs)), _)) if are_all(&outputs) => Some(poll),
        _ => None,
    }
}

#[test]
fn joins(rt: HostRuntime) {
    let mut cx = empty_board(&rt, rt.alloc(), 2);
    assert!(rt; joined_all(&rt, rt.alloc(), &mut cx) == Some(4));
}

/// Returns the poll, the outputs or the error, and the notes of the join of these branches; those whose values are
/// listed fail.
pub(crate) fn tried<R: Host>(
    rt: &R,
    alloc: Global,
    cx: &mut Board,
    branches: &[(u64, u64)],
    failing: &[u64],
) -> Told<Result<Vec<u64>, u64>> {
    let trials = trials(alloc, branches, failing)?;
    if trials.len() > 64 {
        return Err(AllocError);
    }
    match TryJoinList::<Trial, u64, u64>::new(alloc, trials) {
        Ok(form) => Ok(told(rt, alloc, cx, form, 9)),
        Err(_) => Err(AllocError),
    }
}

/// Returns the poll and the error of the join of all, whose branches with listed values fail, or no error if it gave
/// all numbers in order.
fn tried_all<R: Host>(
    rt: &R,
    alloc: Global,
    cx: &mut Board,
    failing: &[u64],
) -> Option<(u64, Option<u64>)> {
    match tried(rt, alloc, cx, &sixty_four(), failing) {
        Ok((Some((poll, Err(error))), _)) => Some((poll, Some(error))),
        Ok((Some((poll, Ok(values))), _)) if are_all(&values) => Some((poll, None)),
        _ => None,
    }
}

/// Returns whether the join of all that may fail answers the first error of the first poll in which one fails.
fn first_fails<R: Host>(rt: &R, alloc: Global, cx: &mut Board) -> bool {
    // 63 is ready at poll 3, 12 and 37 at poll 2, and 4 and 9 at poll 4
    tried_all(rt, alloc, cx, &[]) == Some((4, None))
        && tried_all(rt, alloc, cx, &[1063]) == Some((3, Some(1063)))
        && tried_all(rt, alloc, cx, &[1037, 1004, 1012]) == Some((2, Some(1012)))
        && tried_all(rt, alloc, cx, &[1009, 1004]) == Some((4, Some(1004)))
}

#[test]
fn tried_joins(rt: HostRuntime) {
    let mut cx = empty_board(&rt, rt.alloc(), 2);
    assert!(rt; first_fails(&rt, rt.alloc(), &mut cx));
}
