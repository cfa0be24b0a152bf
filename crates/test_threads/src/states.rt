// The state of an inbox, over several pages of marks.
use mono_inbox::InboxState;
use std::alloc::Global;

/// How far apart two tasks that are made known are, so that few calls reach all pages and parts of an inbox's marks.
const STEP: u64 = 50;

/// Makes every `STEP`th task below a number known in turn, wakes it, takes and retires it; every 100,000th is not
/// retired.
fn come_and_go(alloc: Global, state: &mut InboxState, end: u64) -> bool {
    let mut all_listed = true;
    for at in 0..end / STEP {
        let task = at.wrapping_mul(STEP);
        let known = state.know(alloc, task).is_ok();
        let listed = state.put(task) && !state.put(task) && state.drain_one() == Some(task);
        all_listed = all_listed && known && listed;
        if task % 100_000 != 0 {
            state.retire(task);
        }
    }
    all_listed
}

#[test]
fn a_state_grows(rt: HostRuntime) {
    let mut state = InboxState::new(rt.alloc(), 0).expect(&rt, "memory");
    assert!(rt; come_and_go(rt.alloc(), &mut state, 1_150_000));
    assert!(rt; state.put(1_100_000) && !state.put(1_100_050) && state.put(0));
    assert!(rt; state.waiting() == 2);
}
