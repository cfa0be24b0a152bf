// Tokens that cancel, each with those below it.
use mono_groups::Asked;
use mono_groups::tokens::{RemoveError, Tokens};
use mono_task::SharedState;

/// How many tokens are in a chain, and how many tasks wait for one token.
const MANY: u64 = 2000;

// Returns whether a future of this task waits for the token from now on, with this ticket.
fn waits(tokens: &mut Tokens, key: u64, by: u64, ticket: u64) -> bool {
    matches!(tokens.cancelled(key, None, by), Asked::Joined(had) if had == ticket)
}

fn is_over(tokens: &mut Tokens, key: u64, ticket: Option<u64>, by: u64) -> bool {
    matches!(tokens.cancelled(key, ticket, by), Asked::Got(()))
}

// A cancel wakes the tasks of the token and of those below it, in the order of their keys, and no others.
#[test]
fn a_cancel_reaches_those_below(rt: HostRuntime) {
    let alloc = rt.alloc();
    let mut tokens = Tokens::new(alloc);
    let root = tokens.make(alloc).ok();
    let child = tokens.child(alloc, 0).ok();
    let sibling = tokens.child(alloc, 0).ok();
    let grandchild = tokens.child(alloc, 1).ok();
    assert_eq!(rt;
        (root, child, sibling, grandchild),
        (Some(0), Some(1), Some(2), Some(3))
    );
    for key in 0..4 {
        assert!(rt; waits(&mut tokens, key, key + 10, 0));
    }
    assert_eq!(rt; tokens.next_owed(), None);
    tokens.cancel(1);
    assert_eq!(rt;
        (tokens.next_owed(), tokens.next_owed()),
        (Some(11), Some(13))
    );
    assert_eq!(rt; tokens.next_owed(), None);
    assert!(rt; is_over(&mut tokens, 1, Some(0), 11) && is_over(&mut tokens, 3, Some(0), 13));
    assert!(rt; !tokens.is_cancelled(0) && !tokens.is_cancelled(2));
    assert!(rt; matches!(tokens.cancelled(2, Some(0), 12), Asked::Waits));
}

// A child of a cancelled token is cancelled from the start, and so is one of a token that was never made.
#[test]
fn a_late_child_is_cancelled(rt: HostRuntime) {
    let alloc = rt.alloc();
    let mut tokens = Tokens::new(alloc);
    let root = tokens.make(alloc).ok();
    tokens.cancel(0);
    let late = tokens.child(alloc, 0).ok();
    let orphan = tokens.child(alloc, 70).ok();
    assert_eq!(rt; (root, late, orphan), (Some(0), Some(1), Some(2)));
    assert!(rt; is_over(&mut tokens, 1, None, 5) && is_over(&mut tokens, 2, None, 5));
}

// A future that is given up is not woken, and a task that waits for another future is.
#[test]
fn a_given_up_future_leaves_no_place(rt: HostRuntime) {
    let alloc = rt.alloc();
    let mut tokens = Tokens::new(alloc);
    assert_eq!(rt; tokens.make(alloc).ok(), Some(0));
    assert!(rt; waits(&mut tokens, 0, 5, 0) && waits(&mut tokens, 0, 6, 1));
    tokens.give_up(0, Some(1), 5);
    tokens.give_up(0, Some(0), 5);
    tokens.cancel(0);
    assert_eq!(rt; (tokens.next_owed(), tokens.next_owed()), (Some(6), None));
}

// A token is removed once it was cancelled and no task waits for it.
#[test]
fn a_token_is_removed(rt: HostRuntime) {
    let alloc = rt.alloc();
    let mut tokens = Tokens::new(alloc);
    assert_eq!(rt; tokens.make(alloc).ok(), Some(0));
    assert!(rt; waits(&mut tokens, 0, 5, 0));
    assert!(rt; matches!(tokens.remove(0), Err(RemoveError::Live)));
    tokens.cancel(0);
    assert!(rt; matches!(tokens.remove(0), Err(RemoveError::InUse)));
    assert_eq!(rt; tokens.next_owed(), Some(5));
    assert!(rt; tokens.remove(0).is_ok() && tokens.is_cancelled(0));
    assert!(rt; matches!(tokens.remove(0), Err(RemoveError::Missing)));
    assert_eq!(rt; (tokens.len(), tokens.make(alloc).ok()), (0, Some(1)));
}

// A long chain, and many tasks at one token. A value that gives up at some length answers Memory here.
#[test]
fn many_tokens_and_tasks(rt: HostRuntime) {
    let alloc = rt.alloc();
    let mut tokens = Tokens::new(alloc);
    let mut holds = tokens.make(alloc).is_ok();
    for number in 0..MANY {
        holds = holds & matches!(tokens.child(alloc, number), Ok(key) if key == number + 1);
    }
    for task in 0..MANY {
        holds = holds & waits(&mut tokens, MANY, task, task);
    }
    tokens.cancel(0);
    for task in 0..MANY {
        holds = holds & (tokens.next_owed() == Some(task));
    }
    assert!(rt; holds && tokens.next_owed() == None);
}
