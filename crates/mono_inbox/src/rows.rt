// Rows of tasks that an inbox makes known in one call.
ghost use Rattle.std.specs.Prelude.{◌<◌, ◌≤◌};
ghost use Rattle.mono_inbox.specs.State.{AlsoKnowsRow};

use crate::state::InboxState;
use std::alloc::Global;

impl InboxState {
    /// Makes the tasks from `from` to before `until` known, in order, as far as memory lasts. Returns the number after
    /// the last task that it made known: exactly the tasks from `from` to before that number are known more than before
    /// (`known`).
    pub fn know_row(&mut self, alloc: Global, from: u64, until: u64) -> u64
        ensures least { from ≤ result }
        ensures most { from ≤ until → result ≤ until }
        ensures known { AlsoKnowsRow self.old self.new from result }
    {
        let mut next = from;
        while next < until {
            let behind = know_next_of(self, alloc, next, until);
            if behind == next {
                return next;
            }
            next = behind;
        }
        next
    }
}

/// Makes a row of tasks from `next` on known in one step, or else that task alone. Returns the number after the last
/// one, or `next` if it is out of memory.
fn know_next_of(state: &mut InboxState, alloc: Global, next: u64, until: u64) -> u64
    requires { next < until }
    ensures least { next ≤ result }
    ensures most { result ≤ until }
    ensures known { AlsoKnowsRow state.old state.new next result }
{
    let more = state.know_behind(next, (until - next) as usize) as u64;
    if more > 0 {
        return next + more;
    }
    match state.know(alloc, next) {
        Ok(()) => next + 1,
        Err(_) => next,
    }
}
