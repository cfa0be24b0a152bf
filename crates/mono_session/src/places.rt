// The ends of queues, and the neighbours of a member.
ghost use Rattle.std.specs.Prelude.{◌≡◌, ◌<◌, ℕ, cond, nat_eq};
ghost use Rattle.std.specs.HashMap.{get, spare};
ghost use Rattle.mono_session.specs.Links.{with_last_end, last_end, closed_ends};

use std::collections::HashMap;

/// The first and the last member of a queue.
#[derive(Clone, Copy, Drop)]
pub struct Ends {
    pub first: u64,
    pub last: u64,
}

/// The neighbours of a member.
#[derive(Clone, Copy, Drop)]
pub struct Place {
    pub before: Option<u64>,
    pub after: Option<u64>,
}

/// Makes a member the last of a queue, and returns the last member before.
pub fn put_last(ends: &mut HashMap<u64, Ends>, queue: u64, member: u64) -> Option<u64>
    requires { 0 < spare ends.old }
    ensures last { result ≡ last_end (get nat_eq ends.old queue) }
    ensures ends { (q : ℕ) → get nat_eq ends.new q ≡ cond (nat_eq queue q) (with_last_end member (get nat_eq ends.old q)) (get nat_eq ends.old q) }
{
    if let Some(ends) = ends.get_mut(&queue) {
        let last = ends.last;
        ends.last = member;
        return Some(last);
    }
    let only = Ends {
        first: member,
        last: member,
    };
    let _ = ends.insert(queue, only);
    None
}

/// Updates the ends of a queue after a member between these two has left it.
pub fn close_ends(
    ends: &mut HashMap<u64, Ends>,
    queue: u64,
    before: Option<u64>,
    after: Option<u64>,
)
    ensures { (q : ℕ) → get nat_eq ends.new q ≡ cond (nat_eq queue q) (closed_ends before after (get nat_eq ends.old q)) (get nat_eq ends.old q) }
{
    match (before, after) {
        (None, None) => {
            ends.remove(&queue);
        }
        (None, Some(first)) => {
            if let Some(ends) = ends.get_mut(&queue) {
                ends.first = first;
            }
        }
        (Some(last), None) => {
            if let Some(ends) = ends.get_mut(&queue) {
                ends.last = last;
            }
        }
        (Some(_), Some(_)) => {}
    }
}
