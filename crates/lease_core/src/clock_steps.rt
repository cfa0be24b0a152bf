// The steps of a core that no request brings: the clock, and the end of the input.
ghost use Rattle.std.specs.Prelude.{◌≡◌, ◌≤◌, ◌<◌, ◌+◌, ◌++◌, ℕ, List, [], OnOk, OnErr, length, vec_len, vec_capacity};
ghost use Rattle.mono_model.specs.Due.{ListsDue};
ghost use Rattle.mono_model.specs.Table.{count_of};
ghost use Rattle.mono_time.specs.Instants.{nanos_of};
ghost use Rattle.mono_session.specs.Keeper.{Keeper, with_greatest};
ghost use Rattle.mono_session.specs.Steps.{closing_value, greatest_at, without_all};
ghost use Rattle.mono_session.specs.Holders.{leaves};
ghost use Rattle.mono_session.specs.Refinement.{StandsFor, open_count, entries_len};
ghost use Rattle.mono_limit.specs.Limits.{limits_of, ListsInto};
ghost use Rattle.lease_core.specs.Waits.{closed_end, ended_by, still_by};
ghost use Rattle.lease_core.specs.Waiting.{waits_of};
ghost use Rattle.lease_core.specs.Refinement.{Refines, Clocks, Ends};
ghost use Rattle.lease_core.specs.Cores.{CoreState};

use crate::cores::Core;
use crate::requests::{Outcome, Reply};
use crate::waits::Waits;
use mono_limit::Limiter;
use mono_session::Sessions;
use mono_time::Instant;
use mono_wheel::Steps;
use std::alloc::AllocError;
use std::marker::Brand;
use std::sync::ledger::{Blank, Ledger};

// Closes the sessions that are due. Lists them in `closed`, and each with each key whose queue it left in `left`. There is
// room for both.
fn close_due<L: Ledger>(
    sessions: &mut Sessions,
    now: Instant,
    closed: &mut Vec<u64>,
    left: &mut Vec<(u64, u64)>,
    blank: Blank,
)
    requires ledger { (blank.name ≡ L.name) × (blank.parts ≡ L.parts) × (0 < L.parts) }
    requires closed { vec_len closed.old + open_count sessions.old ≤ vec_capacity closed.old }
    requires left { vec_len left.old + entries_len sessions.old ≤ vec_capacity left.old }
    ensures { (k : Keeper) → StandsFor sessions.old k → (due : List ℕ) × (closed.new.items ≡ closed.old.items ++ due) × (left.new.items ≡ left.old.items ++ leaves k due) × ListsDue closing_value k.sessions (greatest_at k (nanos_of now)) due × StandsFor sessions.new (without_all (with_greatest k (greatest_at k (nanos_of now))) due) }
{
    let mut steps: Steps<L> = Steps::new(blank);
    sessions.clock_leaving(now, closed, left, &mut steps);
}

// Fills the buckets. There is room for the retries that are due; a core makes none.
fn fill<L: Ledger>(limiter: &mut Limiter, now: Instant, due: &mut Vec<u64>, blank: Blank)
    requires ledger { (blank.name ≡ L.name) × (blank.parts ≡ L.parts) × (0 < L.parts) }
    requires room { vec_len due.old + count_of (limits_of limiter.old).retries ≤ vec_capacity due.old }
    ensures { ListsInto (limits_of limiter.old) (nanos_of now) due.old.items due.new.items (limits_of limiter.new) }
{
    let mut steps: Steps<L> = Steps::new(blank);
    limiter.clock(now, due, &mut steps);
}

// Ends the waits that end since these sessions were closed, each of which left the queue of this key, pair by pair.
// Appends their replies. There is room for a reply to each wait.
fn end_each_left(
    left: &[(u64, u64)],
    sessions: &Sessions,
    tick: u64,
    waiting: &mut Waits,
    replies: &mut Vec<Reply>,
)
    requires { vec_len replies.old + length (waits_of waiting.old) ≤ vec_capacity replies.old }
    ensures items { (k : Keeper) → StandsFor sessions.now k → replies.new.items ≡ replies.old.items ++ ended_by (closed_end k) tick left.now (waits_of waiting.old) }
    ensures kept { (k : Keeper) → StandsFor sessions.now k → waits_of waiting.new ≡ still_by (closed_end k) left.now (waits_of waiting.old) }
    ensures len { length (waits_of waiting.new) ≤ length (waits_of waiting.old) }
    ensures capacity { vec_capacity replies.new ≡ vec_capacity replies.old }
{
    if waiting.len() == 0 {
        return;
    }
    for pair in left {
        let (session, key) = *pair;
        let holder = sessions.owner(key);
        waiting.end_left(session, key, holder, Outcome::Closed, tick, replies);
    }
}

impl Core {
    /// Shows the clocks of the leases and of the buckets an instant. The sessions that are due are closed. The replies
    /// are the answers to the acquires whose waits ended. It looks at the keys of the closed sessions alone.
    ///
    /// Fails if it is out of memory; then nothing has changed, and there are no replies (`refused`).
    pub fn advance(&mut self, now: Instant) -> Result<(), AllocError>
        ensures clocks { OnOk result (Clocks self.old (nanos_of now) self.new) }
        ensures refused { OnErr result ((self.new.replies.items ≡ []) × ((s : CoreState) → Refines self.old s → Refines self.new s)) }
    {
        self.replies.clear();
        self.closed.clear();
        self.left.clear();
        self.due.clear();
        self.closed.reserve(self.sessions.open_len())?;
        self.left.reserve(self.sessions.entries_len())?;
        self.due.reserve(self.limiter.live())?;
        close_due::<Brand>(
            &mut self.sessions,
            now,
            &mut self.closed,
            &mut self.left,
            Blank::new(1),
        );
        fill::<Brand>(&mut self.limiter, now, &mut self.due, Blank::new(1));
        self.tick = self.tick.max(now.clock_tick());
        end_each_left(
            self.left.as_slice(),
            &self.sessions,
            self.tick,
            &mut self.waiting,
            &mut self.replies,
        );
        Ok(())
    }

    /// Answers each acquire that still waits: the input has ended.
    pub fn finish(&mut self)
        ensures { Ends self.old self.new }
    {
        self.replies.clear();
        self.waiting.end_all(self.tick, &mut self.replies);
    }
}
