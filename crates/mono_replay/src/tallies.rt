// A running sum of reports.
ghost use Rattle.std.specs.Prelude.{◌≡◌, ◌+◌, ◌∷◌, [], if◌then◌else◌, IfOk};
ghost use Rattle.mono_replay.specs.Load.{Adds, order_from, fired_in, total_of, refusal_in, refusals_in};

use crate::{Reply, Report};
use std::alloc::AllocError;

// How many sleeps fired and in which order, and how many refusals there were.
#[derive(Clone, Copy, Drop)]
pub(crate) struct Tally {
    pub fired: u64,
    pub refused: u64,
    pub order: u64,
}

fn next_order(order: u64, sleep: u64) -> u64
    ensures { result ≡ order_from order (sleep ∷ []) }
{
    let sum = u128::from(order) * 31 + u128::from(sleep) + 1;
    (sum % 18446744073709551616) as u64
}

fn order_of(order: u64, fired: &[u64]) -> u64
    ensures { result ≡ order_from order fired.now }
{
    let mut x = order;
    let mut i = 0usize;
    'sleeps: while i < fired.len() {
        x = next_order(x, fired[i]);
        i += 1;
    }
    x
}

fn is_refused(reply: &Reply) -> bool
    ensures { refusal_in reply.now ≡ (if result then 1 else 0) }
{
    match reply {
        Reply::Refused(_) => true,
        _ => false,
    }
}

fn refusals(replies: &[Reply]) -> usize
    ensures { result ≡ total_of refusal_in replies.now }
{
    let mut count = 0usize;
    let mut i = 0usize;
    'replies: while i < replies.len() {
        if is_refused(&replies[i]) {
            count += 1;
        }
        i += 1;
    }
    count
}

fn total(old: u64, more: usize) -> Result<u64, AllocError>
    ensures { IfOk result (λ n. n ≡ old + more) }
{
    match old.checked_add(more as u64) {
        Some(n) => Ok(n),
        None => Err(AllocError),
    }
}

// Returns the sum with this report added.
pub(crate) fn added(old: Tally, report: &Report) -> Result<Tally, AllocError>
    ensures { IfOk result (λ new. Adds old (fired_in report.now) (refusals_in report.now) new) }
{
    match report {
        Report::Fired(fired) => {
            let fired = fired.as_slice();
            Ok(Tally {
                fired: total(old.fired, fired.len())?,
                refused: old.refused,
                order: order_of(old.order, fired),
            })
        }
        Report::Turn(_, replies, _) => Ok(Tally {
            fired: old.fired,
            refused: total(old.refused, refusals(replies.as_slice()))?,
            order: old.order,
        }),
        Report::Reply(reply) => {
            let more = if is_refused(reply) { 1 } else { 0 };
            Ok(Tally {
                fired: old.fired,
                refused: total(old.refused, more)?,
                order: old.order,
            })
        }
        _ => Ok(old),
    }
}
