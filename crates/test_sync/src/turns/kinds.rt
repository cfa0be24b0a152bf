// Tables of all kinds as one value, next to a value of the user. Each table is a part of its own, and the whole owes what any of
// them owes.
use mono_sync::mpsc::{Channel, Receiving};
use mono_sync::{Holds, Many, Notify, Notifying, Own, Tables, empty_tables};
use mono_task::SharedState;
use std::alloc::Global;

/// The shared value: a number, and tables of all kinds.
type Shared = Tables<u64, u64, u64, u64>;

// Puts a part into its table. Returns whether it has the key 0.
fn puts<W: Holds<Many<X>>, X: SharedState + Drop>(whole: &mut W, alloc: Global, part: X) -> bool {
    matches!(whole.part_mut().make(alloc, part), Ok(0))
}

// Puts a channel into its table, the first one, in which this task waits and has a message.
fn puts_channel(alloc: Global, shared: &mut Shared, task: u64) -> bool {
    let mut channel: Channel<u64> = Channel::new(alloc, 1);
    let waits =
        matches!(channel.recv(None, task), Receiving::Joined(ticket) if ticket.number() == 0);
    let sent = channel.try_send(20).is_ok();
    waits & sent & puts::<Shared, Channel<u64>>(shared, alloc, channel)
}

// Puts a notice into its table, the last one, for which this task waits and which was given.
fn puts_notice(alloc: Global, shared: &mut Shared, task: u64) -> bool {
    let mut notify = Notify::new(alloc);
    let waits =
        matches!(notify.notified(None, task), Notifying::Joined(ticket) if ticket.number() == 0);
    notify.notify_one();
    waits & puts::<Shared, Notify>(shared, alloc, notify)
}

/// The whole owes a wake to the task of each table, first that of the first. A task's own value changes alone.
///
/// It catches tables in a row of which only the first owes wakes.
#[test]
fn tables_in_a_row(rt: HostRuntime) {
    let alloc = rt.alloc();
    let mut shared: Shared = empty_tables(alloc, 10);
    assert!(rt; puts_notice(alloc, &mut shared, 5) & puts_channel(alloc, &mut shared, 1));
    let own: &mut Own<u64> = shared.part_mut();
    own.value = 11;
    assert_eq!(rt;
        (shared.next_owed(), shared.next_owed()),
        (Some(1), Some(5))
    );
    assert_eq!(rt; (shared.next_owed(), shared.first.value), (None, 11));
}
