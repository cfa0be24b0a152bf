// A bounded channel: each test is a table of calls with the answers that they must have.
use crate::tickets::{comes_at, drawn_at};
use mono_sync::Ticket;
use mono_sync::mpsc::{Channel, Receiving, Sending, TryRecvError, TrySendError};
use mono_task::SharedState;
use std::alloc::Global;
use std::process::Abort;

/// One call, with its answer. A ticket stands for its place among those that were drawn in its line.
#[derive(Clone, Copy)]
enum Call {
    /// A message is sent at once, and this task is woken, if any.
    Sends(u64, Option<u64>),
    /// The message comes back, since the channel is full.
    IsFull(u64),
    /// The message comes back, since the channel was closed.
    IsShut(u64),
    /// This message is received at once, and this task is woken, if any.
    Receives(u64, Option<u64>),
    /// There is no message for the caller.
    IsEmpty,
    /// There will be no more messages.
    IsOver,
    /// A task's future with this ticket sends a message, and the last task is woken, if any.
    Puts(Option<usize>, u64, u64, Option<u64>),
    /// It waits from now on, with the last ticket.
    JoinsSenders(Option<usize>, u64, u64, usize),
    /// It finds the channel closed.
    GetsBack(Option<usize>, u64, u64),
    /// A task's future with this ticket receives this message, and the last task is woken, if any.
    Gets(Option<usize>, u64, u64, Option<u64>),
    /// It waits from now on, with the last ticket.
    JoinsReceivers(Option<usize>, u64, usize),
    /// It still waits.
    Waits(Option<usize>, u64),
    /// It finds the channel closed, and no message left.
    Ends(Option<usize>, u64),
    /// A task's future leaves the line of senders, and the last task is woken, if any.
    LeavesSenders(Option<usize>, u64, Option<u64>),
    /// A task's future leaves the line of receivers, and the last task is woken, if any.
    LeavesReceivers(Option<usize>, u64, Option<u64>),
    /// It is closed: the first two tasks that are woken.
    Closes(Option<u64>, Option<u64>),
    /// This task is woken next, if any.
    Wakes(Option<u64>),
    /// This many messages are queued.
    Has(usize),
}

/// Makes one call that does not wait, and returns whether it has this answer.
fn answers_at_once(channel: &mut Channel<u64>, call: Call) -> bool {
    match call {
        Call::Sends(message, woken) => {
            channel.try_send(message).is_ok() && channel.next_owed() == woken
        }
        Call::IsFull(message) => match channel.try_send(message) {
            Err(TrySendError::Full(back)) => back == message,
            _ => false,
        },
        Call::IsShut(message) => match channel.try_send(message) {
            Err(TrySendError::Closed(back)) => back == message,
            _ => false,
        },
        Call::Receives(message, woken) => match channel.try_recv() {
            Ok(had) => had == message && channel.next_owed() == woken,
            Err(_) => false,
        },
        Call::IsEmpty => matches!(channel.try_recv(), Err(TryRecvError::Empty)),
        Call::IsOver => matches!(channel.try_recv(), Err(TryRecvError::Disconnected)),
        Call::Closes(first, second) => {
            channel.close();
            let one = channel.next_owed();
            one == first && channel.next_owed() == second
        }
        Call::Wakes(woken) => channel.next_owed() == woken,
        Call::Has(messages) => channel.len() == messages,
        _ => false,
    }
}

/// The tickets that were drawn in each of the two lines.
#[derive(Drop)]
struct Drawn {
    senders: Vec<Ticket>,
    receivers: Vec<Ticket>,
}

/// Makes one call of a sender's future, and returns whether it has this answer.
fn answers_sender(channel: &mut Channel<u64>, tickets: &mut Vec<Ticket>, call: Call) -> bool {
    match call {
        Call::Puts(ticket, message, by, woken) => {
            let ticket = drawn_at(tickets, ticket);
            match channel.send(ticket, message, by) {
                Sending::Sent => channel.next_owed() == woken,
                _ => false,
            }
        }
        Call::JoinsSenders(ticket, message, by, place) => {
            let ticket = drawn_at(tickets, ticket);
            match channel.send(ticket, message, by) {
                Sending::Joined(had, back) => back == message && comes_at(tickets, had, place),
                _ => false,
            }
        }
        Call::GetsBack(ticket, message, by) => {
            let ticket = drawn_at(tickets, ticket);
            match channel.send(ticket, message, by) {
                Sending::Closed(back) => back == message,
                _ => false,
            }
        }
        Call::LeavesSenders(ticket, by, woken) => {
            channel.give_up_send(drawn_at(tickets, ticket), by);
            channel.next_owed() == woken
        }
        other => answers_at_once(channel, other),
    }
}

/// Makes one call, and returns whether it has this answer.
fn answers(channel: &mut Channel<u64>, drawn: &mut Drawn, call: Call) -> bool {
    let tickets = &mut drawn.receivers;
    match call {
        Call::Gets(ticket, message, by, woken) => {
            let ticket = drawn_at(tickets, ticket);
            match channel.recv(ticket, by) {
                Receiving::Received(had) => had == message && channel.next_owed() == woken,
                _ => false,
            }
        }
        Call::JoinsReceivers(ticket, by, place) => {
            let ticket = drawn_at(tickets, ticket);
            match channel.recv(ticket, by) {
                Receiving::Joined(had) => comes_at(tickets, had, place),
                _ => false,
            }
        }
        Call::Waits(ticket, by) => {
            let ticket = drawn_at(tickets, ticket);
            matches!(channel.recv(ticket, by), Receiving::Waits)
        }
        Call::Ends(ticket, by) => {
            let ticket = drawn_at(tickets, ticket);
            matches!(channel.recv(ticket, by), Receiving::Closed)
        }
        Call::LeavesReceivers(ticket, by, woken) => {
            channel.give_up_recv(drawn_at(tickets, ticket), by);
            channel.next_owed() == woken
        }
        other => answers_sender(channel, &mut drawn.senders, other),
    }
}

/// Makes the calls in turn on a channel of this many places, and asserts their answers.
fn all_answer<R: Abort>(rt: &R, alloc: Global, bound: usize, calls: &[Call]) {
    let mut channel = Channel::new(alloc, bound);
    let mut drawn = Drawn {
        senders: Vec::new(alloc),
        receivers: Vec::new(alloc),
    };
    for call in calls {
        assert!(rt; answers(&mut channel, &mut drawn, *call));
    }
}

#[test]
fn messages_in_order(rt: HostRuntime) {
    all_answer(
        &rt,
        rt.alloc(),
        2,
        &[
            Call::IsEmpty,
            Call::Sends(10, None),
            Call::Sends(11, None),
            Call::IsFull(12),
            Call::Receives(10, None),
            Call::Sends(12, None),
            Call::Receives(11, None),
            Call::Receives(12, None),
            Call::IsEmpty,
        ],
    );
}

// A place that becomes free is reserved for the first that waits: no task sends past it.
#[test]
fn senders_in_order(rt: HostRuntime) {
    all_answer(
        &rt,
        rt.alloc(),
        1,
        &[
            Call::Sends(10, None),
            Call::JoinsSenders(None, 11, 1, 0),
            Call::JoinsSenders(None, 12, 2, 1),
            Call::Receives(10, Some(1)),
            Call::IsFull(13),
            Call::Puts(Some(0), 11, 1, None),
            Call::Receives(11, Some(2)),
            Call::LeavesSenders(Some(1), 2, None),
            Call::Sends(13, None),
            Call::JoinsSenders(None, 14, 3, 2),
            Call::JoinsSenders(None, 15, 4, 3),
            Call::LeavesSenders(Some(2), 3, None),
            Call::Receives(13, Some(4)),
            Call::Puts(Some(3), 15, 4, None),
        ],
    );
}

// A message is promised to the first that waits: no task receives past it.
#[test]
fn receivers_in_order(rt: HostRuntime) {
    all_answer(
        &rt,
        rt.alloc(),
        4,
        &[
            Call::JoinsReceivers(None, 1, 0),
            Call::JoinsReceivers(None, 2, 1),
            Call::Sends(10, Some(1)),
            Call::IsEmpty,
            Call::Waits(Some(1), 2),
            Call::Gets(Some(0), 10, 1, None),
            Call::Sends(11, Some(2)),
            Call::JoinsReceivers(None, 3, 2),
            Call::LeavesReceivers(Some(1), 2, Some(3)),
            Call::Gets(Some(2), 11, 3, None),
            Call::JoinsReceivers(None, 4, 3),
            Call::LeavesReceivers(Some(3), 4, None),
            Call::Sends(12, None),
        ],
    );
}

// A receiver closes while senders wait: they get their messages back, and the queued messages are received.
#[test]
fn closed_while_senders_wait(rt: HostRuntime) {
    all_answer(
        &rt,
        rt.alloc(),
        1,
        &[
            Call::Sends(10, None),
            Call::JoinsSenders(None, 11, 1, 0),
            Call::JoinsSenders(None, 12, 2, 1),
            Call::Closes(Some(1), Some(2)),
            Call::GetsBack(Some(0), 11, 1),
            Call::GetsBack(Some(1), 12, 2),
            Call::IsShut(13),
            Call::Has(1),
            Call::Gets(None, 10, 3, None),
            Call::Ends(None, 3),
            Call::IsOver,
        ],
    );
}

// A sender closes while receivers wait: those that were promised a message get it.
#[test]
fn closed_while_receivers_wait(rt: HostRuntime) {
    all_answer(
        &rt,
        rt.alloc(),
        1,
        &[
            Call::JoinsReceivers(None, 1, 0),
            Call::JoinsReceivers(None, 2, 1),
            Call::Sends(10, Some(1)),
            Call::Closes(Some(2), None),
            Call::Gets(Some(0), 10, 1, None),
            Call::Ends(Some(1), 2),
        ],
    );
}

// A channel with no place takes nothing.
#[test]
fn no_place(rt: HostRuntime) {
    all_answer(
        &rt,
        rt.alloc(),
        0,
        &[
            Call::IsFull(10),
            Call::JoinsSenders(None, 10, 1, 0),
            Call::IsEmpty,
        ],
    );
}

// A future that another task polls waits anew at the end. The first task is woken in its turn, and takes no message.
#[test]
fn latest_task(rt: HostRuntime) {
    all_answer(
        &rt,
        rt.alloc(),
        1,
        &[
            Call::JoinsReceivers(None, 1, 0),
            Call::JoinsReceivers(None, 2, 1),
            Call::JoinsReceivers(Some(1), 3, 2),
            Call::Sends(10, Some(1)),
            Call::Wakes(None),
            Call::Gets(Some(0), 10, 1, None),
            Call::Sends(11, Some(2)),
            Call::Wakes(Some(3)),
            Call::Wakes(None),
            Call::Gets(Some(2), 11, 3, None),
        ],
    );
}
