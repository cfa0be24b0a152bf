//! A channel and a value of your own next to it, which changes with each message in the same step.
ghost use Rattle.std.specs.Prelude.{◌≡◌, ◌∷◌, ◌++◌, [], false, List, ℕ, ◌||◌};
ghost use Rattle.mono_sync.specs.MpscRuns.{Leads};
ghost use Rattle.mono_sync.specs.Mpsc.{owed_by, listed_by, Sends, Receives, GivesUpSend, GivesUpReceive, Closes};
ghost use Rattle.mono_sync.specs.Lines.{has_task};
ghost use Rattle.mono_sync.specs.Tallies.{TallyLeads, tally_itself, tally_on, tally_lists, tally_waiting, tally_owes, tally_some, SendsTallied, ReceivesTallied};
ghost use Rattle.mono_task.specs.Owed.{Keeps, Hands};

use crate::lines::Ticket;
use crate::mpsc::{Channel, Receiving, Sending};
pub use crate::tallied_messages::{Recv, Send};
use mono_task::SharedState;
use std::alloc::Global;

/// A value of your own next to a channel. It changes with each message that is sent or received, in the same step.
///
/// You state what holds between the value and the queued messages (`rule`). It holds after any calls of any tasks if it
/// held before them (`leads` of [`Tallied`]).
pub trait Tally<T>: Drop {
    // What holds between the value and the queued messages.
    ghost rule: { Self → List T → Type 0 };

    /// Notes a message that was queued at the back.
    fn sent(&mut self, message: &T)
        ensures { (queue : List T) → rule self.old queue → rule self.new (queue ++ message.now ∷ []) };

    /// Notes the first message, which left the queue.
    fn received(&mut self, message: &T)
        ensures { (queue : List T) → rule self.old (message.now ∷ queue) → rule self.new queue };
}

/// A bounded channel, and next to it a value that notes each message in the step in which it is sent or received.
///
/// The channel is that of [`mpsc`](crate::mpsc), with the same lines of waiting tasks. A call of your own may change both
/// if it keeps the rule.
#[derive(Drop)]
pub struct Tallied<T, S> {
    /// The channel.
    pub channel: Channel<T>,
    /// The value.
    pub tally: S,
}

/// Calls of the channel were made. The rule holds afterwards if it held before.
impl<T, S: Tally<T>> SharedState for Tallied<T, S> {
    ghost leads = { TallyLeads S.rule };

    ghost names = { λ a t. has_task a.channel.senders t || has_task a.channel.receivers t };

    ghost lists = { tally_lists };

    ghost waiting = { tally_waiting };

    ghost owes = { tally_owes };

    fn next_owed(&mut self) -> Option<u64> {
        hand_out(&mut self.channel)
    }

    ghost leads_itself = { tally_itself S.rule };

    ghost leads_on = { tally_on S.rule };

    ghost lists_some = { tally_some };
}

// Takes the first task that the channel owes a wake. The queue stays.
fn hand_out<T>(channel: &mut Channel<T>) -> Option<u64>
    ensures hands { Hands listed_by owed_by channel.old result channel.new }
    ensures leads { Leads channel.old channel.new }
    ensures queue { channel.new.queue ≡ channel.old.queue }
{
    if let Some(first) = channel.pay_sender() {
        return Some(first.task);
    }
    match channel.pay_receiver() {
        None => None,
        Some(first) => Some(first.task),
    }
}

impl<T: Drop, S: Tally<T>> Tallied<T, S> {
    /// Returns an empty channel for at most `bound` messages, next to this value.
    pub fn new(alloc: Global, bound: usize, tally: S) -> Tallied<T, S>
        ensures queue { result.channel.queue.items ≡ [] }
        ensures bound { result.channel.bound ≡ bound }
        ensures open { result.channel.is_closed ≡ false }
        ensures senders { result.channel.senders.waiters.items ≡ [] }
        ensures receivers { result.channel.receivers.waiters.items ≡ [] }
        ensures tally { result.tally ≡ tally }
    {
        Tallied {
            channel: Channel::new(alloc, bound),
            tally,
        }
    }

    // Notes the last queued message.
    fn note_last(&mut self)
        ensures channel { self.new.channel ≡ self.old.channel }
        ensures noted { (queue : List T) (x : T) → self.old.channel.queue.items ≡ queue ++ x ∷ [] → S.rule self.old.tally queue → S.rule self.new.tally (queue ++ x ∷ []) }
    {
        if let Some(last) = self.channel.queue.back() {
            self.tally.sent(last);
        }
    }

    // Queues a message for a future of this task, or makes the future wait.
    fn ask_send(&mut self, ticket: Option<Ticket>, message: T, me: u64) -> Sending<T>
        ensures { SendsTallied S.rule self.old ticket message me result self.new }
    {
        match self.channel.send(ticket, message, me) {
            Sending::Sent => {
                self.note_last();
                Sending::Sent
            }
            Sending::Closed(message) => Sending::Closed(message),
            Sending::Memory(message) => Sending::Memory(message),
            Sending::Joined(ticket, message) => Sending::Joined(ticket, message),
            Sending::Waits(message) => Sending::Waits(message),
        }
    }

    /// Sends a message for a future of this task, or makes the future wait for the task. The ticket is the one that the
    /// future drew before. The value notes the message if it is queued.
    pub fn send(&mut self, ticket: Option<Ticket>, message: T, me: u64) -> Sending<T>
        ensures answer { Sends self.old.channel ticket message me result self.new.channel }
        ensures leads { TallyLeads S.rule self.old self.new }
        ensures keeps { Keeps tally_lists me self.old self.new }
    {
        self.ask_send(ticket, message, me)
    }

    // Takes the first message for a future of this task, or makes the future wait.
    fn ask_recv(&mut self, ticket: Option<Ticket>, me: u64) -> Receiving<T>
        ensures { ReceivesTallied S.rule self.old ticket me result self.new }
    {
        match self.channel.recv(ticket, me) {
            Receiving::Received(message) => {
                self.tally.received(&message);
                Receiving::Received(message)
            }
            Receiving::Closed => Receiving::Closed,
            Receiving::Memory => Receiving::Memory,
            Receiving::Joined(ticket) => Receiving::Joined(ticket),
            Receiving::Waits => Receiving::Waits,
        }
    }

    /// Receives a message for a future of this task, or makes the future wait for the task. The ticket is the one that
    /// the future drew before. The value notes the message if there is one.
    pub fn recv(&mut self, ticket: Option<Ticket>, me: u64) -> Receiving<T>
        ensures answer { Receives self.old.channel ticket me result self.new.channel }
        ensures leads { TallyLeads S.rule self.old self.new }
        ensures keeps { Keeps tally_lists me self.old self.new }
    {
        self.ask_recv(ticket, me)
    }

    /// Takes a future out of the line of senders, in a turn of this task. Its reserved place, if any, is owed to the first
    /// task that waits.
    pub fn give_up_send(&mut self, ticket: Option<Ticket>, me: u64)
        ensures answer { GivesUpSend self.old.channel ticket me self.new.channel }
        ensures leads { TallyLeads S.rule self.old self.new }
        ensures keeps { Keeps tally_lists me self.old self.new }
    {
        self.channel.give_up_send(ticket, me)
    }

    /// Takes a future out of the line of receivers, in a turn of this task. Its promised message, if any, is owed to the
    /// first task that waits.
    pub fn give_up_recv(&mut self, ticket: Option<Ticket>, me: u64)
        ensures answer { GivesUpReceive self.old.channel ticket me self.new.channel }
        ensures leads { TallyLeads S.rule self.old self.new }
        ensures keeps { Keeps tally_lists me self.old self.new }
    {
        self.channel.give_up_recv(ticket, me)
    }

    /// Closes the channel: all tasks that wait are to be woken. The queued messages can still be received.
    pub fn close(&mut self)
        ensures answer { Closes self.old.channel self.new.channel }
        ensures leads { TallyLeads S.rule self.old self.new }
        ensures keeps { (me : ℕ) → Keeps tally_lists me self.old self.new }
    {
        self.channel.close()
    }
}
