// The content of a line.

use mono_machine::List;

/// A message that the running actor sends.
#[derive(Clone, Copy, Drop)]
pub struct Handed {
    /// Its receiver.
    pub to: u64,
    /// The message.
    pub message: u64,
}

/// A call on actors, written as a line.
#[derive(Drop)]
pub enum ActorLine {
    /// Adds an actor.
    Actor,
    /// Sends a message from the first actor to the second.
    Send(u64, u64, u64),
    /// Sets the receive timeout of an actor, in milliseconds, or 0 for none.
    Timeout(u64, u64),
    /// Shows the clock this number of nanoseconds.
    Clock(u128),
    /// Runs the turn of the queue's front, which sends these messages, and then stops or stays.
    Turn(List<Handed>, bool),
}
