// The size of a channel, and several messages of it in one call.
ghost use Rattle.std.specs.Prelude.{◌≡◌, ◌==◌, ◌≤◌, ◌<◌, ◌+◌, ℕ, [], false, length};
ghost use Rattle.std.specs.Vec.{vec_capacity, vec_len};
ghost use Rattle.mono_sync.specs.MpscRuns.{Leads};
ghost use Rattle.mono_sync.specs.Mpsc.{listed_by};
ghost use Rattle.mono_sync.specs.ManyMessages.{free_messages, free_places, Moves, ReceivesMany};
ghost use Rattle.mono_task.specs.Owed.{Keeps};

use crate::many_permits::lesser;
use crate::mpsc::Channel;
use std::alloc::{AllocError, Global};

impl<T: Drop> Channel<T> {
    /// Returns an empty channel with the greatest bound, which no memory reaches. So no task ever waits to send, and no
    /// message is refused as `Full`, as long as fewer than `usize::MAX` messages are sent
    /// ([`crate::laws::unbounded_is_never_full`]).
    pub fn unbounded(alloc: Global) -> Channel<T>
        ensures queue { result.queue.items ≡ [] }
        ensures bound { result.bound ≡ 18446744073709551615 }
        ensures open { result.is_closed ≡ false }
        ensures senders { result.senders.waiters.items ≡ [] }
        ensures receivers { result.receivers.waiters.items ≡ [] }
        ensures reserved { result.senders.granted ≡ 0 }
        ensures promised { result.receivers.granted ≡ 0 }
        ensures tickets { (result.senders.next ≡ 0) × (result.receivers.next ≡ 0) }
    {
        Channel::new(alloc, usize::MAX)
    }

    /// Returns whether no message is queued.
    pub fn is_empty(&self) -> bool
        ensures { result ≡ (length self.now.queue.items == 0) }
    {
        self.len() == 0
    }

    /// Returns how many places are neither taken by a message, nor reserved, nor owed to a task that waits.
    pub fn capacity(&self) -> usize
        ensures { result ≡ free_places self.now }
    {
        self.bound
            .saturating_sub(self.len())
            .saturating_sub(self.senders.granted)
            .saturating_sub(self.senders.waiters.len())
    }

    /// Returns the bound: how many messages the channel takes at most.
    pub fn max_capacity(&self) -> usize
        ensures { result ≡ self.now.bound }
    {
        self.bound
    }

    // Returns how many messages are neither promised nor owed to a task that waits.
    fn free(&self) -> usize
        ensures { result ≡ free_messages self.now }
    {
        if self.is_closed {
            return self.len();
        }
        self.len()
            .saturating_sub(self.receivers.granted)
            .saturating_sub(self.receivers.waiters.len())
    }

    // Moves the first free messages to the end of a list that has memory for them.
    fn move_free(&mut self, count: usize, buffer: &mut Vec<T>)
        requires free { count ≤ free_messages self.old }
        requires memory { vec_len buffer.old + count ≤ vec_capacity buffer.old }
        ensures moves { Moves self.old buffer.old.items count self.new buffer.new.items }
        ensures leads { Leads self.old self.new }
    {
        let mut left = count;
        while left > 0 {
            left -= 1;
            match self.try_recv() {
                Ok(message) => buffer.push_reserved(message),
                Err(_) => unreachable!(),
            }
        }
    }

    /// Takes the first messages at once, at most `limit`, and appends them to `buffer`. Returns how many: 0 if each queued
    /// message is owed to a task that waits, or promised to one that was served.
    ///
    /// Refused, with no message taken, if out of memory.
    pub fn try_recv_many(&mut self, limit: usize, buffer: &mut Vec<T>) -> Result<usize, AllocError>
        ensures answer { ReceivesMany self.old limit buffer.old.items result self.new buffer.new.items }
        ensures leads { Leads self.old self.new }
        ensures keeps { (me : ℕ) → Keeps listed_by me self.old self.new }
    {
        let free = self.free();
        let count = lesser(limit, free);
        buffer.reserve(count)?;
        self.move_free(count, buffer);
        Ok(count)
    }
}
