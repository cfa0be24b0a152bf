// An end that is closed when it is dropped.
ghost use Rattle.std.specs.Prelude.{◌≡◌};

use crate::ends::{Receiver, Sender};
use mono_inbox::Unpark;
use mono_model::Host;

/// An end of a channel: a sender or a receiver.
pub trait End: Drop {
    /// Closes the end, and wakes who waits at the other one. A second close does nothing.
    fn close_end<R: Host>(&mut self, rt: &R);
}

impl<T: Drop, U: Unpark> End for Sender<T, U> {
    fn close_end<R: Host>(&mut self, rt: &R) {
        self.close(rt);
    }
}

impl<T: Drop, U: Unpark> End for Receiver<T, U> {
    fn close_end<R: Host>(&mut self, rt: &R) {
        self.close(rt);
    }
}

/// An end that closes when it is dropped, wherever that happens: in an early return, a task that is given up, or a runtime
/// that ends.
///
/// A close takes a lock and wakes, so it needs a handle, and a `Sender` or `Receiver` has none. This value holds one beside
/// its end. The last sender that is dropped so closes the channel and wakes who waits to receive; a dropped receiver wakes
/// those who wait to send.
pub struct Closing<E: End, R: Host + Drop> {
    /// The end.
    pub end: E,
    rt: R,
}

impl<E: End, R: Host + Drop> Closing<E, R> {
    /// Returns the end as one that closes when it is dropped.
    pub fn new(rt: R, end: E) -> Closing<E, R>
        ensures { result.end ≡ end }
    {
        Closing { end, rt }
    }

    /// Returns the end, which stays open.
    pub fn into_end(self) -> E
        ensures { result ≡ self.end }
    {
        let Closing { end, rt: _ } = self;
        end
    }
}

impl<E: End, R: Host + Drop> Drop for Closing<E, R> {
    fn drop(self) {
        let Closing { end, rt } = self;
        let mut end = end;
        end.close_end(&rt);
    }
}
