// The answer of a poll.
ghost use Rattle.std.specs.Prelude.{◌≡◌};
ghost use Rattle.mono_model.specs.Poll.{is_pending, is_ready, ready_value};

/// The answer of one poll of a future, a stream or a job: a value for good, or nothing yet.
#[derive(Clone, Copy, Debug, PartialEq, Eq, Drop)]
pub enum Poll<T> {
    /// The value is there.
    Ready(T),
    /// Nothing is there yet.
    Pending,
}

impl<T> Poll<T> {
    /// Returns whether the value is there.
    pub fn is_ready(&self) -> bool
        ensures { result ≡ is_ready self.now }
    {
        match self {
            Poll::Ready(_) => true,
            Poll::Pending => false,
        }
    }

    /// Returns whether nothing is there yet.
    pub fn is_pending(&self) -> bool
        ensures { result ≡ is_pending self.now }
    {
        match self {
            Poll::Ready(_) => false,
            Poll::Pending => true,
        }
    }

    /// Returns the value, or `None` if it is not there yet.
    pub fn ready(self) -> Option<T>
        ensures { result ≡ ready_value self }
    {
        match self {
            Poll::Ready(value) => Some(value),
            Poll::Pending => None,
        }
    }
}
