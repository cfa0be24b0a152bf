// The clock of a core.
use mono_rt::{Clock, Host, Instant, SystemClock};

/// The system's clock, or one that stays at 0, by which a run always prints the same.
#[derive(Drop)]
pub enum CoreClock<R> {
    System(SystemClock<R>),
    Still,
}

impl<R: Host + Drop> CoreClock<R> {
    /// Returns a clock that begins now, or stays at 0.
    pub fn new(rt: R, is_still: bool) -> CoreClock<R> {
        if is_still {
            CoreClock::Still
        } else {
            CoreClock::System(SystemClock::new(rt))
        }
    }
}

impl<R: Host + Drop> Clock for CoreClock<R> {
    fn now(&mut self) -> Instant {
        match self {
            CoreClock::System(clock) => clock.now(),
            CoreClock::Still => Instant::ZERO,
        }
    }
}
