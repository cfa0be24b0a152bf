// The runtime value that each waiting call takes.
use std::rt::Clock;
use std::sync::Wait;
use std::thread::Threads;

/// The value `rt` that a call takes to lock, wait, start a thread or read the clock.
///
/// It is one name for the bounds, implemented by every value that meets them.
pub trait Host: Wait + Threads + Clock + Clone {}

impl<R: Wait + Threads + Clock + Clone> Host for R {}
