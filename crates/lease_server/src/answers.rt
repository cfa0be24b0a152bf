// The answers of the server to the lines of its input.
use lease_core::Reply;

/// An answer to a line.
#[derive(Clone, Copy, Drop)]
pub enum Answer {
    /// The line of this number is no request.
    Bad(u64),
    /// The core of this number replied so to the request of the line.
    By(u64, Reply),
}
