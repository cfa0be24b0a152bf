//! The ticks of each key.
/// The ticks of a key, which its node carries.
#[derive(Clone, Copy)]
pub struct Entry {
    // The true tick, or 0 if the key is not in.
    pub tick: u64,
    // The tick that gives the slot.
    pub registered: u64,
}

/// The entry of a key that is not in.
pub const OUT: Entry = Entry {
    tick: 0,
    registered: 0,
};
