// The channel between threads: its calls, whom they wake, its futures, and messages that cross.
mod blocks;
mod calls;
mod crossings;
mod futures;
mod gaps;
mod lines;
mod owned;
mod seats;
mod wakes;
