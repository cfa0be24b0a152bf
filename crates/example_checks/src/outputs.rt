//! A caller of the top call that knows the bytes of each output, from the contract of `program` alone.

mod calls;
mod commands;
mod word_lists;

use mono_model::Host;
use mono_script::MemSink;
use std::alloc::Global;

/// The greatest number of bytes that the outputs have together.
pub const ROOM: usize = 512;

/// Writes the output of each command to the sink, and returns their statuses. Returns None if out of memory.
pub fn statuses_of<R: Host + Send + 'static>(
    rt: &R,
    alloc: Global,
    sink: &mut MemSink,
) -> Option<[u8; 13]> {
    Some([
        commands::replay(rt, alloc, sink).ok()?,
        commands::bad_line(rt, alloc, sink).ok()?,
        commands::check(rt, alloc, sink).ok()?,
        commands::wrong_check(rt, alloc, sink).ok()?,
        commands::run(rt, alloc, sink).ok()?,
        commands::spent_run(rt, alloc, sink).ok()?,
        commands::finished_run(rt, alloc, sink).ok()?,
        commands::load(rt, alloc, sink).ok()?,
        commands::sleeping_load(rt, alloc, sink).ok()?,
        commands::sessions(rt, alloc, sink).ok()?,
        commands::limiter(rt, alloc, sink).ok()?,
        commands::actors(rt, alloc, sink).ok()?,
        commands::no_command(rt, alloc, sink).ok()?,
    ])
}
