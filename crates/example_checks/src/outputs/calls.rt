// One call over an input in memory.
ghost use Rattle.std.specs.Prelude.{map, string_bytes, IfOk};
ghost use Rattle.example_checks.specs.Outputs.{Ended};

use mono_model::Host;
use mono_script::{Instant, ListClock, NoSpawner, PlainSource, Sink, program};
use std::alloc::{AllocError, Global};

// Returns a clock that always reads zero.
fn still_clock(alloc: Global) -> Result<ListClock, AllocError> {
    let Some(zero) = Instant::from_nanos(0) else {
        return Err(AllocError);
    };
    let mut readings = Vec::new(alloc);
    readings.push(zero)?;
    Ok(ListClock::new(readings))
}

/// Carries out the command that the words spell over the input, and returns the number of its status. The source is in
/// memory and never fails, and the call has the contract of `program` for it.
pub fn status_of<K: Sink, R: Host + Send + 'static>(
    rt: &R,
    alloc: Global,
    words: &Vec<String>,
    input: &[u8],
    sink: &mut K,
) -> Result<u8, AllocError>
    ensures { IfOk result (Ended (map string_bytes words.now.items) input.now (K.written sink.old) (K.written sink.new) (K.faults sink.old) (K.faults sink.new)) }
{
    let mut source = PlainSource::new(Vec::from_slice(alloc, input)?);
    let clock = still_clock(alloc)?;
    let mut spawner = NoSpawner::new();
    Ok(program(rt, alloc, words, &mut source, sink, clock, &mut spawner))
}
