// One call of the top call over memory.
use mono_model::Host;
use mono_script::{Instant, ListClock, MemSink, MemSource, NoSpawner, Spawner, program};
use std::alloc::{AllocError, Global};

/// The room for the output if it must be enough.
pub(crate) const ROOM: usize = 1048576;

/// Returns the words of a text, with one blank between two.
pub(crate) fn split(alloc: Global, text: &str) -> Result<Vec<String>, AllocError> {
    let mut words = Vec::new(alloc);
    for word in text.split(' ') {
        words.push(String::from_str(alloc, word)?)?;
    }
    Ok(words)
}

/// Returns a list with the number, if there is one.
pub(crate) fn listed(alloc: Global, call: Option<u64>) -> Result<Vec<u64>, AllocError> {
    let mut calls = Vec::new(alloc);
    if let Some(call) = call {
        calls.push(call)?;
    }
    Ok(calls)
}

/// Returns a clock that always reads `millis` milliseconds.
pub(crate) fn clock_at(alloc: Global, millis: u64) -> Option<ListClock> {
    let instant = Instant::from_nanos(u128::from(millis) * 1000000)?;
    let mut readings = Vec::new(alloc);
    readings.push(instant).ok()?;
    Some(ListClock::new(readings))
}

/// Which read and which write fail, the room for the output, and the clock's reading in milliseconds.
#[derive(Clone, Copy)]
pub(crate) struct Outside {
    pub read: Option<u64>,
    pub write: Option<u64>,
    pub room: usize,
    pub millis: u64,
}

/// Nothing fails, there is room, and the clock reads its beginning.
pub(crate) const PLAIN: Outside = Outside {
    read: None,
    write: None,
    room: ROOM,
    millis: 0,
};

/// Returns the status of the top call with these words over this source, to this sink.
pub(crate) fn status_on<R: Host + Send + 'static, P: Spawner>(
    rt: &R,
    alloc: Global,
    words: &str,
    source: &mut MemSource,
    sink: &mut MemSink,
    millis: u64,
    spawner: &mut P,
) -> Option<u8> {
    let words = split(alloc, words).ok()?;
    let clock = clock_at(alloc, millis)?;
    Some(program(rt, alloc, &words, source, sink, clock, spawner))
}

/// Returns whether the top call, without threads, returns this status and writes this output.
pub(crate) fn ends_so<R: Host + Send + 'static>(
    rt: &R,
    alloc: Global,
    words: &str,
    input: Vec<u8>,
    outside: &Outside,
    output: &[u8],
    status: u8,
) -> Option<bool> {
    let mut source = MemSource::new(input, listed(alloc, outside.read).ok()?);
    let mut sink = MemSink::new(alloc, outside.room, listed(alloc, outside.write).ok()?).ok()?;
    let mut spawner = NoSpawner::new();
    let answered = status_on(
        rt,
        alloc,
        words,
        &mut source,
        &mut sink,
        outside.millis,
        &mut spawner,
    )?;
    Some(answered == status && sink.bytes() == output)
}
