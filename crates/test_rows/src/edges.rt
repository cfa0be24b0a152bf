// A source over a reader whose calls fail in turn.
ghost use Rattle.std.specs.Prelude.{◌≤◌, IfOk};

use mono_text::{ReadSource, Source, SourceFault};
use std::io::{self, ErrorKind, Read};

/// What a call of the system answers: a number of bytes at most, or an error of this kind.
#[derive(Clone, Copy)]
enum Answer {
    Moves(usize),
    Fails(ErrorKind),
}

/// A reader with these answers, one for each call; after them each call moves nothing.
#[derive(Drop)]
struct Scripted {
    answers: [Answer; 3],
    calls: usize,
}

impl Scripted {
    /// Returns a reader that was never called.
    fn new(answers: [Answer; 3]) -> Scripted {
        Scripted { answers, calls: 0 }
    }

    // Returns the answer to this call, which has room for `room` bytes.
    fn answer(&mut self, room: usize) -> io::Result<usize>
        ensures { IfOk result (λ n. n ≤ room) }
    {
        let answer = self.answers.get(self.calls);
        self.calls = self.calls.saturating_add(1);
        match answer {
            Some(Answer::Moves(n)) => Ok(room.min(*n)),
            Some(Answer::Fails(kind)) => Err(io::Error::from(*kind)),
            None => Ok(0),
        }
    }
}

impl Read for Scripted {
    fn read(&mut self, buffer: &mut [u8]) -> io::Result<usize> {
        self.answer(buffer.len())
    }
}

const IN_ORDER: [Answer; 3] = [
    Answer::Moves(2),
    Answer::Fails(ErrorKind::BrokenPipe),
    Answer::Moves(9),
];

// Returns the kind of an error, if there is one.
fn kind_of(error: Option<&io::Error>) -> Option<ErrorKind> {
    match error {
        Some(error) => Some(error.kind()),
        None => None,
    }
}

#[test]
fn a_failed_read_is_a_fault_and_no_end(rt: HostRuntime) {
    let mut source = ReadSource::new(Scripted::new(IN_ORDER));
    let mut buffer = [0u8; 4];
    assert!(&rt; source.read(&mut buffer) == Ok(2));
    assert!(&rt; kind_of(source.error()) == None);
    assert!(&rt; source.read(&mut buffer) == Err(SourceFault));
    assert!(&rt; kind_of(source.error()) == Some(ErrorKind::BrokenPipe));
    assert!(&rt; source.read(&mut buffer) == Ok(4));
    assert!(&rt; source.read(&mut buffer) == Ok(0));
}
