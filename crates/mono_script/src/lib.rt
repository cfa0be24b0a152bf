//! The commands: each is words, an input and an answer, and `program` carries one out.
#![tactic(auto)]

mod actor_calls;
mod check_line;
mod command;
mod complaints;
mod ends;
mod exits;
mod failures;
mod faults;
mod follow_words;
mod follows;
mod forms;
mod inputs;
mod limiter_lines;
mod line_forms;
mod line_words;
mod load_line;
mod replay;
mod script_run;
mod services;
mod session_lines;
mod top;
mod word_texts;
mod words;

pub use command::Command;
pub use complaints::complaint;
pub use ends::{Ended, Status};
pub use exits::{exit_code, joins_workers, words_behind};
pub use failures::failure_sentence;
pub use faults::line_sentence;
pub use follow_words::{CallWords, call_words};
pub use follows::{FollowedCommand, follow_command};
pub use inputs::reads_input;
pub use mono_blocking::{NoSpawner, Spawner, ThreadSpawner};
pub use mono_driver::{Clock, Instant, ListClock, SystemClock, SystemClock as StdClock};
pub use mono_lines::trace::{Cause, Failure, Stage};
pub use mono_text::{
    Fault, InputError, MAX_INPUT, MemSink, MemSource, PlainSink, PlainSource, Reader, Reason, Sink,
    SinkFault, Source, SourceFault, StdinSource, StdoutSink, read_all, report_line, write_all,
};
pub use replay::answer;
pub use top::{explained, program};
pub use word_texts::shown;
