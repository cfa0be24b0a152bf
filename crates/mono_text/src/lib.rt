//! The text of event lines and report lines, and the sources and sinks of their bytes.
#![tactic(auto)]

mod events;
mod followers;
mod forms;
mod gaps;
pub mod laws;
mod lines;
mod memory;
mod plain;
mod printer;
mod reader;
mod reasons;
mod scripts;
mod services;
mod sink;
mod source;
mod standard;
mod tries;
mod words;

pub use events::{put_event, put_nanos};
pub use followers::{FollowEnd, Followed, follow};
pub use memory::{MemSink, MemSource};
pub use plain::{PlainSink, PlainSource};
pub use printer::{
    front_and_number, put_front, put_list, put_number, put_pair, put_word, report_line,
};
pub use reader::{Reader, whole_number};
pub use reasons::{Fault, LineForms, Reason, fault_of_line};
pub use scripts::fault_of_script;
pub use services::{Served, Service, serve};
pub use sink::{Sink, SinkFault, write_all};
pub use source::{InputError, MAX_INPUT, Source, SourceFault, read_all};
pub use standard::{ReadSource, StdinSource, StdoutSink, WriteSink};
pub use tries::{has_taken, is_tried_again, read_again, write_again};
