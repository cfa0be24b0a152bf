//! Journals as lines of text, and a check whether they are runs of the machine.

mod checks;
mod journal;
pub mod laws;
mod reports;

pub use checks::{Answer, Cause, Failure, check_lines, check_whole};
pub use journal::{JournalLine, read_line};
pub use mono_trace::Stage;
pub use reports::read_report;
