//! Runs of scripts on a runtime, and the text of a journal.
#![tactic(auto)]

mod drivers;
mod entries;
mod handles;
mod jobs;
pub mod laws;
mod parser;
mod runs;
mod scripts;
mod tasks;

pub use drivers::{ScriptDriver, ScriptUnpark};
pub use entries::{journal_lines, put_entry};
pub use jobs::ScriptJob;
pub use mono_rt::TaskWait;
pub use parser::{BodyLine, Script, ScriptRead, TaskKind, read_script};
pub use runs::{RunEnd, ScriptRun, run_script};
pub use scripts::{
    a_script_has_no_bad_line, one_line_is_the_first, what_may_not_follow_is_bad, worked_scripts,
};
pub use tasks::{ScriptContext, ScriptTask};
