// The parser of scripts: returns the script that an input spells, or the number of its first bad line.

mod fronts;
mod kinds;
mod order;
mod pieces;
mod reader;
mod words;

pub use crate::scripts::BodyLine;
pub use kinds::{Script, TaskKind};
pub use reader::{ScriptRead, read_script};
