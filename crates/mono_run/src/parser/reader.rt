// A whole script.
ghost use Rattle.std.specs.Prelude.{IfOk};
ghost use Rattle.mono_run.specs.Fronts.{IsRead};

use crate::parser::fronts::Front;
use crate::parser::kinds::Script;
use crate::parser::pieces::{Pieces, count_tasks};
use crate::parser::words::limits_in;
use std::alloc::{AllocError, Global};

/// The result of reading an input.
#[derive(Drop)]
pub enum ScriptRead {
    /// The input spells this script.
    Script(Script),
    /// The number of the first line that is bad or missing, counted from 1.
    BadLine(usize),
}

/// Returns the script that the input spells, or the number of its first bad line, counted from 1. If the input ends too
/// early, that is the missing line: one more than it has.
///
/// The relations `Spells` and `IsFirstBad` of the module `scripts` say which line is bad: the first line with which no
/// script continues. At most one line of an input is the first bad one, and none of an input that spells a script.
pub fn read_script(alloc: Global, input: &[u8]) -> Result<ScriptRead, AllocError>
    ensures { IfOk result (λ read. IsRead input.now read) }
{
    let kinds = count_tasks(input);
    let mut pieces = Pieces::new(input);
    let Some(first) = pieces.line() else {
        return Ok(ScriptRead::BadLine(1));
    };
    let Some(limits) = limits_in(first) else {
        return Ok(ScriptRead::BadLine(1));
    };
    let mut front = Front::new(alloc, limits);
    let mut count = 1usize;
    'lines: while !pieces.is_empty() {
        let Some(text) = pieces.line() else {
            return Ok(ScriptRead::BadLine(count + 1));
        };
        if !front.put(alloc, kinds, text)? {
            return Ok(ScriptRead::BadLine(count + 1));
        }
        count += 1;
    }
    match front.into_script() {
        Some(script) => Ok(ScriptRead::Script(script)),
        None => Ok(ScriptRead::BadLine(count + 1)),
    }
}
