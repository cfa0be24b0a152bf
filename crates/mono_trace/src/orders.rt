// How far the lines of a journal are in the order of calls of `block_on`.
ghost use Rattle.std.specs.Prelude.{◌≡◌, ◌+◌, ◌++◌, ◌∷◌, [], Bool, List, length};
ghost use Rattle.mono_trace.specs.Order.{later_of, misplaced, misplaced_on};
ghost use Rattle.mono_trace.specs.OrderProgress.{Follows, Stops};
ghost use Rattle.mono_trace.specs.declared.marks.Mark.{Mark};

use crate::{Mark, Stage};

// The stage after the lines so far; or the first line that is out of order, and the stage before it.
#[derive(Clone, Copy, Debug)]
pub(crate) struct Progress {
    pub(crate) stage: Stage,
    pub(crate) stopped: Option<usize>,
}

/// How far the lines of a journal so far are in the order of calls of `block_on`, on a runtime with timers and on one
/// without.
#[derive(Clone, Copy, Debug)]
pub struct Order {
    pub(crate) timed: Progress,
    pub(crate) untimed: Progress,
}

// Returns the later one of two lines that are out of order, or none if there is none of one kind.
fn later_of(one: Option<(usize, Stage)>, other: Option<(usize, Stage)>) -> Option<(usize, Stage)>
    ensures { result ≡ later_of one other }
{
    let (line, stage) = one?;
    let (other_line, other_stage) = other?;
    if line < other_line {
        Some((other_line, other_stage))
    } else {
        Some((line, stage))
    }
}

impl Progress {
    // Returns the progress of no lines.
    fn new() -> Progress
        ensures { (timers : Bool) → Stops timers [] result.stopped result.stage }
    {
        Progress {
            stage: Stage::Start(0),
            stopped: None,
        }
    }

    // The line with this number is a mark, unless an earlier one was out of order.
    fn step(&mut self, timers: bool, mark: Mark, line: usize)
        ensures { (marks : List Mark) → line ≡ length marks + 1 → Stops timers marks self.old.stopped self.old.stage → Stops timers (marks ++ mark ∷ []) self.new.stopped self.new.stage }
    {
        if self.stopped.is_none() {
            match self.stage.after(timers, mark) {
                Some(next) => self.stage = next,
                None => self.stopped = Some(line),
            }
        }
    }

    // Returns the first line that is out of order and the stage before it, if there is one. The next line would have this
    // number.
    fn misplaced(&self, line: usize) -> Option<(usize, Stage)>
        ensures { (timers : Bool) (marks : List Mark) → line ≡ length marks + 1 → Stops timers marks self.now.stopped self.now.stage → result ≡ misplaced_on timers marks }
    {
        match self.stopped {
            Some(first) => Some((first, self.stage)),
            None => {
                if self.stage.is_last() {
                    None
                } else {
                    Some((line, self.stage))
                }
            }
        }
    }
}

impl Order {
    /// Returns the order of no lines.
    pub fn new() -> Order
        ensures { Follows [] result }
    {
        Order {
            timed: Progress::new(),
            untimed: Progress::new(),
        }
    }

    /// Takes the next line, which has this number, counted from 1.
    pub fn take(&mut self, mark: Mark, line: usize)
        ensures { (marks : List Mark) → line ≡ length marks + 1 → Follows marks self.old → Follows (marks ++ mark ∷ []) self.new }
    {
        self.timed.step(true, mark, line);
        self.untimed.step(false, mark, line);
    }

    /// Returns the first line that is out of order and the stage before it, if there is one. The next line would have this
    /// number, and is missing if the last call has not ended.
    pub fn misplaced(&self, line: usize) -> Option<(usize, Stage)>
        ensures { (marks : List Mark) → line ≡ length marks + 1 → Follows marks self.now → result ≡ misplaced marks }
    {
        later_of(self.timed.misplaced(line), self.untimed.misplaced(line))
    }
}
