// How a command ends.
ghost use Rattle.std.specs.Prelude.{◌≡◌, IfOk, IfSome, IfNone, Some, None};
ghost use Rattle.std.specs.Option.{option_map};
ghost use Rattle.mono_text.specs.ReasonTexts.{told};
ghost use Rattle.mono_script.specs.Endings.{bad_line_text, status_code};
ghost use Rattle.mono_script.specs.LineWords.{fault_at};
ghost use Rattle.mono_script.specs.Checks.{FailsFor};

use crate::check_line::{failure_of, failure_of_whole};
use crate::command::Command;
use crate::line_words::fault;
use mono_lines::trace::Failure;
use mono_run::TaskWait;
use mono_text::Fault;
use std::alloc::{AllocError, Global};

/// The status with which the program ends.
#[derive(Clone, Copy, Debug, PartialEq, Eq)]
pub enum Status {
    /// 0: the input was read to its end, and all of the answer was written.
    Done,
    /// 2: the words are no command.
    Usage,
    /// 3: a line is bad; `bad line n` was written.
    BadLine,
    /// 4: a read failed.
    ReadFault,
    /// 5: a write failed.
    WriteFault,
    /// 6: an allocation failed.
    OutOfMemory,
    /// 7: the input has more than 2^24 bytes.
    TooLong,
    /// 8: a run spent its budget, and its journal was written.
    Turns,
    /// 10: there was no place for a run's main task, and its journal was written.
    Capacity,
    /// 11: a journal is no run, or not whole; `no n` was written.
    NotARun,
}

impl Status {
    /// Returns the number of the status.
    pub fn code(self) -> u8
        ensures { result ≡ status_code self }
    {
        match self {
            Status::Done => 0,
            Status::Usage => 2,
            Status::BadLine => 3,
            Status::ReadFault => 4,
            Status::WriteFault => 5,
            Status::OutOfMemory => 6,
            Status::TooLong => 7,
            Status::Turns => 8,
            Status::Capacity => 10,
            Status::NotARun => 11,
        }
    }
}

// The bytes to write, the status after them, the first bad line if one is named, and the live tasks that are left.
#[derive(Drop)]
pub(crate) struct Output {
    pub status: Status,
    pub text: Vec<u8>,
    pub bad_line: Option<usize>,
    pub waits: Vec<TaskWait>,
}

/// The end of a command.
#[derive(Drop)]
pub struct Ended {
    /// The command.
    pub(crate) command: Command,
    /// The status.
    pub(crate) status: Status,
    /// The input, if it was read to its end.
    pub(crate) input: Vec<u8>,
    /// The first bad line, if one was named.
    pub(crate) bad_line: Option<usize>,
    /// The live tasks of a run that spent its budget.
    pub(crate) waits: Vec<TaskWait>,
}

impl Ended {
    // Returns an end without an input that was read to its end.
    pub(crate) fn without_input(alloc: Global, command: Command, status: Status) -> Ended
        ensures command { result.command ≡ command }
        ensures status { result.status ≡ status }
    {
        Ended {
            command,
            status,
            input: Vec::new(alloc),
            bad_line: None,
            waits: Vec::new(alloc),
        }
    }

    /// Returns the status.
    pub fn status(&self) -> Status
        ensures { result ≡ self.now.status }
    {
        self.status
    }

    /// Returns the first bad line, counted from 1, if one was named.
    pub fn bad_line(&self) -> Option<usize>
        ensures { result ≡ self.now.bad_line }
    {
        self.bad_line
    }

    /// Returns the live tasks of a run that spent its budget, with the sources for which they wait. The list is empty
    /// for each other command and run, if the script's limit of tasks is above 4096, and if there was no memory for it.
    pub fn waits(&self) -> &[TaskWait]
        ensures { result.now ≡ self.now.waits.items }
    {
        &self.waits
    }

    /// Returns the fault of the first bad line: why it is no line of the command, and the word that shows it. The fault
    /// depends on the bytes of the line alone, and for a script also on those before it.
    pub fn fault(&self) -> Option<Fault>
        ensures some { IfSome self.now.bad_line (λ n. option_map told result ≡ fault_at self.now.command self.now.input.items n) }
        ensures none { IfNone self.now.bad_line (result ≡ None) }
    {
        fault(self.command, &self.input, self.bad_line?)
    }

    /// Returns where and why the journal that a check read is no run, or not whole. None of other commands, and if the
    /// answer was yes.
    pub fn failure(&self, alloc: Global) -> Result<Option<Failure>, AllocError>
        ensures { IfOk result (λ found. IfSome found (λ failure. FailsFor self.now.command self.now.input.items failure)) }
    {
        match self.command {
            Command::Check(limits, blocking) => failure_of(alloc, limits, blocking, &self.input),
            Command::CheckWhole(limits, blocking) => {
                failure_of_whole(alloc, limits, blocking, &self.input)
            }
            Command::Replay(_, _) => Ok(None),
            Command::Run(_, _) => Ok(None),
            Command::Load(_, _) => Ok(None),
            Command::Sessions(_, _) => Ok(None),
            Command::Limiter(_, _) => Ok(None),
            Command::Actors(_, _) => Ok(None),
        }
    }
}

// Returns the output that names a bad line.
pub(crate) fn bad_line(alloc: Global, n: usize) -> Result<Output, AllocError>
    ensures status { IfOk result (λ o. o.status ≡ Status.BadLine) }
    ensures text { IfOk result (λ o. o.text.items ≡ bad_line_text n) }
    ensures line { IfOk result (λ o. o.bad_line ≡ Some n) }
{
    let mut buffer = itoa::Buffer::new();
    let mut text = Vec::from_slice(alloc, b"bad line ")?;
    text.extend_from_slice(buffer.format(n).as_bytes())?;
    text.extend_from_slice(b"\n")?;
    Ok(Output {
        status: Status::BadLine,
        text,
        bad_line: Some(n),
        waits: Vec::new(alloc),
    })
}
