// The top call: words, source and sink to a status.
ghost use Rattle.std.specs.Prelude.{◌≡◌, ◌≢◌, ◌≤◌, ◌<◌, ◌⊎◌, true, false, List, ℕ, Option, None, IfOk, IfSome, IfNone, IsErrOf, map, string_bytes};
ghost use Rattle.mono_text.specs.Environment.{HasRisen, IsLongerThan};
ghost use Rattle.mono_script.specs.Command.{FitsCommand, IsCommand, IsNoCommand};
ghost use Rattle.mono_script.specs.Endings.{HasInput, IsLine, IsOutput, Ends, IsWritten, Asks, max_input};
ghost use Rattle.mono_script.specs.Meanings.{meaning};
ghost use Rattle.mono_script.specs.TopCall.{CarriesOut, code_of, view_of};
ghost use Rattle.mono_script.specs.declared.ends.Status.TheVariants as status;
ghost use Rattle.mono_text.specs.declared.source.InputError.TheVariants as input_error;

use crate::actor_calls::output_of_actors;
use crate::check_line::{output_of_check, output_of_whole};
use crate::command::{Command, read_command};
use crate::ends::{Ended, Output, Status};
use crate::exits::exit_code;
use crate::limiter_lines::output_of_limiter;
use crate::load_line::output_of_load;
use crate::replay::output_of_replay;
use crate::script_run::output_of_run;
use crate::session_lines::output_of_sessions;
use mono_blocking::Spawner;
use mono_driver::Clock;
use mono_model::Host;
use mono_text::{InputError, Sink, Source, read_all, write_all};
use std::alloc::{AllocError, Global};

// Returns the output of the command for the input.
fn made<R: Host + Send + 'static, C: Clock + Drop, P: Spawner>(
    rt: &R,
    alloc: Global,
    command: Command,
    input: &[u8],
    clock: C,
    spawner: &mut P,
) -> Result<Output, AllocError>
    requires { FitsCommand command }
    ensures output { IfOk result (λ o. IsOutput (meaning (C.readings clock) command) input.now o.status o.text.items) }
    ensures line { IfOk result (λ o. IsLine (meaning (C.readings clock) command) input.now o.status o.bad_line) }
    ensures asks { IfOk result (λ o. Asks (meaning (C.readings clock) command).workers (P.starts spawner.old) (P.starts spawner.new) o.status) }
    ensures unasked { (meaning (C.readings clock) command).workers ≡ None → P.starts spawner.new ≡ P.starts spawner.old }
{
    match command {
        Command::Replay(limits, blocking) => output_of_replay(alloc, limits, blocking, input),
        Command::Run(workers, turns) => {
            output_of_run(rt, alloc, workers, turns, input, clock, spawner)
        }
        Command::Load(seed, count) => output_of_load(alloc, seed, count, input),
        Command::Sessions(sessions, entries) => {
            output_of_sessions(alloc, sessions, entries, input)
        }
        Command::Limiter(buckets, retries) => output_of_limiter(alloc, buckets, retries, input),
        Command::Actors(actors, messages) => output_of_actors(alloc, actors, messages, input),
        Command::Check(limits, blocking) => output_of_check(alloc, limits, blocking, input),
        Command::CheckWhole(limits, blocking) => output_of_whole(alloc, limits, blocking, input),
    }
}

// Returns whether the command reads the source, for each clock.
pub(crate) fn reads(command: Command) -> bool
    ensures { (readings : Option (List ℕ)) → result ≡ (meaning readings command).reads }
{
    match command {
        Command::Replay(_, _) => true,
        Command::Run(_, _) => true,
        Command::Load(_, _) => false,
        Command::Sessions(_, _) => true,
        Command::Limiter(_, _) => true,
        Command::Actors(_, _) => true,
        Command::Check(_, _) => true,
        Command::CheckWhole(_, _) => true,
    }
}

// Returns the input: the rest of the source, or no bytes if the command does not read.
fn input_of<S: Source>(
    alloc: Global,
    needs_input: bool,
    source: &mut S,
) -> Result<Vec<u8>, InputError>
    ensures ok { IfOk result (λ bytes. HasInput needs_input (S.left source.old) bytes.items (S.left source.new)) }
    ensures reads { (IsErrOf result input_error.TooLong) ⊎ (IsErrOf result input_error.Fault) → needs_input ≡ true }
    ensures long { IsErrOf result input_error.TooLong → IsLongerThan max_input (S.left source.old) }
    ensures fault { IsErrOf result input_error.Fault → HasRisen (S.faults source.old) (S.faults source.new) }
    ensures later { S.faults source.old ≤ S.faults source.new }
    ensures stays { (IsErrOf result input_error.Fault → ⊥) → S.faults source.new ≡ S.faults source.old }
    ensures unread { needs_input ≡ false → S.left source.new ≡ S.left source.old }
{
    if needs_input {
        read_all(alloc, source)
    } else {
        Ok(Vec::new(alloc))
    }
}

fn write_output<K: Sink>(sink: &mut K, meant: Status, text: &[u8]) -> Status
    ensures wrote { IsWritten meant text.now (K.written sink.old) (K.written sink.new) (HasRisen (K.faults sink.old) (K.faults sink.new)) result }
    ensures later { K.faults sink.old ≤ K.faults sink.new }
    ensures stays { result ≢ status.WriteFault → K.faults sink.new ≡ K.faults sink.old }
{
    if write_all(sink, text).is_err() {
        return Status::WriteFault;
    }
    meant
}

// Carries out the command over its input, and writes to the sink.
fn carry_out<S: Source, K: Sink, R: Host + Send + 'static, C: Clock + Drop, P: Spawner>(
    rt: &R,
    alloc: Global,
    command: Command,
    source: &mut S,
    sink: &mut K,
    clock: C,
    spawner: &mut P,
) -> Ended
    requires { FitsCommand command }
    ensures command { result.command ≡ command }
    ensures ends { Ends (meaning (C.readings clock) command) (S.left source.old) (S.left source.new) (K.written sink.old) (K.written sink.new) (HasRisen (S.faults source.old) (S.faults source.new)) (HasRisen (K.faults sink.old) (K.faults sink.new)) result.status }
    ensures line { result.status ≡ status.BadLine → IsLine (meaning (C.readings clock) command) result.input.items status.BadLine result.bad_line }
    ensures input { result.status ≡ status.BadLine → HasInput (meaning (C.readings clock) command).reads (S.left source.old) result.input.items (S.left source.new) }
    ensures checked { result.status ≡ status.NotARun → HasInput (meaning (C.readings clock) command).reads (S.left source.old) result.input.items (S.left source.new) }
    ensures later { (S.faults source.old ≤ S.faults source.new) × (K.faults sink.old ≤ K.faults sink.new) }
    ensures read_stays { result.status ≢ status.ReadFault → S.faults source.new ≡ S.faults source.old }
    ensures write_stays { result.status ≢ status.WriteFault → K.faults sink.new ≡ K.faults sink.old }
    ensures unread { (meaning (C.readings clock) command).reads ≡ false → S.left source.new ≡ S.left source.old }
    ensures asks { Asks (meaning (C.readings clock) command).workers (P.starts spawner.old) (P.starts spawner.new) result.status }
{
    let needs_input = reads(command);
    let input = match input_of(alloc, needs_input, source) {
        Ok(input) => input,
        Err(InputError::Memory) => return Ended::without_input(alloc, command, Status::OutOfMemory),
        Err(InputError::Fault) => return Ended::without_input(alloc, command, Status::ReadFault),
        Err(InputError::TooLong) => return Ended::without_input(alloc, command, Status::TooLong),
    };
    match made(rt, alloc, command, &input, clock, spawner) {
        Ok(output) => Ended {
            command,
            status: write_output(sink, output.status, &output.text),
            input,
            bad_line: output.bad_line,
            waits: output.waits,
        },
        Err(_) => Ended::without_input(alloc, command, Status::OutOfMemory),
    }
}

/// Carries out the command as [`program`] does, and returns its end: the status, the input that was read, and the first
/// bad line if one was named. The clause `ends` is the contract of `program`, with the number that [`exit_code`] gives.
/// It returns None if and only if the words are no command (`none`, `command`).
pub fn explained<S: Source, K: Sink, C: Clock + Drop, P: Spawner, R: Host + Send + 'static>(
    rt: &R,
    alloc: Global,
    words: &Vec<String>,
    source: &mut S,
    sink: &mut K,
    clock: C,
    spawner: &mut P,
) -> Option<Ended>
    ensures ends { CarriesOut (map string_bytes words.now.items) (C.readings clock)
        (view_of (S.left source.old) (S.faults source.old) (K.written sink.old) (K.faults sink.old) (P.starts spawner.old))
        (view_of (S.left source.new) (S.faults source.new) (K.written sink.new) (K.faults sink.new) (P.starts spawner.new)) (code_of result) }
    ensures none { IfNone result (IsNoCommand (map string_bytes words.now.items)) }
    ensures command { IfSome result (λ e. IsCommand (map string_bytes words.now.items) e.command) }
    ensures line { IfSome result (λ e. e.status ≡ status.BadLine → IsLine (meaning (C.readings clock) e.command) e.input.items status.BadLine e.bad_line) }
    ensures input { IfSome result (λ e. e.status ≡ status.BadLine → HasInput (meaning (C.readings clock) e.command).reads (S.left source.old) e.input.items (S.left source.new)) }
    ensures checked { IfSome result (λ e. e.status ≡ status.NotARun → HasInput (meaning (C.readings clock) e.command).reads (S.left source.old) e.input.items (S.left source.new)) }
{
    match read_command(words) {
        Some(command) => Some(carry_out(rt, alloc, command, source, sink, clock, spawner)),
        None => None,
    }
}

/// Carries out the command that the words spell: reads the source, makes the answer and writes it. The words are those
/// after the program's name. It returns the number of the status.
///
/// The contract is one record, `CarriesOut` (`specs/TopCall`), and [`explained`] has the same. Another record
/// (`Meaning`) defines a command. It says whether the command reads, and for how many threads it asks; which input is
/// good, and which line of another is the first bad one. It also says which status and output answer a good input, if
/// the clock exposes these readings.
///
/// Each status has a field of its name that gives its meaning, for every command. The fields `usage`, `too_long_where`
/// and `bad_line_where` give the conditions, as an if and only if, in the order of usage, reading, bad line, writing.
///
/// A read or a write fault is returned only if the count of that object rose in this call, and whenever it rose
/// (`read_fault_where`, `write_fault_where`). It may run out of memory at any time before the first write. `complete`
/// says that a good command over good input ends with an answer, unless a fault came or memory ran out.
/// `capacity_where` says that a run ends with 10 if and only if its script's limit of tasks is 0.
///
/// `starts` says by the status how often the spawner was asked for a thread. A run that is answered asked for each of
/// its workers, a run that ended before that asked for none, and no other command asks. Words that are no command ask
/// for none (`untouched`).
pub fn program<S: Source, K: Sink, C: Clock + Drop, P: Spawner, R: Host + Send + 'static>(
    rt: &R,
    alloc: Global,
    words: &Vec<String>,
    source: &mut S,
    sink: &mut K,
    clock: C,
    spawner: &mut P,
) -> u8
    ensures { CarriesOut (map string_bytes words.now.items) (C.readings clock)
        (view_of (S.left source.old) (S.faults source.old) (K.written sink.old) (K.faults sink.old) (P.starts spawner.old))
        (view_of (S.left source.new) (S.faults source.new) (K.written sink.new) (K.faults sink.new) (P.starts spawner.new)) result }
{
    let ended = explained(rt, alloc, words, source, sink, clock, spawner);
    exit_code(&ended)
}
