// A run of a script, as an output.
ghost use Rattle.std.specs.Prelude.{◌≡◌, Some, IfOk};
ghost use Rattle.mono_script.specs.Endings.{IsOutput, IsLine, Asks};
ghost use Rattle.mono_script.specs.Meanings.{running, run_status};

use crate::ends::{Output, Status, bad_line};
use mono_blocking::Spawner;
use mono_driver::Clock;
use mono_model::Host;
use mono_run::{RunEnd, ScriptRead, read_script, run_script};
use std::alloc::{AllocError, Global};

fn status_of(end: RunEnd) -> Status
    ensures { result ≡ run_status end }
{
    match end {
        RunEnd::Output(_) => Status::Done,
        RunEnd::Turns => Status::Turns,
        RunEnd::Capacity => Status::Capacity,
    }
}

// Returns the run of the script that the input spells, or its first bad line, as an output.
pub(crate) fn output_of_run<R: Host + Send + 'static, C: Clock + Drop, P: Spawner>(
    rt: &R,
    alloc: Global,
    workers: u64,
    turns: u64,
    input: &[u8],
    clock: C,
    spawner: &mut P,
) -> Result<Output, AllocError>
    ensures output { IfOk result (λ o. IsOutput (running workers turns (C.readings clock)) input.now o.status o.text.items) }
    ensures line { IfOk result (λ o. IsLine (running workers turns (C.readings clock)) input.now o.status o.bad_line) }
    ensures asks { IfOk result (λ o. Asks (Some workers) (P.starts spawner.old) (P.starts spawner.new) o.status) }
{
    match read_script(alloc, input)? {
        ScriptRead::BadLine(n) => bad_line(alloc, n),
        ScriptRead::Script(script) => {
            let run = run_script(rt, alloc, &script, workers as usize, turns, clock, spawner)?;
            Ok(Output {
                status: status_of(run.end),
                text: run.text,
                bad_line: None,
                waits: run.waits,
            })
        }
    }
}
