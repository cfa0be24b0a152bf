// The answers of the sessions, as an output.
ghost use Rattle.std.specs.Prelude.{IfOk};
ghost use Rattle.mono_script.specs.Endings.{IsOutput, IsLine};
ghost use Rattle.mono_script.specs.Meanings.{keeping_sessions};

use crate::ends::Output;
use crate::services::output_of;
use mono_lines::session::sessions;
use std::alloc::{AllocError, Global};

pub(crate) fn output_of_sessions(
    alloc: Global,
    most_sessions: u64,
    most_entries: u64,
    input: &[u8],
) -> Result<Output, AllocError>
    ensures output { IfOk result (λ o. IsOutput (keeping_sessions most_sessions most_entries) input.now o.status o.text.items) }
    ensures line { IfOk result (λ o. IsLine (keeping_sessions most_sessions most_entries) input.now o.status o.bad_line) }
{
    let served = sessions(alloc, most_sessions, most_entries, input)?;
    output_of(alloc, served)
}
