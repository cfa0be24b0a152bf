// Actors, call by call.
ghost use Rattle.std.specs.Prelude.{IfOk};
ghost use Rattle.mono_script.specs.Endings.{IsOutput, IsLine};
ghost use Rattle.mono_script.specs.Meanings.{acting};

use crate::ends::Output;
use crate::services::output_of;
use std::alloc::{AllocError, Global};

// Returns the output of the calls on actors.
pub(crate) fn output_of_actors(
    alloc: Global,
    actors: u64,
    messages: u64,
    input: &[u8],
) -> Result<Output, AllocError>
    ensures output { IfOk result (λ o. IsOutput (acting actors messages) input.now o.status o.text.items) }
    ensures line { IfOk result (λ o. IsLine (acting actors messages) input.now o.status o.bad_line) }
{
    let served = mono_lines::actor::actors(alloc, actors, messages, input)?;
    output_of(alloc, served)
}
