// The answers to the lines of a limiter, as an output.
ghost use Rattle.std.specs.Prelude.{IfOk};
ghost use Rattle.mono_script.specs.Endings.{IsOutput, IsLine};
ghost use Rattle.mono_script.specs.Meanings.{limiting};

use crate::ends::Output;
use crate::services::output_of;
use mono_lines::limit::limiter;
use std::alloc::{AllocError, Global};

// Returns the output of a limiter for an input.
pub(crate) fn output_of_limiter(
    alloc: Global,
    buckets: u64,
    retries: u64,
    input: &[u8],
) -> Result<Output, AllocError>
    ensures output { IfOk result (λ o. IsOutput (limiting buckets retries) input.now o.status o.text.items) }
    ensures line { IfOk result (λ o. IsLine (limiting buckets retries) input.now o.status o.bad_line) }
{
    let served = limiter(alloc, buckets, retries, input)?;
    output_of(alloc, served)
}
