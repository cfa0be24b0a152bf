// The answers of a service to an input, as an output.
ghost use Rattle.std.specs.Prelude.{IfOk};
ghost use Rattle.mono_script.specs.Services.{IsToldAs, IsLineOf};

use crate::ends::{Output, Status, bad_line};
use mono_text::Served;
use std::alloc::{AllocError, Global};

// Returns the output of a command that serves. The law `as_output` of proofs/Serving says which answer of the command's
// meaning it is.
pub(crate) fn output_of(alloc: Global, served: Served) -> Result<Output, AllocError>
    ensures told { IfOk result (λ o. IsToldAs served o.status o.text.items) }
    ensures line { IfOk result (λ o. IsLineOf served o.bad_line) }
{
    match served {
        Served::BadLine(n) => bad_line(alloc, n),
        Served::Output(text) => Ok(Output {
            status: Status::Done,
            text,
            bad_line: None,
            waits: Vec::new(alloc),
        }),
    }
}
