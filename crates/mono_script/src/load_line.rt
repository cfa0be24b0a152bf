// A load, and the line of its summary.
ghost use Rattle.std.specs.Prelude.{◌≡◌, ◌≤◌, ◌++◌, IfOk, OnOk, decimal};
ghost use Rattle.mono_script.specs.Endings.{IsOutput, IsLine};
ghost use Rattle.mono_script.specs.Meanings.{loading, summary_line};

use crate::ends::{Output, Status};
use mono_replay::{Summary, load};
use std::alloc::{AllocError, Global};

fn put(text: &mut Vec<u8>, word: &[u8], value: u64) -> Result<(), AllocError>
    ensures { OnOk result (text.new.items ≡ text.old.items ++ word.now ++ decimal value) }
{
    let mut buffer = itoa::Buffer::new();
    text.extend_from_slice(word)?;
    text.extend_from_slice(buffer.format(value).as_bytes())?;
    Ok(())
}

fn line_of(alloc: Global, sum: Summary) -> Result<Vec<u8>, AllocError>
    ensures { IfOk result (λ text. text.items ≡ summary_line sum) }
{
    let mut text = Vec::new(alloc);
    put(&mut text, b"events ".as_slice(), sum.events)?;
    put(&mut text, b" fired ".as_slice(), sum.fired)?;
    put(&mut text, b" refused ".as_slice(), sum.refused)?;
    put(&mut text, b" order ".as_slice(), sum.order)?;
    text.extend_from_slice(b"\n")?;
    Ok(text)
}

// Returns the output of a load, which has no input.
pub(crate) fn output_of_load(
    alloc: Global,
    seed: u64,
    count: u64,
    input: &[u8],
) -> Result<Output, AllocError>
    requires { count ≤ 100000 }
    ensures output { IfOk result (λ o. IsOutput (loading seed count) input.now o.status o.text.items) }
    ensures line { IfOk result (λ o. IsLine (loading seed count) input.now o.status o.bad_line) }
{
    let _ = input;
    let sum = load(alloc, seed, count)?;
    Ok(Output {
        status: Status::Done,
        text: line_of(alloc, sum)?,
        bad_line: None,
        waits: Vec::new(alloc),
    })
}
