// Answer lines into one vector of bytes.
ghost use Rattle.std.specs.Prelude.{◌≡◌, ◌≢◌, ◌++◌, codes, decimal, IfOk, OnOk};
ghost use Rattle.mono_text.specs.Services.{answer_line};
ghost use Rattle.mono_limit.specs.Answers.{of_bucket, of_take, of_retry, of_fail, of_done};
ghost use Rattle.mono_limit.specs.Answers as answers;
ghost use Rattle.mono_lines.specs.LimiterTexts.{answer_text, refusal_text};

use crate::numbers::put_numbered;
use itoa::Buffer;
use mono_limit::{LimitError, Next, Take};
use mono_text::{put_list, put_word};
use std::alloc::AllocError;

// Appends a word and a number below 2^128.
fn long_number(out: &mut Vec<u8>, text: &[u8], n: u128) -> Result<(), AllocError>
    ensures { OnOk result (out.new.items ≡ out.old.items ++ (text.now ++ decimal n)) }
{
    let mut buffer = Buffer::new();
    put_word(out, text)?;
    out.extend_from_slice(buffer.format(n).as_bytes())
}

// Returns the line of a refusal. Out of memory has none.
fn refusal_word(error: LimitError) -> Result<&'static [u8], AllocError>
    ensures text { IfOk result (λ text. text.now ≡ answer_line (codes "refused " ++ refusal_text error)) }
    ensures memory { OnOk result (error ≢ LimitError.Memory) }
{
    match error {
        LimitError::Memory => Err(AllocError),
        LimitError::AtCapacity => Ok(b"refused at-capacity\n".as_slice()),
        LimitError::Invalid => Ok(b"refused invalid\n".as_slice()),
        LimitError::BadBucket => Ok(b"refused bad-bucket\n".as_slice()),
        LimitError::TooMany => Ok(b"refused too-many\n".as_slice()),
        LimitError::Waiting => Ok(b"refused waiting\n".as_slice()),
        LimitError::BadRetry => Ok(b"refused bad-retry\n".as_slice()),
        LimitError::NoBucket => Ok(b"refused no-bucket\n".as_slice()),
        LimitError::NoRetry => Ok(b"refused no-retry\n".as_slice()),
    }
}

/// Appends the line of a refusal, or returns an error if that is out of memory.
pub(crate) fn refused(out: &mut Vec<u8>, error: LimitError) -> Result<(), AllocError>
    ensures text { OnOk result (out.new.items ≡ out.old.items ++ answer_line (answer_text (answers.Refused error))) }
    ensures memory { OnOk result (error ≢ LimitError.Memory) }
{
    let text = refusal_word(error)?;
    put_word(out, text)
}

/// Appends the answer's line to `bucket`.
pub(crate) fn bucket(out: &mut Vec<u8>, told: Result<u64, LimitError>) -> Result<(), AllocError>
    ensures text { OnOk result (out.new.items ≡ out.old.items ++ answer_line (answer_text (of_bucket told))) }
    ensures memory { OnOk result (told ≢ Err LimitError.Memory) }
{
    match told {
        Ok(bucket) => put_numbered(out, b"bucket ".as_slice(), bucket),
        Err(error) => refused(out, error),
    }
}

/// Appends the answer's line to `take`.
pub(crate) fn take(out: &mut Vec<u8>, told: Result<Take, LimitError>) -> Result<(), AllocError>
    ensures { OnOk result (out.new.items ≡ out.old.items ++ answer_line (answer_text (of_take told))) }
{
    match told {
        Ok(Take::Granted) => put_word(out, b"granted\n".as_slice()),
        Ok(Take::Short(tick)) => {
            long_number(out, b"short ".as_slice(), tick)?;
            put_word(out, b"\n".as_slice())
        }
        Err(error) => refused(out, error),
    }
}

/// Appends the answer's line to `retry`.
pub(crate) fn retry(out: &mut Vec<u8>, told: Result<u64, LimitError>) -> Result<(), AllocError>
    ensures text { OnOk result (out.new.items ≡ out.old.items ++ answer_line (answer_text (of_retry told))) }
    ensures memory { OnOk result (told ≢ Err LimitError.Memory) }
{
    match told {
        Ok(retry) => put_numbered(out, b"retry ".as_slice(), retry),
        Err(error) => refused(out, error),
    }
}

/// Appends the answer's line to `fail`.
pub(crate) fn fail(out: &mut Vec<u8>, told: Result<Next, LimitError>) -> Result<(), AllocError>
    ensures { OnOk result (out.new.items ≡ out.old.items ++ answer_line (answer_text (of_fail told))) }
{
    match told {
        Ok(Next::Again(tick)) => put_numbered(out, b"again ".as_slice(), tick),
        Ok(Next::GaveUp) => put_word(out, b"gave-up\n".as_slice()),
        Err(error) => refused(out, error),
    }
}

/// Appends the answer's line to `done`.
pub(crate) fn done(out: &mut Vec<u8>, told: Result<(), LimitError>) -> Result<(), AllocError>
    ensures { OnOk result (out.new.items ≡ out.old.items ++ answer_line (answer_text (of_done told))) }
{
    match told {
        Ok(()) => put_word(out, b"ok\n".as_slice()),
        Err(error) => refused(out, error),
    }
}

/// Appends the line of a clock step.
pub(crate) fn due(out: &mut Vec<u8>, list: &[u64]) -> Result<(), AllocError>
    ensures { OnOk result (out.new.items ≡ out.old.items ++ answer_line (answer_text (answers.Due list.now))) }
{
    put_list(out, b"due".as_slice(), list)
}
