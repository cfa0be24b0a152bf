// Answers as lines. Out of memory is no answer.
ghost use Rattle.std.specs.Prelude.{◌≡◌, ◌≢◌, ◌++◌, ◌∷◌, [], codes, OnOk};
ghost use Rattle.mono_session.specs.Answers.{of_number, of_done, of_first, of_owner};
ghost use Rattle.mono_session.specs.Answers as answer;
ghost use Rattle.mono_session.specs.declared.error.SessionError.TheVariants as why;
ghost use Rattle.mono_lines.specs.SessionTexts.{error_text};
ghost use Rattle.mono_lines.specs.SessionServices.{Wrote, WroteOf};

use crate::numbers::put_numbered;
use mono_session::SessionError;
use mono_text::put_word;
use std::alloc::AllocError;

fn refusal_line(error: SessionError) -> &'static [u8]
    ensures { result.now ≡ codes "refused " ++ error_text error ++ 10 ∷ [] }
{
    match error {
        SessionError::AtCapacity => b"refused at-capacity\n".as_slice(),
        SessionError::Invalid => b"refused invalid\n".as_slice(),
        SessionError::NoSession => b"refused no-session\n".as_slice(),
        SessionError::ZeroLimit => b"refused zero-limit\n".as_slice(),
        SessionError::Doubled => b"refused doubled\n".as_slice(),
        SessionError::NotIn => b"refused not-in\n".as_slice(),
        SessionError::Memory => b"refused \n".as_slice(),
    }
}

pub(crate) fn put_refused(out: &mut Vec<u8>, error: SessionError) -> Result<(), AllocError>
    ensures { OnOk result ((error ≢ why.Memory) × Wrote (answer.Refused error) out.old.items out.new.items) }
{
    match error {
        SessionError::Memory => Err(AllocError),
        other => put_word(out, refusal_line(other)),
    }
}

pub(crate) fn put_opened(
    out: &mut Vec<u8>,
    told: Result<u64, SessionError>,
) -> Result<(), AllocError>
    ensures { OnOk result (WroteOf of_number told out.old.items out.new.items) }
{
    match told {
        Ok(session) => put_numbered(out, b"session ".as_slice(), session),
        Err(error) => put_refused(out, error),
    }
}

pub(crate) fn put_done(out: &mut Vec<u8>, told: Result<(), SessionError>) -> Result<(), AllocError>
    ensures { OnOk result (WroteOf of_done told out.old.items out.new.items) }
{
    match told {
        Ok(()) => put_word(out, b"ok\n".as_slice()),
        Err(error) => put_refused(out, error),
    }
}

pub(crate) fn put_first(
    out: &mut Vec<u8>,
    told: Result<bool, SessionError>,
) -> Result<(), AllocError>
    ensures { OnOk result (WroteOf of_first told out.old.items out.new.items) }
{
    match told {
        Ok(true) => put_word(out, b"held\n".as_slice()),
        Ok(false) => put_word(out, b"waits\n".as_slice()),
        Err(error) => put_refused(out, error),
    }
}

pub(crate) fn put_owner(out: &mut Vec<u8>, told: Option<u64>) -> Result<(), AllocError>
    ensures { OnOk result (Wrote (of_owner told) out.old.items out.new.items) }
{
    match told {
        Some(session) => put_numbered(out, b"owner ".as_slice(), session),
        None => put_word(out, b"free\n".as_slice()),
    }
}
