// Values that answer lines one at a time.
ghost use Rattle.std.specs.Prelude.{◌≡◌, ◌++◌, ℕ, List, IfOk, OnOk, IfSome, IfNone};
ghost use Rattle.mono_text.specs.Services.{StartsWith, StartsWithNone, Serves, answer_line};

use crate::reader::Reader;
use std::alloc::{AllocError, Global};

/// A value whose calls are spelled by lines, each answered by one line.
///
/// It specifies the text of a call (`text`), its bounds (`fits`), and which answers and new values a call may have
/// (`answers`). The last relates the value before, the call, the bytes of the answer without its line feed, and the
/// value afterwards.
pub trait Service: Drop {
    /// A call.
    type Call: Drop;

    /// The lists that one call leaves for the next, so that they are allocated once.
    type Spare: Drop;

    // the call's line, without its line feed
    ghost text: { Self.Call → List ℕ };

    // the numbers of a call that has a line are within their bounds
    ghost fits: { Self.Call → Type 0 };

    // the answers and the new values that a call may have
    ghost answers: { Self → Self.Call → List ℕ → Self → Type 0 };

    /// Returns empty lists.
    fn spare(alloc: Global) -> Self::Spare;

    /// Returns the call that the next line spells, and moves past the line. Returns None if it spells none; the rest is
    /// then not specified.
    fn read(
        alloc: Global,
        spare: &mut Self::Spare,
        reader: &mut Reader,
    ) -> Result<Option<Self::Call>, AllocError>
        ensures found { IfOk result (λ found. IfSome found (λ call. StartsWith text fits reader.old.rest.now call reader.new.rest.now)) }
        ensures none { IfOk result (λ found. IfNone found (StartsWithNone text fits reader.old.rest.now)) };

    /// Makes the call, and appends the line of its answer to `out`.
    fn answer(
        &mut self,
        alloc: Global,
        call: Self::Call,
        spare: &mut Self::Spare,
        out: &mut Vec<u8>,
    ) -> Result<(), AllocError>
        ensures { OnOk result ((answer : List ℕ) × answers self.old call answer self.new × (out.new.items ≡ out.old.items ++ answer_line answer)) };
}

/// The answer to an input: the number of the first line that spells no call, counted from 1, or the lines of the
/// answers.
#[derive(Drop)]
pub enum Served {
    /// The first line that spells no call, counted from 1.
    BadLine(usize),
    /// The lines of the answers, one for each call.
    Output(Vec<u8>),
}

/// Answers an input by a value, and reads, calls and writes one line at a time. At a bad line it drops the answers.
pub fn serve<S: Service>(alloc: Global, start: S, input: &[u8]) -> Result<Served, AllocError>
    ensures { IfOk result (λ r. Serves S.text S.fits S.answers start input.now r) }
{
    let mut service = start;
    let mut out = Vec::new(alloc);
    let mut reader = Reader::new(input);
    let mut spare = S::spare(alloc);
    let mut count = 0usize;
    'lines: while !reader.is_empty() {
        let Some(call) = S::read(alloc, &mut spare, &mut reader)? else {
            return Ok(Served::BadLine(count + 1));
        };
        service.answer(alloc, call, &mut spare, &mut out)?;
        count += 1;
    }
    Ok(Served::Output(out))
}
