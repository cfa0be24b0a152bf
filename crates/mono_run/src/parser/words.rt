// The meaning of a line.
ghost use Rattle.std.specs.Prelude.{◌≡◌, ◌<◌, ◌^◌, ◌++◌, ℕ, IfNone, IfSome, decimal};
ghost use Rattle.mono_text.specs.Parser.{Gives};
ghost use Rattle.mono_text.specs.LineText.{FitLimits};
ghost use Rattle.mono_run.specs.ScriptText.{body_text, limits_text};
ghost use Rattle.mono_run.specs.Parser.{Fits, limits_at};

use crate::scripts::BodyLine;
use mono_machine::Limits;
use mono_text::Reader;

/// Returns the number after the word, if the text is the word and a number.
pub(crate) fn numbered(text: &[u8], word: &[u8]) -> Option<u64>
    ensures found { IfSome result (λ n. (text.now ≡ word.now ++ decimal n) × (n < 2 ^ 64)) }
    ensures none { IfNone result ((n : ℕ) → n < 2 ^ 64 → text.now ≡ word.now ++ decimal n → ⊥) }
{
    let mut reader = Reader::new(text);
    if !reader.take(word) {
        return None;
    }
    let n = reader.number()?;
    if reader.is_empty() { Some(n) } else { None }
}

// Reads the three limits after their word.
#[tactic(auto, unfolding(crate::specs::Parser::limits_at))]
fn three_limits(reader: &mut Reader) -> Option<Limits>
    ensures { Gives result reader.new.rest.now (limits_at reader.old.rest.now) }
{
    if !reader.take(b"limits ".as_slice()) {
        return None;
    }
    let tasks = reader.number()?;
    if !reader.take(b" ".as_slice()) {
        return None;
    }
    let jobs = reader.number()?;
    if !reader.take(b" ".as_slice()) {
        return None;
    }
    let sleeps = reader.number()?;
    Some(Limits {
        tasks,
        jobs,
        sleeps,
    })
}

/// Returns the limits that the text spells.
pub(crate) fn limits_in(text: &[u8]) -> Option<Limits>
    ensures found { IfSome result (λ x. (text.now ≡ limits_text x) × FitLimits x) }
    ensures none { IfNone result ((x : Limits) → FitLimits x → text.now ≡ limits_text x → ⊥) }
{
    let mut reader = Reader::new(text);
    let limits = three_limits(&mut reader)?;
    if reader.is_empty() {
        Some(limits)
    } else {
        None
    }
}

/// Returns the body line that the text spells.
pub(crate) fn body_line(text: &[u8]) -> Option<BodyLine>
    ensures found { IfSome result (λ line. (text.now ≡ body_text line) × Fits line) }
    ensures none { IfNone result ((line : BodyLine) → Fits line → text.now ≡ body_text line → ⊥) }
{
    if let Some(kind) = numbered(text, b"spawn ".as_slice()) {
        return Some(BodyLine::Spawn(kind));
    }
    if let Some(task) = numbered(text, b"join ".as_slice()) {
        return Some(BodyLine::Join(task));
    }
    if let Some(task) = numbered(text, b"detach ".as_slice()) {
        return Some(BodyLine::Detach(task));
    }
    if let Some(nanos) = numbered(text, b"await-sleep ".as_slice()) {
        return Some(BodyLine::AwaitSleep(nanos));
    }
    if let Some(output) = numbered(text, b"block ".as_slice()) {
        return Some(BodyLine::Block(output));
    }
    if let Some(job) = numbered(text, b"await-job ".as_slice()) {
        return Some(BodyLine::AwaitJob(job));
    }
    if let Some(job) = numbered(text, b"drop-job ".as_slice()) {
        return Some(BodyLine::DropJob(job));
    }
    if text == b"yield".as_slice() {
        return Some(BodyLine::Yield);
    }
    None
}
