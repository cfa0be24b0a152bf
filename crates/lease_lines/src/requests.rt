// The request of a line.
ghost use Rattle.std.specs.Prelude.{◌≡◌, IfSome, IfNone};
ghost use Rattle.lease_lines.specs.Parser.{call_at};
ghost use Rattle.lease_lines.specs.Lines.{Spells, SpellsNone, whole};

use crate::calls::{KeyCall, call};
use lease_core::Request;
use mono_text::Reader;

// Returns the call of a whole line.
fn whole_call(line: &[u8]) -> Option<KeyCall>
    ensures { result ≡ whole (call_at line.now) }
{
    let mut reader = Reader::new(line);
    let found = call(&mut reader)?;
    if reader.is_empty() { Some(found) } else { None }
}

/// Returns the request that a line spells, without its line feed, with this number (`found`). Returns `None` if the
/// line spells none (`none`).
pub fn request_of(number: u64, line: &[u8]) -> Option<Request>
    ensures found { IfSome result (Spells number line.now) }
    ensures none { IfNone result (SpellsNone line.now) }
{
    match whole_call(line) {
        None => None,
        Some(found) => Some(Request {
            number,
            key: found.key,
            call: found.call,
        }),
    }
}
