// A line of an input, by its number.
ghost use Rattle.std.specs.Prelude.{◌≡◌, ◌<◌, ◌∷◌, [], true, false, length, IfSome, IfNone, Option, Some, None};
ghost use Rattle.mono_text.specs.Lines.{lines};
ghost use Rattle.mono_text.specs.Words as spec;

/// Returns the first line of bytes that are not empty, and the bytes after its line feed; None if no line feed ends it.
pub(crate) fn cut_line(bytes: &[u8]) -> (&[u8], Option<&[u8]>)
    requires { 0 < length bytes.now }
    ensures behind { IfSome result.1 (λ rest. lines bytes.now ≡ record { bytes = result.0.now; is_ended = true } ∷ lines rest.now) }
    ensures last { IfNone result.1 (lines bytes.now ≡ record { bytes = result.0.now; is_ended = false } ∷ []) }
    ensures shorter { IfSome result.1 (λ rest. length rest.now < length bytes.now) }
{
    let mut place = 0usize;
    'bytes: while place < bytes.len() {
        if bytes[place] == b'\n' {
            return (&bytes[..place], Some(&bytes[place + 1..]));
        }
        place += 1;
    }
    (bytes, None)
}

/// Returns line n, counted from 1, without its line feed, and whether a line feed ends it.
pub(crate) fn line_at(input: &[u8], n: usize) -> Option<(&[u8], bool)>
    ensures some { IfSome result (λ found. spec.line_at n (lines input.now) ≡ Some (record { bytes = found.0.now; is_ended = found.1 })) }
    ensures none { IfNone result (spec.line_at n (lines input.now) ≡ None) }
{
    let mut rest = input;
    let mut left = n;
    'lines: while !rest.is_empty() {
        let (line, behind) = cut_line(rest);
        if left == 1 {
            return Some((line, behind.is_some()));
        }
        let Some(more) = behind else {
            return None;
        };
        rest = more;
        left = left.saturating_sub(1);
    }
    None
}
