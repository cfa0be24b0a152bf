// An input, line by line.
ghost use Rattle.std.specs.Prelude.{◌≡◌, ◌↔◌, ◌<◌, ◌++◌, ◌∷◌, IfNone, IfSome, IsTrue, length, slice_index, take};
ghost use Rattle.mono_text.specs.Lines.{lines};
ghost use Rattle.mono_text.specs.Services.{HasNoFeed};
ghost use Rattle.mono_run.specs.ScriptText.{task_lines};

/// The rest of an input.
#[derive(Drop)]
pub(crate) struct Pieces<'a> {
    rest: &'a [u8],
}

// Returns the place of the first line feed.
fn feed_in(text: &[u8]) -> Option<usize>
    ensures found { IfSome result (λ i. (i < length text.now) × (slice_index text.now i ≡ 10) × HasNoFeed (take i text.now)) }
    ensures none { IfNone result (HasNoFeed text.now) }
{
    'bytes: for i in 0..text.len() {
        if text[i] == b'\n' {
            return Some(i);
        }
    }
    None
}

impl<'a> Pieces<'a> {
    /// Returns the whole input as the rest.
    pub fn new(input: &'a [u8]) -> Pieces<'a>
        ensures { result.rest.now ≡ input.now }
    {
        Pieces { rest: input }
    }

    /// Returns whether the rest is empty.
    pub fn is_empty(&self) -> bool
        ensures { IsTrue result ↔ length self.now.rest.now ≡ 0 }
    {
        self.rest.is_empty()
    }

    /// Returns the next line, without its line feed, and moves past it. Returns None if no line feed is left.
    pub fn line(&mut self) -> Option<&'a [u8]>
        ensures line { IfSome result (λ text. (self.old.rest.now ≡ text.now ++ 10 ∷ self.new.rest.now) × HasNoFeed text.now) }
        ensures none { IfNone result (HasNoFeed self.old.rest.now) }
    {
        let text = self.rest;
        match feed_in(text) {
            Some(i) => {
                self.rest = &text[i + 1..];
                Some(&text[..i])
            }
            None => None,
        }
    }
}

/// Returns how many lines of the input are exactly `task`.
pub(crate) fn count_tasks(input: &[u8]) -> usize
    ensures { result ≡ task_lines (lines input.now) }
{
    let mut pieces = Pieces::new(input);
    let mut count = 0usize;
    'lines: while !pieces.is_empty() {
        let Some(text) = pieces.line() else {
            return count;
        };
        if text == b"task".as_slice() {
            count += 1;
        }
    }
    count
}
