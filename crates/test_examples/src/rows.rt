// The form of a table of rows.
ghost use Rattle.std.specs.Prelude.{◌≡◌, IfSome, option_map};
ghost use Rattle.test_examples.specs.Rows.{row_text};

/// The mark before each row's title; a line feed precedes it except in the first row.
pub(crate) const MARK: &str = "== ";

/// The text between two rows: the last line feed of the one, and the mark of the other.
pub(crate) const BETWEEN: &str = "\n== ";

/// A row: its title, the words, and the lines of its input without the last line feed, if it has any.
#[derive(Clone, Copy)]
pub(crate) struct Row<'a> {
    pub title: &'a str,
    pub words: &'a str,
    pub lines: Option<&'a str>,
}

/// Returns the row that this text spells, from after its mark to before its last line feed. Title, words and lines are
/// all of it, in this order.
pub(crate) fn row_of<'a>(text: &'a str) -> Option<Row<'a>>
    ensures { IfSome result (λ r. text.now ≡ row_text r.title.now r.words.now (option_map (λ l. l.now) r.lines)) }
{
    let (title, rest) = text.split_once("\n$ ")?;
    match rest.split_once('\n') {
        Some((words, lines)) => Some(Row {
            title,
            words,
            lines: Some(lines),
        }),
        None => Some(Row {
            title,
            words: rest,
            lines: None,
        }),
    }
}
