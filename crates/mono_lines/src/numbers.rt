// A word and a number as a line.
ghost use Rattle.std.specs.Prelude.{◌≡◌, ◌++◌, decimal, OnOk};
ghost use Rattle.mono_text.specs.Services.{answer_line};

use mono_text::{put_pair, put_word};
use std::alloc::AllocError;

/// Appends a line of a word and a number.
pub(crate) fn put_numbered(out: &mut Vec<u8>, word: &[u8], n: u64) -> Result<(), AllocError>
    ensures { OnOk result (out.new.items ≡ out.old.items ++ answer_line (word.now ++ decimal n)) }
{
    put_pair(out, word, n)?;
    put_word(out, b"\n".as_slice())
}
