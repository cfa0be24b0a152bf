// Words of a command, from texts.
ghost use Rattle.std.specs.Prelude.{◌≡◌, ◌∷◌, [], map, string_bytes, IfOk};

use std::alloc::{AllocError, Global};

/// Returns one word.
pub fn one_word(alloc: Global, word: &str) -> Result<Vec<String>, AllocError>
    ensures { IfOk result (λ words. map string_bytes words.items ≡ word.now ∷ []) }
{
    let mut words = Vec::new(alloc);
    words.push(String::from_str(alloc, word)?)?;
    Ok(words)
}

/// Returns three words.
pub fn three_words(
    alloc: Global,
    first: &str,
    second: &str,
    third: &str,
) -> Result<Vec<String>, AllocError>
    ensures { IfOk result (λ words. map string_bytes words.items ≡ first.now ∷ second.now ∷ third.now ∷ []) }
{
    let mut words = one_word(alloc, first)?;
    words.push(String::from_str(alloc, second)?)?;
    words.push(String::from_str(alloc, third)?)?;
    Ok(words)
}

/// Returns a command's name, a strategy and one limit for tasks, jobs and sleeps.
pub fn limit_words(
    alloc: Global,
    name: &str,
    strategy: &str,
    limit: &str,
) -> Result<Vec<String>, AllocError>
    ensures { IfOk result (λ words. map string_bytes words.items ≡ name.now ∷ strategy.now ∷ limit.now ∷ limit.now ∷ limit.now ∷ []) }
{
    let mut words = three_words(alloc, name, strategy, limit)?;
    words.push(String::from_str(alloc, limit)?)?;
    words.push(String::from_str(alloc, limit)?)?;
    Ok(words)
}
