// Two numbers after a word.
ghost use Rattle.std.specs.Prelude.{◌∷◌, [], ℕ, IfSome, IfNone, map, string_bytes};
ghost use Rattle.mono_script.specs.Words.{SayTwo};

use mono_text::whole_number;

fn numbers_of(word: &[u8], first: &[u8], second: &[u8], name: &[u8]) -> Option<(u64, u64)>
    ensures found { IfSome result (λ n. SayTwo name.now (word.now ∷ first.now ∷ second.now ∷ []) n.0 n.1) }
    ensures none { IfNone result ((a b : ℕ) → SayTwo name.now (word.now ∷ first.now ∷ second.now ∷ []) a b → ⊥) }
{
    if word != name {
        return None;
    }
    let first = whole_number(first)?;
    let second = whole_number(second)?;
    Some((first, second))
}

// Returns the two numbers after the name, if these are the words.
pub(crate) fn two_numbers(words: &Vec<String>, name: &[u8]) -> Option<(u64, u64)>
    ensures found { IfSome result (λ n. SayTwo name.now (map string_bytes words.now.items) n.0 n.1) }
    ensures none { IfNone result ((a b : ℕ) → SayTwo name.now (map string_bytes words.now.items) a b → ⊥) }
{
    let [word, first, second] = words.as_slice() else {
        return None;
    };
    numbers_of(word.as_bytes(), first.as_bytes(), second.as_bytes(), name)
}
