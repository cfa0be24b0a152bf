// An example of a stream, as functions with empty bodies.
ghost use Rattle.std.specs.Prelude.{◌≡◌, ℕ, true, false, List, [], ◌∷◌, Bool, None};
ghost use Rattle.mono_model.specs.declared.poll.Poll.TheVariants.{Ready};
ghost use Rattle.mono_stream.specs.Items.{Gives};
ghost use Rattle.mono_stream.specs.Examples.{AnswersNext, five_and_seven};

/// Shows that polls that answer 5, `Pending`, 7 and the end give 5 and 7 and the end. Three of them give 5 and 7 and no
/// end. They give nothing else.
pub fn waits_between_two_items()
    ensures all { Gives AnswersNext 4 five_and_seven (5 ∷ 7 ∷ []) true [] }
    ensures some { Gives AnswersNext 3 five_and_seven (5 ∷ 7 ∷ []) false (Ready None ∷ []) }
    ensures nothing_else { (items : List ℕ) (has_ended : Bool) (left : _) → Gives AnswersNext 4 five_and_seven items has_ended left → (items ≡ 5 ∷ 7 ∷ []) × (has_ended ≡ true) }
{}
