// Facts about the definitions alone.
ghost use Rattle.std.specs.Prelude.{List, ℕ};
ghost use Rattle.mono_machine.specs.declared.events.Event.{Event};
ghost use Rattle.mono_text.specs.Lines.{Line, AreEventLines, IsFirstBad, OneEvent};

/// Shows that lines that all spell events have no first bad one.
pub fn one_answer()
    ensures { (events : List Event) (all : List Line) (n : ℕ) → AreEventLines events all → IsFirstBad all n → ⊥ }
{}

/// Shows that bytes begin with the line of at most one event, so a written line is read as the event that was written.
pub fn one_event()
    ensures { OneEvent }
{}
