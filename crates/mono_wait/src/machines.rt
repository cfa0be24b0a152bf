// A context that refines the machine.
ghost use Rattle.std.specs.Prelude.{◌≡◌, ℕ, List, Some};
ghost use Rattle.mono_model.specs.Table.{value_at};
ghost use Rattle.mono_machine.specs.Machine.{Machine};
ghost use Rattle.mono_machine.specs.Turns.{after_steps};
ghost use Rattle.mono_machine.specs.Watches as machine;
ghost use Rattle.mono_machine.specs.Watches.{is_stirred_in};
ghost use Rattle.mono_machine.specs.declared.events.TurnStep.{TurnStep};
ghost use Rattle.mono_wait.specs.Sources.{in_machine};

use crate::waits::WaitContext;

/// A context whose calls are steps of the machine, and whose waiting tasks are the machine's.
pub trait MachineContext: WaitContext {
    // the machines that the context refines
    ghost stands: { Self → Machine → Type 0 };

    ghost leads: { (a b : Self) → Self.reaches a b → (steps : List TurnStep) × ((m : Machine) → stands a m → stands b (after_steps (Self.number a) steps m)) };

    // the task that waits for a source of the machine in the context waits for it in the machine
    ghost same_watcher: { (c : Self) (m : Machine) (x : machine.Source) (t : ℕ) → stands c m → Self.watcher c (in_machine x) ≡ Some t → machine.watcher m x ≡ Some t };

    ghost same_stirred: { (c : Self) (m : Machine) → stands c m → is_stirred_in (value_at (Self.work c).table (Self.number c)) ≡ is_stirred_in (value_at m.tasks.table (Self.number c)) };
}
