// A caller of the top call, proved from its contract alone.
ghost use Rattle.std.specs.Prelude.{◌≡◌, ◌≢◌, ◌≤◌, ◌⊎◌, ◌↔◌, List, length, map, string_bytes};
ghost use Rattle.mono_machine.specs.declared.events.Event.{Event};
ghost use Rattle.mono_machine.specs.declared.events.Limits.{Limits};
ghost use Rattle.mono_machine.specs.declared.events.Blocking.{Blocking};
ghost use Rattle.mono_script.specs.declared.command.Command.TheVariants as command;
ghost use Rattle.mono_script.specs.Command.{IsCommand, IsNoCommand};
ghost use Rattle.mono_text.specs.Lines.{lines, AreEventLines};
ghost use Rattle.mono_script.specs.Endings.{max_input};

use mono_model::Host;
use mono_script::{Clock, PlainSink, PlainSource, Spawner, program};
use std::alloc::Global;

/// Returns the status of the top call over an input in memory, and drops its output.
///
/// Returns no fault, since such a source and such a sink never fail (`no_read_fault`, `no_write_fault`). A good
/// command over good input ends with 0, or with 6 if memory runs out (`complete`).
pub fn status_of<C: Clock + Drop, P: Spawner, R: Host + Send + 'static>(
    rt: &R,
    alloc: Global,
    words: &Vec<String>,
    input: Vec<u8>,
    clock: C,
    spawner: &mut P,
) -> u8
    ensures usage { result ≡ 2 ↔ IsNoCommand (map string_bytes words.now.items) }
    ensures no_read_fault { result ≢ 4 }
    ensures no_write_fault { result ≢ 5 }
    ensures complete { (limits : Limits) (strategy : Blocking) (events : List Event) →
        IsCommand (map string_bytes words.now.items) (command.Replay limits strategy) → length input.items ≤ max_input →
        AreEventLines events (lines input.items) → (result ≡ 0) ⊎ (result ≡ 6) }
{
    let mut source = PlainSource::new(input);
    let mut sink = PlainSink::new();
    program(rt, alloc, words, &mut source, &mut sink, clock, spawner)
}
