// One call on the actors, with its answer.
ghost use Rattle.std.specs.Prelude.{◌≡◌, None, IfOk, OnOk};
ghost use Rattle.mono_time.specs.Instants.{nanos_of};
ghost use Rattle.mono_actor.specs.Answers as answer;
ghost use Rattle.mono_actor.specs.Callers.{actors_of};
ghost use Rattle.mono_actor.specs.Calls as call;
ghost use Rattle.mono_actor.specs.Steps.{Step, ClockStep};
ghost use Rattle.mono_lines.specs.ActorReplies.{answer_of};
ghost use Rattle.mono_lines.specs.ActorTurns.{IsAnswered};
ghost use Rattle.mono_lines.specs.declared.actor.words.ActorLine.TheVariants as line;

use crate::actor::print::{Told, put_due, put_told};
use mono_actor::{ActorError, Actors, SendRefused};
use mono_time::Instant;
use std::alloc::{AllocError, Global};

/// Adds an actor. Out of memory is no answer.
pub fn spawned(alloc: Global, actors: &mut Actors<u64>) -> Result<Told, AllocError>
    ensures step { IfOk result (λ told. Step (actors_of actors.old) call.Spawn (answer_of told) (actors_of actors.new)) }
    ensures turn { (actors_of actors.new).turn ≡ (actors_of actors.old).turn }
{
    match actors.spawn(alloc) {
        Ok(actor) => Ok(Told::Actor(actor)),
        Err(ActorError::Memory) => Err(AllocError),
        Err(error) => Ok(Told::Refused(error)),
    }
}

/// Sends a message. Out of memory is no answer.
pub fn posted(
    actors: &mut Actors<u64>,
    from: u64,
    to: u64,
    message: u64,
) -> Result<Told, AllocError>
    ensures step { IfOk result (λ told. Step (actors_of actors.old) (call.Send from to message) (answer_of told) (actors_of actors.new)) }
    ensures turn { (actors_of actors.new).turn ≡ (actors_of actors.old).turn }
{
    match actors.send(from, to, message) {
        Ok(sent) => Ok(Told::Posted(sent)),
        Err(
            SendRefused {
                cause: ActorError::Memory,
                ..
            },
        ) => Err(AllocError),
        Err(refused) => Ok(Told::Refused(refused.cause)),
    }
}

/// Sets a receive timeout.
pub fn timed(actors: &mut Actors<u64>, actor: u64, ms: u64) -> Told
    ensures step { Step (actors_of actors.old) (call.Timeout actor ms) (answer_of result) (actors_of actors.new) }
    ensures turn { (actors_of actors.new).turn ≡ (actors_of actors.old).turn }
{
    match actors.timeout(actor, ms) {
        Ok(()) => Told::Done,
        Err(error) => Told::Refused(error),
    }
}

// Lists the actors that are due at an instant, in a list that is emptied first.
fn rung(
    alloc: Global,
    actors: &mut Actors<u64>,
    now: Instant,
    due: &mut Vec<u64>,
) -> Result<(), AllocError>
    requires over { (actors_of actors.old).turn ≡ None }
    ensures step { OnOk result (ClockStep (actors_of actors.old) (nanos_of now) (answer.Due due.new.items) (actors_of actors.new)) }
    ensures turn { (actors_of actors.new).turn ≡ None }
{
    due.clear();
    actors.advance(alloc, now, due)?;
    Ok(())
}

/// Shows the clock `n` nanoseconds, and appends the answer to the output. The list is for the actors that are due.
pub fn clock(
    alloc: Global,
    actors: &mut Actors<u64>,
    n: u128,
    due: &mut Vec<u64>,
    out: &mut Vec<u8>,
) -> Result<(), AllocError>
    requires over { (actors_of actors.old).turn ≡ None }
    ensures answered { OnOk result (IsAnswered (actors_of actors.old) (line.Clock n) out.old.items (actors_of actors.new) out.new.items) }
    ensures turn { (actors_of actors.new).turn ≡ None }
{
    let Some(now) = Instant::from_nanos(n) else {
        return put_told(out, Told::Invalid);
    };
    rung(alloc, actors, now, due)?;
    put_due(out, due.as_slice())
}
