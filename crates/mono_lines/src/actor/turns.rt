// The turn of an actor, written as a line.
ghost use Rattle.std.specs.Prelude.{◌≡◌, ◌++◌, None, OnOk, IsOk};
ghost use Rattle.mono_actor.specs.Answers as answer;
ghost use Rattle.mono_actor.specs.Callers.{actors_of};
ghost use Rattle.mono_lines.specs.ActorAnswers.{answer_text, answer_part};
ghost use Rattle.mono_lines.specs.ActorTurns.{SendsAll, IsAnswered};
ghost use Rattle.mono_lines.specs.declared.actor.words.ActorLine.TheVariants as line;

use crate::actor::answers::posted;
use crate::actor::print::{Told, put_told, put_word};
use crate::actor::words::Handed;
use mono_actor::{Actors, After, Got};
use mono_machine::List;
use std::alloc::AllocError;

// Sends these messages of the actor, and appends the answer to each to the output.
fn send_all(
    actors: &mut Actors<u64>,
    me: u64,
    sends: &[Handed],
    out: &mut Vec<u8>,
) -> Result<(), AllocError>
    ensures sends { OnOk result (SendsAll me sends.now (actors_of actors.old) out.old.items (actors_of actors.new) out.new.items) }
    ensures turn { (actors_of actors.new).turn ≡ (actors_of actors.old).turn }
{
    for handed in sends {
        let told = posted(actors, me, handed.to, handed.message)?;
        put_word(out, b"; ".as_slice())?;
        put_told(out, told)?;
    }
    Ok(())
}

// Continues the turn that began: appends its start to the output, and then the answer to each send.
fn go_on(
    actors: &mut Actors<u64>,
    begun: (u64, Got<u64>),
    sends: &[Handed],
    out: &mut Vec<u8>,
) -> Result<(), AllocError>
    ensures sends { OnOk result (SendsAll begun.0 sends.now (actors_of actors.old) (out.old.items ++ answer_text (answer.Turn begun.0 begun.1)) (actors_of actors.new) out.new.items) }
    ensures turn { (actors_of actors.new).turn ≡ (actors_of actors.old).turn }
{
    let (me, got) = begun;
    put_told(out, Told::Turn(me, got))?;
    send_all(actors, me, sends, out)
}

// Appends the end of the turn to the output, if the text before it was appended.
fn put_end(out: &mut Vec<u8>, sent: Result<(), AllocError>, after: After) -> Result<(), AllocError>
    ensures { OnOk result (IsOk sent × (out.new.items ≡ out.old.items ++ answer_part (answer.Ended after))) }
{
    sent?;
    put_word(out, b"; ".as_slice())?;
    put_told(out, Told::Ended(after))
}

/// Runs the turn of the queue's front, which sends these and then stops or stays. The answer is appended to the output.
/// The turn ends even if it is out of memory for all of them.
pub fn turn(
    actors: &mut Actors<u64>,
    sends: &List<Handed>,
    stop: bool,
    out: &mut Vec<u8>,
) -> Result<(), AllocError>
    requires over { (actors_of actors.old).turn ≡ None }
    ensures answered { OnOk result (IsAnswered (actors_of actors.old) (line.Turn sends.now stop) out.old.items (actors_of actors.new) out.new.items) }
    ensures turn { (actors_of actors.new).turn ≡ None }
{
    match actors.begin() {
        Err(error) => put_told(out, Told::Refused(error)),
        Ok(begun) => {
            let sent = go_on(actors, begun, sends.as_slice(), out);
            let after = actors.end(stop);
            put_end(out, sent, after)
        }
    }
}
