// Actors whose calls are lines.
ghost use Rattle.std.specs.Prelude.{◌≡◌, ◌++◌, ℕ, List, None, IfOk, IfSome, IfNone, OnOk};
ghost use Rattle.mono_text.specs.Services.{StartsWith, StartsWithNone, answer_line};
ghost use Rattle.mono_actor.specs.Callers.{actors_of};
ghost use Rattle.mono_lines.specs.ActorTexts.{line_text, FitsLine};
ghost use Rattle.mono_lines.specs.ActorAnswers.{Answers};
ghost use Rattle.mono_lines.specs.ActorTurns.{IsAnswered};

use crate::actor::answers::{clock, posted, spawned, timed};
use crate::actor::print::{put_told, put_word};
use crate::actor::read::next_line;
use crate::actor::turns::turn;
use crate::actor::words::ActorLine;
use mono_actor::Actors;
use mono_text::{Reader, Service};
use std::alloc::{AllocError, Global};
use std::marker::Model;

/// Actors whose calls are lines. Contracts see it as the actors. Between two lines no turn runs.
#[derive(Drop)]
pub struct ActorService {
    actors: Actors<u64>,
    // A list for the actors that are due in a clock step.
    due: Vec<u64>,
}

impl Model for ActorService {
    ghost use Rattle.std.specs.Prelude.{◌≡◌, ℕ, None};
    ghost use Rattle.mono_actor.specs.Actors as model;
    ghost use Rattle.mono_actor.specs.Callers.{actors_of};

    ghost Value = { model.Actors ℕ };

    ghost view = { λ a. actors_of a.actors };

    ghost invariant = { λ a. (actors_of a.actors).turn ≡ None };
}

// Makes a line's call, and appends its answer to the output.
fn made(
    alloc: Global,
    actors: &mut Actors<u64>,
    due: &mut Vec<u64>,
    asked: ActorLine,
    out: &mut Vec<u8>,
) -> Result<(), AllocError>
    requires over { (actors_of actors.old).turn ≡ None }
    ensures answered { OnOk result (IsAnswered (actors_of actors.old) asked out.old.items (actors_of actors.new) out.new.items) }
    ensures turn { (actors_of actors.new).turn ≡ None }
{
    match asked {
        ActorLine::Actor => {
            let told = spawned(alloc, actors)?;
            put_told(out, told)
        }
        ActorLine::Send(from, to, message) => {
            let told = posted(actors, from, to, message)?;
            put_told(out, told)
        }
        ActorLine::Timeout(actor, ms) => {
            let told = timed(actors, actor, ms);
            put_told(out, told)
        }
        ActorLine::Clock(n) => clock(alloc, actors, n, due, out),
        ActorLine::Turn(sends, stop) => turn(actors, &sends, stop, out),
    }
}

impl ActorService {
    ghost use Rattle.mono_actor.specs.Actors.{no_actors};

    /// Returns a service without actors, with room for `actors` live ones and `messages` messages in all mailboxes.
    pub fn new(alloc: Global, actors: u64, messages: u64) -> Result<ActorService, AllocError>
        ensures { IfOk result (λ service. service ≡ no_actors actors messages) }
    {
        let actors = Actors::new(alloc, actors, messages)?;
        Ok(ActorService {
            actors,
            due: Vec::new(alloc),
        })
    }
}

impl Service for ActorService {
    type Call = ActorLine;

    type Spare = ();

    ghost text = { line_text };

    ghost fits = { FitsLine };

    ghost answers = { Answers };

    fn spare(_alloc: Global) {}

    fn read(
        alloc: Global,
        _spare: &mut (),
        reader: &mut Reader,
    ) -> Result<Option<ActorLine>, AllocError>
        ensures found { IfOk result (λ found. IfSome found (λ call. StartsWith line_text FitsLine reader.old.rest.now call reader.new.rest.now)) }
        ensures none { IfOk result (λ found. IfNone found (StartsWithNone line_text FitsLine reader.old.rest.now)) }
    {
        next_line(alloc, reader)
    }

    fn answer(
        &mut self,
        alloc: Global,
        call: ActorLine,
        _spare: &mut (),
        out: &mut Vec<u8>,
    ) -> Result<(), AllocError>
        ensures { OnOk result ((answer : List ℕ) × Answers self.old call answer self.new × (out.new.items ≡ out.old.items ++ answer_line answer)) }
    {
        made(alloc, &mut self.actors, &mut self.due, call, out)?;
        put_word(out, b"\n".as_slice())
    }
}
