// The answers to an input.
ghost use Rattle.std.specs.Prelude.{◌≡◌, IfOk, OnErr};
ghost use Rattle.mono_text.specs.Services.{Serves};
ghost use Rattle.mono_text.specs.Follows.{HasFollowed};
ghost use Rattle.mono_actor.specs.Actors.{no_actors};
ghost use Rattle.mono_lines.specs.ActorTexts.{line_text, FitsLine};
ghost use Rattle.mono_lines.specs.ActorAnswers.{Answers};

use crate::actor::serve::ActorService;
use mono_text::{Followed, Served, Sink, Source, follow, serve};
use std::alloc::{AllocError, Global};

/// Returns the answers to the lines of an input, or the first line that is no call. There are no actors at first, with
/// room for `actors` live ones and `messages` messages in all mailboxes. The only error is out of memory.
pub fn actors(alloc: Global, actors: u64, messages: u64, input: &[u8]) -> Result<Served, AllocError>
    ensures { IfOk result (λ r. Serves line_text FitsLine Answers (no_actors actors messages) input.now r) }
{
    let service = ActorService::new(alloc, actors, messages)?;
    serve(alloc, service, input)
}

/// Answers each line of the source as soon as it was read, as [`actors`] answers a whole input. The output is always
/// the answers to lines at the source's front. If the actors are out of memory, the source is not read and nothing is
/// written.
pub fn follow_actors<S: Source, K: Sink>(
    alloc: Global,
    actors: u64,
    messages: u64,
    source: &mut S,
    sink: &mut K,
) -> Result<Followed, AllocError>
    ensures followed { IfOk result (λ f. HasFollowed line_text FitsLine Answers (no_actors actors messages) f.end f.rest.items
        (S.left source.old) (S.left source.new) (K.written sink.old) (K.written sink.new)) }
    ensures none { OnErr result ((S.left source.new ≡ S.left source.old) × (K.written sink.new ≡ K.written sink.old)) }
{
    let service: ActorService = ActorService::new(alloc, actors, messages)?;
    follow(alloc, service, source, sink)
}
