//! The calls of a task on mailboxes: it sends a message, and removes an actor. The tasks that are called are owed a wake.
ghost use Rattle.std.specs.Prelude.{◌≡◌, ℕ};
ghost use Rattle.mono_task.specs.Owed.{Keeps};
ghost use Rattle.mono_serve.specs.Mail.{SendsIn, StopsIn};
ghost use Rattle.mono_serve.specs.MailCalls.{Sends, Stops, Then};

use crate::mailboxes::Mailboxes;
use mono_actor::{ActorError, SendRefused, Sent};
use mono_sync::Holds;
use mono_task::SharedContext;

// Sends a message.
fn send_part<W: Holds<Mailboxes<M>>, M>(
    whole: &mut W,
    from: u64,
    to: u64,
    message: M,
) -> Result<Sent, SendRefused<M>>
    ensures answer { Then (Sends (W.part whole.old) from to message result) to (W.part whole.new) }
    ensures leads { W.leads whole.old whole.new }
    ensures keeps { (me : ℕ) → Keeps W.lists me whole.old whole.new }
{
    whole.part_mut().send(from, to, message)
}

// Removes an actor.
fn stop_part<W: Holds<Mailboxes<M>>, M: Drop>(whole: &mut W, actor: u64) -> Result<(), ActorError>
    ensures answer { Then (Stops (W.part whole.old) actor result) actor (W.part whole.new) }
    ensures leads { W.leads whole.old whole.new }
    ensures keeps { (me : ℕ) → Keeps W.lists me whole.old whole.new }
{
    whole.part_mut().stop(actor)
}

// Sends a message, for the running task.
fn send_now<W: Holds<Mailboxes<M>>, M, C: SharedContext<W>>(
    cx: &mut C,
    from: u64,
    to: u64,
    message: M,
) -> Result<Sent, SendRefused<M>>
    ensures answer { Then (Sends (W.part (C.shared cx.old)) from to message result) to (W.part (C.shared cx.new)) }
    ensures work { C.work cx.new ≡ C.work cx.old }
    ensures reached { C.reaches cx.old cx.new }
{
    send_part::<W, M>(cx.shared_mut(), from, to, message)
}

// Removes an actor, for the running task.
fn stop_now<W: Holds<Mailboxes<M>>, M: Drop, C: SharedContext<W>>(
    cx: &mut C,
    actor: u64,
) -> Result<(), ActorError>
    ensures answer { Then (Stops (W.part (C.shared cx.old)) actor result) actor (W.part (C.shared cx.new)) }
    ensures work { C.work cx.new ≡ C.work cx.old }
    ensures reached { C.reaches cx.old cx.new }
{
    stop_part::<W, M>(cx.shared_mut(), actor)
}

/// Sends a message, as [`Mailboxes::send`] does. The first task that waits for it is owed a wake, if none was called.
pub fn send<W: Holds<Mailboxes<M>>, M, C: SharedContext<W>>(
    cx: &mut C,
    from: u64,
    to: u64,
    message: M,
) -> Result<Sent, SendRefused<M>>
    ensures sends { SendsIn (λ x. W.part (C.shared x)) C.work from to message result cx.old cx.new }
    ensures reached { C.reaches cx.old cx.new }
{
    send_now::<W, M, C>(cx, from, to, message)
}

/// Removes an actor that has a message, as [`Mailboxes::stop`] does. The first task that waits for it is owed a wake, if
/// none was called.
pub fn stop<W: Holds<Mailboxes<M>>, M: Drop, C: SharedContext<W>>(
    cx: &mut C,
    actor: u64,
) -> Result<(), ActorError>
    ensures stops { StopsIn (λ x. W.part (C.shared x)) C.work actor result cx.old cx.new }
    ensures reached { C.reaches cx.old cx.new }
{
    stop_now::<W, M, C>(cx, actor)
}
