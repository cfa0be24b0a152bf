// The steps of a core at its desk, and the lines of their replies.
ghost use Rattle.std.specs.Prelude.{OnOk, IfOk};
ghost use Rattle.mono_time.specs.Instants.{nanos_of};
ghost use Rattle.lease_server.specs.Outlets.{Keeps};
ghost use Rattle.lease_server.specs.Served.{PerformsSome, Takes, Serves, ServesNext, ServesAt, handled};
ghost use Rattle.lease_server.specs.Texts.{said_by};

use crate::desks::Desk;
use crate::texts::Text;
use lease_core::Request;
use lease_lines::Stamp;
use mono_channel::Receiver;
use mono_rt::{Host, Instant, Poll, RemoteWaker, UnparkHandle};
use std::alloc::{AllocError, Global};

/// What a core got from its channel.
#[derive(Clone, Copy, PartialEq, Eq, Drop)]
pub enum Came {
    /// Nothing is there yet.
    Nothing,
    /// Requests, which were performed.
    Requests,
    /// The input has ended.
    End,
}

// Performs requests in order, and appends the lines of the replies.
fn perform(
    desk: &mut Desk,
    stamp: &Stamp,
    alloc: Global,
    requests: &[Request],
    out: &mut Text,
) -> Result<(), AllocError>
    ensures performed { PerformsSome desk.old requests.now desk.new }
    ensures served { OnOk result (Serves desk.old stamp.now.core (handled requests.now) (said_by out.old) desk.new (said_by out.new)) }
{
    for request in requests {
        desk.handle(alloc, stamp, request, out)?;
    }
    Ok(())
}

// Takes the next requests of the channel and performs them, or ends the input if the channel was closed.
#[tactic(auto, using(crate::proofs::ServedLemmas::polls_keep))]
fn serve_next<R: Host>(
    desk: &mut Desk,
    stamp: &Stamp,
    requests: &mut Receiver<Vec<Request>, UnparkHandle>,
    rt: &R,
    alloc: Global,
    waker: &RemoteWaker<UnparkHandle>,
    out: &mut Text,
) -> Result<Came, AllocError>
    ensures taken { Takes desk.old requests.old desk.new requests.new }
    ensures kept { Keeps requests.old requests.new }
    ensures served { IfOk result (λ came. ServesNext came desk.old stamp.now.core requests.old (said_by out.old) desk.new requests.new (said_by out.new)) }
{
    match requests.poll_recv(rt, waker) {
        Poll::Pending => Ok(Came::Nothing),
        Poll::Ready(Err(error)) => Err(error),
        Poll::Ready(Ok(Some(batch))) => {
            perform(desk, stamp, alloc, batch.as_slice(), out)?;
            Ok(Came::Requests)
        }
        Poll::Ready(Ok(None)) => {
            desk.finish(stamp, out)?;
            Ok(Came::End)
        }
    }
}

/// Shows the core's clock an instant, and then performs the next requests of its channel. Returns what came, and the
/// text of all replies.
///
/// The replies are those of a run of the core's model: the clock step, and then the requests of the message that was
/// received, in order, or the end of the input. The core's past grows by this run (`served`). Also if out of memory,
/// it grows by a run, whose requests are a beginning of those that were received (`taken`), and the channel is the same
/// (`kept`).
pub fn serve_at<R: Host>(
    desk: &mut Desk,
    requests: &mut Receiver<Vec<Request>, UnparkHandle>,
    rt: &R,
    alloc: Global,
    waker: &RemoteWaker<UnparkHandle>,
    now: Instant,
) -> Result<(Came, Text), AllocError>
    ensures taken { Takes desk.old requests.old desk.new requests.new }
    ensures kept { Keeps requests.old requests.new }
    ensures served { IfOk result (λ r. ServesAt r.0 desk.old (nanos_of now) requests.old desk.new requests.new (said_by r.1)) }
{
    let mut out = Text::new(alloc);
    let stamp = desk.show(alloc, now, &mut out)?;
    let came = serve_next(desk, &stamp, requests, rt, alloc, waker, &mut out)?;
    Ok((came, out))
}
