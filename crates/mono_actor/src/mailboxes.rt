// The messages of all mailboxes, in one store.
ghost use Rattle.std.specs.Prelude.{◌≡◌, ◌<◌, ◌+◌, ◌^◌, IfOk, IfErr, OnOk, OnErr, OnSome, MatchOption};
ghost use Rattle.slab.specs.Slab.{ContainsKey, slab_len};
ghost use Rattle.mono_actor.specs.Mailboxes.{IsPut, IsTaken};

use slab::Slab;

/// A message with its sender.
#[derive(Drop)]
pub struct Letter<M> {
    pub sender: u64,
    pub message: M,
}

/// A message in the store, with the key of the next message of its mailbox.
#[derive(Drop)]
pub struct Link<M> {
    pub letter: Letter<M>,
    pub next: usize,
}

/// A number of messages of the store, from the first to the last. The ends have no meaning if there is none.
#[derive(Clone, Copy, Drop)]
pub struct Mailbox {
    pub first: usize,
    pub last: usize,
    pub count: usize,
}

/// Appends the message to the mailbox. It comes back if the store is out of memory.
pub fn put<M>(
    links: &mut Slab<Link<M>>,
    mailbox: Mailbox,
    letter: Letter<M>,
) -> Result<Mailbox, Letter<M>>
    requires last { 0 < mailbox.count → ContainsKey links.old mailbox.last }
    requires few { mailbox.count + 1 < 2 ^ 64 }
    ensures put { IfOk result (λ after. IsPut letter links.old.slots links.new.slots mailbox after) }
    ensures len { OnOk result (slab_len links.new ≡ slab_len links.old + 1) }
    ensures refused { IfErr result (λ back. back ≡ letter) }
    ensures kept { OnErr result (links.new.slots ≡ links.old.slots) }
{
    let key = match links.insert(Link { letter, next: 0 }) {
        Ok(key) => key,
        Err(refused) => return Err(refused.value.letter),
    };
    if mailbox.count == 0 {
        return Ok(Mailbox {
            first: key,
            last: key,
            count: 1,
        });
    }
    links[mailbox.last].next = key;
    Ok(Mailbox {
        first: mailbox.first,
        last: key,
        count: mailbox.count + 1,
    })
}

/// A message that was the first of its mailbox, and the mailbox without it.
#[derive(Drop)]
pub struct Taken<M> {
    pub letter: Letter<M>,
    pub rest: Mailbox,
}

/// Removes and returns the first message, whose memory can be used again. Returns `None` if and only if there is none.
pub fn take<M>(links: &mut Slab<Link<M>>, mailbox: Mailbox) -> Option<Taken<M>>
    requires { 0 < mailbox.count → ContainsKey links.old mailbox.first }
    ensures taken { MatchOption result ((mailbox.count ≡ 0) × (links.new.slots ≡ links.old.slots)) (λ taken. IsTaken taken.letter links.old.slots links.new.slots mailbox taken.rest) }
    ensures len { OnSome result (slab_len links.new + 1 ≡ slab_len links.old) }
{
    if mailbox.count == 0 {
        return None;
    }
    let link = links.remove(mailbox.first);
    let rest = Mailbox {
        first: link.next,
        last: mailbox.last,
        count: mailbox.count - 1,
    };
    Some(Taken {
        letter: link.letter,
        rest,
    })
}
