//! Laws that hold over any calls of channels, of a semaphore, of a notice and of a watched value.
ghost use Rattle.mono_sync.specs.Laws.{PermitsAreKept, FirstComeFirstServed, ServedInOrder, InOrder, NothingAfterClose, StaysBounded, ReceivedOnce};
ghost use Rattle.mono_sync.specs.Unbounded.{UnboundedIsNeverFull};
ghost use Rattle.mono_sync.specs.WaitLaws.{PendingIsListed, PendingSenderIsListed, PendingReceiverIsListed, PendingDeliveryIsListed, PendingNoticeIsListed, PendingChangeIsListed, TakesOutItsOwn, NoPermitLiesIdle, NoMessageLiesIdle, NoDeliveryLiesIdle, NoNoticeLiesIdle, NoChangeLiesIdle};
ghost use Rattle.mono_sync.specs.LineLaws.{NoTaskIsOvertaken, NoSenderIsOvertaken, WaitsIfReserved, WaitsIfPromised, PassesItsPermitOn, PassesItsPlaceOn, PassesItsNoticeOn, NoticeReachesAll, NoticeOutlivesNoticeToAll, WokenHasNotice, UndrawnIsNoTicket};

/// Shows that the given permits are never more than those free at the start and those put back.
pub fn permits_are_kept()
    ensures { PermitsAreKept }
{}

/// Shows that the task that has waited longest is served first.
pub fn first_come_first_served()
    ensures { FirstComeFirstServed }
{}

/// Shows that of the senders, and of the receivers, the one that has waited longest is served first.
pub fn served_in_order<T>()
    ensures { ServedInOrder T }
{}

/// Shows that the messages received from an empty channel are a prefix of those sent, in order, each once.
pub fn received_in_order<T>()
    ensures { InOrder T }
{}

/// Shows that once a channel was closed, the queued messages are received and no others.
pub fn nothing_after_close<T>()
    ensures { NothingAfterClose T }
{}

/// Shows that a channel never has more messages than its bound.
pub fn stays_bounded<T>()
    ensures { StaysBounded T }
{}

/// Shows that no task waits to send, and no message is refused as `Full`, as long as the queued and the sent messages are fewer
/// than the bound.
pub fn unbounded_is_never_full<T>()
    ensures { UnboundedIsNeverFull T }
{}

/// Shows that a oneshot channel takes one message at most and none after a close, and that it comes out once.
pub fn received_once<T>()
    ensures { ReceivedOnce T }
{}

/// Shows that a pending acquire is listed with its task, at its ticket.
pub fn a_pending_acquire_is_listed()
    ensures { PendingIsListed }
{}

/// Shows that a pending send is listed with its task, at its ticket among the senders.
pub fn a_pending_send_is_listed<T>()
    ensures { PendingSenderIsListed T }
{}

/// Shows that a pending receive is listed with its task, at its ticket among the receivers.
pub fn a_pending_receive_is_listed<T>()
    ensures { PendingReceiverIsListed T }
{}

/// Shows that a pending receive of the one message is listed with its task, at its ticket.
pub fn a_pending_delivery_is_listed<T>()
    ensures { PendingDeliveryIsListed T }
{}

/// Shows that a future that waits for a notice is listed with its task, at its ticket.
pub fn a_pending_notice_is_listed()
    ensures { PendingNoticeIsListed }
{}

/// Shows that a future that waits for another value is listed with its task, at its ticket.
pub fn a_pending_change_is_listed<T>()
    ensures { PendingChangeIsListed T }
{}

/// Shows that an acquire that asks or is given up takes out its own task alone, at its own ticket.
pub fn a_future_takes_out_its_own()
    ensures { TakesOutItsOwn }
{}

/// Shows that while a task waits for a permit and nothing is owed, no permit is free.
pub fn no_permit_lies_idle()
    ensures { NoPermitLiesIdle }
{}

/// Shows that while a task waits at a channel and nothing is owed, no place is free for it, or no message is there for it.
pub fn no_message_lies_idle<T>()
    ensures { NoMessageLiesIdle T }
{}

/// Shows that while a task waits for the one message and nothing is owed, the message is not there or is promised.
pub fn no_delivery_lies_idle<T>()
    ensures { NoDeliveryLiesIdle T }
{}

/// Shows that while a task waits for a notice and nothing is owed, no notice is left.
pub fn no_notice_lies_idle()
    ensures { NoNoticeLiesIdle }
{}

/// Shows that while a task waits for another value and nothing is owed, none was sent since it came.
pub fn no_change_lies_idle<T>()
    ensures { NoChangeLiesIdle T }
{}

/// Shows that a permit is taken at once only if each task that waits is owed one.
pub fn no_task_is_overtaken()
    ensures { NoTaskIsOvertaken }
{}

/// Shows that a message is sent or received at once only if each task that waits before it is owed its place or message.
pub fn no_sender_is_overtaken<T>()
    ensures { NoSenderIsOvertaken T }
{}

/// Shows that while a task waits for a permit and nothing is owed, each free permit is reserved, whatever is called.
pub fn waits_if_reserved()
    ensures { WaitsIfReserved }
{}

/// Shows that while a task waits at a channel and nothing is owed, each free place, or each message, is reserved.
pub fn waits_if_promised<T>()
    ensures { WaitsIfPromised T }
{}

/// Shows that if a future that was served is given up, its permit is owed to the first task that waits.
pub fn a_permit_is_passed_on()
    ensures { PassesItsPermitOn }
{}

/// Shows that if a future that was served is given up, its place or message is owed to the first task that waits.
pub fn a_place_is_passed_on<T>()
    ensures { PassesItsPlaceOn T }
{}

/// Shows that if a future that has a notice to one is given up, the first task that waits is owed a notice.
pub fn a_notice_is_passed_on()
    ensures { PassesItsNoticeOn }
{}

/// Shows that each task that waits at a notice to all is owed it.
pub fn a_notice_to_all_reaches_all()
    ensures { NoticeReachesAll }
{}

/// Shows that whatever is called, a future that has a notice to one keeps it, if at most one notice to all came since its
/// first poll.
pub fn a_notice_outlives_a_notice_to_all()
    ensures { NoticeOutlivesNoticeToAll }
{}

/// Shows that a task that is woken for a notice to one has it.
pub fn a_woken_task_has_its_notice()
    ensures { WokenHasNotice }
{}

/// Shows that a number that was never drawn takes nobody's grant.
pub fn an_undrawn_number_is_no_ticket()
    ensures { UndrawnIsNoTicket }
{}
