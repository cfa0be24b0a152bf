//! Laws that hold over any calls of tokens, and of sets of tasks.
ghost use Rattle.mono_groups.specs.JoinSetLaws.{AnsweredInOrder, EndsOnce, StaysAborted, AbortOwesAll, NoAnswerLiesIdle, ShutdownLeavesNobody, PendingJoinIsListed, GivenUpJoinIsGone};
ghost use Rattle.mono_groups.specs.TokenLaws.{StaysCancelled, BelowIsCancelled, OthersStay, ParentIsAbove, NoTokenLiesIdle, CancelOwesAll, PendingIsListed, GivenUpIsGone};

/// Shows that a cancelled token stays cancelled, whatever is called.
pub fn a_token_stays_cancelled()
    ensures { StaysCancelled }
{}

/// Shows that each token below a cancelled one is cancelled. The invariant of `Tokens` has the premise.
pub fn tokens_below_are_cancelled()
    ensures { BelowIsCancelled }
{}

/// Shows that a cancel changes no token that is not below the cancelled one.
pub fn other_tokens_stay()
    ensures { OthersStay }
{}

/// Shows that the parent of a token that was not cancelled is not below it. So a cancel of a child leaves its parent.
pub fn a_parent_is_not_below()
    ensures { ParentIsAbove }
{}

/// Shows that while nothing is owed, no task waits for a cancelled token.
pub fn no_token_lies_idle()
    ensures { NoTokenLiesIdle }
{}

/// Shows that a cancel owes a wake to each task that waits for the token or for one below it.
pub fn a_cancel_owes_all()
    ensures { CancelOwesAll }
{}

/// Shows that a future that waits for a token is listed with its task, at its ticket.
pub fn a_pending_future_is_listed()
    ensures { PendingIsListed }
{}

/// Shows that a future that is given up is listed no longer.
pub fn a_given_up_future_is_gone()
    ensures { GivenUpIsGone }
{}

/// Shows that the answers of a set are taken in the order in which the members ended, each once.
pub fn answers_are_joined_in_order<T>()
    ensures { AnsweredInOrder T }
{}

/// Shows that a member of a set ends at most once, so at most one of the answers is its own.
pub fn a_member_ends_once<T>()
    ensures { EndsOnce T }
{}

/// Shows that members that were aborted stay so, whatever is called.
pub fn a_set_stays_aborted<T>()
    ensures { StaysAborted T }
{}

/// Shows that each member that waits is owed a wake once all are aborted.
pub fn an_abort_owes_all_members<T>()
    ensures { AbortOwesAll T }
{}

/// Shows that while nothing is owed, a task waits for an answer only if none is there and a member has still to end. And that no
/// member waits once all were aborted.
pub fn no_answer_lies_idle<T>()
    ensures { NoAnswerLiesIdle T }
{}

/// Shows that a shutdown ends only if no member is left, and no answer.
pub fn a_shutdown_leaves_nobody<T>()
    ensures { ShutdownLeavesNobody T }
{}

/// Shows that a future that waits for an answer, for the end of all members or to be aborted is listed with its task.
pub fn a_pending_join_is_listed<T>()
    ensures { PendingJoinIsListed T }
{}

/// Shows that a future that is given up is listed no longer.
pub fn a_given_up_join_is_gone<T>()
    ensures { GivenUpJoinIsGone T }
{}
