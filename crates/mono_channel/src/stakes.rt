// What the ends of a channel know of the senders that are open, and the rule of their count.
ghost use Rattle.std.specs.Prelude.{◌≡◌};

use atomic_table::{Join, Play, Seat, Split, Table, TableRule};
use std::alloc::Global;

/// What one end knows of the senders that are open. It exists in proofs alone.
pub struct Standing {
    /// How many open senders it counts for: 1 for a sender that was not closed.
    pub senders: u64,
    /// It saw that no sender is open.
    pub over: bool,
}

/// The rule of the count: the word is the number of the senders that are open.
pub struct Counted;

impl TableRule<(), Standing, ()> for Counted {
    ghost use Rattle.std.specs.Prelude.{false};
    ghost use Rattle.mono_channel.specs.Standings.{Counts, standing};

    ghost holds = { λ _. Counts };

    ghost first = { λ _. standing 1 false };
}

// One more sender is open.
pub(crate) struct Enters;

impl Play<(), Standing> for Enters {
    ghost use Rattle.mono_channel.specs.Standings.{entered};

    ghost then = { entered };
}

// A sender is closed.
pub(crate) struct Leaves;

impl Play<(), Standing> for Leaves {
    ghost use Rattle.mono_channel.specs.Standings.{left};

    ghost then = { left };
}

// An end sees whether one is open.
pub(crate) struct Looks;

impl Play<(), Standing> for Looks {
    ghost use Rattle.mono_channel.specs.Standings.{looked};

    ghost then = { looked };
}

// One of the open senders is for a new end.
pub(crate) struct Hands;

impl Split<Standing> for Hands {
    ghost use Rattle.std.specs.Prelude.{false, ◌-◌};
    ghost use Rattle.mono_channel.specs.Standings.{standing};

    ghost left = { λ v. standing (v.senders - 1) v.over };

    ghost right = { λ v. standing 1 false };
}

// A new end counts for none.
pub(crate) struct Shows;

impl Split<Standing> for Shows {
    ghost use Rattle.std.specs.Prelude.{false};
    ghost use Rattle.mono_channel.specs.Standings.{standing};

    ghost left = { λ v. v };

    ghost right = { λ v. standing 0 false };
}

// An end takes in what another counts for.
pub(crate) struct Gathers;

impl Join<Standing> for Gathers {
    ghost use Rattle.std.specs.Prelude.{false, ◌+◌};
    ghost use Rattle.mono_channel.specs.Standings.{standing};

    ghost both = { λ v w. standing (v.senders + w.senders) v.over };

    ghost spent = { standing 0 false };
}

/// What an end knows of a count. It has no bytes.
pub(crate) type Stake = Seat<(), Standing>;

/// The number of the senders that are open. It changes in single steps, and each end may read it.
#[derive(Drop)]
pub(crate) struct SenderCount {
    pub(crate) table: Table<(), Standing, (), Counted, Global>,
    ghost one_word: { table.shared.table_id.words ≡ 1 },
}
