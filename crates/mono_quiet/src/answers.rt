// Futures that answer at once, and yields.
ghost use Rattle.mono_quiet.specs.Numbers.{none_at_all};
ghost use Rattle.mono_quiet.specs.Answers.{ready_makes_none, lazy_makes_none, yield_makes_none};

use crate::futures::Quiet;
use mono_forms::{Lazy, Pending, Ready, YieldNow};
use mono_task::Context;

impl<T: Drop, C: Context> Quiet<C> for Ready<T> {
    ghost polls_make_none = { λ f c r g d. ready_makes_none C.work f.value c r g.value d };

    ghost cancels_make_none = { λ f. none_at_all C.work };
}

impl<T: Drop, C: Context> Quiet<C> for Pending<T> {
    ghost polls_make_none = { λ f c r g d q. none_at_all C.work c d q.1 };

    ghost cancels_make_none = { λ f. none_at_all C.work };
}

impl<C, T, F> Quiet<C> for Lazy<F>
where
    C: Context,
    F: FnOnce() -> T + Drop,
{
    fn is_quiet(&self) {}

    ghost polls_make_none = { λ f c r g d. lazy_makes_none C.work F.FnOnce f.func c r g.func d };

    ghost cancels_make_none = { λ f. none_at_all C.work };
}

impl<C: Context> Quiet<C> for YieldNow {
    ghost polls_make_none = { yield_makes_none C.work C.number C.wakes C.reaches };

    ghost cancels_make_none = { λ f. none_at_all C.work };
}
