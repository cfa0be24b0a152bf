// Streams that are made of futures.
ghost use Rattle.std.specs.Prelude.{◌≡◌, None, Some};

use crate::future_outputs::Outputs;
use crate::unfolds::Unfold;
use mono_task::{Context, TaskFuture};

/// Returns the stream of the outputs of `future`.
pub fn outputs<F>(future: F) -> Outputs<F>
    ensures { result.future ≡ future }
{
    Outputs { future }
}

/// Returns the stream of the items of the futures that `f` makes, the first of `state`. None of these may be spent.
pub fn unfold<C, X, T, F, Fut>(state: T, f: F) -> Unfold<T, F, Fut>
where
    C: Context,
    F: FnMut(T) -> Fut,
    Fut: TaskFuture<C, Output = Option<(X, T)>>,
    ensures state { result.state ≡ Some state }
    ensures f { result.f ≡ f }
    ensures made { result.made ≡ None }
{
    Unfold {
        state: Some(state),
        f,
        made: None,
    }
}
