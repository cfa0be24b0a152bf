// The answer of a select of a list.

/// The answer of a select of a list of branches.
#[derive(Clone, Copy, Debug, PartialEq, Eq, Drop)]
pub enum Out<X> {
    /// The number of the branch that was picked, from 0 on, and its output.
    Picked(u32, X),
    /// No branch is left that could be picked.
    Disabled,
}
