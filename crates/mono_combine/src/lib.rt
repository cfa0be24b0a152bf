//! Futures made of futures: closures as futures, futures that keep their output, joins, and selects.
//!
//! A rule defines each form's answer from the answers of its branches in this poll: `join_rule`, `try_join_rule` and
//! `select_rule` of specs/Rules. The branches' own relations define how the branches are polled and given up.
#![tactic(auto)]

mod branch;
mod join_list;
mod joins;
mod list;
mod maybe;
mod nests;
mod pick;
mod poll_fns;
mod row;
mod select;
mod select_list;
mod start;
mod try_join_list;
mod try_joins;
mod try_list;
mod unlike_selects;
mod unlikes;

pub use branch::Look;
pub use join_list::JoinList;
pub use joins::Join2;
pub use maybe::{MaybeDone, maybe_done};
pub use mono_model::FastRand;
pub use nests::{
    Join3, Join4, Join5, TryJoin3, TryJoin4, TryJoin5, join3, join4, join5, try_join3, try_join4,
    try_join5,
};
pub use pick::Out;
pub use poll_fns::{PollFn, poll_fn};
pub use select::{Out2, Select2};
pub use select_list::SelectList;
pub use start::Start;
pub use try_join_list::TryJoinList;
pub use try_joins::TryJoin2;
pub use unlike_selects::{Select3, Select4, Select5, select3, select4, select5};
pub use unlikes::{OneOf3, OneOf4, OneOf5, Out3, Out4, Out5};
