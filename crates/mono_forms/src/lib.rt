//! Futures in sequence: a ready answer, a changed answer, one future after another, either of two, a race, a loop, and
//! a yield to other tasks.
//!
//! A form's parts define its answers and its next state by their own relations (`polls`, `cancels`). The answers that a
//! form may give in the end (`gives`) follow from those of its parts and from its closures' contracts. A part that has
//! answered is given up at once.
#![tactic(auto)]

mod answers;
mod bodies;
mod boxes;
mod either_races;
mod eithers;
mod ext;
mod flatten;
mod fuses;
mod inspectors;
mod intervals;
mod lazies;
mod lazy_spawns;
mod makers;
mod maps;
mod message_folds;
mod nests;
mod race_lists;
mod races;
mod repeats;
mod rescues;
mod sends;
mod tries;
mod yields;

pub use answers::{Pending, Ready};
pub use bodies::{SelectBodies, SelectBodies2};
pub use boxes::Boxed;
pub use either_races::RaceEither;
pub use eithers::Either;
pub use ext::FutureExt;
pub use flatten::{Flatten, Then};
pub use fuses::Fuse;
pub use inspectors::Inspect;
pub use intervals::{IntervalFor, interval_for};
pub use lazies::Lazy;
pub use lazy_spawns::LazySpawn;
pub use makers::{
    lazy, lazy_spawn, pending, race, race_either, race_list, ready, repeat, yield_now,
};
pub use maps::{Map, MapErr, MapOk};
pub use message_folds::{FoldMessages, Folded, fold_messages};
pub use nests::{race_either3, race_either4, race_either5, race3, race4, race5};
pub use race_lists::RaceList;
pub use races::Race;
pub use repeats::{Loop, Repeat};
pub use rescues::{OrElse, TryFlattenErr};
pub use sends::{AllSent, SendAll, send_all};
pub use tries::{AndThen, TryFlatten};
pub use yields::YieldNow;
