// The members of a set of tasks: their places in it, and their answers.
ghost use Rattle.std.specs.Prelude.{◌≡◌};

use crate::until::Aborted;

/// The place of one future in a [`JoinSet`](crate::join_set::JoinSet). Only the set makes one, and each is for one future.
#[derive(Debug, Drop)]
pub struct Member {
    pub(crate) key: u64,
}

impl Member {
    /// Returns the key of the member. A set counts its keys from 0, and gives none out twice.
    pub fn key(&self) -> u64
        ensures { result ≡ self.now.key }
    {
        self.key
    }
}

/// A member of a set that has ended.
#[derive(Debug, Drop)]
pub struct Ended<T> {
    /// The key of the member.
    pub key: u64,
    /// The output of its future, or why that was given up.
    pub answer: Result<T, Aborted>,
}
