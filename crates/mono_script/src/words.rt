// The words of each command, a file each, and the words after the first that several commands share.
pub(crate) mod actors;
pub(crate) mod check;
pub(crate) mod limiter;
pub(crate) mod limits;
pub(crate) mod load;
pub(crate) mod numbers;
pub(crate) mod replay;
pub(crate) mod run;
pub(crate) mod sessions;
