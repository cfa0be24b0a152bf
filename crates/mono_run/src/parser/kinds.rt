// A script in the form in which it is run.
use crate::scripts::BodyLine;
use mono_machine::Limits;
use std::marker::Model;

/// The lines that the tasks of a kind run, at most 127, and the output of each of them.
#[derive(Drop)]
pub struct TaskKind {
    pub body: Vec<BodyLine>,
    pub output: u64,
}

impl Model for TaskKind {
    ghost use Rattle.std.specs.Prelude.{◌≤◌, length};
    ghost use Rattle.mono_run.specs.Script.{Kind};

    ghost Value = { Kind };

    ghost view = { λ a. record { body = a.body.items; output = a.output } };

    ghost invariant = { λ a. length a.body.items ≤ 127 };
}

/// A script: its limits, and its kinds, which are numbered from 0. The main task is of kind 0.
#[derive(Drop)]
pub struct Script {
    pub limits: Limits,
    pub kinds: Vec<TaskKind>,
}

impl Model for Script {
    ghost use Rattle.mono_run.specs.Script as scripts;

    ghost Value = { scripts.Script };

    ghost view = { λ a. record { limits = a.limits; kinds = a.kinds.items } };
}
