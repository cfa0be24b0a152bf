// How the program exits, by the command's end and by its words.
ghost use Rattle.std.specs.Prelude.{◌≡◌, ◌≢◌, ◌↔◌, true, IfSome, IfNone, IsTrue, drop};
ghost use Rattle.mono_script.specs.TopCall.{code_of};
ghost use Rattle.mono_script.specs.declared.ends.Status.TheVariants as status;

use crate::ends::{Ended, Status};

/// Returns the number with which a program ends: that of the command's status, or 2 if the words were no command.
pub fn exit_code(ended: &Option<Ended>) -> u8
    ensures { result ≡ code_of ended.now }
{
    match ended {
        Some(ended) => ended.status.code(),
        None => 2,
    }
}

/// Returns whether the program joins the workers before it exits: unless it ran out of memory, when it exits at once.
pub fn joins_workers(ended: &Option<Ended>) -> bool
    ensures some { IfSome ended.now (λ e. IsTrue result ↔ (e.status ≢ status.OutOfMemory)) }
    ensures none { IfNone ended.now (result ≡ true) }
{
    match ended {
        Some(ended) => ended.status != Status::OutOfMemory,
        None => true,
    }
}

/// Returns the words after the program's name, which is the first of all.
pub fn words_behind(all: Vec<String>) -> Vec<String>
    ensures { result.items ≡ drop 1 all.items }
{
    let mut words = all;
    if !words.is_empty() {
        words.remove(0);
    }
    words
}
