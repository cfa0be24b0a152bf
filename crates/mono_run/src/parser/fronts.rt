// The front of a script, which grows line by line.
ghost use Rattle.std.specs.Prelude.{◌≡◌, ◌≤◌, ◌<◌, false, IfNone, IfOk, IfSome, IsTrue, None, Some, [], codes, length};
ghost use Rattle.mono_run.specs.Fronts.{Continues, ContinuesNever, begun, front, script_of};

use crate::parser::kinds::{Script, TaskKind};
use crate::parser::order::may_stand;
use crate::parser::words::{body_line, numbered};
use crate::scripts::BodyLine;
use mono_machine::Limits;
use std::alloc::{AllocError, Global};
use std::marker::Model;

/// The greatest number of kinds in a script.
const MOST_KINDS: usize = 64;

/// The greatest number of lines in the body of a kind.
const MOST_LINES: usize = 127;

/// The part of a script that was read: its limits, whole kinds, and the lines of one more kind whose end was not read
/// yet.
#[derive(Drop)]
pub(crate) struct Front {
    limits: Limits,
    kinds: Vec<TaskKind>,
    inside: Option<Vec<BodyLine>>,
}

impl Model for Front {
    ghost use Rattle.std.specs.Prelude.{◌≤◌, IfSome, length};
    ghost use Rattle.std.specs.Option.{option_map};
    ghost use Rattle.mono_run.specs.Fronts as fronts;

    ghost Value = { fronts.Front };

    ghost view = { λ a. record { limits = a.limits; kinds = a.kinds.items; inside = option_map (λ v. v.items) a.inside } };

    ghost invariant = { λ a. IfSome a.inside (λ v. length v.items ≤ 127) };
}

impl Front {
    /// Returns the front with the limits alone.
    pub fn new(alloc: Global, limits: Limits) -> Front
        ensures { result ≡ begun limits }
    {
        Front {
            limits,
            kinds: Vec::new(alloc),
            inside: None,
        }
    }

    // Reads a line between two kinds.
    fn open(&mut self, alloc: Global, text: &[u8]) -> bool
        requires { self.old.inside ≡ None }
        ensures taken { IsTrue result → (text.now ≡ codes "task") × (length self.old.kinds < 64) × (self.new ≡ front self.old.limits self.old.kinds (Some [])) }
        ensures refused { result ≡ false → text.now ≡ codes "task" → length self.old.kinds < 64 → ⊥ }
    {
        if text != b"task".as_slice() || self.kinds.len() >= MOST_KINDS {
            return false;
        }
        self.inside = Some(Vec::new(alloc));
        true
    }

    // Reads a line inside a kind with these lines, which were taken out.
    fn put_inside(
        &mut self,
        kinds: usize,
        body: Vec<BodyLine>,
        text: &[u8],
    ) -> Result<bool, AllocError>
        requires none { self.old.inside ≡ None }
        requires few { length body.items ≤ 127 }
        ensures taken { IfOk result (λ taken. IsTrue taken → Continues kinds (front self.old.limits self.old.kinds (Some body.items)) text.now self.new) }
        ensures refused { IfOk result (λ taken. taken ≡ false → ContinuesNever kinds (front self.old.limits self.old.kinds (Some body.items)) text.now) }
    {
        let mut body = body;
        if let Some(output) = numbered(text, b"done ".as_slice()) {
            self.kinds.push(TaskKind { body, output })?;
            return Ok(true);
        }
        let Some(line) = body_line(text) else {
            return Ok(false);
        };
        if body.len() >= MOST_LINES || !may_stand(kinds, &body, line) {
            return Ok(false);
        }
        body.push(line)?;
        self.inside = Some(body);
        Ok(true)
    }

    /// Adds a line, in a script whose lines may name the kinds below `kinds`. Returns false if the line may not follow;
    /// the front is then of no further use.
    pub fn put(&mut self, alloc: Global, kinds: usize, text: &[u8]) -> Result<bool, AllocError>
        ensures taken { IfOk result (λ taken. IsTrue taken → Continues kinds self.old text.now self.new) }
        ensures refused { IfOk result (λ taken. taken ≡ false → ContinuesNever kinds self.old text.now) }
    {
        match self.inside.take() {
            None => Ok(self.open(alloc, text)),
            Some(body) => self.put_inside(kinds, body, text),
        }
    }

    /// Returns the script, if it has at least one kind and the end of the last kind was read.
    pub fn into_script(self) -> Option<Script>
        ensures whole { IfSome result (λ s. (self.inside ≡ None) × (1 ≤ length self.kinds) × (s ≡ script_of self)) }
        ensures none { IfNone result (self.inside ≡ None → length self.kinds ≡ 0) }
    {
        let Front {
            limits,
            kinds,
            inside,
        } = self;
        if inside.is_some() || kinds.is_empty() {
            return None;
        }
        Some(Script { limits, kinds })
    }
}
