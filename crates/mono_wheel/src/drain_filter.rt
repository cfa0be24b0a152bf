//! Removal of the nodes of a list that a closure chooses, one at a time.
ghost use Rattle.std.specs.Prelude.{◌≡◌, ◌<◌, length};
ghost use Rattle.std.specs.Iterator.{at_most};
ghost use Rattle.mono_wheel.specs.Lists.{list_at};
ghost use Rattle.mono_wheel.specs.Drains.{left_of, links_of, lender_of, closure_of, CanStep, DrainSteps, Drains};

use crate::Links;
use std::iter::Iterator;

/// An iterator that removes and returns the nodes of a list that a closure chooses, from front to back.
///
/// It asks the closure once for each node. Nodes for which it was not asked stay when the iterator is dropped.
#[must_use]
#[derive(Drop)]
pub struct DrainFilter<'a, F> {
    links: &'a mut Links,
    list: usize,
    // The node that is asked next, or None if all were asked.
    at: Option<usize>,
    choose: F,
}

impl Links {
    /// Removes and returns the nodes of a list for which `choose` returns true, from front to back.
    pub fn drain_filter<F: FnMut(usize) -> bool>(
        &mut self,
        list: usize,
        choose: F,
    ) -> DrainFilter<'_, F>
        requires { list < length self.old.lists }
        ensures left { left_of result ≡ list_at self.old list }
        ensures links { links_of result ≡ self.old }
        ensures same_reference { lender_of result ≡ self.entry.ghost_name }
        ensures closure { closure_of result ≡ choose }
        ensures ready { CanStep result }
        ensures drains { Drains F.step self.old list choose result }
    {
        let at = self.first(list);
        DrainFilter {
            links: self,
            list,
            at,
            choose,
        }
    }
}

impl<'a, F: FnMut(usize) -> bool> Iterator for DrainFilter<'a, F> {
    type Item = usize;

    ghost can_next = { λ s. F.IsAlwaysCallable s.choose × CanStep s };

    ghost next_gives = { DrainSteps F.step };

    ghost remaining = { λ s. at_most (length (left_of s)) };

    fn next(&mut self) -> Option<usize> {
        while let Some(node) = self.at {
            self.at = self.links.after(self.list, node);
            if (self.choose)(node) {
                self.links.remove(self.list, node);
                return Some(node);
            }
        }
        None
    }
}
