// The lines of the bytes that were read.
ghost use Rattle.std.specs.Prelude.{◌≡◌, ◌+◌, ◌<◌, ◌≤◌, ◌++◌, ◌↔◌, ℕ, [], true, false, List, length, take, MatchOption, IsTrue, IfOk, OnOk, OnErr, IfSome, IfNone};
ghost use Rattle.lease_lines.specs.Lines.{Spells, SpellsNone};
ghost use Rattle.mono_text.specs.Environment.{HasCause};
ghost use Rattle.lease_server.specs.Blocks.{rest_of, size_of, IsAtEnd};
ghost use Rattle.lease_server.specs.Routing.{HasNoFeed};
ghost use Rattle.lease_server.specs.Dispatch.{Answers, Holds, KeepsWays};
ghost use Rattle.lease_server.specs.Splits.{IsDropped, BeginsLine, Stands, HasSplit};

use crate::blocks::Block;
use crate::dispatchers::Dispatcher;
use lease_core::Request;
use lease_lines::request_of;
use memchr::memchr;
use mono_text::{Source, SourceFault};
use std::alloc::AllocError;

/// How many bytes a request has at most, without its line feed.
pub const LONGEST: usize = 88;

/// Cuts the bytes that were read into lines, and gives each to the dispatcher.
#[derive(Drop)]
pub struct Splitter {
    pub(crate) block: Block,
    // Whether bytes of the line at the front were dropped. Such a line is no request.
    pub(crate) is_long: bool,
    pub(crate) dispatcher: Dispatcher,
}

impl Splitter {
    /// Returns the splitter of a text of which nothing was read. It reads into this buffer.
    pub fn new(buffer: Vec<u8>, dispatcher: Dispatcher) -> Splitter
        ensures stands { Holds [] dispatcher → Stands [] result }
        ensures dispatcher { result.dispatcher ≡ dispatcher }
    {
        Splitter {
            block: Block::new(buffer),
            is_long: false,
            dispatcher,
        }
    }

    /// Returns the dispatcher.
    pub fn into_dispatcher(self) -> Dispatcher
        ensures { result ≡ self.dispatcher }
    {
        let Splitter {
            block: _,
            is_long: _,
            dispatcher,
        } = self;
        dispatcher
    }

    // Returns the length of the line at the front of the block's rest, if it has a line feed.
    #[inline(always)]
    fn line_length(&self) -> Option<usize>
        ensures found { IfSome result (λ count. BeginsLine count (rest_of self.now.block)) }
        ensures none { IfNone result (HasNoFeed (rest_of self.now.block)) }
    {
        memchr(b'\n', self.block.rest())
    }

    // Returns the request of the line at the front, if it is one: the bytes that were dropped of it, and this many of
    // the block's rest.
    #[inline(always)]
    fn request_at(&self, number: u64, count: usize) -> Option<Request>
        requires { count ≤ length (rest_of self.now.block) }
        ensures { (dropped : List ℕ) → IsDropped self.now.is_long dropped → MatchOption result (SpellsNone (dropped ++ take count (rest_of self.now.block))) (λ request. Spells number (dropped ++ take count (rest_of self.now.block)) request) }
    {
        if self.is_long {
            return None;
        }
        request_of(number, &self.block.rest()[..count])
    }

    // Takes the line at the front of the block's rest, which has this length, and its line feed.
    #[tactic(auto, using(crate::proofs::WayLemmas::keeps_itself))]
    #[inline(always)]
    fn take_line(&mut self, count: usize) -> Result<(), AllocError>
        requires { BeginsLine count (rest_of self.old.block) }
        ensures ways { KeepsWays self.old.dispatcher self.new.dispatcher }
        ensures stands { (text : List ℕ) → Stands text self.old → Stands text self.new }
        ensures shorter { OnOk result (length (rest_of self.new.block) < length (rest_of self.old.block)) }
        ensures size { size_of self.new.block ≡ size_of self.old.block }
    {
        let number = self.dispatcher.next()?;
        let found = self.request_at(number, count);
        self.dispatcher.take(number, found)?;
        self.block.skip(count + 1);
        self.is_long = false;
        Ok(())
    }

    // Keeps the block's rest at its front. If it fills the block, it is dropped, and the line is long.
    fn keep_rest(&mut self)
        requires size { LONGEST < size_of self.old.block }
        requires begun { HasNoFeed (rest_of self.old.block) }
        ensures same { self.new.dispatcher ≡ self.old.dispatcher }
        ensures stands { (text : List ℕ) → Stands text self.old → Stands text self.new }
        ensures begun { HasNoFeed (rest_of self.new.block) }
    {
        if self.block.keep_rest() {
            self.is_long = true;
        }
    }

    /// Returns whether the splitter can read: it has a block that is larger than a request, and not full.
    pub fn can_read(&self) -> bool
        ensures { IsTrue result ↔ ((LONGEST < size_of self.now.block) × (self.now.block.end < size_of self.now.block)) }
    {
        self.block.size() > LONGEST && !self.block.is_full()
    }

    /// Reads once into the block. Returns how many bytes. 0 is the end of the input. A failed read changes nothing.
    pub fn read<S: Source>(&mut self, source: &mut S) -> Result<usize, SourceFault>
        requires { self.old.block.end < size_of self.old.block }
        ensures same { self.new.dispatcher ≡ self.old.dispatcher }
        ensures split { HasSplit (S.left source.old) self.old (S.left source.new) self.new }
        ensures end { IfOk result (λ count. count ≡ 0 → IsAtEnd (S.left source.new)) }
        ensures cause { HasCause (S.faults source.old) (S.faults source.new) result }
        ensures size { size_of self.new.block ≡ size_of self.old.block }
    {
        self.block.read(source)
    }

    /// Takes all whole lines of the block, and keeps the beginning of the next one.
    pub fn take_lines(&mut self) -> Result<(), AllocError>
        requires { LONGEST < size_of self.old.block }
        ensures ways { KeepsWays self.old.dispatcher self.new.dispatcher }
        ensures stands { (text : List ℕ) → Stands text self.old → Stands text self.new }
        ensures begun { OnOk result (HasNoFeed (rest_of self.new.block)) }
    {
        while let Some(count) = self.line_length() {
            self.take_line(count)?;
        }
        self.keep_rest();
        Ok(())
    }

    /// Returns whether a whole line was not taken.
    pub fn has_line(&self) -> bool
        ensures { result ≡ false → HasNoFeed (rest_of self.now.block) }
    {
        match self.line_length() {
            Some(_) => true,
            None => false,
        }
    }

    // Returns whether a line has begun.
    fn has_begun(&self) -> bool
        ensures some { result ≡ true → self.now.is_long ≡ false → 0 < length (rest_of self.now.block) }
        ensures none { result ≡ false → (self.now.is_long ≡ false) × (rest_of self.now.block ≡ []) }
    {
        self.is_long || !self.block.rest().is_empty()
    }

    /// Takes the last line, if no line feed ends it. It is no request.
    #[tactic(auto, using(crate::proofs::WayLemmas::keeps_itself))]
    pub fn take_last(&mut self) -> Result<(), AllocError>
        requires { HasNoFeed (rest_of self.old.block) }
        ensures ways { KeepsWays self.old.dispatcher self.new.dispatcher }
        ensures ok { OnOk result ((text : List ℕ) → Stands text self.old → Answers text self.new.dispatcher) }
        ensures err { OnErr result ((text : List ℕ) → Stands text self.old → Stands text self.new) }
    {
        if self.has_begun() {
            let number = self.dispatcher.next()?;
            return self.dispatcher.take(number, None);
        }
        Ok(())
    }
}
