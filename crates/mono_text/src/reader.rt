// One pass over the input by a reader that holds the rest of it.
ghost use Rattle.std.specs.Prelude.{◌≡◌, ◌+◌, ◌-◌, ◌*◌, ◌^◌, ◌<◌, ◌≤◌, ◌↔◌, IfNone, IfSome, IfOk, Some, None, length, IsTrue, if◌then◌else◌, [], slice_index, nat_lt, drop, decimal, ℕ, false};
ghost use Rattle.mono_text.specs.Lines.{BeginsWith, BeginsWithNone};
ghost use Rattle.mono_text.specs.Services.{HasNoFeed};
ghost use Rattle.mono_text.specs.Parser as Reading;
ghost use Rattle.mono_text.specs.Parser.{Gives, GivesIf, GivesEnd, word_at, number_at, nanos_at, behind_at, s_act_at, drop_at, reset_at, how_at, job_act_at, other_act_at, act_at, job_step_at, step_at, end_at, parts_at, event_at, line_at};

use mono_machine::{Act, End, Event, How, List, Query, TurnStep};
use std::alloc::{AllocError, Global};
use std::mem;

/// The rest of an input, read line by line.
#[derive(Drop)]
pub struct Reader<'a> {
    rest: &'a [u8],
}

// A number of this many digits is below 2^64.
const SHORT: usize = 18;

// A step or the end of a turn, as the reader finds it.
#[derive(Clone, Copy)]
enum TurnEnd {
    Ends(End),
    IsBad,
    IsStep,
}

// Returns the number `value` with one more digit, if it fits.
#[inline(always)]
fn next_value(value: u64, digit: u8) -> Option<u64>
    requires { 48 ≤ digit }
    ensures none { IfNone result (2 ^ 64 ≤ value * 10 + (digit - 48)) }
    ensures some { IfSome result (λ sum. (sum ≡ value * 10 + (digit - 48)) × (sum < 2 ^ 64)) }
{
    let tens = value.checked_mul(10)?;
    tens.checked_add(u64::from(digit - b'0'))
}

// Returns the same for numbers below 2^128.
#[inline(always)]
fn next_nanos(value: u128, digit: u8) -> Option<u128>
    requires { 48 ≤ digit }
    ensures none { IfNone result (2 ^ 128 ≤ value * 10 + (digit - 48)) }
    ensures some { IfSome result (λ sum. (sum ≡ value * 10 + (digit - 48)) × (sum < 2 ^ 128)) }
{
    let tens = value.checked_mul(10)?;
    tens.checked_add(u128::from(digit - b'0'))
}

// Returns whether one more digit would follow a leading zero: the value of the `len` digits so far is 0.
#[inline(always)]
fn is_leading_zero(value: u64, len: usize) -> bool
    ensures { result ≡ Reading.is_leading_zero value len }
{
    len > 0 && value == 0
}

// Returns the same for a long number.
#[inline(always)]
fn is_zero(value: u128, count: usize) -> bool
    ensures { result ≡ Reading.is_leading_zero value count }
{
    count > 0 && value == 0
}

// Returns whether the text begins with the word. It compares byte by byte, since a word is short and mostly differs in
// its first byte.
#[inline(always)]
fn begins_with(text: &[u8], word: &[u8]) -> bool
    ensures cut { word_at word.now text.now ≡ (if result then Some (drop (length word.now) text.now) else None) }
    ensures len { IsTrue result → length word.now ≤ length text.now }
{
    if text.len() < word.len() {
        return false;
    }
    'bytes: for i in 0..word.len() {
        if text[i] != word[i] {
            return false;
        }
    }
    true
}

impl<'a> Reader<'a> {
    /// Returns a reader of this input, from its first line.
    pub fn new(input: &'a [u8]) -> Reader<'a>
        ensures { result.rest.now ≡ input.now }
    {
        Reader { rest: input }
    }

    /// Returns whether no line is left.
    pub fn is_empty(&self) -> bool
        ensures { IsTrue result ↔ length self.now.rest.now ≡ 0 }
    {
        self.rest.is_empty()
    }

    /// Returns the bytes that are left.
    pub fn rest(&self) -> &'a [u8]
        ensures { result.now ≡ self.now.rest.now }
    {
        self.rest
    }

    /// Returns whether a line feed is left. Without one there is no whole line.
    pub fn has_line(&self) -> bool
        ensures { result ≡ false → HasNoFeed self.now.rest.now }
    {
        let mut rest = self.rest;
        'bytes: while let Some((byte, more)) = rest.split_first() {
            if *byte == b'\n' {
                return true;
            }
            rest = more;
        }
        false
    }

    /// Returns how many bytes are left.
    #[inline(always)]
    pub fn left(&self) -> usize
        ensures { result ≡ length self.now.rest.now }
    {
        self.rest.len()
    }

    /// Returns the next byte, or 0 at the end.
    #[inline(always)]
    pub fn first(&self) -> u8
        ensures { result ≡ slice_index self.now.rest.now 0 }
    {
        if self.rest.is_empty() {
            0
        } else {
            self.rest[0]
        }
    }

    /// Moves past the word if the rest begins with it; else nothing changes.
    #[inline(always)]
    pub fn take(&mut self, word: &[u8]) -> bool
        ensures found { word_at word.now self.old.rest.now ≡ (if result then Some self.new.rest.now else None) }
        ensures kept { (if result then self.old.rest.now else self.new.rest.now) ≡ self.old.rest.now }
    {
        if begins_with(self.rest, word) {
            self.rest = &self.rest[word.len()..];
            return true;
        }
        false
    }

    // Moves past the `len` digits of the text.
    #[inline(always)]
    fn end<N: Copy>(&mut self, text: &'a [u8], len: usize, value: N) -> Option<N>
        requires { len ≤ length text.now }
        ensures value { result ≡ (if nat_lt 0 len then Some value else None) }
        ensures rest { 0 < len → self.new.rest.now ≡ drop len text.now }
    {
        if len == 0 {
            return None;
        }
        self.rest = &text[len..];
        Some(value)
    }

    /// Returns the number below 2^64 that comes next, in decimal without sign and leading zeros, and moves past it.
    /// Returns None if no number comes next; the rest is then not specified.
    pub fn number(&mut self) -> Option<u64>
        ensures { Gives result self.new.rest.now (number_at self.old.rest.now) }
    {
        let text = self.rest;
        if self.first() == b'0' {
            return self.long_number(text);
        }
        let mut value = 0u64;
        'digits: for i in 0..text.len().min(SHORT) {
            let digit = text[i];
            if !digit.is_ascii_digit() {
                return self.end(text, i, value);
            }
            value = value * 10 + u64::from(digit - b'0');
        }
        if text.len() > SHORT {
            return self.long_number(text);
        }
        self.end(text, text.len(), value)
    }

    /// Returns the next number as [`Reader::number`] does, below 2^128.
    pub fn nanos(&mut self) -> Option<u128>
        ensures { Gives result self.new.rest.now (nanos_at self.old.rest.now) }
    {
        let text = self.rest;
        if self.first() == b'0' {
            return self.long_nanos(text);
        }
        let mut value = 0u64;
        'digits: for i in 0..text.len().min(SHORT) {
            let digit = text[i];
            if !digit.is_ascii_digit() {
                return self.end(text, i, u128::from(value));
            }
            value = value * 10 + u64::from(digit - b'0');
        }
        if text.len() > SHORT {
            return self.long_nanos(text);
        }
        self.end(text, text.len(), u128::from(value))
    }

    /// Returns the number that comes next after a blank, as [`Reader::number`] does.
    pub fn number_behind(&mut self) -> Option<u64>
        ensures { Gives result self.new.rest.now (behind_at self.old.rest.now) }
    {
        if self.take(b" ".as_slice()) {
            return self.number();
        }
        None
    }

    // Reads as `number` does, digit by digit with each test.
    fn long_number(&mut self, text: &'a [u8]) -> Option<u64>
        ensures { Gives result self.new.rest.now (number_at text.now) }
    {
        let mut value = 0u64;
        'digits: for i in 0..text.len() {
            let digit = text[i];
            if !digit.is_ascii_digit() {
                return self.end(text, i, value);
            }
            if is_leading_zero(value, i) {
                return None;
            }
            let Some(sum) = next_value(value, digit) else {
                return None;
            };
            value = sum;
        }
        self.end(text, text.len(), value)
    }

    // Reads as `nanos` does, digit by digit with each test.
    fn long_nanos(&mut self, text: &'a [u8]) -> Option<u128>
        ensures { Gives result self.new.rest.now (nanos_at text.now) }
    {
        let mut value = 0u128;
        'digits: for i in 0..text.len() {
            let digit = text[i];
            if !digit.is_ascii_digit() {
                return self.end(text, i, value);
            }
            if is_zero(value, i) {
                return None;
            }
            let Some(sum) = next_nanos(value, digit) else {
                return None;
            };
            value = sum;
        }
        self.end(text, text.len(), value)
    }

    // Reads an act whose word begins with an s.
    #[inline(always)]
    #[tactic(auto, unfolding(crate::specs::Parser::s_act_at))]
    fn s_act(&mut self) -> Option<Act>
        ensures { Gives result self.new.rest.now (s_act_at self.old.rest.now) }
    {
        if self.take(b"spawn".as_slice()) {
            return Some(Act::Spawn);
        }
        if self.take(b"sleep ".as_slice()) {
            let n = self.nanos()?;
            return Some(Act::NewSleep(n));
        }
        None
    }

    // Reads an act that drops a handle or a sleep.
    #[tactic(auto, unfolding(crate::specs::Parser::drop_at))]
    fn drop_act(&mut self) -> Option<Act>
        ensures { Gives result self.new.rest.now (drop_at self.old.rest.now) }
    {
        if self.take(b"drop-join ".as_slice()) {
            let task = self.number()?;
            return Some(Act::DropJoin(task));
        }
        if self.take(b"drop-job ".as_slice()) {
            let job = self.number()?;
            return Some(Act::DropJob(job));
        }
        if self.take(b"drop-sleep ".as_slice()) {
            let sleep = self.number()?;
            return Some(Act::DropSleep(sleep));
        }
        None
    }

    #[inline(always)]
    fn how(&mut self) -> Option<How>
        ensures { Gives result self.new.rest.now (how_at self.old.rest.now) }
    {
        if self.take(b"ran".as_slice()) {
            return Some(How::Ran);
        }
        if self.take(b"canceled".as_slice()) {
            return Some(How::Canceled);
        }
        None
    }

    // Reads an act on a job whose word begins with that of a job.
    #[tactic(auto, unfolding(crate::specs::Parser::job_act_at))]
    fn job_act(&mut self) -> Option<Act>
        ensures { Gives result self.new.rest.now (job_act_at self.old.rest.now) }
    {
        if self.take(b"job-end ".as_slice()) {
            let job = self.number()?;
            if !self.take(b" ".as_slice()) {
                return None;
            }
            let how = self.how()?;
            return Some(Act::JobEnd(job, how));
        }
        if self.take(b"job-finished ".as_slice()) {
            let job = self.number()?;
            return Some(Act::JobFinished(job));
        }
        None
    }

    // Reads the sleep and the deadline of a reset.
    fn reset(&mut self) -> Option<Act>
        ensures { Gives result self.new.rest.now (reset_at self.old.rest.now) }
    {
        let sleep = self.number()?;
        if !self.take(b" ".as_slice()) {
            return None;
        }
        let n = self.nanos()?;
        Some(Act::Reset(sleep, n))
    }

    // Reads an act whose first letter no other act has.
    #[tactic(auto, unfolding(crate::specs::Parser::other_act_at))]
    fn other_act(&mut self) -> Option<Act>
        ensures { Gives result self.new.rest.now (other_act_at self.old.rest.now) }
    {
        if self.take(b"wake ".as_slice()) {
            let task = self.number()?;
            return Some(Act::Wake(task));
        }
        if self.take(b"block ".as_slice()) {
            let output = self.number()?;
            return Some(Act::Block(output));
        }
        if self.take(b"finished ".as_slice()) {
            let task = self.number()?;
            return Some(Act::Finished(task));
        }
        if self.take(b"elapsed ".as_slice()) {
            let sleep = self.number()?;
            return Some(Act::SleepElapsed(sleep));
        }
        if self.take(b"reset ".as_slice()) {
            return self.reset();
        }
        None
    }

    // Reads an act, alone or in a turn.
    #[tactic(auto, unfolding(crate::specs::Parser::act_at))]
    fn act(&mut self) -> Option<Act>
        ensures { Gives result self.new.rest.now (act_at self.old.rest.now) }
    {
        let first = self.first();
        if first == b's' {
            return self.s_act();
        }
        if first == b'd' {
            return self.drop_act();
        }
        if first == b'j' {
            return self.job_act();
        }
        self.other_act()
    }

    // Reads a poll of a task or a job, or an act on a job.
    #[tactic(auto, unfolding(crate::specs::Parser::job_step_at))]
    fn job_step(&mut self) -> Option<TurnStep>
        ensures { Gives result self.new.rest.now (job_step_at self.old.rest.now) }
    {
        if self.take(b"join ".as_slice()) {
            let task = self.number()?;
            return Some(TurnStep::Query(Query::Join(task)));
        }
        if self.take(b"job ".as_slice()) {
            let job = self.number()?;
            return Some(TurnStep::Query(Query::Job(job)));
        }
        let act = self.job_act()?;
        Some(TurnStep::Act(act))
    }

    // Reads a step of a turn: an act or a poll.
    #[inline(always)]
    #[tactic(auto, unfolding(crate::specs::Parser::step_at))]
    fn step(&mut self) -> Option<TurnStep>
        ensures { Gives result self.new.rest.now (step_at self.old.rest.now) }
    {
        let first = self.first();
        if first == b'p' {
            if self.take(b"poll ".as_slice()) {
                let sleep = self.number()?;
                return Some(TurnStep::Query(Query::Sleep(sleep)));
            }
            return None;
        }
        if first == b'j' {
            return self.job_step();
        }
        let act = self.act()?;
        Some(TurnStep::Act(act))
    }

    // Reads the end of a turn, if it comes next.
    #[inline(always)]
    #[tactic(auto, unfolding(crate::specs::Parser::end_at))]
    fn turn_end(&mut self) -> TurnEnd
        ensures { GivesEnd result self.old.rest.now self.new.rest.now (end_at self.old.rest.now) }
    {
        if self.take(b"pending".as_slice()) {
            return TurnEnd::Ends(End::Pending);
        }
        if self.take(b"ready ".as_slice()) {
            return match self.number() {
                Some(output) => TurnEnd::Ends(End::Ready(output)),
                None => TurnEnd::IsBad,
            };
        }
        TurnEnd::IsStep
    }

    // Reads the parts of a turn, after its word. The list is emptied, and its memory used for the steps.
    #[inline(always)]
    fn parts(&mut self, mut steps: List<TurnStep>) -> Result<Option<Event>, AllocError>
        ensures { GivesIf result self.new.rest.now (parts_at (length self.old.rest.now) [] self.old.rest.now) }
    {
        steps.clear();
        'parts: for _ in 0..self.rest.len() {
            if !self.take(b"; ".as_slice()) {
                return Ok(None);
            }
            match self.turn_end() {
                TurnEnd::Ends(end) => return Ok(Some(Event::Turn(steps, end))),
                TurnEnd::IsBad => return Ok(None),
                TurnEnd::IsStep => {
                    let Some(step) = self.step() else {
                        return Ok(None);
                    };
                    steps.push(step)?;
                }
            }
        }
        Ok(None)
    }

    /// Returns the event that comes next, without a line feed, and moves past it. Returns None if no event comes next;
    /// the rest is then not specified. It uses the spare list as [`Reader::line`] does.
    #[inline(always)]
    #[tactic(auto, using(crate::proofs::FirstByteLemmas::event_from_s), unfolding(crate::specs::Parser::event_at))]
    pub fn event(
        &mut self,
        alloc: Global,
        spare: &mut List<TurnStep>,
    ) -> Result<Option<Event>, AllocError>
        ensures { GivesIf result self.new.rest.now (event_at self.old.rest.now) }
    {
        if self.first() == b's' {
            let Some(act) = self.s_act() else {
                return Ok(None);
            };
            return Ok(Some(Event::Act(act)));
        }
        if self.take(b"turn".as_slice()) {
            let steps = mem::replace(spare, List::new(alloc));
            return self.parts(steps);
        }
        if self.take(b"clock ".as_slice()) {
            let Some(n) = self.nanos() else {
                return Ok(None);
            };
            return Ok(Some(Event::Clock(n)));
        }
        if self.take(b"remote ".as_slice()) {
            let Some(task) = self.number() else {
                return Ok(None);
            };
            return Ok(Some(Event::Remote(task)));
        }
        if self.take(b"drain".as_slice()) {
            return Ok(Some(Event::Drain));
        }
        let Some(act) = self.act() else {
            return Ok(None);
        };
        Ok(Some(Event::Act(act)))
    }

    // Returns the next line as the definitions of `Reading` have it.
    #[inline(always)]
    #[tactic(auto, unfolding(crate::specs::Parser::line_at))]
    fn line_read(
        &mut self,
        alloc: Global,
        spare: &mut List<TurnStep>,
    ) -> Result<Option<Event>, AllocError>
        ensures { GivesIf result self.new.rest.now (line_at self.old.rest.now) }
    {
        let Some(event) = self.event(alloc, spare)? else {
            return Ok(None);
        };
        if self.take(b"\n".as_slice()) {
            return Ok(Some(event));
        }
        Ok(None)
    }

    /// Returns the event that the next line spells, and moves past the line. Returns None if it spells none; the rest
    /// is then not specified.
    ///
    /// The memory of the spare list is used for the steps of a turn, so the list of an earlier turn can serve again.
    /// The list has no other use.
    pub fn line(
        &mut self,
        alloc: Global,
        spare: &mut List<TurnStep>,
    ) -> Result<Option<Event>, AllocError>
        ensures found { IfOk result (λ found. IfSome found (λ e. BeginsWith self.old.rest.now e self.new.rest.now)) }
        ensures none { IfOk result (λ found. IfNone found (BeginsWithNone self.old.rest.now)) }
    {
        self.line_read(alloc, spare)
    }
}

/// Returns the number below 2^64 that is the whole text, in decimal without sign and leading zeros, or None.
pub fn whole_number(text: &[u8]) -> Option<u64>
    ensures found { IfSome result (λ n. (text.now ≡ decimal n) × (n < 2 ^ 64)) }
    ensures none { IfNone result ((n : ℕ) → n < 2 ^ 64 → text.now ≡ decimal n → ⊥) }
{
    let mut reader = Reader::new(text);
    let n = reader.number()?;
    if reader.is_empty() { Some(n) } else { None }
}
