// Report lines, appended to a vector of bytes.
ghost use Rattle.std.specs.Prelude.{◌≡◌, ◌≤◌, ◌<◌, ◌+◌, ◌-◌, ◌++◌, [], ◌∷◌, codes, decimal, drop, take, flat_map, length, IfSome, OnOk};
ghost use Rattle.mono_text.specs.LineText.{reply_text, refusal_text, ended_text, any_number, woke_text, reply_part, number_part, report_line};

use itoa::write_digits;
use mono_machine::{Ended, Refusal, Reply, Report, Woke};
use std::alloc::AllocError;

/// Appends a word.
#[inline(always)]
pub fn put_word(out: &mut Vec<u8>, word: &[u8]) -> Result<(), AllocError>
    ensures { OnOk result (out.new.items ≡ out.old.items ++ word.now) }
{
    out.extend_from_slice(word)
}

/// Appends a number, in decimal.
#[inline(always)]
pub fn put_number(out: &mut Vec<u8>, n: u64) -> Result<(), AllocError>
    ensures { OnOk result (out.new.items ≡ out.old.items ++ decimal n) }
{
    front_and_number(out, b"00000000000000000000".as_slice(), 0, n)
}

// Returns how many digits a number below 10,000 has.
#[inline(always)]
fn short_count(n: u64) -> usize
    requires { n < 10000 }
    ensures count { result ≡ length (decimal n) }
    ensures short { result ≤ 4 }
{
    if n < 10 {
        return 1;
    }
    if n < 100 {
        return 2;
    }
    if n < 1000 {
        return 3;
    }
    4
}

// Returns how many digits a number from 100,000,000 on has.
fn long_count(n: u64) -> usize
    requires { 100000000 ≤ n }
    ensures count { result ≡ length (decimal n) }
    ensures short { result ≤ 20 }
{
    if n < 1_000_000_000_000 {
        return short_count(n / 100_000_000) + 8;
    }
    if n < 10_000_000_000_000_000 {
        return short_count(n / 1_000_000_000_000) + 12;
    }
    short_count(n / 10_000_000_000_000_000) + 16
}

// Returns how many digits a number has. Most numbers are short.
#[inline(always)]
fn digit_count(n: u64) -> usize
    ensures count { result ≡ length (decimal n) }
    ensures short { result ≤ 20 }
{
    if n < 10_000 {
        return short_count(n);
    }
    if n < 100_000_000 {
        return short_count(n / 10_000) + 4;
    }
    long_count(n)
}

// Writes a number's digits over the bytes from a place on, and returns the place after them.
#[inline(always)]
fn write_number(out: &mut Vec<u8>, at: usize, n: u64) -> usize
    requires { at + 20 ≤ length out.old.items }
    ensures written { take result out.new.items ≡ take at out.old.items ++ decimal n }
    ensures end { (at ≤ result) × (result ≤ at + 20) }
    ensures same { length out.new.items ≡ length out.old.items }
{
    let end = at + digit_count(n);
    write_digits(n, out.as_mut_slice(), end);
    end
}

/// Appends the first `len` bytes of a word, and a number's digits after them.
///
/// The whole word is copied, and the digits are written over its last bytes. The copy takes no loop and no call if the
/// word's length is known at compile time.
#[inline(always)]
pub fn front_and_number(
    out: &mut Vec<u8>,
    word: &[u8],
    len: usize,
    n: u64,
) -> Result<(), AllocError>
    requires { len + 20 ≤ length word.now }
    ensures { OnOk result (out.new.items ≡ out.old.items ++ (take len word.now ++ decimal n)) }
{
    let at = out.len() + len;
    out.extend_from_slice(word)?;
    let end = write_number(out, at, n);
    out.truncate(end);
    Ok(())
}

// Appends a word and a number after it.
#[inline(always)]
fn word_and_number(out: &mut Vec<u8>, text: &[u8], n: u64) -> Result<(), AllocError>
    ensures { OnOk result (out.new.items ≡ out.old.items ++ (text.now ++ decimal n)) }
{
    put_word(out, text)?;
    put_number(out, n)
}

/// Appends a word and a number after it.
pub fn put_pair(out: &mut Vec<u8>, text: &[u8], n: u64) -> Result<(), AllocError>
    ensures { OnOk result (out.new.items ≡ out.old.items ++ (text.now ++ decimal n)) }
{
    word_and_number(out, text, n)
}

/// Appends the first `len` bytes of a text.
///
/// The whole text is copied. The copy takes no loop and no call if the text's length is known at compile time.
#[inline(always)]
pub fn put_front(out: &mut Vec<u8>, text: &[u8], len: usize) -> Result<(), AllocError>
    requires { len ≤ length text.now }
    ensures { OnOk result (out.new.items ≡ out.old.items ++ take len text.now) }
{
    out.extend_from_slice(text)?;
    out.truncate(out.len() - (text.len() - len));
    Ok(())
}

// Each word below has its length with it, in 24 bytes or, if a number may follow it, in 32.

fn refused_word(refusal: Refusal) -> (&'static [u8; 32], usize)
    ensures word { take result.1 result.0.now ≡ codes "; refused " ++ refusal_text refusal }
    ensures alone { take (result.1 - 2) (drop 2 result.0.now) ≡ codes "refused " ++ refusal_text refusal }
    ensures short { (2 ≤ result.1) × (result.1 < length result.0.now) }
{
    match refusal {
        Refusal::Idle => (b"; refused idle                  ", 14),
        Refusal::NoTask => (b"; refused no-task               ", 17),
        Refusal::NoTimer => (b"; refused no-timer              ", 18),
        Refusal::NoHandle => (b"; refused no-handle             ", 19),
        Refusal::Taken => (b"; refused taken                 ", 15),
        Refusal::AtCapacity => (b"; refused at-capacity           ", 21),
        Refusal::Invalid => (b"; refused invalid               ", 17),
        Refusal::NoPool => (b"; refused no-pool               ", 17),
        Refusal::Ended => (b"; refused ended                 ", 15),
    }
}

fn woke_word(woke: Woke) -> (&'static [u8; 32], usize)
    ensures word { take result.1 result.0.now ≡ codes "; " ++ woke_text woke }
    ensures alone { take (result.1 - 2) (drop 2 result.0.now) ≡ woke_text woke }
    ensures short { (2 ≤ result.1) × (result.1 < length result.0.now) }
{
    match woke {
        Woke::Queued => (b"; queued                        ", 8),
        Woke::Noted => (b"; noted                         ", 7),
        Woke::Nothing => (b"; nothing                       ", 9),
    }
}

fn ended_word(ended: Ended) -> (&'static [u8; 24], usize)
    ensures word { take result.1 result.0.now ≡ codes "; " ++ ended_text ended ++ 10 ∷ [] }
    ensures short { result.1 ≤ length result.0.now }
{
    match ended {
        Ended::Idle => (b"; idle\n                 ", 7),
        Ended::Again => (b"; again\n                ", 8),
        Ended::Done => (b"; done\n                 ", 7),
        Ended::Gone => (b"; gone\n                 ", 7),
    }
}

// Returns the word of a reply in a turn, after a semicolon and a blank, and the number after it, if there is one.
fn reply_word(reply: Reply) -> (&'static [u8; 32], usize, Option<u64>)
    ensures part { take result.1 result.0.now ++ any_number result.2 ≡ reply_part reply }
    ensures alone { take (result.1 - 2) (drop 2 result.0.now) ++ any_number result.2 ≡ reply_text reply }
    ensures short { 2 ≤ result.1 }
    ensures inside { result.1 < length result.0.now }
    ensures room { IfSome result.2 (λ _. result.1 + 20 < length result.0.now) }
{
    match reply {
        Reply::Task(t) => (b"; task                          ", 7, Some(t)),
        Reply::Woke(woke) => {
            let (word, len) = woke_word(woke);
            (word, len, None)
        }
        Reply::Sleep(s) => (b"; sleep                         ", 8, Some(s)),
        Reply::Armed => (b"; armed                         ", 7, None),
        Reply::Elapsed => (b"; elapsed                       ", 9, None),
        Reply::Dropped(None) => (b"; dropped                       ", 9, None),
        Reply::Dropped(Some(o)) => (b"; dropped                       ", 10, Some(o)),
        Reply::Job(j) => (b"; job                           ", 6, Some(j)),
        Reply::Yes => (b"; yes                           ", 5, None),
        Reply::No => (b"; no                            ", 4, None),
        Reply::Ended(None) => (b"; ended                         ", 7, None),
        Reply::Ended(Some(t)) => (b"; ended                         ", 8, Some(t)),
        Reply::Pending => (b"; pending                       ", 9, None),
        Reply::Ready => (b"; ready                         ", 7, None),
        Reply::Output(o) => (b"; ready                         ", 8, Some(o)),
        Reply::Canceled => (b"; canceled                      ", 10, None),
        Reply::Refused(refusal) => {
            let (word, len) = refused_word(refusal);
            (word, len, None)
        }
    }
}

#[inline(always)]
fn part(out: &mut Vec<u8>, item: Reply) -> Result<(), AllocError>
    ensures { OnOk result (out.new.items ≡ out.old.items ++ reply_part item) }
{
    let (word, len, n) = reply_word(item);
    match n {
        Some(n) => front_and_number(out, word.as_slice(), len, n),
        None => put_front(out, word.as_slice(), len),
    }
}

// Writes a number's digits over the bytes from a place on, if there is one, and returns the place after them.
#[inline(always)]
fn write_any(out: &mut Vec<u8>, at: usize, n: Option<u64>) -> usize
    requires inside { at < length out.old.items }
    requires room { IfSome n (λ _. at + 20 < length out.old.items) }
    ensures written { take result out.new.items ≡ take at out.old.items ++ any_number n }
    ensures inside { result < length out.new.items }
{
    match n {
        Some(n) => write_number(out, at, n),
        None => at,
    }
}

// Writes a line feed at a place, and drops the bytes after it.
#[inline(always)]
fn close(out: &mut Vec<u8>, end: usize)
    requires { end < length out.old.items }
    ensures { out.new.items ≡ take end out.old.items ++ 10 ∷ [] }
{
    out[end] = b'\n';
    out.truncate(end + 1);
}

// Appends the first bytes of a word, a number after them, if there is one, and a line feed.
#[inline(always)]
fn put_closed(out: &mut Vec<u8>, word: &[u8], len: usize, n: Option<u64>) -> Result<(), AllocError>
    requires inside { len < length word.now }
    requires room { IfSome n (λ _. len + 20 < length word.now) }
    ensures { OnOk result (out.new.items ≡ out.old.items ++ (take len word.now ++ any_number n ++ 10 ∷ [])) }
{
    let at = out.len() + len;
    out.extend_from_slice(word)?;
    let end = write_any(out, at, n);
    close(out, end);
    Ok(())
}

// Appends a line of one reply.
#[inline(always)]
fn reply_line(out: &mut Vec<u8>, item: Reply) -> Result<(), AllocError>
    ensures { OnOk result (out.new.items ≡ out.old.items ++ (reply_text item ++ 10 ∷ [])) }
{
    let (word, len, n) = reply_word(item);
    let text = word.as_slice();
    put_closed(out, &text[2..], len - 2, n)
}

#[inline(always)]
fn replies(out: &mut Vec<u8>, list: &[Reply]) -> Result<(), AllocError>
    ensures { OnOk result (out.new.items ≡ out.old.items ++ flat_map reply_part list.now) }
{
    for item in list {
        part(out, *item)?;
    }
    Ok(())
}

fn numbers(out: &mut Vec<u8>, list: &[u64]) -> Result<(), AllocError>
    ensures { OnOk result (out.new.items ≡ out.old.items ++ flat_map number_part list.now) }
{
    for item in list {
        word_and_number(out, b" ".as_slice(), *item)?;
    }
    Ok(())
}

// Appends a line of a turn.
#[inline(always)]
fn turn(out: &mut Vec<u8>, task: u64, list: &[Reply], ended: Ended) -> Result<(), AllocError>
    ensures { OnOk result (out.new.items ≡ out.old.items ++ (codes "turn " ++ decimal task ++ flat_map reply_part list.now ++ codes "; " ++ ended_text ended ++ 10 ∷ [])) }
{
    word_and_number(out, b"turn ".as_slice(), task)?;
    replies(out, list)?;
    let (word, len) = ended_word(ended);
    put_front(out, word.as_slice(), len)
}

/// Appends a line of a word and numbers: each number after a blank, and a line feed.
pub fn put_list(out: &mut Vec<u8>, text: &[u8], list: &[u64]) -> Result<(), AllocError>
    ensures { OnOk result (out.new.items ≡ out.old.items ++ (text.now ++ flat_map number_part list.now ++ 10 ∷ [])) }
{
    put_word(out, text)?;
    numbers(out, list)?;
    put_word(out, b"\n".as_slice())
}

/// Appends the line of a report: its one spelling, and a line feed.
#[inline(always)]
pub fn report_line(out: &mut Vec<u8>, item: &Report) -> Result<(), AllocError>
    ensures { OnOk result (out.new.items ≡ out.old.items ++ report_line item.now) }
{
    match item {
        Report::Reply(r) => reply_line(out, *r),
        Report::Turn(task, list, ended) => turn(out, *task, list.as_slice(), *ended),
        Report::Fired(list) => put_list(out, b"fired".as_slice(), list.as_slice()),
        Report::Listed => put_word(out, b"listed\n".as_slice()),
        Report::Unlisted => put_word(out, b"unlisted\n".as_slice()),
        Report::Drained(list) => put_list(out, b"drained".as_slice(), list.as_slice()),
    }
}
