// The pages that the program shows.
ghost use Rattle.std.specs.Prelude.{◌≡◌, ◌↔◌, IfNone, IfSome, IsTrue};
ghost use Rattle.lease_server.specs.Pages.{Asks, AsksNothing, IsHelpFlag, IsHelpWord, Shows, page_text};

use crate::status;
use mono_text::{Sink, write_all};

const HELP: &str = "usage: lease_server CORES SESSIONS ENTRIES BUCKETS ACTORS MESSAGES [still]
  answers the requests of standard input, a line each, and writes a line for each answer to standard output
words, numbers below 2^64:
  CORES      how many cores serve, each in a thread: 1 to 64
  SESSIONS   how many sessions a core has open at a time
  ENTRIES    how many entries there are in all queues of a core's locks
  BUCKETS    how many buckets a core has
  ACTORS     how many actors a core has
  MESSAGES   how many messages there are in all mailboxes of a core
  still      the clocks of the cores stay at 0
requests, and their answers; all numbers are below 2^64, and the key KEY decides the core:
  open KEY LIMIT             session SESSION: it closes LIMIT milliseconds after its last heartbeat
  beat KEY SESSION           ok
  close KEY SESSION          ok
  acquire KEY SESSION        held, once the session holds the lock of the key; or left, closed or ended
  release KEY SESSION        ok
  try KEY SESSION            held, if no session holds the lock; else busy, and the session does not wait
  owner KEY                  owner SESSION, which holds the lock; or free
  stats KEY                  stats SESSIONS ENTRIES ACTORS WAITS: how much there is in the core
  bucket KEY BURST PERIOD    bucket BUCKET: at most BURST tokens, one more every PERIOD milliseconds
  take KEY BUCKET COUNT      granted, or short TICK: it has the tokens at that tick
  spawn KEY                  actor ACTOR
  send KEY FROM TO MESSAGE   queued or waits
  receive KEY                message TO FROM MESSAGE
a refusal is: refused at-capacity, invalid, no-session, zero-limit, doubled, not-in, bad-bucket, too-many, no-bucket, idle,
  no-actor or out-of-memory
a reply is: LINE CORE ARRIVED TICK ANSWER, with two ticks of the core in milliseconds; to any other line: LINE bad
exit status: 0 done, 2 other words, 4 a read failed, 5 a write failed, 6 out of memory, 7 no thread
other words: --help, -h or help; --version
example: printf 'open 1 60000\\nacquire 1 0\\n' | lease_server 2 16 16 16 16 16\n";

const VERSION: &str = "lease_server 0.1.0\n";

/// A page that the program shows.
#[derive(Clone, Copy, Debug, PartialEq, Eq, Drop)]
pub enum Page {
    /// The help.
    Help,
    /// The version.
    Version,
}

fn is_help_flag(word: &str) -> bool
    ensures { IsTrue result ↔ IsHelpFlag word.now }
{
    word == "--help" || word == "-h"
}

fn is_help_word(word: &str) -> bool
    ensures { IsTrue result ↔ IsHelpWord word.now }
{
    is_help_flag(word) || word == "help"
}

/// Returns the page for which the only word asks, if it asks for one.
pub fn page_of(word: &str) -> Option<Page>
    ensures some { IfSome result (Asks word.now) }
    ensures none { IfNone result (AsksNothing word.now) }
{
    if is_help_word(word) {
        return Some(Page::Help);
    }
    if word == "--version" {
        return Some(Page::Version);
    }
    None
}

/// Returns the text of a page.
pub fn text_of(page: Page) -> &'static str
    ensures { result.now ≡ page_text page }
{
    match page {
        Page::Help => HELP,
        Page::Version => VERSION,
    }
}

/// Writes a page to a sink, and returns the status: `DONE`, or `WRITE` if a write failed.
pub fn write_page<K: Sink>(sink: &mut K, page: Page) -> u64
    ensures { Shows (page_text page) (K.written sink.old) (K.written sink.new) (K.faults sink.old) (K.faults sink.new) result }
{
    match write_all(sink, text_of(page).as_bytes()) {
        Ok(()) => status::DONE,
        Err(_) => status::WRITE,
    }
}
