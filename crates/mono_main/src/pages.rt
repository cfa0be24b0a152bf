// The pages that the program shows, and their texts.
ghost use Rattle.std.specs.Prelude.{◌≡◌, Some, IfNone, IfSome};
ghost use Rattle.mono_main.specs.Pages.{topic_name, page_text, NamesNoTopic};

const HELP: &str = "usage:
  monoio replay STRATEGY TASKS JOBS SLEEPS
      replays the event lines of standard input and writes a report line for each
      STRATEGY: attached, local or panic; TASKS, JOBS, SLEEPS: limits, numbers below 2^64
  monoio run WORKERS TURNS
      runs the script of standard input, and writes the journal of what was done
      WORKERS: threads for blocking jobs, at most 64, and with 0 time is only counted; TURNS: at most 65536
  monoio load SEED COUNT
      replays a long input that the seed gives, and writes one line that sums up its reports
      SEED: a number below 2^64; COUNT: at most 100000
  monoio sessions SESSIONS ENTRIES
      reads lines that say calls on sessions and locks, and writes the answer of each
      SESSIONS: how many may be open; ENTRIES: how many may stand in all queues; numbers below 2^64
  monoio limiter BUCKETS RETRIES
      answers lines that make and use token buckets and retries, a line for each
      BUCKETS, RETRIES: limits, numbers below 2^64
  monoio actors ACTORS MESSAGES
      makes the calls on actors that the lines of standard input say, and writes a line of answers for each
      ACTORS, MESSAGES: limits, numbers below 2^64
  monoio check STRATEGY TASKS JOBS SLEEPS
      reads a journal, event lines with their report lines, and writes yes where it is a run of the machine,
      or no and the number of the first line that no step allows
  monoio check --whole STRATEGY TASKS JOBS SLEEPS
      also says no where a line is out of order or missing in whole calls of block_on
  monoio COMMAND --follow WORD ..
      answers each line as soon as it was read, up to the first bad one; of replay, sessions, limiter and actors
  monoio --help, -h or help
  monoio COMMAND --help, or help COMMAND
      shows the command's words, the form of each line that it reads and writes, its statuses and an example
  monoio --version
event lines begin with: spawn, wake, sleep, reset, drop-sleep, elapsed, drop-join, finished, block, drop-job, job-finished,
      job-end, turn, clock, remote, drain; in a turn also poll, join, job, pending, ready
example: printf 'spawn\\nturn; sleep 5000000; poll 0; pending\\nclock 5000000\\n' | monoio replay attached 16 16 16
exit status: 0 done, 2 no such command, 3 a bad line, 4 a read failed, 5 a write failed, 6 out of memory,
      7 more than 16777216 bytes of input (with --follow, of a line), 8 a run had no turn left,
      10 no place for a run's main task, 11 a journal that is no run\n";

const VERSION: &str = "monoio 0.1.0, after the crate monoio 0.2.4\n";

const REPLAY: &str = "usage: monoio replay [--follow] STRATEGY TASKS JOBS SLEEPS < EVENTS
  applies the events of standard input to an executor, and writes a report line for each
words:
  --follow          answers each line as soon as it was read, up to the first bad one
  STRATEGY          attached (a job ends by a job-end), local (it has run on the caller) or panic (it is refused)
  TASKS JOBS SLEEPS how many there may be at a time, numbers below 2^64
lines, and their reports; TASK, JOB, SLEEP and OUTPUT are below 2^64, NANOS below 2^128:
  spawn                     task TASK, or refused at-capacity
  wake TASK                 queued, noted or nothing
  sleep NANOS               sleep SLEEP: a sleep until that instant
  reset SLEEP NANOS         armed, or elapsed if the instant is not ahead
  drop-sleep SLEEP          dropped
  elapsed SLEEP             yes or no
  drop-join TASK            dropped, or dropped OUTPUT
  finished TASK             yes or no
  block OUTPUT              job JOB: a blocking job with this output
  drop-job JOB              dropped, or dropped OUTPUT
  job-finished JOB          yes or no
  job-end JOB ran           ended, or ended TASK with the task that waited
  job-end JOB canceled      ended, or ended TASK with the task that waited
  turn; STEP; pending       turn TASK; REPLY; idle or again, with any number of steps
  turn; STEP; ready OUTPUT  turn TASK; REPLY; done or gone, with any number of steps
  clock NANOS               fired, and the sleeps that fired
  remote TASK               listed or unlisted: a wake from another thread
  drain                     drained, and the tasks that were listed
steps of a turn are the lines from spawn to job-end, and these:
  poll SLEEP                pending or ready
  join TASK                 pending, or ready OUTPUT
  job JOB                   pending, ready OUTPUT or canceled
a refusal is: refused idle, no-task, no-timer, no-handle, taken, at-capacity, invalid, no-pool or ended
exit status: 0 done, 2 other words, 3 a bad line, 4 a read failed, 5 a write failed, 6 out of memory,
  7 more than 16777216 bytes of input (with --follow, of a line)
example: printf 'spawn\\nturn; sleep 5000000; poll 0; pending\\nclock 5000000\\n' | monoio replay attached 16 16 16\n";

const RUN: &str = "usage: monoio run WORKERS TURNS < SCRIPT
  runs the script of standard input on a runtime, and writes the journal of what was done
words:
  WORKERS           threads for blocking jobs, at most 64; with 0 jobs run on the caller and time is only counted
  TURNS             how many turns, and parks after which no task is queued, there may be, at most 65536
lines; the first is limits, then 1 to 64 kinds follow, each from task to done; the main task is of kind 0:
  limits TASKS JOBS SLEEPS  how many there may be at a time
  task                      begins a kind; the first is kind 0
  spawn KIND                makes a task of that kind; the first of a kind is own task 0
  join TASK                 waits for own task TASK
  detach TASK               drops the handle of own task TASK
  await-sleep NANOS         waits so long
  block OUTPUT              makes a blocking job with this output; the first of a kind is own job 0
  await-job JOB             waits for own job JOB
  drop-job JOB              drops the handle of own job JOB
  yield                     wakes itself and ends its turn
  done OUTPUT               ends the kind, whose tasks have this output
the journal has these lines:
  EVENT -> REPORT           an event line and its report line, as of replay
  now NANOS                 what the clock showed
  park                      the driver was parked without an end
  park MILLIS               the driver was parked, so long at most
  main OUTPUT               the output of the main task
exit status: 0 done, 2 other words, 3 a bad line, 4 a read failed, 5 a write failed, 6 out of memory,
  7 more than 16777216 bytes of input, 8 no turn was left, 10 no place for the main task
example: printf 'limits 16 16 16\\ntask\\nawait-sleep 5000000\\ndone 5\\n' | monoio run 0 100\n";

const LOAD: &str = "usage: monoio load SEED COUNT
  replays tasks with a sleep each, whose lengths the seed gives, and reads nothing
words:
  SEED              a number below 2^64
  COUNT             how many tasks, at most 100000
it writes one line:
  events E fired F refused R order X    the events, the sleeps that fired, the refusals, and a sum of the order of firing
exit status: 0 done, 2 other words, 5 a write failed, 6 out of memory
example: monoio load 7 1000\n";

const SESSIONS: &str = "usage: monoio sessions [--follow] SESSIONS ENTRIES < CALLS
  answers calls on sessions, which are kept open by heartbeats, and on the locks for which they queue
words:
  --follow          answers each line as soon as it was read, up to the first bad one
  SESSIONS          how many may be open, a number below 2^64
  ENTRIES           how many may stand in all queues, a number below 2^64
lines, and their answers; SESSION, KEY and MILLIS are below 2^64, NANOS below 2^128:
  open MILLIS               session SESSION: it closes so long after its last heartbeat
  beat SESSION              ok
  close SESSION             ok
  acquire SESSION KEY       held, or waits if another session holds the lock
  release SESSION KEY       ok
  owner KEY                 owner SESSION, or free
  clock NANOS               closed, and the sessions that it closed
a refusal is: refused at-capacity, invalid, no-session, zero-limit, doubled or not-in
exit status: 0 done, 2 other words, 3 a bad line, 4 a read failed, 5 a write failed, 6 out of memory,
  7 more than 16777216 bytes of input (with --follow, of a line)
example: printf 'open 5\\nacquire 0 1\\nowner 1\\nclock 6000000\\n' | monoio sessions 16 16\n";

const LIMITER: &str = "usage: monoio limiter [--follow] BUCKETS RETRIES < CALLS
  answers calls on token buckets and on retries with exponential backoff
words:
  --follow          answers each line as soon as it was read, up to the first bad one
  BUCKETS           how many may be made, a number below 2^64
  RETRIES           how many may live at a time, a number below 2^64
lines, and their answers; the numbers are below 2^64, NANOS below 2^128; a tick is a millisecond:
  bucket TOKENS TICKS       bucket BUCKET: at most so many tokens, and one more each so many ticks
  take BUCKET TOKENS        granted, or short TICK with the tick at which it has them
  retry BASE CAP ATTEMPTS   retry RETRY
  fail RETRY                again TICK with the tick until which it waits, or gave-up
  done RETRY                ok
  clock NANOS               due, and the retries whose wait ends
a refusal is: refused at-capacity, invalid, bad-bucket, too-many, waiting, bad-retry, no-bucket or no-retry
exit status: 0 done, 2 other words, 3 a bad line, 4 a read failed, 5 a write failed, 6 out of memory,
  7 more than 16777216 bytes of input (with --follow, of a line)
example: printf 'bucket 2 10\\ntake 0 2\\ntake 0 1\\nclock 10000000\\ntake 0 1\\n' | monoio limiter 16 16\n";

const ACTORS: &str = "usage: monoio actors [--follow] ACTORS MESSAGES < CALLS
  answers calls on actors with mailboxes and receive timeouts
words:
  --follow          answers each line as soon as it was read, up to the first bad one
  ACTORS            how many may live at a time, a number below 2^64
  MESSAGES          how many may be in all mailboxes, a number below 2^64
lines, and their answers; the numbers are below 2^64, NANOS below 2^128:
  actor                     actor ACTOR
  send FROM TO MESSAGE      queued if the actor was idle, else waits
  timeout ACTOR MILLIS      ok; 0 for no timeout
  turn; send TO MESSAGE; stay  turn ACTOR; from FROM MESSAGE or timeout; answers; idle or again
  turn; send TO MESSAGE; stop  turn ACTOR; from FROM MESSAGE or timeout; answers; stopped
  clock NANOS               due, and the actors whose wait ends
a turn has any number of sends; a refusal is: refused idle, at-capacity, no-actor or invalid
exit status: 0 done, 2 other words, 3 a bad line, 4 a read failed, 5 a write failed, 6 out of memory,
  7 more than 16777216 bytes of input (with --follow, of a line)
example: printf 'actor\\nactor\\nsend 0 1 7\\nturn; send 0 8; stay\\n' | monoio actors 16 16\n";

const CHECK: &str = "usage: monoio check STRATEGY TASKS JOBS SLEEPS < JOURNAL
       monoio check --whole STRATEGY TASKS JOBS SLEEPS < JOURNAL
  reads a journal and writes yes if it is a run of the machine, else no and a line
words:
  --whole           the journal is that of one or more whole calls of block_on on a new runtime, in order
  STRATEGY          attached, local or panic: how the journal's runtime ran blocking jobs; a journal of run
                    takes attached, with workers and with 0
  TASKS JOBS SLEEPS its limits, numbers below 2^64
lines:
  EVENT -> REPORT           an event line and its report line, as of replay
  now NANOS                 what the clock showed
  park                      the driver was parked without an end
  park MILLIS               the driver was parked, so long at most
  main OUTPUT               the output of the main task
it writes one line:
  yes                       the journal is a run
  no LINE                   no step allows this line's report; with --whole: or this line is out of order, or missing
without --whole the lines now, park and main are passed over
exit status: 0 it is a run, 2 other words, 3 a bad line, 4 a read failed, 5 a write failed, 6 out of memory,
  7 more than 16777216 bytes of input, 11 it is no run
example: monoio run 0 100 < SCRIPT | monoio check --whole attached 16 16 16
  of a journal that run wrote: STRATEGY is attached, and the limits are those of the script's first line\n";

/// A command that has a page.
#[derive(Clone, Copy, Debug, PartialEq, Eq)]
pub(crate) enum Topic {
    Replay,
    Run,
    Load,
    Sessions,
    Limiter,
    Actors,
    Check,
}

/// A page.
#[derive(Clone, Copy, Debug, PartialEq, Eq)]
pub(crate) enum Page {
    /// The general help.
    General,
    /// The version.
    Version,
    /// The help of a command.
    About(Topic),
}

/// Returns the command of this name.
pub(crate) fn topic_of(name: &str) -> Option<Topic>
    ensures some { IfSome result (λ topic. name.now ≡ topic_name topic) }
    ensures none { IfNone result (NamesNoTopic name.now) }
{
    match name {
        "replay" => Some(Topic::Replay),
        "run" => Some(Topic::Run),
        "load" => Some(Topic::Load),
        "sessions" => Some(Topic::Sessions),
        "limiter" => Some(Topic::Limiter),
        "actors" => Some(Topic::Actors),
        "check" => Some(Topic::Check),
        _ => None,
    }
}

/// Returns the text of a page.
pub(crate) fn text_of(page: Page) -> &'static str
    ensures { result.now ≡ page_text page }
{
    match page {
        Page::General => HELP,
        Page::Version => VERSION,
        Page::About(Topic::Replay) => REPLAY,
        Page::About(Topic::Run) => RUN,
        Page::About(Topic::Load) => LOAD,
        Page::About(Topic::Sessions) => SESSIONS,
        Page::About(Topic::Limiter) => LIMITER,
        Page::About(Topic::Actors) => ACTORS,
        Page::About(Topic::Check) => CHECK,
    }
}
