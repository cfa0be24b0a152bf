// The text of answers, as it goes to the writer.
ghost use Rattle.std.specs.Prelude.{◌≡◌};
ghost use Rattle.lease_server.specs.Answers.{answer_lines, all_of};

use crate::answers::Answer;
use lease_core::Reply;
use lease_lines::{Stamp, put_bad, put_replies};
use mono_model::{History, Tells};
use mono_rt::List;
use std::alloc::{AllocError, Global};

// Replies by the core of a stamp.
#[derive(Drop)]
struct Spoken<'a> {
    stamp: &'a Stamp,
    replies: &'a [Reply],
}

// Replies, as answers of their core.
struct ByReplies;

impl<'a> Tells<Spoken<'a>, List<Answer>> for ByReplies {
    ghost use Rattle.lease_server.specs.Answers.{by_core};

    ghost entry = { λ spoken. by_core spoken.stamp.now.core spoken.replies.now };
}

// The number of a line that is refused, as an answer.
struct ByNumber;

impl Tells<u64, List<Answer>> for ByNumber {
    ghost use Rattle.std.specs.Prelude.{[], ◌∷◌};
    ghost use Rattle.lease_server.specs.declared.answers.Answer.TheVariants.{Bad};

    ghost entry = { λ number. Bad number ∷ [] };
}

/// The lines of answers, in order. Only proofs read the answers.
#[derive(Drop)]
pub struct Text {
    bytes: Vec<u8>,
    said: History<List<Answer>>,
    pub ghost lines: { bytes.items ≡ answer_lines (all_of said.entries) },
}

impl Text {
    ghost use Rattle.std.specs.Prelude.{[], ◌∷◌, ◌++◌, true, OnOk, OnErr};
    ghost use Rattle.lease_server.specs.declared.answers.Answer.TheVariants.{Bad};
    ghost use Rattle.lease_server.specs.Answers.{by_core};
    ghost use Rattle.lease_server.specs.Texts.{said_by};

    /// Returns the text of no answer.
    pub fn new(alloc: Global) -> Text
        ensures { said_by result ≡ [] }
    {
        Text {
            bytes: Vec::new(alloc),
            said: History::new(),
        }
    }

    /// Returns whether the text has no line.
    pub fn is_empty(&self) -> bool
        ensures { result ≡ true → said_by self.now ≡ [] }
    {
        if self.bytes.len() > 0 {
            return false;
        }
        true
    }

    /// Returns the bytes of the lines.
    pub fn bytes(&self) -> &[u8]
        ensures { result.now ≡ answer_lines (said_by self.now) }
    {
        self.bytes.as_slice()
    }

    /// Appends the lines of replies by the core of a stamp. If out of memory, the text has no line.
    pub fn put_replies(&mut self, stamp: &Stamp, replies: &[Reply]) -> Result<(), AllocError>
        ensures ok { OnOk result (said_by self.new ≡ said_by self.old ++ by_core stamp.now.core replies.now) }
        ensures err { OnErr result (said_by self.new ≡ []) }
    {
        match put_replies(&mut self.bytes, stamp, replies) {
            Ok(()) => {
                self.said = self
                    .said
                    .told::<Spoken, ByReplies>(&Spoken { stamp, replies });
                Ok(())
            }
            Err(error) => {
                self.bytes.clear();
                self.said = History::new();
                Err(error)
            }
        }
    }

    /// Appends the line that refuses the line of this number. If out of memory, the text has no line.
    pub fn put_bad(&mut self, number: u64) -> Result<(), AllocError>
        ensures ok { OnOk result (said_by self.new ≡ said_by self.old ++ Bad number ∷ []) }
        ensures err { OnErr result (said_by self.new ≡ []) }
    {
        match put_bad(&mut self.bytes, number) {
            Ok(()) => {
                self.said = self.said.told::<u64, ByNumber>(&number);
                Ok(())
            }
            Err(error) => {
                self.bytes.clear();
                self.said = History::new();
                Err(error)
            }
        }
    }
}
