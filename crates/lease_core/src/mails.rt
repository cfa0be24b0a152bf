// The requests on the buckets and on the mailboxes.
ghost use Rattle.std.specs.Prelude.{◌≡◌, ℕ, []};
ghost use Rattle.lease_core.specs.Refinement.{Performs};
ghost use Rattle.lease_core.specs.declared.requests.Call.TheVariants as call;

use crate::cores::Core;
use crate::requests::Outcome;
use crate::tells::{of_bucket, of_send, of_spawn, of_take};
use std::alloc::Global;

impl Core {
    // Adds a bucket.
    pub(crate) fn bucket(&mut self, alloc: Global, number: u64, burst: u64, period: u64)
        requires { self.old.replies.items ≡ [] }
        ensures { (key : ℕ) → Performs self.old number key (call.Bucket burst period) self.new }
    {
        let told = self.limiter.bucket(alloc, burst, period);
        let reply = self.at_once(number, of_bucket(told));
        self.replies.push_reserved(reply);
    }

    // Takes tokens from a bucket.
    pub(crate) fn take(&mut self, number: u64, bucket: u64, n: u64)
        requires { self.old.replies.items ≡ [] }
        ensures { (key : ℕ) → Performs self.old number key (call.Take bucket n) self.new }
    {
        let told = self.limiter.take(bucket, n);
        let reply = self.at_once(number, of_take(told));
        self.replies.push_reserved(reply);
    }

    // Adds an actor.
    pub(crate) fn spawn(&mut self, alloc: Global, number: u64)
        requires { self.old.replies.items ≡ [] }
        ensures { (key : ℕ) → Performs self.old number key call.Spawn self.new }
    {
        let told = self.actors.spawn(alloc);
        let reply = self.at_once(number, of_spawn(told));
        self.replies.push_reserved(reply);
    }

    // Sends a message.
    pub(crate) fn send(&mut self, number: u64, from: u64, to: u64, message: u64)
        requires { self.old.replies.items ≡ [] }
        ensures { (key : ℕ) → Performs self.old number key (call.Send from to message) self.new }
    {
        let told = self.actors.send(from, to, message);
        let reply = self.at_once(number, of_send(told));
        self.replies.push_reserved(reply);
    }

    // Runs the turn of the actor that has been queued for the longest time.
    pub(crate) fn receive(&mut self, number: u64)
        requires { self.old.replies.items ≡ [] }
        ensures { (key : ℕ) → Performs self.old number key call.Receive self.new }
    {
        match self.actors.begin() {
            Err(error) => {
                let reply = self.at_once(number, Outcome::MailRefused(error));
                self.replies.push_reserved(reply);
            }
            Ok(begun) => {
                let _ = self.actors.end(false);
                let reply = self.at_once(number, Outcome::Ran(begun.0, begun.1));
                self.replies.push_reserved(reply);
            }
        }
    }
}
