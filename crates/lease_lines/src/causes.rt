// The words of refusals.
ghost use Rattle.std.specs.Prelude.{◌≡◌};
ghost use Rattle.lease_lines.specs.Replies.{lease_cause, limit_cause, mail_cause};

use mono_actor::ActorError;
use mono_limit::LimitError;
use mono_session::SessionError;

/// Returns the words of a refusal by the leases.
pub fn lease_cause(error: SessionError) -> &'static [u8]
    ensures { result.now ≡ lease_cause error }
{
    match error {
        SessionError::Memory => b"refused out-of-memory".as_slice(),
        SessionError::AtCapacity => b"refused at-capacity".as_slice(),
        SessionError::Invalid => b"refused invalid".as_slice(),
        SessionError::NoSession => b"refused no-session".as_slice(),
        SessionError::ZeroLimit => b"refused zero-limit".as_slice(),
        SessionError::Doubled => b"refused doubled".as_slice(),
        SessionError::NotIn => b"refused not-in".as_slice(),
    }
}

/// Returns the words of a refusal by the buckets.
pub fn limit_cause(error: LimitError) -> &'static [u8]
    ensures { result.now ≡ limit_cause error }
{
    match error {
        LimitError::Memory => b"refused out-of-memory".as_slice(),
        LimitError::AtCapacity => b"refused at-capacity".as_slice(),
        LimitError::Invalid => b"refused invalid".as_slice(),
        LimitError::BadBucket => b"refused bad-bucket".as_slice(),
        LimitError::TooMany => b"refused too-many".as_slice(),
        LimitError::Waiting => b"refused waiting".as_slice(),
        LimitError::BadRetry => b"refused bad-retry".as_slice(),
        LimitError::NoBucket => b"refused no-bucket".as_slice(),
        LimitError::NoRetry => b"refused no-retry".as_slice(),
    }
}

/// Returns the words of a refusal by the mailboxes.
pub fn mail_cause(error: ActorError) -> &'static [u8]
    ensures { result.now ≡ mail_cause error }
{
    match error {
        ActorError::Memory => b"refused out-of-memory".as_slice(),
        ActorError::Idle => b"refused idle".as_slice(),
        ActorError::AtCapacity => b"refused at-capacity".as_slice(),
        ActorError::NoActor => b"refused no-actor".as_slice(),
    }
}
