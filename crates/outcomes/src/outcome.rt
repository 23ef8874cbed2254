//! How commands end.
ghost use Rattle.std.specs.Prelude.{◌≡◌, option_map};
ghost use Rattle.outcomes.specs.Outcome.{outcome_of, verification_outcome, flushed_outcome, message_of};

use index_core::{IndexFault, Verified};
use query_core::{AnswerFault, QueryFault};

/// How a command ended.
#[derive(Clone, Copy)]
pub enum Outcome {
    /// Everything was done.
    Done,
    /// The digest of a block differs from the one that its record gives.
    Differs,
    /// A usage error.
    Usage,
    /// A call on an archive failed.
    Index(IndexFault),
    /// A query text is refused.
    Query(QueryFault),
    /// A call on indexes failed.
    Answer(AnswerFault),
    /// A file can't be opened.
    CannotOpen,
    /// Standard output can't be flushed.
    CannotFlush,
}

/// Returns the outcome of a call on an archive.
pub fn outcome_of(answer: Result<u64, IndexFault>) -> Outcome
    ensures { result ≡ outcome_of answer }
{
    match answer {
        Ok(_number) => Outcome::Done,
        Err(fault) => Outcome::Index(fault),
    }
}

/// Returns the outcome of a verification.
pub fn verification_outcome(answer: Result<Verified, IndexFault>) -> Outcome
    ensures { result ≡ verification_outcome answer }
{
    match answer {
        Ok(verified) if verified.differing > 0 => Outcome::Differs,
        Ok(_verified) => Outcome::Done,
        Err(fault) => Outcome::Index(fault),
    }
}

/// Returns the outcome of a command whose output could be flushed, or couldn't be.
pub fn flushed_outcome(outcome: Outcome, is_flushed: bool) -> Outcome
    ensures { result ≡ flushed_outcome outcome is_flushed }
{
    if is_flushed {
        return outcome;
    }
    match outcome {
        Outcome::Index(IndexFault::Memory) => outcome,
        Outcome::Index(IndexFault::Write) => outcome,
        Outcome::Query(QueryFault::Memory) => outcome,
        Outcome::Answer(AnswerFault::Memory) => outcome,
        Outcome::Answer(AnswerFault::Write) => outcome,
        _ => Outcome::CannotFlush,
    }
}

/// Returns the message at a command's end, if there is one.
pub fn message(outcome: Outcome) -> Option<&'static str>
    ensures { option_map (λ text. text.now) result ≡ message_of outcome }
{
    match outcome {
        Outcome::Index(IndexFault::Memory) => Some("Memory"),
        Outcome::Index(IndexFault::Write) => Some("Write"),
        Outcome::Query(QueryFault::Memory) => Some("Memory"),
        Outcome::Answer(AnswerFault::Memory) => Some("Memory"),
        Outcome::Answer(AnswerFault::Write) => Some("Write"),
        Outcome::Answer(AnswerFault::TooManySources) => Some("TooManySources"),
        Outcome::Answer(AnswerFault::Input) => Some("Input"),
        Outcome::CannotFlush => Some("cannot flush"),
        _ => None,
    }
}
