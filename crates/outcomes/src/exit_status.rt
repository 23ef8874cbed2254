//! The exit status, and which outcomes end a command.
ghost use Rattle.std.specs.Prelude.{◌≡◌};
ghost use Rattle.outcomes.specs.Outcome.{exit_status_of, index_status, query_status, answer_status, capture_status, cause_status, is_memory, ends_command, worse_of, ZeroIsDone};

use crate::outcome::Outcome;
use capture_core::CaptureFault;
use index_core::IndexFault;
use query_core::{AnswerFault, QueryFault};
use warc_core::Cause;

/// Returns the exit status: 0 if everything was done; 1 for a fault in an archive or an index, a
/// refused query or name, too many indexes or archives, a digest that differs, or an offset where
/// no record begins; 2 for a usage error; 3 if memory, a device or a file failed.
#[tactic(auto, unfolding(crate::specs::Outcome::exit_status_of))]
pub fn status(outcome: &Outcome) -> u8
    ensures { result ≡ exit_status_of outcome.now }
{
    match outcome {
        Outcome::Done => 0,
        Outcome::Differs => 1,
        Outcome::Usage => 2,
        Outcome::Index(fault) => index_status(*fault),
        Outcome::Query(fault) => query_status(*fault),
        Outcome::Answer(fault) => answer_status(*fault),
        Outcome::CannotOpen => 3,
        Outcome::CannotFlush => 3,
    }
}

/// The exit status of an outcome, and of a flush that failed or didn't, is 0 only if the outcome is
/// `Done`, and the flush didn't fail.
pub fn status_zero_is_done()
    ensures { ZeroIsDone }
{}

fn index_status(fault: IndexFault) -> u8
    ensures { result ≡ index_status fault }
{
    match fault {
        IndexFault::Memory => 3,
        IndexFault::Capture(fault) => capture_status(fault),
        IndexFault::BadName => 1,
        IndexFault::DuplicateName => 1,
        IndexFault::Write => 3,
        IndexFault::NoRecord => 1,
    }
}

fn query_status(fault: QueryFault) -> u8
    ensures { result ≡ query_status fault }
{
    match fault {
        QueryFault::Memory => 3,
        _ => 1,
    }
}

fn answer_status(fault: AnswerFault) -> u8
    ensures { result ≡ answer_status fault }
{
    match fault {
        AnswerFault::Memory => 3,
        AnswerFault::Read(_source) => 3,
        AnswerFault::Write => 3,
        AnswerFault::BadLine(_source, _offset) => 1,
        AnswerFault::OutOfOrder(_source, _offset) => 1,
        AnswerFault::TooManySources => 1,
        AnswerFault::BadSizes => 2,
        AnswerFault::Input => 3,
    }
}

fn capture_status(fault: CaptureFault) -> u8
    ensures { result ≡ capture_status fault }
{
    match fault {
        CaptureFault::Archive(fault) => cause_status(fault.cause),
        _ => 1,
    }
}

fn cause_status(cause: Cause) -> u8
    ensures { result ≡ cause_status cause }
{
    match cause {
        Cause::Memory | Cause::Read => 3,
        _ => 1,
    }
}

/// Returns the outcome with the greater status, or the first if both have the same status.
pub fn worse(first: Outcome, second: Outcome) -> Outcome
    ensures { result ≡ worse_of first second }
{
    if status(&first) < status(&second) {
        second
    } else {
        first
    }
}

/// Returns `true` if a command ends at once with this outcome, and doesn't go on to its next file.
/// That is so if memory or the output failed.
#[tactic(auto, unfolding(crate::specs::Outcome::ends_command))]
pub fn ends_command(outcome: &Outcome) -> bool
    ensures { result ≡ ends_command outcome.now }
{
    match outcome {
        Outcome::Index(IndexFault::Memory) => true,
        Outcome::Index(IndexFault::Write) => true,
        Outcome::Query(QueryFault::Memory) => true,
        Outcome::Answer(AnswerFault::Memory) => true,
        Outcome::Answer(AnswerFault::Write) => true,
        Outcome::Index(IndexFault::Capture(CaptureFault::Archive(fault))) => is_memory(fault.cause),
        _ => false,
    }
}

fn is_memory(cause: Cause) -> bool
    ensures { result ≡ is_memory cause }
{
    cause == Cause::Memory
}
