//! Why an archive can't be read further.
ghost use Rattle.std.specs.Prelude.{◌≡◌};
ghost use Rattle.warc_core.specs.declared.fault.Cause.TheVariants.{Memory, Read};
ghost use Rattle.warc_core.specs.Head.{cause_of};

use devices::DeviceFault;
use std::alloc::{AllocError, AllocFailed};
use std::{error, fmt};
use thiserror::Error;
use warc_head::HeadFault;

/// What is wrong with a record.
///
/// If several causes from `Version` on apply, the first in this order is returned, except that `TooFar` comes before
/// `ShortBlock`.
#[derive(Clone, Copy, Debug, PartialEq, Eq)]
pub enum Cause {
    /// Memory could not be allocated.
    Memory,
    /// The input failed.
    Read,
    /// The first bytes aren't those of `WARC/1.1` or `WARC/1.0` and CR LF.
    Version,
    /// The input ends before the head does.
    ShortHead,
    /// The head doesn't end within 1,048,576 bytes.
    HeadTooLong,
    /// A line of the head is neither a named field nor the continuation of one.
    FieldLine,
    /// One of the four mandatory fields is absent.
    Missing,
    /// One of the four mandatory fields occurs more than once.
    Repeated,
    /// `Content-Length` isn't a number of 1 to 19 digits below 2^63.
    BadLength,
    /// `WARC-Date` isn't a date text, or names a date or a time of day that doesn't exist.
    BadDate,
    /// The input ends before the block does.
    ShortBlock,
    /// The block isn't followed by CR LF CR LF.
    Closing,
    /// The record would end at 2^63 or above.
    TooFar,
    /// Of a compressed archive: no member begins there.
    NoMember,
    /// Of a compressed archive: the member isn't one of RFC 1952, or its data isn't that of RFC 1951.
    BadMember,
    /// Of a compressed archive: the input ends in the member.
    CutMember,
    /// Of a compressed archive: the member holds more than one record.
    SeveralRecords,
}

impl fmt::Display for Cause {
    fn fmt<W: fmt::Write>(&self, f: &mut fmt::Formatter<W>) -> fmt::Result {
        f.write_str(self.message())
    }
}

impl error::Error for Cause {}

impl Cause {
    ghost use Rattle.warc_core.specs.Cause.{cause_name};

    /// Returns the cause as listings print it.
    pub fn name(self) -> &'static str
        ensures { result.now ≡ cause_name self }
    {
        match self {
            Cause::Memory => "Memory",
            Cause::Read => "Read",
            Cause::Version => "Version",
            Cause::ShortHead => "ShortHead",
            Cause::HeadTooLong => "HeadTooLong",
            Cause::FieldLine => "FieldLine",
            Cause::Missing => "Missing",
            Cause::Repeated => "Repeated",
            Cause::BadLength => "BadLength",
            Cause::BadDate => "BadDate",
            Cause::ShortBlock => "ShortBlock",
            Cause::Closing => "Closing",
            Cause::TooFar => "TooFar",
            Cause::NoMember => "NoMember",
            Cause::BadMember => "BadMember",
            Cause::CutMember => "CutMember",
            Cause::SeveralRecords => "SeveralRecords",
        }
    }

    fn message(self) -> &'static str {
        match self {
            Cause::Memory => "out of memory",
            Cause::Read => "the input can't be read",
            Cause::Version => "no WARC version line",
            Cause::ShortHead => "the head is cut off",
            Cause::HeadTooLong => "the head is too long",
            Cause::FieldLine => "a line of the head is no field",
            Cause::Missing => "a mandatory field is missing",
            Cause::Repeated => "a mandatory field is repeated",
            Cause::BadLength => "a bad Content-Length",
            Cause::BadDate => "a bad WARC-Date",
            Cause::ShortBlock => "the block is cut off",
            Cause::Closing => "the record isn't closed",
            Cause::TooFar => "the record ends too far",
            Cause::NoMember => "no member of gzip",
            Cause::BadMember => "a bad member of gzip",
            Cause::CutMember => "the member of gzip is cut off",
            Cause::SeveralRecords => "several records in one member of gzip",
        }
    }
}

/// The offset at which an archive can't be read further, and the cause.
#[derive(Clone, Copy, Debug, PartialEq, Eq, Error)]
#[error("record at offset {offset}: {cause}")]
pub struct Fault {
    /// The offset of the record at fault, in bytes from the archive's start.
    pub offset: u64,
    /// Why the record can't be read.
    pub cause: Cause,
}

impl From<HeadFault> for Cause {
    ghost from_gives = { λ fault e. e ≡ cause_of fault };

    fn from(fault: HeadFault) -> Cause {
        match fault {
            HeadFault::Memory => Cause::Memory,
            HeadFault::FieldLine => Cause::FieldLine,
            HeadFault::Missing => Cause::Missing,
            HeadFault::Repeated => Cause::Repeated,
            HeadFault::BadLength => Cause::BadLength,
            HeadFault::BadDate => Cause::BadDate,
        }
    }
}

impl From<DeviceFault> for Cause {
    ghost from_gives = { λ _ e. e ≡ Read };

    fn from(_fault: DeviceFault) -> Cause {
        Cause::Read
    }
}

impl From<AllocError> for Cause {
    ghost from_gives = { λ _ e. e ≡ Memory };

    fn from(_error: AllocError) -> Cause {
        Cause::Memory
    }
}

impl<T: Drop> From<AllocFailed<T>> for Cause {
    ghost from_gives = { λ _ e. e ≡ Memory };

    fn from(_error: AllocFailed<T>) -> Cause {
        Cause::Memory
    }
}
