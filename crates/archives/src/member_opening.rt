//! The heads of records, member by member.
ghost use Rattle.std.specs.Prelude.{◌≡◌, ℕ, ◌+◌, ◌-◌, ◌^◌, ◌<◌, ◌≤◌, List, true, nat_lt, length};
ghost use Rattle.std.specs.Prelude.{Ok, IfErr, IfOk, IfSome};
ghost use Rattle.std.specs.Io.KnownBytes.{prepend_known};
ghost use Rattle.warc_core.specs.Answers.{causes_of, CountsRead};
ghost use Rattle.gzip_members.specs.Left.{left_of, text_of};
ghost use Rattle.gzip_members.specs.Reading.{Moves, taken};
ghost use Rattle.archives.specs.MemberReading.{closed_by, file_ahead, ClosesTo, CountsClosing};
ghost use Rattle.archives.specs.MemberReading.{Begins, IfHead, OpensHead, OpensMember, OpensRecord};
ghost use Rattle.archives.specs.MemberReading.{StandsOpen, StartsMember};

use crate::member_bounds::{begin, close};
use crate::member_reading::{Reading, read_head};
use capture_core::{Cause, Fault, Head, Input, Reader};
use gzip_members::Members;

/// What stands at the front of a member.
#[derive(Drop)]
pub enum Opening {
    /// The head of a record.
    Record(Head),
    /// No text. The member was read to its end.
    Empty,
    /// There is no member: the file has ended.
    End,
}

/// A record whose head was read.
#[derive(Drop)]
pub struct OpenRecord {
    /// Where its member begins, in bytes from the file's start.
    pub start: u64,
    pub head: Head,
}

/// Reads a member without a record to its end.
fn end_empty<I: Input>(
    members: Members<I>,
    reader: &Reader,
    start: u64,
    found: Result<bool, Cause>,
) -> Reading<I, Opening>
    ensures closes { IfSome (left_of members) (λ left. ClosesTo
        (closed_by found (nat_lt 0 (length reader.now.held)) left)
        (causes_of result.result) (taken result.members.source).ahead) }
    ensures empty { IfOk result.result (λ o. o ≡ Opening.Empty) }
    ensures at { IfErr result.result (λ f. f.offset ≡ start) }
    ensures moves { Moves (taken members.source) (taken result.members.source) }
    ensures failures { CountsClosing found (causes_of result.result)
        (I.failures members.source.input) (I.failures result.members.source.input) }
{
    let mut members = members;
    let closed = close(&mut members, found, reader.holds_bytes());
    let result = match closed {
        Ok(()) => Ok(Opening::Empty),
        Err(cause) => Err(Fault {
            offset: start,
            cause,
        }),
    };
    Reading { members, result }
}

/// Reads the head at the front of a member that was begun, or the member to its end if it has no
/// text.
pub fn open_begun<I: Input>(
    members: Members<I>,
    reader: &mut Reader,
    start: u64,
) -> Reading<I, Opening>
    ensures opens { (bytes : List ℕ)
        → StartsMember start bytes (Ok true) (left_of members) (taken members.source)
        → start + length bytes ≤ 2 ^ 63 - 1
        → OpensMember start bytes result.result (left_of result.members)
        (taken result.members.source)
        (prepend_known reader.new.held (text_of (left_of result.members))) }
    ensures head { IfHead result.result (OpensHead reader.new) }
    ensures at { IfErr result.result (λ f. f.offset ≡ start) }
    ensures onward { members.source.passed ≤ result.members.source.passed }
    ensures failures { CountsRead (causes_of result.result) (I.failures members.source.input)
        (I.failures result.members.source.input) }
{
    reader.restart();
    let Reading { members, result } = read_head(members, reader);
    match result {
        Ok(Some(head)) => Reading {
            members,
            result: Ok(Opening::Record(head)),
        },
        Ok(None) => end_empty(members, reader, start, Ok(false)),
        Err(fault) => end_empty(members, reader, start, Err(fault.cause)),
    }
}

/// Begins the next member, and reads the head at the front of it, or the member to its end if it
/// has no text.
fn open_member<I: Input>(members: Members<I>, reader: &mut Reader) -> Reading<I, Opening>
    ensures opens { IfSome (file_ahead (taken members.source)) (λ bytes.
        OpensMember members.source.passed bytes result.result (left_of result.members)
        (taken result.members.source)
        (prepend_known reader.new.held (text_of (left_of result.members)))) }
    ensures head { IfHead result.result (OpensHead reader.new) }
    ensures at { IfErr result.result (λ f. f.offset ≡ members.source.passed) }
    ensures further { Begins result.result
        → members.source.passed < result.members.source.passed }
    ensures failures { CountsRead (causes_of result.result) (I.failures members.source.input)
        (I.failures result.members.source.input) }
{
    let mut members = members;
    let start = members.source.passed;
    match begin(&mut members) {
        Ok(begins) => {
            if begins {
                open_begun(members, reader, start)
            } else {
                Reading {
                    members,
                    result: Ok(Opening::End),
                }
            }
        }
        Err(fault) => Reading {
            members,
            result: Err(fault),
        },
    }
}

/// Reads the head of the first record of the members that follow. Those without text are passed
/// over. Returns `None` at the file's end.
pub fn open_record<I: Input>(
    members: Members<I>,
    reader: &mut Reader,
) -> Reading<I, Option<OpenRecord>>
    ensures opens { IfSome (file_ahead (taken members.source)) (λ bytes.
        OpensRecord members.source.passed bytes result.result (left_of result.members)
        (taken result.members.source)
        (prepend_known reader.new.held (text_of (left_of result.members)))) }
    ensures stands { IfOk result.result (λ o. IfSome o (λ r. StandsOpen members.source.passed r
        result.members.source.passed reader.new)) }
    ensures at { IfErr result.result (λ f. members.source.passed ≤ f.offset) }
    ensures failures { CountsRead (causes_of result.result) (I.failures members.source.input)
        (I.failures result.members.source.input) }
{
    let mut members = members;
    'members: loop {
        let start = members.source.passed;
        let Reading {
            members: read,
            result,
        } = open_member(members, reader);
        members = read;
        match result {
            Ok(Opening::Record(head)) => {
                return Reading {
                    members,
                    result: Ok(Some(OpenRecord { start, head })),
                };
            }
            Ok(Opening::Empty) => {}
            Ok(Opening::End) => {
                return Reading {
                    members,
                    result: Ok(None),
                };
            }
            Err(fault) => {
                return Reading {
                    members,
                    result: Err(fault),
                };
            }
        }
    }
}
