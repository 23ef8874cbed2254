//! The records of a compressed archive, one after another.
ghost use Rattle.std.specs.Prelude.{◌≡◌, ℕ, ◌-◌, ◌<◌, ◌≤◌, ⊤, true, List, Ok, Err, nat_lt, length};
ghost use Rattle.std.specs.Prelude.{IfErr, IfOk, IfSome, OnOk};
ghost use Rattle.std.specs.Io.KnownBytes.{prepend_known};
ghost use Rattle.warc_core.specs.declared.next.TheConstants.{HEAD_LIMIT};
ghost use Rattle.warc_core.specs.Answers.{causes_of, CountsRead};
ghost use Rattle.gzip_members.specs.Left.{left_of, text_of};
ghost use Rattle.gzip_members.specs.Reading.{Moves, taken};
ghost use Rattle.archives.specs.Form.{end_of};
ghost use Rattle.archives.specs.Packed.{packed};
ghost use Rattle.archives.specs.MemberReading.{closed_by, file_ahead, ClosesTo, CountsClosing};
ghost use Rattle.archives.specs.MemberReading.{HoldsHead, OpensHead, TakesMember, taken_record};
ghost use Rattle.archives.specs.Walking.{JudgesNext, ReadsNext, verdict_in};

use crate::member_bounds::close;
use crate::member_opening::{OpenRecord, open_record};
use crate::member_reading::{Reading, finish, judge};
use crate::placed_record::PlacedRecord;
use capture_core::{Cause, Fault, Input, Place, Reader, Verdict};
use gzip_members::Members;

/// Reads a member to its end, in whose text a record was read that begins it. Returns the record's
/// place.
pub fn end_record<I: Input>(
    members: &mut Members<I>,
    reader: &Reader,
    start: u64,
) -> Result<Place, Fault>
    requires { start ≤ members.old.source.passed }
    ensures closes { IfSome (left_of members.old) (λ left. ClosesTo
        (closed_by (Ok true) (nat_lt 0 (length reader.now.held)) left) (causes_of result)
        (taken members.new.source).ahead) }
    ensures place { IfOk result (λ place. place ≡ record {
      offset = start;
      length = members.new.source.passed - start;
    }) }
    ensures at { IfErr result (λ f. f.offset ≡ start) }
    ensures moves { Moves (taken members.old.source) (taken members.new.source) }
    ensures failures { CountsRead (causes_of result) (I.failures members.old.source.input)
        (I.failures members.new.source.input) }
{
    match close(members, Ok(true), reader.holds_bytes()) {
        Ok(()) => Ok(Place {
            offset: start,
            length: members.source.passed - start,
        }),
        Err(cause) => Err(Fault {
            offset: start,
            cause,
        }),
    }
}

/// Reads a member to its end, in whose text no record was read, for this cause. Returns the fault:
/// the member's own comes first.
pub fn end_fault<I: Input>(
    members: &mut Members<I>,
    reader: &Reader,
    start: u64,
    cause: Cause,
) -> Fault
    ensures closes { IfSome (left_of members.old) (λ left. ClosesTo {A = Unit {0}}
        (closed_by (Err cause) (nat_lt 0 (length reader.now.held)) left) (Err result.cause)
        (taken members.new.source).ahead) }
    ensures at { result.offset ≡ start }
    ensures failures { CountsClosing {A = Unit {0}} (Err cause) (Err result.cause)
        (I.failures members.old.source.input) (I.failures members.new.source.input) }
{
    let cause = match close(members, Err(cause), reader.holds_bytes()) {
        Ok(()) => cause,
        Err(found) => found,
    };
    Fault {
        offset: start,
        cause,
    }
}

/// Reads a record, whose head was read, and its member to their end.
fn take_record<I: Input>(
    members: Members<I>,
    reader: &mut Reader,
    opened: OpenRecord,
) -> Reading<I, PlacedRecord>
    requires opens { OpensHead reader.old opened.head }
    requires further { opened.start < members.source.passed }
    ensures takes { (bytes : List ℕ) → HoldsHead opened.start bytes opened.head (left_of members)
        (taken members.source) (prepend_known reader.old.held (text_of (left_of members)))
        → TakesMember (λ p. p) (λ p r. ⊤) opened.start bytes result.result
        (file_ahead (taken result.members.source)) }
    ensures placed { IfOk result.result (λ p.
        p ≡ taken_record opened result.members.source.passed) }
    ensures further { OnOk result.result (opened.start < result.members.source.passed) }
    ensures at { IfErr result.result (λ f. f.offset ≡ opened.start) }
    ensures failures { CountsRead (causes_of result.result) (I.failures members.source.input)
        (I.failures result.members.source.input) }
{
    let OpenRecord { start, head } = opened;
    let Reading {
        mut members,
        result,
    } = finish(members, reader, &head);
    match result {
        Ok(_length) => match end_record(&mut members, reader, start) {
            Ok(place) => Reading {
                members,
                result: Ok(PlacedRecord { head, place }),
            },
            Err(fault) => Reading {
                members,
                result: Err(fault),
            },
        },
        Err(fault) => {
            let fault = end_fault(&mut members, reader, start, fault.cause);
            Reading {
                members,
                result: Err(fault),
            }
        }
    }
}

/// Reads the next record to its end. The errors are the archive's faults.
pub fn next_record<I: Input>(
    members: Members<I>,
    reader: &mut Reader,
) -> Reading<I, Option<PlacedRecord>>
    ensures next { ReadsNext (packed HEAD_LIMIT) members.source.passed result.result
        (file_ahead (taken members.source)) (file_ahead (taken result.members.source)) }
    ensures stands { IfOk result.result (λ o. IfSome o (λ p.
        result.members.source.passed ≡ end_of p.place)) }
    ensures failures { CountsRead (causes_of result.result) (I.failures members.source.input)
        (I.failures result.members.source.input) }
{
    let Reading { members, result } = open_record(members, reader);
    match result {
        Ok(Some(opened)) => {
            let Reading { members, result } = take_record(members, reader, opened);
            match result {
                Ok(record) => Reading {
                    members,
                    result: Ok(Some(record)),
                },
                Err(fault) => Reading {
                    members,
                    result: Err(fault),
                },
            }
        }
        Ok(None) => Reading {
            members,
            result: Ok(None),
        },
        Err(fault) => Reading {
            members,
            result: Err(fault),
        },
    }
}

/// Reads a record, whose head was read, and its member to their end, with the verdict on its block.
fn take_verdict<I: Input>(
    members: Members<I>,
    reader: &mut Reader,
    opened: OpenRecord,
) -> Reading<I, (PlacedRecord, Verdict)>
    requires opens { OpensHead reader.old opened.head }
    requires further { opened.start < members.source.passed }
    ensures takes { (bytes : List ℕ) → HoldsHead opened.start bytes opened.head (left_of members)
        (taken members.source) (prepend_known reader.old.held (text_of (left_of members)))
        → TakesMember (λ j. j.0) (λ j r. j.1 ≡ verdict_in r) opened.start bytes result.result
        (file_ahead (taken result.members.source)) }
    ensures placed { IfOk result.result (λ j.
        j.0 ≡ taken_record opened result.members.source.passed) }
    ensures further { OnOk result.result (opened.start < result.members.source.passed) }
    ensures at { IfErr result.result (λ f. f.offset ≡ opened.start) }
    ensures failures { CountsRead (causes_of result.result) (I.failures members.source.input)
        (I.failures result.members.source.input) }
{
    let OpenRecord { start, head } = opened;
    let Reading {
        mut members,
        result,
    } = judge(members, reader, &head);
    match result {
        Ok(verdict) => match end_record(&mut members, reader, start) {
            Ok(place) => Reading {
                members,
                result: Ok((PlacedRecord { head, place }, verdict)),
            },
            Err(fault) => Reading {
                members,
                result: Err(fault),
            },
        },
        Err(fault) => {
            let fault = end_fault(&mut members, reader, start, fault.cause);
            Reading {
                members,
                result: Err(fault),
            }
        }
    }
}

/// Reads the next record to its end, and returns it with the verdict on its block. The errors are
/// the archive's faults.
pub fn next_verdict<I: Input>(
    members: Members<I>,
    reader: &mut Reader,
) -> Reading<I, Option<(PlacedRecord, Verdict)>>
    ensures next { JudgesNext (packed HEAD_LIMIT) members.source.passed result.result
        (file_ahead (taken members.source)) (file_ahead (taken result.members.source)) }
    ensures stands { IfOk result.result (λ o. IfSome o (λ j.
        result.members.source.passed ≡ end_of j.0.place)) }
    ensures failures { CountsRead (causes_of result.result) (I.failures members.source.input)
        (I.failures result.members.source.input) }
{
    let Reading { members, result } = open_record(members, reader);
    match result {
        Ok(Some(opened)) => {
            let Reading { members, result } = take_verdict(members, reader, opened);
            match result {
                Ok(judged) => Reading {
                    members,
                    result: Ok(Some(judged)),
                },
                Err(fault) => Reading {
                    members,
                    result: Err(fault),
                },
            }
        }
        Ok(None) => Reading {
            members,
            result: Ok(None),
        },
        Err(fault) => Reading {
            members,
            result: Err(fault),
        },
    }
}
