//! The captures of a compressed archive's records, one after another.
ghost use Rattle.std.specs.Prelude.{◌≡◌, ℕ, ◌-◌, ◌<◌, ◌≤◌, ◌^◌, List, length, IfErr, IfOk, IfSome};
ghost use Rattle.std.specs.Prelude.{OnOk};
ghost use Rattle.std.specs.Io.KnownBytes.{prepend_known};
ghost use Rattle.warc_core.specs.declared.next.TheConstants.{HEAD_LIMIT};
ghost use Rattle.cdxj_core.specs.declared.limit.TheConstants.{LINE_LIMIT};
ghost use Rattle.cdxj_core.specs.Entries.{HasLine};
ghost use Rattle.capture_core.specs.CaptureAnswer.{usual_limits, HasUrl, IsEntryOf};
ghost use Rattle.capture_core.specs.Fault.{fault_offset};
ghost use Rattle.capture_core.specs.Indexed.{url_of};
ghost use Rattle.capture_core.specs.Types.{includes};
ghost use Rattle.gzip_members.specs.Left.{left_of, text_of};
ghost use Rattle.gzip_members.specs.Reading.{taken};
ghost use Rattle.archives.specs.Captures.{CountsCapture, TakesNext};
ghost use Rattle.archives.specs.Form.{end_of};
ghost use Rattle.archives.specs.Packed.{packed};
ghost use Rattle.archives.specs.MemberCaptures.{AnswersLine, TakesCapture};
ghost use Rattle.archives.specs.MemberReading.{file_ahead, HoldsHead, OpensHead, taken_record};

use crate::member_opening::{OpenRecord, open_record};
use crate::member_reading::{Reading, capture};
use crate::member_records::{end_fault, end_record};
use crate::placed_record::PlacedRecord;
use capture_core::{BlockStart, CaptureFault, CaptureParts, HeldLine, Input, Place, Reader, Types};
use gzip_members::Members;
use std::alloc::Global;

/// A file in whose member was read, and what was read with its capture.
#[derive(Drop)]
pub struct Captured<I: Input, T> {
    pub members: Members<I>,
    pub result: Result<T, CaptureFault>,
}

/// Returns the line of a record that gives these parts, at this place of the archive of this name.
fn line_of(
    parts: Option<CaptureParts<'_>>,
    alloc: Global,
    name: &str,
    place: Place,
) -> Result<Option<HeldLine>, CaptureFault>
    requires named { 0 < length name.now }
    requires offset { place.offset < 2 ^ 63 }
    requires size { place.length < 2 ^ 63 }
    ensures answers { AnswersLine LINE_LIMIT place name.now parts.entry result }
    ensures line { IfOk result (λ captured. IfSome captured (HasLine LINE_LIMIT)) }
{
    match parts {
        Some(parts) => {
            let line = parts.line(alloc, name, place)?;
            Ok(Some(line))
        }
        None => Ok(None),
    }
}

/// Reads a record, whose head was read, and its member to their end, with its capture under the
/// archive's name.
fn take_capture<I: Input>(
    alloc: Global,
    front: &mut BlockStart,
    members: Members<I>,
    reader: &mut Reader,
    opened: OpenRecord,
    name: &str,
    types: Types,
) -> Captured<I, (PlacedRecord, Option<HeldLine>)>
    requires opens { OpensHead reader.old opened.head }
    requires further { opened.start < members.source.passed }
    requires named { 0 < length name.now }
    ensures takes { (bytes : List ℕ) → HoldsHead opened.start bytes opened.head (left_of members)
        (taken members.source) (prepend_known reader.old.held (text_of (left_of members)))
        → TakesCapture (includes types) name.now opened.start bytes result.result
        (file_ahead (taken result.members.source)) }
    ensures placed { IfOk result.result (λ c.
        c.0 ≡ taken_record opened result.members.source.passed) }
    ensures further { OnOk result.result (opened.start < result.members.source.passed) }
    ensures entry { IfOk result.result (λ c. IfSome c.1
        (IsEntryOf c.0.place c.0.head name.now LINE_LIMIT)) }
    ensures under { IfOk result.result (λ c. HasUrl (url_of (includes types) c.0.head) c.1) }
    ensures at { IfErr result.result (λ fault. fault_offset fault ≡ opened.start) }
    ensures failures { CountsCapture result.result (I.failures members.source.input)
        (I.failures result.members.source.input) }
{
    let OpenRecord { start, head } = opened;
    let Reading {
        mut members,
        result,
    } = capture(members, reader, front, &head, types);
    match result {
        Ok(parts) => match end_record(&mut members, reader, start) {
            Ok(place) => match line_of(parts, alloc, name, place) {
                Ok(captured) => Captured {
                    members,
                    result: Ok((PlacedRecord { head, place }, captured)),
                },
                Err(fault) => Captured {
                    members,
                    result: Err(fault),
                },
            },
            Err(fault) => Captured {
                members,
                result: Err(CaptureFault::Archive(fault)),
            },
        },
        Err(fault) => {
            let fault = end_fault(&mut members, reader, start, fault.cause);
            Captured {
                members,
                result: Err(CaptureFault::Archive(fault)),
            }
        }
    }
}

/// Reads the next record to its end, and returns it with its capture under the archive's name.
pub fn next_capture<I: Input>(
    alloc: Global,
    front: &mut BlockStart,
    members: Members<I>,
    reader: &mut Reader,
    name: &str,
    types: Types,
) -> Captured<I, Option<(PlacedRecord, Option<HeldLine>)>>
    requires { 0 < length name.now }
    ensures takes { TakesNext (includes types) usual_limits (packed HEAD_LIMIT) name.now
        members.source.passed result.result (file_ahead (taken members.source))
        (file_ahead (taken result.members.source)) }
    ensures stands { IfOk result.result (λ o. IfSome o (λ c.
        result.members.source.passed ≡ end_of c.0.place)) }
    ensures failures { CountsCapture result.result (I.failures members.source.input)
        (I.failures result.members.source.input) }
{
    let Reading { members, result } = open_record(members, reader);
    match result {
        Ok(Some(opened)) => {
            let Captured { members, result } = take_capture(
                alloc, front, members, reader, opened, name, types,
            );
            match result {
                Ok(captured) => Captured {
                    members,
                    result: Ok(Some(captured)),
                },
                Err(fault) => Captured {
                    members,
                    result: Err(fault),
                },
            }
        }
        Ok(None) => Captured {
            members,
            result: Ok(None),
        },
        Err(fault) => Captured {
            members,
            result: Err(CaptureFault::Archive(fault)),
        },
    }
}
