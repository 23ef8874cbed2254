//! The fetching of the record of a member of a compressed archive.
ghost use Rattle.std.specs.Prelude.{◌≡◌, ◌↔◌, ℕ, ◌<◌, ◌≤◌, ◌+◌, ◌-◌, ◌^◌, List, Option};
ghost use Rattle.std.specs.Prelude.{IfErr, IfOk, IfSome};
ghost use Rattle.std.specs.Prelude.{None, Some, Ok, true, OnOk, option_map, drop, length};
ghost use Rattle.std.specs.Bool.{IsTrue};
ghost use Rattle.std.specs.Io.KnownBytes.{prepend_known};
ghost use Rattle.gzip_members.specs.Left.{left_of, text_of};
ghost use Rattle.gzip_members.specs.Reading.{taken};
ghost use Rattle.warc_core.specs.declared.next.TheConstants.{HEAD_LIMIT};
ghost use Rattle.archives.specs.MemberReading.{file_ahead, HoldsHead, IsKnown, OpensHead, ReadsOn};
ghost use Rattle.archives.specs.MemberReading.{StartsMember};
ghost use Rattle.archives.specs.Packing.{Packed};
ghost use Rattle.warc_core.specs.declared.fault.Cause.TheVariants.{Read};
ghost use Rattle.warc_core.specs.Answers.{causes_of, CountsRead};
ghost use Rattle.warc_core.specs.ReaderView.{IsUnread};
ghost use Rattle.index_core.specs.Counting.{CountsIndex, CountsIndexWrite};
ghost use Rattle.index_core.specs.Copying.{CopiesRecord};
ghost use Rattle.index_core.specs.Fetching.{IsFetchFault};
ghost use Rattle.index_core.specs.FetchingIn.{FetchesMember, IsOfLength, IsUnwrittenBy};
ghost use Rattle.index_core.specs.FetchingIn.{PassesTo, cause_in, not_begun};
ghost use Rattle.index_core.specs.OneRecord.{WritesOneRecord};

use crate::copying::copy_record;
use crate::fault::IndexFault;
use crate::fetching::GREATEST_OFFSET;
use archives::{CaptureFault, Opening, Reading, cause_of, end_fault, end_record, open_begun};
use gzip_members::{MemberFault, MemberText, Members, Outcome};
use std::marker::Brand;
use warc_core::{Cause, Fault, Head, Input, Output, Reader};

/// A file from whose member a record was fetched, and what was answered.
#[derive(Drop)]
pub struct Fetched<I: Input> {
    pub members: Members<I>,
    pub result: Result<u64, IndexFault>,
}

/// Writes the record in a member's text.
fn copy_known<I: Input, M: Outcome, O: Output>(
    members: Members<I>,
    reader: &mut Reader,
    head: &Head,
    out: &mut O,
) -> Fetched<I>
    requires unread { IsUnread reader.old head.now }
    requires known { IsKnown M.behind M.from M.total (left_of members) (taken members.source) }
    ensures known { IsKnown M.behind M.from M.total (left_of result.members)
        (taken result.members.source) }
    ensures copies { CopiesRecord head.now result.result
        (prepend_known reader.old.held (text_of (left_of members)))
        (prepend_known reader.new.held (text_of (left_of result.members))) (O.written out.old)
        (O.written out.new) }
    ensures record { WritesOneRecord HEAD_LIMIT result.result (O.written out.old)
        (O.written out.new) }
    ensures reads { CountsIndex result.result (I.failures members.source.input)
        (I.failures result.members.source.input) }
    ensures writes { CountsIndexWrite result.result (O.failures out.old) (O.failures out.new) }
{
    let mut text: MemberText<I, M> = MemberText::new(members);
    let result = copy_record(reader, &mut text, head, out);
    Fetched {
        members: text.into_members(),
        result,
    }
}

/// Writes the record in a member's text. Its head has been read, and none of its block.
fn copy<I: Input, O: Output>(
    members: Members<I>,
    reader: &mut Reader,
    head: &Head,
    out: &mut O,
) -> Fetched<I>
    requires { IsUnread reader.old head.now }
    ensures on { ReadsOn (left_of members) (taken members.source) (left_of result.members)
        (taken result.members.source) }
    ensures copies { CopiesRecord head.now result.result
        (prepend_known reader.old.held (text_of (left_of members)))
        (prepend_known reader.new.held (text_of (left_of result.members))) (O.written out.old)
        (O.written out.new) }
    ensures record { WritesOneRecord HEAD_LIMIT result.result (O.written out.old)
        (O.written out.new) }
    ensures reads { CountsIndex result.result (I.failures members.source.input)
        (I.failures result.members.source.input) }
    ensures writes { CountsIndexWrite result.result (O.failures out.old) (O.failures out.new) }
{
    copy_known::<I, Brand, O>(members, reader, head, out)
}

/// Returns whether a member has the wanted length, if one is wanted.
fn has_length(asked: Option<u64>, length: u64) -> bool
    ensures { IsTrue result ↔ IsOfLength asked length }
{
    match asked {
        Some(asked) => length == asked,
        None => true,
    }
}

/// Returns why a record can't be read, unless the output failed.
fn cause_in(fault: IndexFault) -> Option<Cause>
    ensures { result ≡ cause_in fault }
{
    match fault {
        IndexFault::Capture(CaptureFault::Archive(fault)) => Some(fault.cause),
        _ => None,
    }
}

/// Writes the record with this head, which was read from the member that begins at `start`, and
/// reads the member to its end.
#[tactic(auto, using(crate::proofs::OneRecordTexts::part_rules))]
fn fetch_record<I: Input, O: Output>(
    members: Members<I>,
    reader: &mut Reader,
    asked: Option<u64>,
    start: u64,
    head: &Head,
    out: &mut O,
) -> Fetched<I>
    requires opens { OpensHead reader.old head.now }
    requires further { start ≤ members.source.passed }
    ensures fetches { (known : Option (List ℕ))
        → IfSome known (λ bytes. HoldsHead start bytes head.now (left_of members)
        (taken members.source) (prepend_known reader.old.held (text_of (left_of members))))
        → FetchesMember HEAD_LIMIT asked start known result.result (O.written out.old)
        (O.written out.new) }
    ensures record { WritesOneRecord HEAD_LIMIT result.result (O.written out.old)
        (O.written out.new) }
    ensures refusals { IfErr result.result IsFetchFault }
    ensures unwritten { IfErr result.result (λ fault. IsUnwrittenBy Packed asked start fault
        → out.new ≡ out.old) }
    ensures reads { CountsIndex result.result (I.failures members.source.input)
        (I.failures result.members.source.input) }
    ensures writes { CountsIndexWrite result.result (O.failures out.old) (O.failures out.new) }
{
    let Fetched {
        mut members,
        result,
    } = copy(members, reader, head, out);
    match result {
        Ok(length) => match end_record(&mut members, reader, start) {
            Ok(place) => {
                if has_length(asked, place.length) {
                    Fetched {
                        members,
                        result: Ok(length),
                    }
                } else {
                    Fetched {
                        members,
                        result: Err(IndexFault::NoRecord),
                    }
                }
            }
            Err(fault) => Fetched {
                members,
                result: Err(IndexFault::from(fault)),
            },
        },
        Err(fault) => match cause_in(fault) {
            Some(cause) => {
                let fault = end_fault(&mut members, reader, start, cause);
                Fetched {
                    members,
                    result: Err(IndexFault::from(fault)),
                }
            }
            None => Fetched {
                members,
                result: Err(fault),
            },
        },
    }
}

/// Writes the record of a member that was begun, which begins at `start`, and reads the member to
/// its end.
fn fetch_begun<I: Input, O: Output>(
    members: Members<I>,
    reader: &mut Reader,
    asked: Option<u64>,
    start: u64,
    out: &mut O,
) -> Fetched<I>
    requires { start < members.source.passed }
    ensures fetches { (known : Option (List ℕ))
        → IfSome known (λ bytes. (start + length bytes ≤ 2 ^ 63 - 1)
        × StartsMember start bytes (Ok true) (left_of members) (taken members.source))
        → FetchesMember HEAD_LIMIT asked start known result.result (O.written out.old)
        (O.written out.new) }
    ensures record { WritesOneRecord HEAD_LIMIT result.result (O.written out.old)
        (O.written out.new) }
    ensures refusals { IfErr result.result IsFetchFault }
    ensures unwritten { IfErr result.result (λ fault. IsUnwrittenBy Packed asked start fault
        → out.new ≡ out.old) }
    ensures reads { CountsIndex result.result (I.failures members.source.input)
        (I.failures result.members.source.input) }
    ensures writes { CountsIndexWrite result.result (O.failures out.old) (O.failures out.new) }
{
    let Reading { members, result } = open_begun(members, reader, start);
    match result {
        Ok(Opening::Record(head)) => fetch_record(members, reader, asked, start, &head, out),
        Ok(Opening::Empty) => Fetched {
            members,
            result: Err(IndexFault::NoRecord),
        },
        Ok(Opening::End) => Fetched {
            members,
            result: Err(IndexFault::NoRecord),
        },
        Err(fault) => Fetched {
            members,
            result: Err(IndexFault::from(fault)),
        },
    }
}

/// Writes the record of the member that begins with the next bytes, and reads the member to its
/// end.
fn fetch_next<I: Input, O: Output>(
    members: Members<I>,
    reader: &mut Reader,
    asked: Option<u64>,
    out: &mut O,
) -> Fetched<I>
    ensures fetches { FetchesMember HEAD_LIMIT asked members.source.passed
        (file_ahead (taken members.source)) result.result (O.written out.old) (O.written out.new) }
    ensures record { WritesOneRecord HEAD_LIMIT result.result (O.written out.old)
        (O.written out.new) }
    ensures refusals { IfErr result.result IsFetchFault }
    ensures unwritten { IfErr result.result (λ fault. IsUnwrittenBy Packed asked
        members.source.passed fault → out.new ≡ out.old) }
    ensures reads { CountsIndex result.result (I.failures members.source.input)
        (I.failures result.members.source.input) }
    ensures writes { CountsIndexWrite result.result (O.failures out.old) (O.failures out.new) }
{
    let mut members = members;
    let start = members.source.passed;
    match members.begin() {
        Ok(begins) => {
            if begins {
                fetch_begun(members, reader, asked, start, out)
            } else {
                Fetched {
                    members,
                    result: Err(IndexFault::NoRecord),
                }
            }
        }
        Err(fault) => Fetched {
            members,
            result: Err(not_begun(start, fault)),
        },
    }
}

/// Returns why no record is fetched from an offset, where no member was begun for this fault.
fn not_begun(offset: u64, fault: MemberFault) -> IndexFault
    ensures { result ≡ not_begun offset fault }
{
    match fault {
        MemberFault::NoMember => IndexFault::NoRecord,
        fault => IndexFault::from(Fault {
            offset,
            cause: cause_of(fault),
        }),
    }
}

/// Passes over what precedes an offset of a file of which nothing was read, and returns whether the
/// file reaches it.
fn pass_to<I: Input>(members: &mut Members<I>, offset: u64) -> Result<bool, Fault>
    requires { members.old.source.passed ≡ 0 }
    ensures reached { result ≡ Ok true → members.new.source.passed ≡ offset }
    ensures passes { IfOk result (λ reached. IfSome (file_ahead (taken members.old.source))
        (PassesTo offset reached (file_ahead (taken members.new.source)))) }
    ensures fault { IfErr result (λ f. f ≡ record { offset = offset; cause = Read }) }
    ensures reads { CountsRead (causes_of result) (I.failures members.old.source.input)
        (I.failures members.new.source.input) }
{
    if offset > GREATEST_OFFSET {
        return Ok(false);
    }
    match members.pass_over(offset) {
        Ok(reached) => Ok(reached),
        Err(_) => Err(Fault {
            offset,
            cause: Cause::Read,
        }),
    }
}

/// Writes the record of the member that begins at an offset of a file of which nothing was read,
/// and reads the member to its end. With a length, the member has it.
pub fn get_member<I: Input, O: Output>(
    members: Members<I>,
    reader: &mut Reader,
    asked: Option<u64>,
    offset: u64,
    out: &mut O,
) -> Fetched<I>
    requires { members.source.passed ≡ 0 }
    ensures fetches { FetchesMember HEAD_LIMIT asked offset
        (option_map (drop offset) (file_ahead (taken members.source))) result.result
        (O.written out.old) (O.written out.new) }
    ensures record { WritesOneRecord HEAD_LIMIT result.result (O.written out.old)
        (O.written out.new) }
    ensures refusals { IfErr result.result IsFetchFault }
    ensures unwritten { IfErr result.result (λ fault. IsUnwrittenBy Packed asked offset fault
        → out.new ≡ out.old) }
    ensures reads { CountsIndex result.result (I.failures members.source.input)
        (I.failures result.members.source.input) }
    ensures writes { CountsIndexWrite result.result (O.failures out.old) (O.failures out.new) }
{
    let mut members = members;
    match pass_to(&mut members, offset) {
        Ok(reached) => {
            if reached {
                fetch_next(members, reader, asked, out)
            } else {
                Fetched {
                    members,
                    result: Err(IndexFault::NoRecord),
                }
            }
        }
        Err(fault) => Fetched {
            members,
            result: Err(IndexFault::from(fault)),
        },
    }
}
