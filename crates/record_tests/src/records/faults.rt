//! Why records are refused, and where reading ends.
use super::walks;
use fixtures::{RESOURCE, RESPONSE, joined};
use std::alloc::{AllocError, Global};
use std::test::Fail;
use warc_core::{Cause, Fault, Fuse, Head, Input, Reader, Slice};

const NAMES: &[(Cause, &str)] = &[
    (Cause::Memory, "Memory"),
    (Cause::Read, "Read"),
    (Cause::Version, "Version"),
    (Cause::ShortHead, "ShortHead"),
    (Cause::HeadTooLong, "HeadTooLong"),
    (Cause::FieldLine, "FieldLine"),
    (Cause::Missing, "Missing"),
    (Cause::Repeated, "Repeated"),
    (Cause::BadLength, "BadLength"),
    (Cause::BadDate, "BadDate"),
    (Cause::ShortBlock, "ShortBlock"),
    (Cause::Closing, "Closing"),
    (Cause::TooFar, "TooFar"),
    (Cause::NoMember, "NoMember"),
    (Cause::BadMember, "BadMember"),
    (Cause::CutMember, "CutMember"),
    (Cause::SeveralRecords, "SeveralRecords"),
];

#[test]
fn each_cause_has_its_name(rt: HostRuntime) {
    for (cause, name) in NAMES {
        assert!(rt; cause.name() == *name);
    }
}

/// Archives of one record, and what is wrong with it. If two things are wrong, the earlier is reported.
const ONE_RECORD: &[(&str, Cause)] = &[
    ("W", Cause::ShortHead),
    ("WARC/1.", Cause::ShortHead),
    ("WARC/1.0\r", Cause::ShortHead),
    ("WARC/1.1\r\n", Cause::ShortHead),
    ("WARC/1.1\r\nA: b\r\n", Cause::ShortHead),
    ("\r\n", Cause::Version),
    ("warc/1.1\r\n\r\n", Cause::Version),
    ("WARC/1.2\r\n\r\n", Cause::Version),
    ("WARC/2.0\r\n", Cause::Version),
    ("WARC/1.1\n\n", Cause::Version),
    ("WARC/1.1 \r\n\r\n", Cause::Version),
    ("WARC/1.01\r\n\r\n", Cause::Version),
    ("WARC/1.1\r\n\r\n", Cause::Missing),
    // A head that is cut off, before what its lines say.
    ("WARC/1.1\r\nno colon\r\n", Cause::ShortHead),
    (
        "WARC/1.1\r\nWARC-Type: a\r\nWARC-Type: a\r\n",
        Cause::ShortHead,
    ),
    ("WARC/1.1\r\nContent-Length: x\r\n\r", Cause::ShortHead),
    // Lines before fields, fields before values, each before what follows the head.
    ("WARC/1.1\r\nno colon\r\n\r\n", Cause::FieldLine),
    (
        "WARC/1.1\r\nno colon\r\nContent-Length: 3\r\n\r\na",
        Cause::FieldLine,
    ),
    ("WARC/1.1\r\nContent-Length: 3\r\n\r\na", Cause::Missing),
    (
        "WARC/1.1\r\nWARC-Record-ID: a\r\nContent-Length: 3\r\nWARC-Date: 2016\r\nWARC-Type: b\r\nWARC-Type: b\r\n\r\na",
        Cause::Repeated,
    ),
    (
        "WARC/1.1\r\nWARC-Record-ID: a\r\nContent-Length: x\r\nWARC-Date: 2016\r\nWARC-Type: b\r\n\r\n",
        Cause::BadLength,
    ),
    (
        "WARC/1.1\r\nWARC-Record-ID: a\r\nContent-Length: 9223372036854775808\r\nWARC-Date: 2016\r\nWARC-Type: b\r\n\r\na",
        Cause::BadLength,
    ),
    (
        "WARC/1.1\r\nWARC-Record-ID: a\r\nContent-Length: 9223372036854775807\r\nWARC-Date: x\r\nWARC-Type: b\r\n\r\na",
        Cause::BadDate,
    ),
    (
        "WARC/1.1\r\nWARC-Record-ID: a\r\nContent-Length: 3\r\nWARC-Date: 2015-02-29T00:00:00Z\r\nWARC-Type: b\r\n\r\na",
        Cause::BadDate,
    ),
    // A record that ends too far, before its block is missed.
    (
        "WARC/1.1\r\nWARC-Record-ID: a\r\nContent-Length: 9223372036854775807\r\nWARC-Date: 2016\r\nWARC-Type: b\r\n\r\na",
        Cause::TooFar,
    ),
    (
        "WARC/1.1\r\nWARC-Record-ID: a\r\nContent-Length: 9223372036854775000\r\nWARC-Date: 2016\r\nWARC-Type: b\r\n\r\na",
        Cause::ShortBlock,
    ),
    (
        "WARC/1.1\r\nWARC-Record-ID: a\r\nContent-Length: 3\r\nWARC-Date: 2016\r\nWARC-Type: b\r\n\r\n",
        Cause::ShortBlock,
    ),
    (
        "WARC/1.1\r\nWARC-Record-ID: a\r\nContent-Length: 3\r\nWARC-Date: 2016\r\nWARC-Type: b\r\n\r\na",
        Cause::ShortBlock,
    ),
    (
        "WARC/1.1\r\nWARC-Record-ID: a\r\nContent-Length: 3\r\nWARC-Date: 2016\r\nWARC-Type: b\r\n\r\nabc",
        Cause::Closing,
    ),
    (
        "WARC/1.1\r\nWARC-Record-ID: a\r\nContent-Length: 3\r\nWARC-Date: 2016\r\nWARC-Type: b\r\n\r\nabc\r\n",
        Cause::Closing,
    ),
    (
        "WARC/1.1\r\nWARC-Record-ID: a\r\nContent-Length: 3\r\nWARC-Date: 2016\r\nWARC-Type: b\r\n\r\nabc\r\n\r",
        Cause::Closing,
    ),
    (
        "WARC/1.1\r\nWARC-Record-ID: a\r\nContent-Length: 3\r\nWARC-Date: 2016\r\nWARC-Type: b\r\n\r\nabcd\r\n\r\n",
        Cause::Closing,
    ),
    (
        "WARC/1.1\r\nWARC-Record-ID: a\r\nContent-Length: 3\r\nWARC-Date: 2016\r\nWARC-Type: b\r\n\r\nabc\n\n\r\n",
        Cause::Closing,
    ),
];

fn is_refused(alloc: Global, text: &str, cause: Cause) -> Result<bool, Fault> {
    let fault = Some(Fault { offset: 0, cause });
    Ok(
        walks(alloc, (text.as_bytes(), 1, 0), 0, fault)?
            && walks(alloc, (text.as_bytes(), 8192, 0), 0, fault)?,
    )
}

#[test]
fn the_first_fault_of_a_record_is_reported(rt: HostRuntime) -> Result<(), Fault> {
    for (text, cause) in ONE_RECORD {
        assert!(rt; is_refused(rt.alloc(), text, *cause)?, "{text}");
    }
    Ok(())
}

#[test]
fn a_length_may_have_leading_zeros(rt: HostRuntime) -> Result<(), Fault> {
    let text =
        b"WARC/1.0\r\nWARC-Record-ID: a\r\ncontent-length: 0000000000000000003\r\nWARC-Date: 2016\r\nWARC-Type: b\r\n\r\nabc\r\n\r\n";
    assert!(rt; walks(rt.alloc(), (text, 8192, 0), 1, None)?);
    Ok(())
}

/// Returns the response, followed by a head of 99 bytes, whose block has this length.
fn second_of_length(alloc: Global, digits: &str) -> Result<Vec<u8>, AllocError> {
    let before = b"WARC/1.1\r\nWARC-Record-ID: a\r\nContent-Length: ";
    let behind = b"\r\nWARC-Date: 2016\r\nWARC-Type: b\r\n\r\n";
    joined(alloc, &[RESPONSE, before, digits.as_bytes(), behind])
}

/// Lengths of a second record, and the faults behind its head. 264 bytes, a head of 99, the block and a closing of 4 end
/// at 2^63 - 1 = 9223372036854775807, or one past it.
const GREATEST: &[(&str, Cause)] = &[
    ("9223372036854775440", Cause::ShortBlock),
    ("9223372036854775441", Cause::TooFar),
];

#[test]
fn a_record_ends_at_the_greatest_offset_at_most(rt: HostRuntime) -> Result<(), Fail> {
    for (digits, cause) in GREATEST {
        let text = second_of_length(rt.alloc(), digits)?;
        let (offset, cause) = (264, *cause);
        assert!(rt; text.len() == 264 + 99);
        assert!(rt;
            walks(
                rt.alloc(),
                (&text, 8192, 0),
                1,
                Some(Fault { offset, cause })
            )?
        );
    }
    Ok(())
}

/// Returns how many whole records end before byte `at`, and where the next begins, in the response and then the
/// resource.
fn stand_before(at: u64) -> (u64, u64) {
    match at {
        0..=264 => (0, 0),
        265..=448 => (1, 264),
        _ => (2, 448),
    }
}

#[test]
fn reading_ends_at_the_record_whose_read_fails(rt: HostRuntime) -> Result<(), Fail> {
    let archive = joined(rt.alloc(), &[RESPONSE, RESOURCE])?;
    for at in 1..450 {
        let (records, offset) = stand_before(at);
        let cause = Cause::Read;
        let fault = Some(Fault { offset, cause });
        assert!(rt;
            walks(rt.alloc(), (&archive, 1, at), records, fault)?,
            "{at}"
        );
    }
    Ok(())
}

/// Returns `true` if the reader has this fault. A failed allocation is an error of the test.
fn fails(answer: Result<Option<Head>, Fault>, fault: Fault) -> Result<bool, Fault> {
    match answer {
        Ok(_head) => Ok(false),
        Err(found) if found.cause == Cause::Memory => Err(found),
        Err(found) => Ok(found == fault),
    }
}

/// Returns `true` if each call of a reader that failed returns this fault.
fn repeats<I: Input>(reader: &mut Reader, input: &mut I, fault: Fault) -> bool {
    reader.next(input).err() == Some(fault)
        && reader.finish(input).err() == Some(fault)
        && reader.block(input, &mut [0; 10]).err() == Some(fault)
}

/// Returns `true` if a reader of this text fails, and then repeats its fault without reading.
fn fails_for_good(alloc: Global, text: &[u8], fault: Fault) -> Result<bool, Fault> {
    let mut input = Fuse::new(Slice::new(text), 8192, 0);
    let mut reader = Reader::new(alloc)?;
    let has_failed = fails(reader.next(&mut input), fault)?;
    let calls = input.calls;
    Ok(has_failed && repeats(&mut reader, &mut input, fault) && input.calls == calls)
}

#[test]
fn a_reader_that_failed_repeats_its_fault(rt: HostRuntime) -> Result<(), Fault> {
    let fault = Fault {
        offset: 0,
        cause: Cause::Version,
    };
    assert!(rt; fails_for_good(rt.alloc(), b"no version line", fault)?);
    Ok(())
}
