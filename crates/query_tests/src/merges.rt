//! The merging of sources.
use crate::calls::merged;
use crate::small_indexes::empty_sources;
use fixtures::{
    FALLING, IMAGE, LETTERS, OFFSET_5, OFFSET_10, OFFSET_20, PAGE, RISEN, Refused, TORN,
    UNENDED_LETTERS,
};
use query_core::{AnswerFault, SliceSource};
use std::alloc::Global;

/// Returns `true` if the merge of these sources has this result, and writes this text.
fn is_merge(
    alloc: Global,
    sources: &mut [SliceSource<'_>],
    wanted: Result<u64, AnswerFault>,
    text: &[u8],
) -> Result<bool, Refused> {
    let (result, out) = merged(alloc, sources)?;
    Ok(result == wanted && out.bytes() == text)
}

/// Returns `true` if merging these texts has this result, and writes this text.
fn is_merged(
    alloc: Global,
    texts: &[&[u8]],
    wanted: Result<u64, AnswerFault>,
    text: &[u8],
) -> Result<bool, Refused> {
    let mut sources = Vec::new(alloc);
    for text in texts {
        sources.push(SliceSource::new(text))?;
    }
    is_merge(alloc, &mut sources, wanted, text)
}

/// Texts, the result of their merge, and what it writes.
const MERGES: &[(&[&[u8]], Result<u64, AnswerFault>, &[u8])] = &[
    (&[OFFSET_10, OFFSET_20, OFFSET_5], Ok(3), RISEN),
    (&[UNENDED_LETTERS, b""], Ok(3), LETTERS),
    (&[UNENDED_LETTERS, LETTERS], Ok(3), LETTERS),
    (&[PAGE, IMAGE], Ok(1), PAGE),
    (&[IMAGE, PAGE], Ok(1), IMAGE),
    (&[], Ok(0), b""),
    (&[FALLING], Err(AnswerFault::OutOfOrder(0, 145)), b""),
    (&[b"\n"], Err(AnswerFault::BadLine(0, 0)), b""),
    (&[PAGE, b"\n"], Err(AnswerFault::BadLine(1, 0)), b""),
    (&[TORN], Err(AnswerFault::BadLine(0, 145)), b""),
];

#[test]
fn each_place_is_written_once_in_order_and_a_line_at_fault_ends_the_merge(
    rt: HostRuntime,
) -> Result<(), Refused> {
    for (number, (texts, wanted, text)) in MERGES.iter().enumerate() {
        assert!(rt;
            is_merged(rt.alloc(), texts, *wanted, text)?,
            "row {number}"
        );
    }
    Ok(())
}

/// Numbers of empty sources, and the result of their merge.
const COUNTS: &[(usize, Result<u64, AnswerFault>)] = &[
    (1_024, Ok(0)),
    (1_025, Err(AnswerFault::TooManySources)),
];

#[test]
fn at_most_1024_sources_are_merged(rt: HostRuntime) -> Result<(), Refused> {
    for (count, wanted) in COUNTS {
        let mut sources = empty_sources(rt.alloc(), *count)?;
        assert!(rt;
            is_merge(rt.alloc(), &mut sources, *wanted, b"")?,
            "{count}"
        );
    }
    Ok(())
}
