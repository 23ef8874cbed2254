//! Conversations: the replies to the lines of an input.
use crate::calls::served;
use crate::small_indexes::{APART, index_texts, slices};
use devices::{Fuse, Slice};
use fixtures::{FIRST_OF_2016, Rows, joined, padded};
use query_core::AnswerFault;
use std::alloc::{AllocError, Global};
use std::test::Fail;

const FALLING: Rows = &[
    ("b)/", FIRST_OF_2016, "a.warc", 0),
    ("a)/", FIRST_OF_2016, "a.warc", 0),
];

/// Returns `true` if the lines of an input, which is read in pieces of `piece` bytes and fails at its call `at`, have this
/// result and these replies.
fn is_served(
    alloc: Global,
    indexes: &[Rows],
    (input, piece, at): (&[u8], usize, u64),
    wanted: Result<u64, AnswerFault>,
    replies: &[u8],
) -> Result<bool, Fail> {
    let texts = index_texts(alloc, indexes)?;
    let mut sources = slices(alloc, &texts)?;
    let mut input = Fuse::new(Slice::new(input), piece, at);
    let (result, out) = served(alloc, &mut sources, &mut input)?;
    Ok(result == wanted && out.bytes() == replies)
}

/// Three queries, the last line without a line feed, and the replies to them.
const QUERIES: &[u8] = b"url=example.com&fl=offset\r\nlimit=0\nkey=x";

const REPLIES: &[u8] = b"5\n20\n10\n.\nrefused BadLimit\n.\n.\n";

#[test]
fn each_line_has_a_reply(rt: HostRuntime) -> Result<(), Fail> {
    for piece in &[1, 2, 8192] {
        let input = (QUERIES, *piece, u64::MAX);
        assert!(rt;
            is_served(rt.alloc(), APART, input, Ok(3), REPLIES)?,
            "{piece}"
        );
    }
    Ok(())
}

/// Returns five lines: one over the limit of a query, one that isn't text, an empty one, one at the limit, and one whose
/// index isn't in order.
fn refused_lines(alloc: Global) -> Result<Vec<u8>, AllocError> {
    let long = padded(alloc, b"", b'a', b"\n\xff\n\n", 65_541)?;
    let last = padded(
        alloc,
        b"",
        b'a',
        b"\r\nkey=&matchType=prefix&fl=offset",
        65_569,
    )?;
    joined(alloc, &[&long, &last])
}

const REFUSALS: &[u8] =
    b"refused QueryTooLong\n.\nrefused NotText\n.\nrefused NoUrl\n.\nrefused Unknown\n.\n\nfault OutOfOrder 0 145\n.\n";

#[test]
fn lines_are_refused_by_name(rt: HostRuntime) -> Result<(), Fail> {
    let lines = refused_lines(rt.alloc())?;
    assert!(rt; lines.len() == 131_110);
    let input = (lines.as_slice(), 8192, u64::MAX);
    assert!(rt; is_served(rt.alloc(), &[FALLING], input, Ok(5), REFUSALS)?);
    Ok(())
}

#[test]
fn a_conversation_ends_where_its_input_fails(rt: HostRuntime) -> Result<(), Fail> {
    let input: &[u8] = b"key=x\nkey=y\n";
    let fault = Err(AnswerFault::Input);
    assert!(rt; is_served(rt.alloc(), APART, (input, 2, 1), fault, b"")?);
    assert!(rt; is_served(rt.alloc(), APART, (input, 2, 4), fault, b".\n")?);
    Ok(())
}
