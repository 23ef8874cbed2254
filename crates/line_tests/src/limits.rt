//! How long lines are, and the pairs that they begin with.
use cdxj_core::{LINE_LIMIT, Line, LineFault, split_pair};
use fixtures::padded;
use std::alloc::{AllocError, Global};

const FRONT: &[u8] = b"k 20160101000000 {\"offset\": \"7\", \"filename\": \"f\", \"a\": \"";

/// Returns a line of this length, whose last byte is a line feed or not.
fn long_line(alloc: Global, length: usize, feed: bool) -> Result<Vec<u8>, AllocError> {
    let end: &[u8] = if feed { b"\"}\n" } else { b"\"}" };
    padded(alloc, FRONT, b'a', end, length)
}

/// Returns the offset in a line, or `None` if it is too long. Other faults are errors of the test.
fn offset_of(alloc: Global, line: &[u8]) -> Result<Option<u64>, LineFault> {
    match Line::read(alloc, line) {
        Ok(read) => Ok(Some(read.place().offset)),
        Err(LineFault::LineTooLong) => Ok(None),
        Err(fault) => Err(fault),
    }
}

/// Lengths of lines, whether their last byte is a line feed, and whether they are read.
const LENGTHS: &[(usize, bool, bool)] = &[
    (1_048_577, true, true),
    (16_777_215, false, true),
    (16_777_216, true, true),
    (16_777_216, false, false),
    (16_777_217, true, false),
    (16_777_217, false, false),
];

/// The limit counts a line feed, whether it is there or not.
#[test]
fn a_line_is_read_up_to_the_limit(rt: HostRuntime) -> Result<(), LineFault> {
    assert!(rt; LINE_LIMIT == 16_777_216);
    for (length, feed, is_read) in LENGTHS {
        let line = long_line(rt.alloc(), *length, *feed)?;
        assert!(rt;
            offset_of(rt.alloc(), &line)? == is_read.then_some(7),
            "{length}, {feed}"
        );
    }
    Ok(())
}

#[test]
fn a_line_over_the_limit_is_too_long_before_all_else(rt: HostRuntime) -> Result<(), LineFault> {
    for byte in b"\xff\n \0" {
        let line = padded(rt.alloc(), b"", *byte, b"x", 16_777_217)?;
        assert!(rt; offset_of(rt.alloc(), &line)?.is_none(), "{byte}");
    }
    Ok(())
}

/// Lines that begin with a pair, whose stamp is the first of 2016, and its key.
const PAIRS: &[(&[u8], &[u8])] = &[
    (b"a)/ 20160101000000 {\"url\": \"http://x/\"}\n", b"a)/"),
    (b"b)/ 20160101000000 ", b"b)/"),
    (b"c)/ 20160101000000 \xff\n\n", b"c)/"),
    (b"! 20160101000000 x", b"!"),
    (b"\xff 20160101000000 x", b"\xff"),
    (b"k 20160101000000  x", b"k"),
];

const WITHOUT_PAIR: &[&[u8]] = &[
    b"",
    b"\n",
    b" 20160101000000 x",
    b"k 20160101000000",
    b"k 2016010100000 x",
    b"k 201601010000000 x",
    b"k 2016010100000x x",
    b"k  20160101000000 x",
    b"k\t20160101000000 x",
    b"a\tb 20160101000000 x",
    b"a\x7f 20160101000000 x",
    b"k 20160101000000\n",
];

/// Returns `true` if the line begins with this key and the first stamp of 2016.
pub fn has_pair(line: &[u8], key: &[u8]) -> bool {
    match split_pair(line) {
        Some((found, stamp)) => found == key && stamp == b"20160101000000".as_slice(),
        None => false,
    }
}

#[test]
fn pairs_stand_in_front(rt: HostRuntime) {
    for (line, key) in PAIRS {
        assert!(rt; has_pair(line, key));
    }
    for line in WITHOUT_PAIR {
        assert!(rt; split_pair(line).is_none());
    }
}
