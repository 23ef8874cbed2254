//! The lines of sources: checking them, and searching in them.
use crate::calls::{checked, page};
use crate::small_indexes::file_of;
use cdxj_core::{LEAST_PAIR, Pair};
use devices::Fuse;
use fixtures::{
    FALLING, FIRST_OF_2016, LETTERS, Refused, Rows, TORN, UNENDED_LETTERS, cut, index_text, joined,
    keyed_lines, padded,
};
use query_core::{AnswerFault, FileSource, RememberingSource, SliceSource, Source};
use source_core::{SearchFault, search};
use std::alloc::Global;
use std::fs;
use std::io::Cursor;
use std::test::Fail;

/// Texts, and what checking them returns.
const TEXTS: &[(&[u8], Result<u64, AnswerFault>)] = &[
    (b"", Ok(0)),
    (UNENDED_LETTERS, Ok(3)),
    (FALLING, Err(AnswerFault::OutOfOrder(0, 145))),
    (b"\n", Err(AnswerFault::BadLine(0, 0))),
    (TORN, Err(AnswerFault::BadLine(0, 145))),
];

/// Lines with one key and stamp, whose offsets fall.
const ONE_PAIR: Rows = &[
    ("com,example)/", FIRST_OF_2016, "a.warc", 1000),
    ("com,example)/", FIRST_OF_2016, "a.warc", 99),
];

#[test]
fn an_index_is_counted_or_its_first_line_at_fault_is_named(rt: HostRuntime) -> Result<(), Refused> {
    let alloc = rt.alloc();
    for (number, (text, wanted)) in TEXTS.iter().enumerate() {
        assert!(rt;
            checked(alloc, &mut SliceSource::new(text))? == *wanted,
            "row {number}"
        );
    }
    let one_pair = index_text(alloc, ONE_PAIR)?;
    assert!(rt; checked(alloc, &mut SliceSource::new(&one_pair))? == Ok(2));
    let with_empty = joined(alloc, &[cut(LETTERS, 145), b"\n", LETTERS])?;
    let bad = Err(AnswerFault::BadLine(0, 145));
    assert!(rt; checked(alloc, &mut SliceSource::new(&with_empty))? == bad);
    Ok(())
}

/// Numbers of bytes that a source gives a call, and of its calls for a check of the letters.
const CALLS: &[(usize, u64)] = &[(1, 434), (2, 217), (8192, 1)];

#[test]
fn a_check_reads_each_byte_once(rt: HostRuntime) -> Result<(), Refused> {
    for (piece, calls) in CALLS {
        let mut source = Fuse::new(SliceSource::new(UNENDED_LETTERS), *piece, 0);
        assert!(rt; checked(rt.alloc(), &mut source)? == Ok(3), "{piece}");
        assert!(rt; source.calls == *calls, "{piece}");
    }
    Ok(())
}

/// Returns `true` if `count` bytes are read at this offset into a piece of 145 bytes, which then begins with this byte.
fn gives<S: Source>(source: &mut S, at: u64, count: usize, first: u8) -> bool {
    let mut piece = [0; 145];
    source.read_at(at, &mut piece) == Ok(count) && piece[0] == first
}

/// Offsets in the letters, how many bytes are read there, and the first of them.
const PLACES: &[(u64, usize, u8)] = &[
    (290, 144, b'c'),
    (0, 145, b'a'),
    (145, 145, b'b'),
    (145, 145, b'b'),
    (290, 144, b'c'),
    (434, 0, 0),
    (0, 145, b'a'),
];

#[test]
fn a_file_is_read_at_any_offset(rt: HostRuntime) -> Result<(), Fail> {
    let mut source = file_of(&rt, "offsets.cdxj", UNENDED_LETTERS)?;
    let mut in_memory = FileSource::new(Cursor::new(UNENDED_LETTERS))?;
    for (at, count, first) in PLACES {
        assert!(rt; gives(&mut source, *at, *count, *first), "{at}");
        assert!(rt; gives(&mut in_memory, *at, *count, *first), "{at}");
    }
    Ok(())
}

#[test]
fn a_file_that_was_cut_after_it_was_opened_fails(rt: HostRuntime) -> Result<(), Fail> {
    let alloc = rt.alloc();
    let mut source = file_of(&rt, "letters.cdxj", UNENDED_LETTERS)?;
    assert!(rt; checked(alloc, &mut source)? == Ok(3));
    fs::write(&rt, "letters.cdxj", cut(UNENDED_LETTERS, 290))?;
    assert!(rt; checked(alloc, &mut source)? == Err(AnswerFault::Read(0)));
    Ok(())
}

/// Returns the least pair of this key.
fn first_at(key: &str) -> Pair<'_> {
    Pair {
        key,
        stamp: LEAST_PAIR.stamp,
    }
}

/// The pair of the last of 100,000 lines.
const LAST: Pair<'static> = Pair {
    key: "com,example)/99999",
    stamp: *b"20160101000000",
};

/// Returns `true` if the first line at or above this key begins at this offset.
fn is_found(alloc: Global, key: &str, offset: u64) -> Result<bool, SearchFault> {
    let mut source = SliceSource::new(UNENDED_LETTERS);
    let found = search(alloc, &mut source, first_at(key))?;
    Ok(found.cursor.at() == offset && found.probes <= 9)
}

#[test]
fn the_search_finds_the_first_line_at_or_above_a_key(rt: HostRuntime) -> Result<(), SearchFault> {
    for (key, offset) in &[
        ("0", 0),
        ("a)/", 0),
        ("aa)/", 145),
        ("b)/", 145),
        ("c)/", 290),
        ("z)/", 434),
    ] {
        assert!(rt; is_found(rt.alloc(), key, *offset)?, "{key}");
    }
    Ok(())
}

#[test]
fn the_search_fails_where_its_source_does(rt: HostRuntime) -> Result<(), SearchFault> {
    let mut source = Fuse::new(SliceSource::new(UNENDED_LETTERS), 2, 1);
    match search(rt.alloc(), &mut source, first_at("b)/")) {
        Err(SearchFault::Memory) => return Err(SearchFault::Memory),
        found => assert!(rt; matches!(found, Err(SearchFault::Read))),
    }
    Ok(())
}

/// The lines have 17,900,000 bytes. Twelve steps leave less than 7,680 of them, which one read gives.
#[test]
fn the_search_for_the_last_of_100_000_lines_reads_13_times(rt: HostRuntime) -> Result<(), Fail> {
    let text = keyed_lines(rt.alloc(), 100_000)?;
    let mut source = Fuse::new(SliceSource::new(&text), 8_192, 0);
    let found = search(rt.alloc(), &mut source, LAST)?;
    assert!(rt; text.len() == 17_900_000 && found.cursor.at() == 17_899_821);
    assert!(rt; found.probes > 20 && source.calls <= 13);
    Ok(())
}

/// Returns `true` if the last of 100,000 lines is found.
fn finds_last<S: Source>(alloc: Global, source: &mut S) -> Result<bool, SearchFault> {
    let found = search(alloc, source, LAST)?;
    Ok(found.cursor.at() == 17_899_821)
}

/// The first search reads 13 times. The next ones make its twelve steps without a read, and then read
/// once: the fifteenth read fails.
#[test]
fn a_source_that_remembers_is_read_once_in_the_second_search(rt: HostRuntime) -> Result<(), Fail> {
    let text = keyed_lines(rt.alloc(), 100_000)?;
    let read = Fuse::new(SliceSource::new(&text), 8_192, 15);
    let mut source = RememberingSource::new(rt.alloc(), read, 1_048_576);
    assert!(rt; finds_last(rt.alloc(), &mut source)?);
    assert!(rt; finds_last(rt.alloc(), &mut source)?);
    assert!(rt; matches!(finds_last(rt.alloc(), &mut source), Err(SearchFault::Read)));
    Ok(())
}

/// The second search fails at its second read.
#[test]
fn a_source_without_room_remembers_nothing(rt: HostRuntime) -> Result<(), Fail> {
    let text = keyed_lines(rt.alloc(), 100_000)?;
    let read = Fuse::new(SliceSource::new(&text), 8_192, 15);
    let mut source = RememberingSource::new(rt.alloc(), read, 0);
    assert!(rt; finds_last(rt.alloc(), &mut source)?);
    assert!(rt; matches!(finds_last(rt.alloc(), &mut source), Err(SearchFault::Read)));
    Ok(())
}

#[test]
fn a_query_reads_on_from_what_its_search_has_read(rt: HostRuntime) -> Result<(), Fail> {
    let mut sources = [Fuse::new(SliceSource::new(UNENDED_LETTERS), 8_192, 0)];
    let (report, _page) = page(rt.alloc(), &mut sources, "key=b)/")?;
    assert!(rt; report.given == 1 && sources[0].calls == 1);
    Ok(())
}

/// The number of bytes in a source's longest good line.
const LINE: u64 = 16_777_216;

/// No more is read of a bad line of 40 MB than a good line has, and a piece of 8,192 bytes.
#[test]
fn a_line_that_is_too_long_is_read_up_to_the_limit(rt: HostRuntime) -> Result<(), Refused> {
    let line = padded(rt.alloc(), cut(LETTERS, 100), b'x', b"\n", 40_000_000)?;
    let mut source = SliceSource::new(&line);
    assert!(rt; checked(rt.alloc(), &mut source)? == Err(AnswerFault::BadLine(0, 0)));
    assert!(rt; source.gave() > LINE - 8_192 && source.gave() <= LINE + 8_192);
    Ok(())
}

/// Returns the offset that the search for `c)/` finds in this text, and the number of bytes that it
/// read.
fn found_in(alloc: Global, text: &[u8]) -> Result<(u64, u64), SearchFault> {
    let mut source = SliceSource::new(text);
    let found = search(alloc, &mut source, first_at("c)/"))?;
    Ok((found.cursor.at(), source.gave()))
}

/// Fronts of texts that go on with zeros, and the offset that the search for `c)/` finds there.
const FRONTS: &[(&[u8], u64)] = &[(b"", 0), (LETTERS, 290)];

#[test]
fn a_search_in_zeros_reads_no_more_than_them_and_a_line(
    rt: HostRuntime,
) -> Result<(), SearchFault> {
    for (front, wanted) in FRONTS {
        let text = padded(rt.alloc(), front, 0, b"", 64_000_000)?;
        let (offset, gave) = found_in(rt.alloc(), &text)?;
        assert!(rt;
            offset == *wanted && gave <= 64_000_000 + LINE,
            "{offset} {gave}"
        );
    }
    Ok(())
}

#[test]
fn a_search_ends_at_a_line_that_is_too_long_to_be_looked_through(
    rt: HostRuntime,
) -> Result<(), SearchFault> {
    let alloc = rt.alloc();
    let text = padded(alloc, cut(LETTERS, 200), b'x', LETTERS, 40_000_000)?;
    let (offset, _gave) = found_in(alloc, &text)?;
    assert!(rt; offset == 145, "{offset}");
    Ok(())
}
