//! The order of entries and of lines.
use crate::writing::{HOME, Members, entry};
use cdxj_core::{Entry, Line, LineFault, LineRef, OwnedPlace, PlaceFault, in_order};
use cdxj_places::rows_in_order;
use std::alloc::{AllocError, Global};
use std::cmp::Ordering;
use std::test::Fail;

fn entries(alloc: Global, rows: &[Members]) -> Result<Vec<Entry>, AllocError> {
    let mut entries = Vec::new(alloc);
    for members in rows {
        entries.push(entry(alloc, members)?)?;
    }
    Ok(entries)
}

const ENTRIES: &[Members] = &[
    Members {
        filename: "b.warc",
        offset: 10,
        mime: "first",
        ..HOME
    },
    Members {
        filename: "a.warc",
        offset: 1000,
        mime: "first",
        ..HOME
    },
    Members {
        filename: "a.warc",
        offset: 99,
        mime: "first",
        ..HOME
    },
    Members {
        filename: "a.warc",
        offset: 1000,
        mime: "second",
        ..HOME
    },
    Members {
        filename: "b.warc",
        offset: 10,
        mime: "second",
        ..HOME
    },
];

const IN_ORDER: &[(&str, u64)] = &[("a.warc", 99), ("a.warc", 1000), ("b.warc", 10)];

fn is_first_at(entry: &Entry, (filename, offset): (&str, u64)) -> bool {
    entry.filename.as_str() == filename && entry.offset == offset && entry.mime.as_str() == "first"
}

/// Returns `true` if these entries rise to those that are first at the places.
fn rise_to(alloc: Global, rows: &[Members], places: &[(&str, u64)]) -> Result<bool, AllocError> {
    let entries = entries(alloc, rows)?;
    let order = in_order(alloc, &entries)?;
    let mut pairs = order.iter().zip(places);
    Ok(order.len() == places.len() && pairs.all(|(found, place)| is_first_at(found, *place)))
}

/// By file name, then by offset as a number; of two at one place the first.
#[test]
fn entries_rise_by_place(rt: HostRuntime) -> Result<(), AllocError> {
    assert!(rt; rise_to(rt.alloc(), ENTRIES, IN_ORDER)?);
    Ok(())
}

/// The numbers of the first entries at these places, in their order.
const NUMBERS: &[usize] = &[2, 1, 0];

#[test]
fn rows_have_the_numbers_of_the_first_entries(rt: HostRuntime) -> Result<(), AllocError> {
    let entries = entries(rt.alloc(), ENTRIES)?;
    let rows = rows_in_order(rt.alloc(), &entries)?;
    let mut pairs = rows.iter().zip(NUMBERS);
    assert!(rt; rows.len() == NUMBERS.len());
    assert!(rt; pairs.all(|(row, number)| row.number == *number));
    Ok(())
}

/// Each key is above the one before it, by its bytes: some differ in what all begin with alike, some far behind that, one
/// is the start of the next.
const RISING: &[&[&str]] = &[
    &[
        "com,example)/",
        "com,example)/a",
        "com,example)/a-path-that-is-long/0",
        "com,example)/a-path-that-is-long/00",
        "com,example)/a-path-that-is-long/1",
        "com,example)/b",
        "com,example)/\u{e9}",
    ],
    &["com,example)/", "com,example,www)/", "org,example)/"],
    &["k"],
];

/// Returns `true` if entries with these keys, passed from the last to the first, are sorted as the keys are.
fn rise(alloc: Global, keys: &[&'static str]) -> Result<bool, AllocError> {
    let mut entries = Vec::new(alloc);
    for key in keys.iter().rev() {
        entries.push(entry(alloc, &Members { key, ..HOME })?)?;
    }
    let order = in_order(alloc, &entries)?;
    let mut pairs = order.iter().zip(keys);
    Ok(order.len() == keys.len() && pairs.all(|(found, key)| found.key.as_str() == *key))
}

#[test]
fn keys_rise_by_their_bytes(rt: HostRuntime) -> Result<(), AllocError> {
    for keys in RISING {
        assert!(rt; rise(rt.alloc(), keys)?);
    }
    Ok(())
}

const OFFSET_1000: &[u8] = b"k 20160101000000 {\"offset\": \"1000\", \"filename\": \"a.warc\"}";

const OFFSET_99: &[u8] = b"k 20160101000000 {\"offset\": \"99\", \"filename\": \"a.warc\"}";

const OFFSET_5: &[u8] = b"j 20170101000000 {\"offset\": \"5\", \"filename\": \"b.warc\"}";

fn are_offsets(lines: &[&&LineRef<'_>], offsets: &[u64]) -> bool {
    let mut pairs = lines.iter().zip(offsets);
    lines.len() == offsets.len() && pairs.all(|(line, offset)| line.place().offset == *offset)
}

#[test]
fn lines_rise_by_place(rt: HostRuntime) -> Result<(), LineFault> {
    let first = Line::read(rt.alloc(), OFFSET_1000)?;
    let second = Line::read(rt.alloc(), OFFSET_99)?;
    let third = Line::read(rt.alloc(), OFFSET_5)?;
    let lines = [&first.values(), &second.values(), &third.values()];
    let order = in_order(rt.alloc(), &lines)?;
    assert!(rt; are_offsets(&order, &[5, 99, 1000]));
    Ok(())
}

/// Resume keys, and how the place of `OFFSET_1000` is ordered to theirs.
const OTHER_PLACES: &[(&str, Ordering)] = &[
    ("k+20160101000000+a.warc+1000", Ordering::Equal),
    ("k+20160101000000+a.warc+999", Ordering::Greater),
    ("k+20160101000000+a.warc+9999", Ordering::Less),
    ("k+20160101000000+a.war+9999", Ordering::Greater),
    ("k+20160101000001+A+1000", Ordering::Less),
    ("j+20170101000000+a.warc+1000", Ordering::Greater),
];

fn is_ordered(alloc: Global, line: &Line, key: &str, order: Ordering) -> Result<bool, PlaceFault> {
    let other = OwnedPlace::read(alloc, key)?;
    let place = other.place();
    Ok(line.compare_to(&place) == order && line.values().compare_to(&place) == order)
}

#[test]
fn a_line_is_compared_with_a_place(rt: HostRuntime) -> Result<(), Fail> {
    let line = Line::read(rt.alloc(), OFFSET_1000)?;
    for (key, order) in OTHER_PLACES.iter() {
        assert!(rt; is_ordered(rt.alloc(), &line, key, *order)?, "{key}");
    }
    Ok(())
}
