//! Places, their resume keys and their order.
use cdxj_core::{OwnedPlace, Place, PlaceFault, resume_text};
use std::alloc::Global;
use std::cmp::Ordering;

/// Returns `true` if this resume key is written for the place.
fn is_written(alloc: Global, place: Place<'_>, text: &str) -> Result<bool, PlaceFault> {
    Ok(resume_text(alloc, place)?.as_str() == text)
}

/// Returns `true` if the place is the same when it is kept.
fn is_kept(alloc: Global, place: Place<'_>) -> Result<bool, PlaceFault> {
    Ok(OwnedPlace::new(alloc, place)?.place() == place)
}

const HOME: &str = "com%2Cexample%29%2F+20160101000000+a+b.warc+5";

fn is_home(place: Place<'_>) -> bool {
    place.key == "com,example)/"
        && place.stamp == *b"20160101000000"
        && place.filename == "a b.warc"
        && place.offset == 5
}

#[test]
fn resume_keys_name_places(rt: HostRuntime) -> Result<(), PlaceFault> {
    let kept = OwnedPlace::read(rt.alloc(), HOME)?;
    assert!(rt; is_home(kept.place()));
    assert!(rt; is_kept(rt.alloc(), kept.place())?);
    assert!(rt; is_written(rt.alloc(), kept.place(), HOME)?);
    Ok(())
}

/// Resume keys, the file name and the offset of their places, and the resume keys that are written for these.
const RESUME_KEYS: &[(&str, &str, u64, &str)] = &[
    ("k 20160101000000 f 0", "f", 0, "k+20160101000000+f+0"),
    (
        "k+20160101000000+a++b+7",
        "a  b",
        7,
        "k+20160101000000+a++b+7",
    ),
    ("k+20160101000000++f+7", " f", 7, "k+20160101000000++f+7"),
    ("k+20160101000000+%66+007", "f", 7, "k+20160101000000+f+7"),
    (
        "k+20160101000000+a%2Bb+1",
        "a+b",
        1,
        "k+20160101000000+a%2Bb+1",
    ),
    (
        "k+20160101000000+%C3%A9+1",
        "\u{e9}",
        1,
        "k+20160101000000+%C3%A9+1",
    ),
    (
        "k+20160101000000+a%3Db%26c+1",
        "a=b&c",
        1,
        "k+20160101000000+a%3Db%26c+1",
    ),
    (
        "k+20160101000000+f+9223372036854775807",
        "f",
        9_223_372_036_854_775_807,
        "k+20160101000000+f+9223372036854775807",
    ),
];

/// Returns `true` if the resume key names a place with this file name and offset, for which this resume key is written.
fn names(
    alloc: Global,
    text: &str,
    filename: &str,
    offset: u64,
    written: &str,
) -> Result<bool, PlaceFault> {
    let kept = OwnedPlace::read(alloc, text)?;
    let place = kept.place();
    Ok(place.filename == filename && place.offset == offset && is_written(alloc, place, written)?)
}

/// The form encoding is that of the URL Standard, section 5.
#[test]
fn resume_keys_are_form_encoded(rt: HostRuntime) -> Result<(), PlaceFault> {
    for (text, filename, offset, written) in RESUME_KEYS {
        assert!(rt;
            names(rt.alloc(), text, filename, *offset, written)?,
            "{text}"
        );
    }
    Ok(())
}

const NO_RESUME_KEYS: &[&str] = &[
    "x",
    "",
    "+20160101000000+f+1",
    "k+20160101000000+f",
    "k+20160101000000++1",
    "k+2016010100000+f+1",
    "k+201601010000000+f+1",
    "k+2016010100000x+f+1",
    "k++f+1",
    "k+20160101000000+f+",
    "k+20160101000000+f+-1",
    "k+20160101000000+f+%2B1",
    "k+20160101000000+f+1x",
    "k+20160101000000+f+9223372036854775808",
    "k+20160101000000+f+00000000000000000001",
    "%09+20160101000000+f+1",
    "k%7F+20160101000000+f+1",
    "k%20x+20160101000000+f+1",
];

fn is_refused(alloc: Global, text: &str) -> Result<bool, PlaceFault> {
    match OwnedPlace::read(alloc, text) {
        Err(PlaceFault::Memory) => Err(PlaceFault::Memory),
        Err(PlaceFault::BadResume) => Ok(true),
        Ok(_kept) => Ok(false),
    }
}

#[test]
fn other_texts_are_no_resume_keys(rt: HostRuntime) -> Result<(), PlaceFault> {
    for text in NO_RESUME_KEYS {
        assert!(rt; is_refused(rt.alloc(), text)?, "{text}");
    }
    Ok(())
}

/// Places, each below the next.
const RISING: &[&str] = &[
    "a%29%2F+20160101000000+b.warc+7",
    "com%2Cexample%29%2F+20150101000000+b.warc+7",
    "com%2Cexample%29%2F+20160101000000+B.warc+7",
    "com%2Cexample%29%2F+20160101000000+a.warc+99",
    "com%2Cexample%29%2F+20160101000000+a.warc+1000",
    "com%2Cexample%29%2F+20160101000000+a.warc.1+0",
    "com%2Cexample%29%2F+20160101000000+%C3%A9.warc+0",
    "com%2Cexample%29%2F+20160101000001+a.warc+0",
    "com%2Cexample%29%2Fa+20150101000000+a.warc+0",
    "com%2Cexample%2Ca%29%2F+20150101000000+a.warc+0",
    "com%2Cexample-shop%29%2F+20150101000000+a.warc+0",
];

/// Returns `true` if two places compare in this order.
fn are_ordered(left: Place<'_>, right: Place<'_>, order: Ordering) -> bool {
    left.cmp(&right) == order && (left == right) == order.is_eq()
}

/// Returns `true` if the places of these resume keys compare as their numbers do.
fn compare_as(
    alloc: Global,
    (i, left): (usize, &str),
    (j, right): (usize, &str),
) -> Result<bool, PlaceFault> {
    let left = OwnedPlace::read(alloc, left)?;
    let right = OwnedPlace::read(alloc, right)?;
    Ok(are_ordered(left.place(), right.place(), i.cmp(&j)))
}

#[test]
fn places_compare_part_by_part(rt: HostRuntime) -> Result<(), PlaceFault> {
    for (i, left) in RISING.iter().enumerate() {
        for (j, right) in RISING.iter().enumerate() {
            assert!(rt;
                compare_as(rt.alloc(), (i, *left), (j, *right))?,
                "{i} and {j}"
            );
        }
    }
    Ok(())
}
