//! The dates of heads, and their stamps.
use super::read;
use std::alloc::Global;
use warc_head::HeadFault;

/// Returns `true` if a head with this date has this stamp, or is refused.
fn is_date(alloc: Global, date: &str, stamp: Option<&str>) -> Result<bool, HeadFault> {
    let lines = "WARC-Record-ID: a\r\nContent-Length: 3\r\nWARC-Type: b\r\nWARC-Date: ";
    match (read(alloc, &[lines, date]), stamp) {
        (Err(HeadFault::Memory), _) => Err(HeadFault::Memory),
        (Err(HeadFault::BadDate), None) => Ok(true),
        (Ok(head), Some(stamp)) => Ok(head.stamp().as_slice() == stamp.as_bytes()),
        _ => Ok(false),
    }
}

const DATES: &[(&str, Option<&str>)] = &[
    ("2016", Some("20160101000000")),
    ("2016-09", Some("20160901000000")),
    ("2016-09-19", Some("20160919000000")),
    ("2016-09-19T17:20Z", Some("20160919172000")),
    ("2016-09-19T17:20:24Z", Some("20160919172024")),
    ("2016-09-19T17:20:24.1Z", Some("20160919172024")),
    ("2016-09-19T17:20:24.123456Z", Some("20160919172024")),
    ("2016-09-19T17:20:24.123456789Z", Some("20160919172024")),
    // The calendar's edges.
    ("0000", Some("00000101000000")),
    ("0000-02-29", Some("00000229000000")),
    ("9999-12-31T23:59:59Z", Some("99991231235959")),
    ("2015-02-28", Some("20150228000000")),
    ("2015-02-29", None),
    ("2015-02-29T00:00:00Z", None),
    ("2016-02-29", Some("20160229000000")),
    ("2016-02-30", None),
    ("1900-02-29", None),
    ("2000-02-29", Some("20000229000000")),
    ("2100-02-29", None),
    ("2016-01-31", Some("20160131000000")),
    ("2016-04-30", Some("20160430000000")),
    ("2016-04-31", None),
    ("2016-06-31", None),
    ("2016-09-31", None),
    ("2016-11-31", None),
    ("2016-12-31", Some("20161231000000")),
    ("2016-00", None),
    ("2016-13", None),
    ("2016-12", Some("20161201000000")),
    ("2016-00-01", None),
    ("2016-13-01", None),
    ("2016-01-00", None),
    ("2016-01-32", None),
    ("2016-99-99", None),
    // The edges of the time of day.
    ("2016-09-19T00:00Z", Some("20160919000000")),
    ("2016-09-19T23:59Z", Some("20160919235900")),
    ("2016-09-19T24:00Z", None),
    ("2016-09-19T24:00:00Z", None),
    ("2016-09-19T23:60Z", None),
    ("2016-09-19T23:60:00Z", None),
    ("2016-09-19T23:59:60Z", None),
    ("2016-09-19T23:59:60.5Z", None),
    // What has none of the forms.
    ("", None),
    ("201", None),
    ("20166", None),
    ("2016-", None),
    ("2016-9", None),
    ("2016-09-", None),
    ("2016/09/19", None),
    ("+2016", None),
    ("2016-09-19T17Z", None),
    ("2016-09-19T17:20", None),
    ("2016-09-19T17:20:24", None),
    ("2016-09-19T17:20:24+00:00", None),
    ("2016-09-19 17:20:24Z", None),
    ("2016-09-19t17:20:24Z", None),
    ("2016-09-19T17:20:24z", None),
    ("2016-09-19T17:20:24.Z", None),
    ("2016-09-19T17:20:24.1234567890Z", None),
    ("2016-09-19T17:20:24.5", None),
    ("2016-09-19T17:20:24,5Z", None),
    ("2016-09-19T17:20.5Z", None),
    ("2016-09-19T17:20:24ZZ", None),
    ("2016 09", None),
];

#[test]
fn dates_are_read_as_stamps(rt: HostRuntime) -> Result<(), HeadFault> {
    for (date, stamp) in DATES {
        assert!(rt; is_date(rt.alloc(), date, *stamp)?, "{date}");
    }
    Ok(())
}
