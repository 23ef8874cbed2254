//! Lines that are read without memory: these tests pass whichever allocation is refused after the first line was read.
use crate::limits::has_pair;
use crate::reading::has_member;
use cdxj_core::{Field, Line, LineRef};
use fixtures::FOREIGN;
use std::test::Fail;

const PLAIN: &[u8] =
    b"k 20160101000000 {\"url\": \"http://x/\", \"mime\": \"text/html\", \"status\": \"200\", \"digest\": \"-\", \"length\": \"1\", \"offset\": \"0\", \"filename\": \"a.warc\"}\n";

/// Returns `true` if the line has the URL and the file name of the plain line, without escapes.
fn is_plain(read: &LineRef<'_>) -> bool {
    read.value(Field::Original) == "http://x/"
        && read.value(Field::Filename) == "a.warc"
        && read.needs_no_escapes()
}

#[test]
fn a_plain_line_takes_no_memory(rt: HostRuntime) -> Result<(), Fail> {
    assert!(rt; LineRef::plain(PLAIN).is_some_and(|read| is_plain(&read)));
    assert!(rt; has_pair(PLAIN, b"k"));
    Ok(())
}

/// Returns `true` if the plain line is read in place of the line that was held.
fn becomes_plain(kept: &mut Line) -> bool {
    kept.refill(PLAIN, &mut None).is_ok()
        && kept.place().filename == "a.warc"
        && has_member(kept, Field::Original, "http://x/")
}

#[test]
fn a_warm_line_takes_no_memory(rt: HostRuntime) -> Result<(), Fail> {
    let mut kept = Line::read(rt.alloc(), FOREIGN)?;
    assert!(rt; kept.line() == FOREIGN);
    assert!(rt; has_member(&kept, Field::Statuscode, "200"));
    assert!(rt; becomes_plain(&mut kept));
    Ok(())
}
