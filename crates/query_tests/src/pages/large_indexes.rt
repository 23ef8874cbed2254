//! How much is read of a large index.
use crate::calls::page;
use devices::{Fuse, Gather};
use fixtures::keyed_lines;
use query_core::{AnswerFault, Query, SliceSource, answer};
use std::test::Fail;

#[test]
fn an_exact_query_for_the_last_line_reads_little(rt: HostRuntime) -> Result<(), Fail> {
    let text = keyed_lines(rt.alloc(), 100_000)?;
    let mut sources = [SliceSource::new(&text)];
    let (report, out) = page(rt.alloc(), &mut sources, "key=com,example)/99999&fl=offset")?;
    assert!(rt; out.bytes() == b"99999\n".as_slice() && report.lines <= 2);
    assert!(rt; sources[0].gave() < text.len() as u64 / 100);
    Ok(())
}

/// A page of all lines fails at its first write.
#[test]
fn a_page_of_all_lines_is_written_as_it_is_read(rt: HostRuntime) -> Result<(), Fail> {
    let text = keyed_lines(rt.alloc(), 100_000)?;
    let query = Query::read(rt.alloc(), "key=&matchType=prefix")?;
    let mut sources = [SliceSource::new(&text)];
    let mut out = Fuse::new(Gather::new(rt.alloc()), 8_192, 1);
    match answer(rt.alloc(), &mut sources, &query, &mut out) {
        Err(AnswerFault::Memory) => Err(AnswerFault::Memory)?,
        result => assert!(rt; matches!(result, Err(AnswerFault::Write))),
    }
    assert!(rt; sources[0].gave() < text.len() as u64 / 100);
    Ok(())
}
