//! What the callers of `door_examples` return, with values worked out by hand.
use capture_core::{CaptureFault, Entry};
use cdxj_core::{KeyFault, PlaceFault};
use command_line::Task;
use door_examples::captures::first_capture;
use door_examples::disk::{DiskFiles, MemoryDisk, perform_on_disk, perform_twice};
use door_examples::indexes::write_index;
use door_examples::lines::{key, line, resume_key};
use door_examples::queries::{PageFault, page, page_of_two};
use door_examples::records::{count_records, first_head};
use door_examples::scans::{in_memory, write_pages};
use door_examples::shelf::{Shelf, perform_on_shelf, run_on_shelf};
use fixtures::{LETTERS, OFFSET_5, OFFSET_10, RESPONSE, RESPONSE_LINE};
use index_core::{IndexFault, PlainArchive};
use query_core::{Query, Report, SliceSource};
use std::alloc::{AllocError, Global};
use std::test::Fail;
use tasks::{Console, Outcome, Program};
use warc_core::{Fault, Gather, Head, Kind, Slice};

fn is_of_response(head: &Head) -> bool {
    head.start() == 0 && head.kind() == Kind::Response && head.length() == 59
}

#[test]
fn an_archive_has_a_first_head(rt: HostRuntime) -> Result<(), Fault> {
    let head = first_head(rt.alloc(), &mut Slice::new(RESPONSE))?;
    assert!(rt; head.as_ref().is_some_and(is_of_response));
    Ok(())
}

#[test]
fn records_of_a_type_are_counted(rt: HostRuntime) -> Result<(), Fault> {
    let responses = count_records(rt.alloc(), &mut Slice::new(RESPONSE), Kind::Response)?;
    let resources = count_records(rt.alloc(), &mut Slice::new(RESPONSE), Kind::Resource)?;
    assert!(rt; responses == (1, 59));
    assert!(rt; resources == (0, 0));
    Ok(())
}

fn is_of_archive(entry: &Entry) -> bool {
    entry.key.as_str() == "com,example)/"
        && entry.filename.as_str() == "a.warc"
        && entry.offset == 0
}

#[test]
fn a_response_is_captured(rt: HostRuntime) -> Result<(), CaptureFault> {
    let entry = first_capture(rt.alloc(), &mut Slice::new(RESPONSE), "a.warc")?;
    assert!(rt; entry.as_ref().is_some_and(is_of_archive));
    Ok(())
}

#[test]
fn a_url_has_a_key(rt: HostRuntime) -> Result<(), KeyFault> {
    let made = key(rt.alloc(), "http://example.com/")?;
    assert!(rt; made.as_str() == "com,example)/");
    Ok(())
}

fn is_of_place(text: &String) -> bool {
    text.as_str() == "com%2Cexample%29%2F+20160919172024+a.warc+264"
}

#[test]
fn a_place_has_a_resume_key(rt: HostRuntime) -> Result<(), PlaceFault> {
    let made = resume_key(
        rt.alloc(),
        "com,example)/",
        *b"20160919172024",
        "a.warc",
        "264",
    )?;
    let none = resume_key(
        rt.alloc(),
        "com,example)/",
        *b"20160919172024",
        "a.warc",
        "x",
    )?;
    assert!(rt; made.as_ref().is_some_and(is_of_place));
    assert!(rt; none.is_none());
    Ok(())
}

/// Returns the line of the response at offset 0 of an archive with this file name, if it can be written.
fn line_of_response(alloc: Global, filename: &str) -> Result<Option<Vec<u8>>, Fail> {
    let Some(mut entry) = first_capture(alloc, &mut Slice::new(RESPONSE), "b.warc")? else {
        return Ok(None);
    };
    entry.filename = String::from_str(alloc, filename)?;
    Ok(line(alloc, &entry)?)
}

fn is_response_line(line: &Vec<u8>) -> bool {
    line.as_slice() == RESPONSE_LINE
}

#[test]
fn a_capture_has_a_line(rt: HostRuntime) -> Result<(), Fail> {
    let made = line_of_response(rt.alloc(), "b.warc")?;
    let none = line_of_response(rt.alloc(), "")?;
    assert!(rt; made.as_ref().is_some_and(is_response_line));
    assert!(rt; none.is_none());
    Ok(())
}

#[test]
fn an_archive_has_an_index(rt: HostRuntime) -> Result<(), IndexFault> {
    let mut out = Gather::new(rt.alloc());
    let mut archive = PlainArchive::new(rt.alloc(), Slice::new(RESPONSE));
    let lines = write_index(rt.alloc(), "b.warc", &mut archive, &mut out)?;
    assert!(rt; lines == 1);
    assert!(rt; out.bytes() == RESPONSE_LINE);
    Ok(())
}

/// Writes the page of a query over the letters.
fn write_page_of_letters(alloc: Global, out: &mut Gather) -> Result<Report, Fail> {
    let query = Query::read(alloc, "key=b&matchType=prefix&fl=urlkey,offset")?;
    let mut indexes = [SliceSource::new(LETTERS)];
    Ok(page(alloc, &mut indexes, &query, out)?)
}

#[test]
fn an_index_answers_a_query(rt: HostRuntime) -> Result<(), Fail> {
    let mut out = Gather::new(rt.alloc());
    let report = write_page_of_letters(rt.alloc(), &mut out)?;
    assert!(rt; report.given == 1 && !report.more);
    assert!(rt; out.bytes() == b"b)/ 1\n".as_slice());
    Ok(())
}

#[test]
fn two_indexes_answer_a_query(rt: HostRuntime) -> Result<(), PageFault> {
    let mut out = Gather::new(rt.alloc());
    let text = "url=example.com&fl=offset&limit=1";
    let report = page_of_two(rt.alloc(), OFFSET_10, OFFSET_5, text, &mut out)?;
    assert!(rt; report.given == 1 && report.more);
    assert!(rt; out.bytes() == b"5\n".as_slice());
    Ok(())
}

/// Writes the pages of a query over two archives in memory, which have the response alone.
fn write_pages_of_two(alloc: Global, out: &mut Gather) -> Result<u64, Fail> {
    let mut archives = Vec::new(alloc);
    archives.push(in_memory(alloc, "b.warc", RESPONSE)?)?;
    archives.push(in_memory(alloc, "a.warc", RESPONSE)?)?;
    let query = "url=example.com&fl=filename,offset";
    Ok(write_pages(alloc, &mut archives, query, out)?)
}

#[test]
fn two_archives_are_scanned(rt: HostRuntime) -> Result<(), Fail> {
    let mut out = Gather::new(rt.alloc());
    let count = write_pages_of_two(rt.alloc(), &mut out)?;
    assert!(rt; count == 1);
    assert!(rt; out.bytes() == b"a.warc 0\nb.warc 0\n".as_slice());
    Ok(())
}

const ARCHIVE: &[u8] =
    b"WARC/1.0\r\nWARC-Type: resource\r\nWARC-Target-URI: http://a.org/\r\nWARC-Payload-Digest: sha1:AB\r\nWARC-Record-ID: <a:b>\r\nWARC-Date: 2025-01-02T03:04:05Z\r\nContent-Type: text/plain\r\nContent-Length: 1\r\n\r\nx\r\n\r\n";

const INDEX: &[u8] =
    b"org,a)/ 20250102030405 {\"url\": \"http://a.org/\", \"mime\": \"text/plain\", \"status\": \"-\", \"digest\": \"AB\", \"length\": \"201\", \"offset\": \"0\", \"filename\": \"a.warc\"}\n";

/// Returns this name alone.
fn one_name(alloc: Global, name: &str) -> Result<Vec<String>, AllocError> {
    let mut names = Vec::new(alloc);
    names.push(String::from_str(alloc, name)?)?;
    Ok(names)
}

/// Returns the archive, the index and a query in memory.
fn shelf(alloc: Global) -> Shelf<'static> {
    Shelf {
        alloc,
        archive: ARCHIVE,
        index: INDEX,
        input: b"key=org,a)/&fl=urlkey\n",
    }
}

/// Performs the task over the archive and the index in memory. Returns `true` if it ends as done, and has written this text.
fn writes(rt: &HostRuntime, task: &Task, text: &[u8]) -> bool {
    let console = Console::new(rt, Program::Warcdx);
    let shelf = shelf(rt.alloc());
    let mut out = Gather::new(rt.alloc());
    let outcome = perform_on_shelf(&console, &shelf, task, &mut out);
    matches!(outcome, Outcome::Done) && out.bytes() == text
}

#[test]
fn tasks_on_archives_write_their_texts(rt: HostRuntime) -> Result<(), Fail> {
    let list = Task::List(one_name(rt.alloc(), "a.warc")?);
    let verify = Task::Verify(one_name(rt.alloc(), "a.warc")?);
    let get = Task::Get {
        length: None,
        offset: 0,
        name: String::from_str(rt.alloc(), "a.warc")?,
    };
    assert!(rt; writes(&rt, &list, b"0 201 resource\n"));
    assert!(rt; writes(&rt, &verify, b"0 absent\n"));
    assert!(rt; writes(&rt, &get, ARCHIVE));
    Ok(())
}

#[test]
fn tasks_on_indexes_write_their_texts(rt: HostRuntime) -> Result<(), Fail> {
    let check = Task::Check(one_name(rt.alloc(), "a.cdxj")?);
    let merge = Task::Merge(one_name(rt.alloc(), "a.cdxj")?);
    let serve = Task::Serve(one_name(rt.alloc(), "a.cdxj")?);
    assert!(rt; writes(&rt, &check, b"a.cdxj 1\n"));
    assert!(rt; writes(&rt, &merge, INDEX));
    assert!(rt; writes(&rt, &serve, b"org,a)/\n.\n"));
    Ok(())
}

/// Performs the task over the same bytes as files that are read at a position, and then again.
fn writes_from_disk(rt: &HostRuntime, task: &Task, text: &[u8]) -> bool {
    let console = Console::new(rt, Program::Warcdx);
    let files = DiskFiles {
        alloc: rt.alloc(),
        archives: &MemoryDisk { bytes: ARCHIVE },
        indexes: &MemoryDisk { bytes: INDEX },
        input: b"key=org,a)/&fl=urlkey\n",
    };
    let mut out = Gather::new(rt.alloc());
    let outcome = perform_on_disk(&console, &files, task, &mut out);
    let (mut first, mut second) = (Gather::new(rt.alloc()), Gather::new(rt.alloc()));
    let again = perform_twice(&console, &files, task, &mut first, &mut second);
    matches!(outcome, Outcome::Done)
        && matches!(again, (Outcome::Done, Outcome::Done))
        && out.bytes() == text
        && first.bytes() == text
        && second.bytes() == text
}

#[test]
fn tasks_on_a_disk_write_their_texts(rt: HostRuntime) -> Result<(), Fail> {
    let verify = Task::Verify(one_name(rt.alloc(), "a.warc")?);
    let check = Task::Check(one_name(rt.alloc(), "a.cdxj")?);
    let serve = Task::Serve(one_name(rt.alloc(), "a.cdxj")?);
    assert!(rt; writes_from_disk(&rt, &verify, b"0 absent\n"));
    assert!(rt; writes_from_disk(&rt, &check, b"a.cdxj 1\n"));
    assert!(rt; writes_from_disk(&rt, &serve, b"org,a)/\n.\n"));
    Ok(())
}

/// Runs the program over the archive and the index in memory, with these arguments. Returns `true` if it ends with this
/// status, and has written this text.
fn ends(rt: &HostRuntime, arguments: &[&str], status: u8, text: &[u8]) -> Result<bool, AllocError> {
    let console = Console::new(rt, Program::Warcdx);
    let shelf = shelf(rt.alloc());
    let mut words = Vec::new(rt.alloc());
    for argument in arguments {
        words.push(String::from_str(rt.alloc(), argument)?)?;
    }
    let mut out = Gather::new(rt.alloc());
    let ended = run_on_shelf(&console, &shelf, &words, &mut out);
    Ok(ended == status && out.bytes() == text)
}

#[test]
fn the_program_ends_with_its_status(rt: HostRuntime) -> Result<(), Fail> {
    assert!(rt; ends(&rt, &["list", "a.warc"], 0, b"0 201 resource\n")?);
    assert!(rt; ends(&rt, &["verify", "a.warc"], 0, b"0 absent\n")?);
    assert!(rt;
        ends(
            &rt,
            &["query", "key=org,a)/&fl=urlkey,offset", "a.cdxj"],
            0,
            b"org,a)/ 0\n"
        )?
    );
    assert!(rt; ends(&rt, &["serve", "a.cdxj"], 0, b"org,a)/\n.\n")?);
    assert!(rt; ends(&rt, &["--version"], 0, b"warcdx 0.1.0\n")?);
    assert!(rt; ends(&rt, &["query", "limit=1", "a.cdxj"], 1, b"")?);
    assert!(rt; ends(&rt, &["lst", "a.warc"], 2, b"")?);
    Ok(())
}
