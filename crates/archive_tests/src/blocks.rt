//! Archives whose blocks are skipped, in memory and in files.
ghost use Rattle.index_core.specs.State.{IsUnread};

mod faults;

use crate::reports::settled;
use capture_core::Types;
use devices::{DeviceFault, FromFile, FromRead, Fuse, Gather, Input, Slice, SystemFile};
use fixtures::{Refused, joined, repeated};
use index_core::{Archive, Fetch, Indexer, PlainArchive, list};
use std::alloc::{AllocError, Global};
use std::fs::{self, File, Files};
use std::io::Cursor;
use std::rt::Runtime;
use std::test::Fail;
use warc_core::Fault;

/// A resource: a head of 206 bytes, the block `abc` and the closing, 213 in all.
const SHORT: &[u8] =
    b"WARC/1.1\r\nWARC-Type: resource\r\nWARC-Record-ID: <urn:x:3>\r\nWARC-Date: 2016-09-19T17:20:24Z\r\nWARC-Target-URI: http://example.com/r\r\nWARC-Payload-Digest: sha1:D\r\nContent-Type: text/plain\r\nContent-Length: 3\r\n\r\nabc\r\n\r\n";

/// The head of a resource with a block of 20,000 bytes: 210 bytes.
const LONG_HEAD: &[u8] =
    b"WARC/1.1\r\nWARC-Type: resource\r\nWARC-Record-ID: <urn:x:3>\r\nWARC-Date: 2016-09-19T17:20:24Z\r\nWARC-Target-URI: http://example.com/r\r\nWARC-Payload-Digest: sha1:D\r\nContent-Type: text/plain\r\nContent-Length: 20000\r\n\r\n";

/// The head of a response with a block of 20,000 bytes: 216 bytes.
const RESPONSE_HEAD: &[u8] =
    b"WARC/1.1\r\nWARC-Type: response\r\nWARC-Record-ID: <urn:x:3>\r\nWARC-Date: 2016-09-19T17:20:24Z\r\nWARC-Target-URI: http://example.com/r\r\nWARC-Payload-Digest: sha1:D\r\nContent-Type: application/http\r\nContent-Length: 20000\r\n\r\n";

const HTTP_HEAD: &[u8] = b"HTTP/1.1 200 OK\r\nContent-Type: text/html\r\n\r\n";

const CLOSING: &[u8] = b"\r\n\r\n";

/// The lines of the three records' listing.
const LISTING: [&[u8]; 3] = [
    b"0 213 resource\n",
    b"213 20214 resource\n",
    b"20427 213 resource\n",
];

/// The lines of the three records' index.
const INDEX: [&[u8]; 3] = [
    b"com,example)/r 20160919172024 {\"url\": \"http://example.com/r\", \"mime\": \"text/plain\", \"status\": \"-\", \"digest\": \"D\", \"length\": \"213\", \"offset\": \"0\", \"filename\": \"a.warc\"}\n",
    b"com,example)/r 20160919172024 {\"url\": \"http://example.com/r\", \"mime\": \"text/plain\", \"status\": \"-\", \"digest\": \"D\", \"length\": \"20214\", \"offset\": \"213\", \"filename\": \"a.warc\"}\n",
    b"com,example)/r 20160919172024 {\"url\": \"http://example.com/r\", \"mime\": \"text/plain\", \"status\": \"-\", \"digest\": \"D\", \"length\": \"213\", \"offset\": \"20427\", \"filename\": \"a.warc\"}\n",
];

const RESPONSE_LINE: &[u8] =
    b"com,example)/r 20160919172024 {\"url\": \"http://example.com/r\", \"mime\": \"text/html\", \"status\": \"200\", \"digest\": \"D\", \"length\": \"20220\", \"offset\": \"0\", \"filename\": \"a.warc\"}\n";

/// Returns a record with this head, whose block has 20,000 bytes and begins with these.
fn long_record(alloc: Global, head: &[u8], block: &[u8]) -> Result<Vec<u8>, AllocError> {
    let rest = repeated(alloc, b"x", 20_000_usize.saturating_sub(block.len()))?;
    joined(alloc, &[head, block, rest.as_slice(), CLOSING])
}

/// Returns 20,640 bytes: the records begin at 0, 213 and 20,427.
fn long_archive(alloc: Global) -> Result<Vec<u8>, AllocError> {
    let long = long_record(alloc, LONG_HEAD, b"")?;
    joined(alloc, &[SHORT, long.as_slice(), SHORT])
}

/// An input that counts the bytes that were read and those that were skipped.
#[derive(Drop)]
struct Counted<I> {
    input: I,
    read: u64,
    skipped: u64,
}

impl<I> Counted<I> {
    fn new(input: I) -> Counted<I> {
        Counted {
            input,
            read: 0,
            skipped: 0,
        }
    }
}

impl<I: Input> Input for Counted<I> {
    ghost remaining = { λ c. I.remaining c.input };

    ghost failures = { λ c. I.failures c.input };

    fn read(&mut self, piece: &mut [u8]) -> Result<usize, DeviceFault> {
        let count = self.input.read(piece)?;
        self.read = self.read.saturating_add(count as u64);
        Ok(count)
    }

    fn skip(&mut self, count: u64) -> Result<u64, DeviceFault> {
        let skipped = self.input.skip(count)?;
        self.skipped = self.skipped.saturating_add(skipped);
        Ok(skipped)
    }
}

/// Returns `true` if the listing is these lines, with this result.
fn lists<A: Archive>(
    alloc: Global,
    archive: &mut A,
    lines: &[u8],
    wanted: Result<u64, Fault>,
) -> Result<bool, Refused>
    requires { IsUnread (A.state archive.old) }
{
    let mut out = Gather::new(alloc);
    let answer = settled(list(archive, &mut out))?;
    Ok(answer == wanted && out.bytes() == lines)
}

/// Returns `true` if the index is these lines, with this result of reading the archive.
fn indexes<A: Archive>(
    alloc: Global,
    archive: &mut A,
    lines: &[u8],
    wanted: Result<u64, Fault>,
) -> Result<bool, Refused>
    requires { IsUnread (A.state archive.old) }
{
    let mut indexer = Indexer::new(alloc, Types::usual());
    let mut out = Gather::new(alloc);
    let added = settled(indexer.add("a.warc", archive))?;
    let written = settled(indexer.write(&mut out))?;
    Ok(added == wanted && written.is_ok() && out.bytes() == lines)
}

/// Returns the first `count` of these lines.
fn first_of(alloc: Global, lines: &[&[u8]], count: u64) -> Result<Vec<u8>, AllocError> {
    let mut text = Vec::new(alloc);
    for line in lines.iter().take(count as usize) {
        text.extend_from_slice(line)?;
    }
    Ok(text)
}

/// Returns the listing of the first `records` of the three, with this fault.
fn listing(alloc: Global, records: u64, fault: Option<Fault>) -> Result<Vec<u8>, AllocError> {
    let mut listing = first_of(alloc, &LISTING, records)?;
    if let Some(Fault { offset, cause }) = fault {
        let name = cause.name();
        listing.extend_from_slice(format!(in alloc; "fault {offset} {name}\n")?.as_bytes())?;
    }
    Ok(listing)
}

/// Returns `true` if all three records are listed and indexed, from inputs that this function makes.
fn reads_all<I: Input + Drop, F: FnMut() -> Result<I, Fail>>(
    alloc: Global,
    mut make: F,
) -> Result<bool, Fail>
    requires { F.IsAlwaysCallable make }
{
    let lines = listing(alloc, 3, None)?;
    let index = first_of(alloc, &INDEX, 3)?;
    Ok(
        lists(
            alloc,
            &mut PlainArchive::new(alloc, make()?),
            lines.as_slice(),
            Ok(3),
        )? && indexes(
            alloc,
            &mut PlainArchive::new(alloc, make()?),
            index.as_slice(),
            Ok(3),
        )?,
    )
}

/// Returns `true` if this holds of inputs that give at most this many bytes a call.
fn reads_all_in_pieces(alloc: Global, bytes: &[u8], most: usize) -> Result<bool, Fail> {
    Ok(
        reads_all(alloc, || Ok(Fuse::new(Slice::new(bytes), most, 0)))?
            && reads_all(
                alloc,
                || Ok(Fuse::new(FromFile::new(Cursor::new(bytes))?, most, 0)),
            )?,
    )
}

#[test]
fn an_archive_is_the_same_however_it_is_read(rt: HostRuntime) -> Result<(), Fail> {
    let alloc = rt.alloc();
    let archive = long_archive(alloc)?;
    let bytes = archive.as_slice();
    assert!(rt; reads_all(alloc, || Ok(Slice::new(bytes)))?);
    assert!(rt; reads_all(alloc, || Ok(FromRead::new(bytes)))?);
    for most in &[1, 2, 100, 8_192, 20_000] {
        assert!(rt; reads_all_in_pieces(alloc, bytes, *most)?, "{most}");
    }
    Ok(())
}

/// Writes an archive to a file, and returns the file as an input.
fn written<R: Runtime>(
    rt: &R,
    name: &str,
    archive: &[u8],
) -> Result<FromFile<SystemFile<<R as Files>::File>>, Fail> {
    fs::write(rt, name, archive)?;
    Ok(FromFile::new(SystemFile(File::open(rt, name)?))?)
}

#[test]
fn the_last_record_is_fetched_from_a_file(rt: HostRuntime) -> Result<(), Fail> {
    let file = written(&rt, "archive.warc", &long_archive(rt.alloc())?)?;
    let mut archive = PlainArchive::new(rt.alloc(), file);
    let mut out = Gather::new(rt.alloc());
    let answer = settled(archive.get(20_427, &mut out))?;
    assert!(rt; answer == Ok(213) && out.bytes() == SHORT);
    Ok(())
}

/// Returns `true` if these numbers of bytes of an input are read and skipped while its three records are listed.
fn lists_by_skips<I: Input>(alloc: Global, input: I, read: u64, skipped: u64) -> Result<bool, Fail>
where
    I: Drop,
{
    let lines = listing(alloc, 3, None)?;
    let mut archive = PlainArchive::new(alloc, Counted::new(input));
    let is_listed = lists(alloc, &mut archive, &lines, Ok(3))?;
    let counted = archive.input();
    Ok(is_listed && counted.read == read && counted.skipped == skipped)
}

/// The same while this number of records is indexed.
fn indexes_by_skips<I: Input>(
    alloc: Global,
    input: I,
    index: &[u8],
    records: u64,
    (read, skipped): (u64, u64),
) -> Result<bool, Refused>
where
    I: Drop,
{
    let mut archive = PlainArchive::new(alloc, Counted::new(input));
    let is_indexed = indexes(alloc, &mut archive, index, Ok(records))?;
    let counted = archive.input();
    Ok(is_indexed && counted.read == read && counted.skipped == skipped)
}

/// The first read returns 8,192 bytes, to 7,769 bytes of the long block. The other 12,231 are skipped. What follows the
/// block has 217 bytes.
#[test]
fn a_long_block_is_not_read(rt: HostRuntime) -> Result<(), Fail> {
    let alloc = rt.alloc();
    let archive = long_archive(alloc)?;
    let index = first_of(alloc, &INDEX, 3)?;
    let input = Fuse::new(Slice::new(&archive), 8192, 0);
    assert!(rt; lists_by_skips(alloc, input, 8_409, 12_231)?);
    let file = written(&rt, "long.warc", &archive)?;
    assert!(rt; lists_by_skips(alloc, file, 8_409, 12_231)?);
    let file = written(&rt, "long.warc", &archive)?;
    assert!(rt; indexes_by_skips(alloc, file, &index, 3, (8_409, 12_231))?);
    Ok(())
}

/// The first read returns 8,192 bytes, to 7,976 bytes of the block, with the HTTP head. The other 12,024 are skipped.
#[test]
fn a_payload_whose_digest_is_given_is_not_read(rt: HostRuntime) -> Result<(), Fail> {
    let record = long_record(rt.alloc(), RESPONSE_HEAD, HTTP_HEAD)?;
    let input = Fuse::new(Slice::new(&record), 8192, 0);
    let counts = (8_196, 12_024);
    assert!(rt; indexes_by_skips(rt.alloc(), input, RESPONSE_LINE, 1, counts)?);
    Ok(())
}
