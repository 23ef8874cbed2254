//! What a file seems to be, for messages.
use std::fs::{self, File};
use std::io::Read;
use std::rt::Runtime;

/// How many bytes of a file decide.
const FRONT: usize = 512;

/// What a file seems to be, by the bytes with which it begins.
#[derive(Clone, Copy, Debug, Drop, PartialEq, Eq)]
pub enum FileKind {
    /// A file that gzip has compressed (RFC 1952, section 2.3.1).
    Gzip,
    /// A ZIP file, as WACZ files are.
    Zip,
    /// A file that zstd has compressed (RFC 8878, section 3.1.1).
    Zstandard,
    /// A file that zstd has compressed with the dictionary in its first frame, as a `.warc.zst` is.
    ZstandardWithDictionary,
    /// A file that bzip2 has compressed.
    Bzip2,
    /// A file that xz has compressed.
    Xz,
    /// A WARC file.
    Warc,
    /// A WARC file whose first line ends with LF alone.
    WarcWithLineFeeds,
    /// A WARC file of a version before 1.0.
    OldWarc,
    /// A HAR file, in which a browser saves what it has fetched.
    Har,
    /// An ARC file, the format before WARC.
    Arc,
    /// A CDX file with a header.
    Cdx,
    /// A text after a byte order mark in UTF-8.
    ByteOrderMark,
    /// A text in UTF-16, with its byte order mark.
    Utf16,
    /// A text of JSON objects, as of lines without a URL key and a timestamp.
    Objects,
    /// A text that begins with `!`, as the header of a CDXJ file that some tools write.
    Directive,
    /// A CDXJ index.
    Index,
    /// A CDXJ index with a tab before its JSON.
    IndexWithTabs,
    /// An HTML or XML file.
    Markup,
    /// A file of none of these kinds, or what isn't a file, or can't be read.
    Other,
}

/// With what the files of a kind begin.
const FRONTS: [(&[u8], FileKind); 17] = [
    (b"\x1f\x8b", FileKind::Gzip),
    (b"PK\x03\x04", FileKind::Zip),
    (b"\x28\xb5\x2f\xfd", FileKind::Zstandard),
    (b"\x5d\x2a\x4d\x18", FileKind::ZstandardWithDictionary),
    (b"BZh", FileKind::Bzip2),
    (b"\xfd7zXZ\x00", FileKind::Xz),
    (b" CDX ", FileKind::Cdx),
    (b"\xef\xbb\xbf", FileKind::ByteOrderMark),
    (b"\xff\xfe", FileKind::Utf16),
    (b"\xfe\xff", FileKind::Utf16),
    (b"{\"log\":", FileKind::Har),
    (b"{\n  \"log\":", FileKind::Har),
    (b"{", FileKind::Objects),
    (b"!", FileKind::Directive),
    (b"<", FileKind::Markup),
    (b"filedesc:", FileKind::Arc),
    (b"WARC/0.", FileKind::OldWarc),
];

/// Returns the kind of the file of this name. Only a file is opened, because a pipe would be waited
/// for.
pub fn file_kind<R: Runtime>(rt: &R, name: &str) -> FileKind {
    if !is_file(rt, name) {
        return FileKind::Other;
    }
    match File::open(rt, name) {
        Ok(mut file) => opened_kind(&mut file),
        Err(_error) => FileKind::Other,
    }
}

fn opened_kind<F: Read>(file: &mut F) -> FileKind {
    let mut front = [0; FRONT];
    match file.read(&mut front) {
        Ok(count) => kind_of(front.get(..count).unwrap_or(&front)),
        Err(_error) => FileKind::Other,
    }
}

fn kind_of(front: &[u8]) -> FileKind {
    for (begin, kind) in FRONTS {
        if front.starts_with(begin) {
            return kind;
        }
    }
    if front.starts_with(b"WARC/") {
        return match front.get(8) {
            Some(b'\n') => FileKind::WarcWithLineFeeds,
            _ => FileKind::Warc,
        };
    }
    match str::from_utf8(front) {
        Ok(text) => kind_of_text(text),
        Err(_error) => FileKind::Other,
    }
}

/// Returns the kind of a text by what is before its first JSON object.
fn kind_of_text(text: &str) -> FileKind {
    if text.contains(" {\"") {
        FileKind::Index
    } else if text.contains("\t{\"") {
        FileKind::IndexWithTabs
    } else {
        FileKind::Other
    }
}

/// Returns `true` if the name is that of a regular file.
pub fn is_file<R: Runtime>(rt: &R, name: &str) -> bool {
    match fs::metadata(rt, name) {
        Ok(metadata) => metadata.is_file(),
        Err(_error) => false,
    }
}

/// Returns `true` if the name is that of a folder.
pub fn is_folder<R: Runtime>(rt: &R, name: &str) -> bool {
    match fs::metadata(rt, name) {
        Ok(metadata) => metadata.is_dir(),
        Err(_error) => false,
    }
}
