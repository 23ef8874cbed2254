//! The second line of a message on standard error: why, and what to do.
use crate::console::Console;
use crate::file_kind::{FileKind, file_kind, is_file, is_folder};
use crate::outcome::Outcome;
use crate::refused_part::is_parameter_with_value;
use capture_core::CaptureFault;
use command_line::Program;
use index_core::IndexFault;
use query_core::{AnswerFault, QueryFault};
use std::rt::Runtime;
use warc_core::Cause;

const BYTE_ORDER_MARK: &str = "It begins with a byte order mark: remove its first 3 bytes.";

const FOLDER: &str = "It is a folder: warcdx-update indexes the archives of a folder.";

const MANIFEST: &str =
    "It is the list of an index of warcdx-update, of which current/*.cdxj are the indexes.";

/// Why an index isn't read from a pipe.
const NO_PIPE: &str =
    "An index is a file, because it is searched: write what a pipe has to a file first.";

/// Returns why a file of this name can't be opened, if the system's reason doesn't say it.
pub fn unopened_advice(name: &str) -> Option<&'static str> {
    if name == "-" {
        Some(NO_PIPE)
    } else if is_parameter_with_value(name) {
        Some(
            "It is a part of a query, which is one argument with & between its parameters. serve reads queries from standard input.",
        )
    } else {
        None
    }
}

/// Returns what the name of a file is that isn't there, if it seems to be something else. The
/// system's reason stands behind it.
pub fn missing_advice(name: &str) -> &'static str {
    if name.contains("://") {
        "Its name is a URL, and only files are read: "
    } else if name.contains('*') {
        "Its name is a pattern that no file matches: "
    } else if name.starts_with('~') {
        "A shell replaces ~ outside of quotes alone: "
    } else if name.ends_with(' ') {
        "Its name ends with a space: "
    } else {
        ""
    }
}

/// Returns `true` if a name has no escape, and no byte that a terminal may take for another line.
pub fn is_plain(name: &str) -> bool {
    name.bytes()
        .all(|byte| byte.is_ascii_alphanumeric() || byte == b' ')
}

/// Returns `true` if what isn't the name of a parameter may be a URL, or the name of a file.
fn is_address(name: &str) -> bool {
    name.contains('.') || name.contains('/')
}

/// Returns what is wrong with a part of a query that was copied from a URL, a page or another program.
pub fn pasted_advice(name: &str, fault: QueryFault) -> Option<&'static str> {
    match fault {
        QueryFault::Unknown if name.starts_with('?') => Some(
            "A query begins behind the ? of a URL.",
        ),
        QueryFault::Unknown if name.starts_with("amp;") => Some("Write & in place of &amp;."),
        QueryFault::Unknown if is_address(name) => Some(
            "A query precedes the indexes, and a URL in it is written as url=example.com.",
        ),
        QueryFault::BadFilter if name.starts_with('=') => Some(
            "pywb's filter==FIELD:TEXT is is=FIELD:TEXT here.",
        ),
        QueryFault::BadFilter if name.starts_with('~') => Some(
            "pywb's filter=~FIELD:PATTERN is for warcdx-gateway: has=FIELD:TEXT finds a part of a value.",
        ),
        _ => None,
    }
}

/// Returns which parameter of a query is refused, and what it takes.
pub fn query_advice(fault: QueryFault) -> &'static str {
    match fault {
        QueryFault::Memory => "There is no memory for the query.",
        QueryFault::Unknown => {
            "A & in a URL is written as %26. The parameters are url, key, matchType, from, to, filter, is, isnot, has, hasnot, limit, resumeKey, \
             showResumeKey, fl, output and collapse. warcdx-gateway has others too."
        }
        QueryFault::RepeatedParameter => {
            "Only filter, is, isnot, has and hasnot may be given more than once."
        }
        QueryFault::BadMatch => "matchType is exact, prefix, host or domain.",
        QueryFault::BadStamp => {
            "from and to are 1 to 14 digits without - and :, such as 2016 or 20160919172024."
        }
        QueryFault::BadFilter => {
            "A condition is FIELD:TEXT, such as filter=statuscode:200. The fields are urlkey, timestamp, original, mimetype, \
             statuscode, digest, length, offset and filename."
        }
        QueryFault::NotLiteral => {
            "filter takes a literal text, without \\ ^ $ . | ? * + ( ) [ ] { }. For a part of a value, \
             write has=FIELD:TEXT, and for a choice of values a query for each. warcdx-gateway takes patterns."
        }
        QueryFault::BadLimit => {
            "limit is a number from 1 to 1000000. warcdx-gateway takes limit=-5 too, for the last five."
        }
        QueryFault::BadResume => "resumeKey is a key that a page has printed, as it was printed.",
        QueryFault::BadField => {
            "fl is a list, with ',' and no space between, of urlkey, timestamp, original, mimetype, statuscode, digest, length, offset \
             and filename."
        }
        QueryFault::BadOutput => "output is text, json or cdxj. docs/RECIPES.md makes CSV of json.",
        QueryFault::BadFlag => "showResumeKey is true or false.",
        QueryFault::NoUrl => "A query has a url or a key, such as url=example.com.",
        QueryFault::UrlAndKey => "A query has a url or a key, and not both.",
        QueryFault::BadUrl => {
            "url isn't a URL, or not one of the web where matchType is host or domain. A % is written as \
             %25, a & as %26. key=&matchType=prefix selects all captures."
        }
        QueryFault::QueryTooLong => "A query has at most 65536 bytes.",
        QueryFault::BadCollapse => {
            "collapse is urlkey, timestamp, or timestamp:N with N from 1 to 14. warcdx-gateway takes other fields too."
        }
    }
}

/// Returns why an archive of this name is refused, or what it is.
pub fn archive_advice<R: Runtime>(
    console: &Console<R>,
    name: &str,
    fault: CaptureFault,
) -> &'static str {
    match fault {
        CaptureFault::Archive(fault) => match fault.cause {
            Cause::Read if is_folder(console.rt, name) => FOLDER,
            cause if is_unpacked(console, name) => member_advice(cause),
            Cause::Version => no_archive_advice(file_kind(console.rt, name)),
            cause => cause_advice(cause),
        },
        CaptureFault::KeyTooLong(_offset) => "There is no room for the key of the record's URL.",
        CaptureFault::LineTooLong(_offset) => {
            "The line of the record's capture would have more than 16777216 bytes."
        }
    }
}

/// Returns `true` if the program unpacks the archive of this name.
fn is_unpacked<R: Runtime>(console: &Console<R>, name: &str) -> bool {
    match console.program {
        Program::Warcdx => false,
        Program::WarcdxGz => file_kind(console.rt, name) == FileKind::Gzip,
    }
}

/// Returns what a cause of damage means for a member of gzip, or for the record in it.
fn member_advice(cause: Cause) -> &'static str {
    match cause {
        Cause::Version => {
            "No record begins the member's text: its first line isn't WARC/1.0 or WARC/1.1. Convert an ARC file to a WARC \
             file first, and decompress an index for warcdx query."
        }
        Cause::ShortHead | Cause::ShortBlock | Cause::Closing => {
            "The member ends within its record. If the record goes on in the next member, pack the file again: \
             gunzip it, then warcio recompress IN.warc OUT.warc.gz."
        }
        cause => cause_advice(cause),
    }
}

/// Returns what a file is that doesn't begin with a record, and what reads it.
fn no_archive_advice(kind: FileKind) -> &'static str {
    match kind {
        FileKind::Gzip => "It is compressed by gzip: warcdx-gz reads .warc.gz files.",
        FileKind::Zip => {
            "It is a ZIP file, as a WACZ file is: unpack it, and index the WARC files in it."
        }
        FileKind::Zstandard => "It is compressed by zstd: decompress it first.",
        FileKind::ZstandardWithDictionary => {
            "It is compressed by zstd with the dictionary in its first frame: decompress it by zstd -D first."
        }
        FileKind::Bzip2 => "It is compressed by bzip2: decompress it first.",
        FileKind::Xz => "It is compressed by xz: decompress it first.",
        FileKind::Utf16 => "It is a text in UTF-16: iconv -f UTF-16 -t UTF-8 converts it.",
        FileKind::OldWarc => {
            "It is a WARC file of a version before 1.0: convert it to WARC/1.0 first."
        }
        FileKind::Har => "It is a HAR file: convert it to a WARC file first, by har2warc.",
        FileKind::WarcWithLineFeeds => {
            "Its first line ends with LF alone: a WARC file has CR LF after each line of a header."
        }
        FileKind::Arc => "It is an ARC file: convert it to a WARC file first.",
        FileKind::Cdx =>
            "It is a CDX file: warcdx-cdx from FILE | LC_ALL=C sort makes an index of it.",
        FileKind::ByteOrderMark => BYTE_ORDER_MARK,
        FileKind::Index | FileKind::IndexWithTabs => {
            "It seems to be an index: warcdx query reads indexes."
        }
        FileKind::Markup => "It seems to be an HTML or XML file, and not a WARC file.",
        FileKind::Warc | FileKind::Objects | FileKind::Directive | FileKind::Other => {
            cause_advice(Cause::Version)
        }
    }
}

/// What to do with an archive that was compressed as a whole, or in parts of any size.
const PACK_AGAIN: &str = "Each record has to be a member of gzip of its own: \
    warcio recompress IN.warc.gz OUT.warc.gz packs the file so.";

/// Returns what a cause of damage means.
fn cause_advice(cause: Cause) -> &'static str {
    match cause {
        Cause::Memory => "There is no memory for the record.",
        Cause::Read => "The archive can't be read there.",
        Cause::Version => "No record begins there: its first line isn't WARC/1.0 or WARC/1.1.",
        Cause::ShortHead => "The archive ends within a record's header.",
        Cause::HeadTooLong => "The record's header has more than 1048576 bytes.",
        Cause::FieldLine => "A line of the record's header is no named field.",
        Cause::Missing => {
            "The record has no WARC-Record-ID, Content-Length, WARC-Date or WARC-Type."
        }
        Cause::Repeated => {
            "The record has WARC-Record-ID, Content-Length, WARC-Date or WARC-Type twice."
        }
        Cause::BadLength => "The record's Content-Length isn't a number of bytes below 2^63.",
        Cause::BadDate =>
            "The record's WARC-Date isn't a time in UTC, such as 2016-09-19T17:20:24Z.",
        Cause::ShortBlock => "The archive ends within the record's block.",
        Cause::Closing => "The record doesn't end with two empty lines.",
        Cause::TooFar => "The record would end at 2^63 bytes or more.",
        Cause::NoMember => "No member of gzip begins there: its first bytes aren't 1F 8B.",
        Cause::BadMember => "The member of gzip there is damaged, or was not written by gzip.",
        Cause::CutMember => {
            "The archive ends within a member of gzip: copy it again, or wait until its crawler has closed it."
        }
        Cause::SeveralRecords => PACK_AGAIN,
    }
}

/// Returns why a call on the archive of this name failed, unless memory or the output did.
pub fn index_advice<R: Runtime>(
    console: &Console<R>,
    name: &str,
    fault: IndexFault,
) -> Option<&'static str> {
    match fault {
        IndexFault::Capture(fault) => Some(archive_advice(console, name, fault)),
        IndexFault::BadName if name.ends_with('/') => Some(FOLDER),
        IndexFault::BadName => Some("The name of an archive's file has 1 to 255 bytes."),
        IndexFault::DuplicateName => Some(
            "Another archive has this file name: rename one of them.",
        ),
        IndexFault::NoRecord => Some(
            "No record begins at this offset, or it has another length: list prints the offsets.",
        ),
        IndexFault::Memory | IndexFault::Write => None,
    }
}

/// Returns why a call on the index of this name failed, and what to do.
pub fn answer_advice<R: Runtime>(rt: &R, name: &str, fault: AnswerFault) -> Option<&'static str> {
    match fault {
        AnswerFault::Read(_source) => Some(unread_advice(rt, name)),
        AnswerFault::BadLine(_source, _offset) if name.ends_with("manifest.json") => Some(MANIFEST),
        AnswerFault::BadLine(_source, _offset) => Some(no_index_advice(file_kind(rt, name))),
        AnswerFault::OutOfOrder(_source, _offset) => Some(order_advice(file_kind(rt, name))),
        _ => None,
    }
}

/// Returns what a file is that has a line of no index, and what to do. If it is no archive either, `no_archive_advice`
/// says so.
fn no_index_advice(kind: FileKind) -> &'static str {
    match kind {
        FileKind::Gzip => {
            "It is compressed by gzip: decompress an index. Of an archive, warcdx-gz index makes one, and verify checks it."
        }
        FileKind::Warc | FileKind::WarcWithLineFeeds => {
            "It is a WARC file: warcdx index makes an index of it, and warcdx verify checks it."
        }
        FileKind::Markup => "It seems to be an HTML or XML file, and not an index.",
        FileKind::Objects => {
            "Its first line is a JSON object alone: in an index, a URL key and a timestamp precede it."
        }
        FileKind::Directive => {
            "A line that begins with ! is no capture: grep -v '^!' leaves such lines out."
        }
        FileKind::IndexWithTabs => {
            "In an index a space, and no tab, follows the URL key and the timestamp."
        }
        FileKind::Index | FileKind::Other =>
            "The line that begins there isn't one of a CDXJ index.",
        kind => no_archive_advice(kind),
    }
}

/// Returns why an index isn't in order, and what to do.
fn order_advice(kind: FileKind) -> &'static str {
    match kind {
        FileKind::ByteOrderMark => BYTE_ORDER_MARK,
        _ => "The index isn't in order: LC_ALL=C sort puts its lines in order.",
    }
}

/// Returns what to do about what ended a command, if its message doesn't say.
pub fn end_advice(outcome: Outcome) -> Option<&'static str> {
    match outcome {
        Outcome::Answer(AnswerFault::TooManySources) => {
            Some("At most 1024 files are taken: merge the indexes of some of them first.")
        }
        Outcome::Answer(AnswerFault::Input) => Some("Standard input can't be read."),
        _ => None,
    }
}

/// Returns why the index of this name can't be read.
pub fn unread_advice<R: Runtime>(rt: &R, name: &str) -> &'static str {
    if is_folder(rt, name) {
        "It is a folder: of an index of warcdx-update, name its current/*.cdxj."
    } else if is_file(rt, name) {
        "The file is shorter than it was, or can't be read."
    } else {
        NO_PIPE
    }
}
