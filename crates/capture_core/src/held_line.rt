//! Captures, held as their lines.
use cdxj_core::{
    Entry, HasPlace, KeylessEntry, Line, LineFault, write_entry, write_plain_entry,
    written_line_is_read,
};
use memchr::{memchr, memrchr};
use std::alloc::{AllocError, Global};
use std::cmp::Ordering;
use std::marker::Model;

/// What a line ends with, after its file name: a quote, a brace and a line feed.
const CLOSING: usize = 3;

/// A capture, held as its line in an index.
#[derive(Debug, Drop)]
pub struct HeldLine {
    /// The line. A file name that has escapes in the line stands behind it, with a NUL after it.
    bytes: Vec<u8>,
    offset: u64,
}

impl Model for HeldLine {
    ghost use Rattle.cdxj_core.specs.Entries.{EntryValue};
    ghost use Rattle.capture_core.specs.Spelling.{HoldsLine, entry_in, first_line};

    ghost Value = { EntryValue };

    ghost view = { λ h. entry_in (first_line h.bytes.items) };

    ghost invariant = { λ h.
        HoldsLine (entry_in (first_line h.bytes.items)) h.bytes.items h.offset };
}

impl HeldLine {
    ghost use Rattle.std.specs.Prelude.{◌≡◌, ◌<◌, length, string_bytes, Err, IfOk};
    ghost use Rattle.cdxj_core.specs.declared.limit.TheConstants.{LINE_LIMIT};
    ghost use Rattle.cdxj_core.specs.Entries.{IsGood, HasLine, HasPlainTexts, keyed_view};
    ghost use Rattle.cdxj_core.specs.Entries.{line_text};

    /// Writes the line of a good entry.
    ///
    /// The error is `LineTooLong` if the line has more than `LINE_LIMIT` bytes, or `Memory`.
    pub fn new(alloc: Global, key: &str, entry: KeylessEntry<'_>) -> Result<HeldLine, LineFault>
        requires { IsGood (keyed_view key.now entry) }
        ensures value { IfOk result (λ held. held ≡ keyed_view key.now entry.entry) }
        ensures line { IfOk result (HasLine LINE_LIMIT) }
        ensures long { result ≡ Err LineFault.LineTooLong
            → LINE_LIMIT < length (line_text (keyed_view key.now entry.entry)) }
    {
        let mut bytes = write_entry(alloc, key, entry)?;
        keep_name(&mut bytes, entry.filename.as_bytes())?;
        Ok(HeldLine {
            bytes,
            offset: entry.offset,
        })
    }

    /// Like `new`, in the memory of the key. No text of the entry needs an escape.
    pub(crate) fn plain(key: String, entry: KeylessEntry<'_>) -> Result<HeldLine, LineFault>
        requires good { IsGood (keyed_view (string_bytes key) entry) }
        requires plain { HasPlainTexts (keyed_view (string_bytes key) entry) }
        ensures value { IfOk result (λ held. held ≡ keyed_view (string_bytes key) entry.entry) }
        ensures line { IfOk result (HasLine LINE_LIMIT) }
        ensures long { result ≡ Err LineFault.LineTooLong
            → LINE_LIMIT < length (line_text (keyed_view (string_bytes key) entry.entry)) }
    {
        let bytes = write_plain_entry(key, entry)?;
        Ok(HeldLine {
            bytes,
            offset: entry.offset,
        })
    }

    /// Returns the line, with its line feed.
    pub fn line(&self) -> &[u8]
        ensures { result.now ≡ line_text self.now }
    {
        if ends_with_feed(&self.bytes) {
            &self.bytes
        } else {
            first_line(&self.bytes)
        }
    }

    /// Returns the entry with texts of its own, for a record of this length.
    pub(crate) fn entry(&self, alloc: Global, length: u64) -> Result<Entry, AllocError>
        requires { length ≡ self.now.length }
        ensures { IfOk result (λ entry. entry ≡ self.now) }
    {
        written_line_is_read();
        let read = match Line::read(alloc, first_line(&self.bytes)) {
            Ok(read) => read,
            Err(_) => return Err(AllocError),
        };
        Entry::of_line(alloc, &read.values(), length)
    }

    fn key(&self) -> &[u8]
        ensures { result.now ≡ self.now.key }
    {
        before_space(&self.bytes)
    }

    #[tactic(auto, using(crate::proofs::SpellingLemmas::stamp_in))]
    fn stamp(&self) -> &[u8]
        ensures { result.now ≡ self.now.stamp }
    {
        let key_length = before_space(&self.bytes).len();
        &first_line(&self.bytes)[key_length + 1..key_length + 15]
    }

    fn filename(&self) -> &[u8]
        ensures { result.now ≡ self.now.filename }
    {
        let line = self.line();
        if line.len() < self.bytes.len() {
            &self.bytes[line.len()..self.bytes.len() - 1]
        } else {
            last_quoted(line)
        }
    }

    fn offset(&self) -> u64
        ensures { result ≡ self.now.offset }
    {
        self.offset
    }
}

impl HasPlace for HeldLine {
    ghost use Rattle.cdxj_core.specs.Entries.{entry_place};

    ghost place_of = { entry_place };

    fn key_bytes(&self) -> &[u8] {
        self.key()
    }

    fn compare_place(&self, other: &HeldLine) -> Ordering {
        self.key()
            .cmp(other.key())
            .then_with(|| self.stamp().cmp(other.stamp()))
            .then_with(|| self.filename().cmp(other.filename()))
            .then_with(|| self.offset().cmp(&other.offset()))
    }
}

ghost use Rattle.std.specs.Prelude.{◌≡◌, OnOk};
ghost use Rattle.std.specs.List.{before_first};
ghost use Rattle.cdxj_places.specs.Pair.{is_space};
ghost use Rattle.capture_core.specs.Spelling.{KeepsName, ends_with_feed, first_line, last_quoted};

/// Returns `true` if the last byte is a line feed.
fn ends_with_feed(bytes: &[u8]) -> bool
    ensures { result ≡ ends_with_feed bytes.now }
{
    bytes.ends_with(b"\n")
}

/// Returns the first line, with its line feed.
#[tactic(auto, using(cdxj_places::proofs::Found::cut_rules))]
fn first_line(bytes: &[u8]) -> &[u8]
    ensures { result.now ≡ first_line bytes.now }
{
    match memchr(b'\n', bytes) {
        Some(end) => &bytes[..end + 1],
        None => bytes,
    }
}

/// Returns what stands before the first space.
#[tactic(auto, using(cdxj_places::proofs::Found::cut_rules))]
fn before_space(bytes: &[u8]) -> &[u8]
    ensures { result.now ≡ before_first is_space bytes.now }
{
    match memchr(b' ', bytes) {
        Some(end) => &bytes[..end],
        None => bytes,
    }
}

/// Returns what stands between the last quote of a line and its closing.
#[tactic(auto, using(crate::proofs::HeldLines::last_quoted_rules))]
fn last_quoted(line: &[u8]) -> &[u8]
    ensures { result.now ≡ last_quoted line.now }
{
    let text = &line[..line.len().saturating_sub(CLOSING)];
    match memrchr(b'"', text) {
        Some(quote) => &text[quote + 1..],
        None => text,
    }
}

/// Appends the file name and a NUL to its line, unless the name stands in the line as it is.
fn keep_name(line: &mut Vec<u8>, name: &[u8]) -> Result<(), AllocError>
    ensures { OnOk result (KeepsName line.old.items name.now line.new.items) }
{
    if last_quoted(line) == name {
        Ok(())
    } else {
        line.extend_from_slice(name)?;
        line.push(0)?;
        Ok(())
    }
}
