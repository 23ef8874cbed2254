//! The entry of a capture in an index, with texts of its own or with borrowed ones.
use crate::field::Field;
use crate::limit::LINE_LIMIT;
use crate::line_ref::LineRef;
use crate::spans::TO_OBJECT;
use cdxj_objects::{FRAME, Members};
use cdxj_places::{HasPlace, Pair, Place, is_key, is_stamp};
use std::alloc::{AllocError, Global};
use std::cmp::Ordering;
use std::marker::Model;

/// The length of what a line has beside its key and its texts, in bytes.
pub(crate) const LINE_FRAME: usize = TO_OBJECT + FRAME + 1;

/// The contents of an index line about one capture.
#[derive(Debug, Drop)]
pub struct Entry {
    /// The key of `url`.
    pub key: String,
    /// 14 digits, `YYYYMMDDhhmmss`.
    pub stamp: [u8; 14],
    /// The target.
    pub url: String,
    /// The media type, or `-`.
    pub mime: String,
    /// The HTTP status in three digits, or `-`.
    pub status: String,
    /// The digest of the payload, or `-`.
    pub digest: String,
    /// The length of the record in bytes.
    pub length: u64,
    /// The offset in bytes from the archive's start.
    pub offset: u64,
    /// The archive's name.
    pub filename: String,
}

impl Model for Entry {
    ghost use Rattle.std.specs.Prelude.{string_bytes};
    ghost use Rattle.cdxj_core.specs.Entries.{EntryValue};

    ghost Value = { EntryValue };

    ghost view = { λ e. record {
      key = string_bytes e.key;
      stamp = e.stamp;
      url = string_bytes e.url;
      mime = string_bytes e.mime;
      status = string_bytes e.status;
      digest = string_bytes e.digest;
      length = e.length;
      offset = e.offset;
      filename = string_bytes e.filename;
    } };
}

impl Entry {
    ghost use Rattle.std.specs.Prelude.{◌≡◌, ◌↔◌, IfOk, IsTrue};
    ghost use Rattle.cdxj_core.specs.Entries.{AreUtf8, IsGood, keyed_view};
    ghost use Rattle.cdxj_core.specs.Lines.{entry_of_values};

    /// Returns `true` if the entry can be written: the key is a key, the stamp is 14 digits, no
    /// text is empty, and length and offset are below 2^63.
    pub fn good(&self) -> bool
        ensures { IsTrue result ↔ IsGood self.now }
    {
        self.see_texts();
        is_key(self.key.as_bytes())
            && is_stamp(&self.stamp)
            && !self.url.is_empty()
            && !self.mime.is_empty()
            && !self.status.is_empty()
            && !self.digest.is_empty()
            && self.length < 1 << 63
            && self.offset < 1 << 63
            && !self.filename.is_empty()
    }

    /// Copies the texts of a line that was read, for a record of this length in bytes.
    /// The only error is refused memory.
    pub fn of_line(alloc: Global, line: &LineRef<'_>, length: u64) -> Result<Entry, AllocError>
        ensures { IfOk result (λ entry. entry
            ≡ record (entry_of_values line.now.values) { length = length }) }
    {
        let Place {
            key,
            stamp,
            filename,
            offset,
        } = line.place();
        Ok(Entry {
            key: String::from_str(alloc, key)?,
            stamp,
            url: String::from_str(alloc, line.value(Field::Original))?,
            mime: String::from_str(alloc, line.value(Field::Mimetype))?,
            status: String::from_str(alloc, line.value(Field::Statuscode))?,
            digest: String::from_str(alloc, line.value(Field::Digest))?,
            length,
            offset,
            filename: String::from_str(alloc, filename)?,
        })
    }

    /// Returns the entry without its key, with its texts borrowed.
    pub fn keyless(&self) -> KeylessEntry<'_>
        ensures { keyed_view self.now.key result ≡ self.now }
    {
        KeylessEntry {
            stamp: self.stamp,
            url: self.url.as_str(),
            mime: self.mime.as_str(),
            status: self.status.as_str(),
            digest: self.digest.as_str(),
            length: self.length,
            offset: self.offset,
            filename: self.filename.as_str(),
        }
    }

    fn pair(&self) -> Pair<'_>
        ensures key { result.key.now ≡ self.now.key }
        ensures stamp { result.stamp ≡ self.now.stamp }
    {
        Pair {
            key: self.key.as_str(),
            stamp: self.stamp,
        }
    }

    /// Shows that the texts are UTF-8, as strings are. Nothing else is done.
    fn see_texts(&self)
        ensures { AreUtf8 self.now }
    {
        // For the proof alone: what the type says of the texts.
        let _opened = &self.key;
    }
}

impl HasPlace for Entry {
    ghost use Rattle.cdxj_core.specs.Entries.{entry_place};

    ghost place_of = { entry_place };

    fn key_bytes(&self) -> &[u8] {
        self.key.as_bytes()
    }

    fn compare_place(&self, other: &Entry) -> Ordering {
        self.pair()
            .cmp(&other.pair())
            .then_with(|| self.filename.as_str().cmp(other.filename.as_str()))
            .then_with(|| self.offset.cmp(&other.offset))
    }
}

/// The contents of an index line about one capture, but for its key. Its texts are borrowed.
#[derive(Clone, Copy, Debug)]
pub struct KeylessEntry<'a> {
    /// 14 digits, `YYYYMMDDhhmmss`.
    pub stamp: [u8; 14],
    /// The target.
    pub url: &'a str,
    /// The media type, or `-`.
    pub mime: &'a str,
    /// The HTTP status in three digits, or `-`.
    pub status: &'a str,
    /// The digest of the payload, or `-`.
    pub digest: &'a str,
    /// The length of the record in bytes.
    pub length: u64,
    /// The offset in bytes from the archive's start.
    pub offset: u64,
    /// The archive's name.
    pub filename: &'a str,
}

impl<'a> KeylessEntry<'a> {
    ghost use Rattle.std.specs.Prelude.{◌≡◌, ℕ, List};
    ghost use Rattle.cdxj_objects.specs.Texts.{borrowed_view};
    ghost use Rattle.cdxj_core.specs.Entries.{entry_texts, keyed_view};

    /// Returns the texts of the members. `length` and `offset` are the entry's numbers in decimal.
    pub(crate) fn members(self, length: &'a str, offset: &'a str) -> Members<&'a str>
        ensures { (key : List ℕ) → borrowed_view result
            ≡ record (entry_texts (keyed_view key self.entry)) {
              length = length.now;
              offset = offset.now;
            } }
    {
        Members {
            url: self.url,
            mime: self.mime,
            status: self.status,
            digest: self.digest,
            length,
            offset,
            filename: self.filename,
        }
    }

    /// Returns how many bytes the line has behind its key if no text needs an escape, and at most
    /// `LINE_LIMIT`.
    pub fn room(self) -> usize {
        self.url
            .len()
            .saturating_add(self.mime.len())
            .saturating_add(self.status.len())
            .saturating_add(self.digest.len())
            .saturating_add(digits(self.length))
            .saturating_add(digits(self.offset))
            .saturating_add(self.filename.len())
            .saturating_add(LINE_FRAME)
            .min(LINE_LIMIT)
    }
}

/// Returns how many digits a number has.
fn digits(number: u64) -> usize {
    match number.checked_ilog10() {
        Some(log) => log as usize + 1,
        None => 1,
    }
}
