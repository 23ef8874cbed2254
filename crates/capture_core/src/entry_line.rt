//! The line of an entry, from texts that are borrowed.
ghost use Rattle.std.specs.Prelude.{◌≡◌, ◌<◌, length, true, Err, IfOk, IfSome};
ghost use Rattle.std.specs.List.{list_all};
ghost use Rattle.json.specs.Run.{is_plain};
ghost use Rattle.cdxj_core.specs.declared.limit.TheConstants.{LINE_LIMIT};
ghost use Rattle.cdxj_keys.specs.Key.{key_of};
ghost use Rattle.cdxj_core.specs.Entries.{HasLine, HasPlainTexts, keyed_view, line_text};
ghost use Rattle.capture_core.specs.Capture.{AreFilled, ArePlain, AreRawFilled, IsFrame};
ghost use Rattle.capture_core.specs.Capture.{entry_of_raw, entry_with};
ghost use Rattle.capture_core.specs.Utf8Text.{utf8_text};

use crate::held_line::HeldLine;
use crate::place::Place;
use crate::utf8_text::{plain_text, utf8_text};
use cdxj_core::{KeyFault, KeylessEntry, LineFault, plain_utf8, url_key, url_key_with_room};
use std::alloc::{AllocError, Global};

/// Why the line of an entry could not be written.
#[derive(Clone, Copy)]
pub(crate) enum LineRefused {
    Memory,
    KeyTooLong,
    LineTooLong,
}

impl From<AllocError> for LineRefused {
    ghost use Rattle.std.specs.Prelude.{◌≡◌};
    ghost use Rattle.capture_core.specs.declared.entry_line.LineRefused.TheVariants.{Memory};

    ghost from_gives = { λ error refusal. refusal ≡ Memory };

    fn from(_: AllocError) -> LineRefused {
        LineRefused::Memory
    }
}

impl From<KeyFault> for LineRefused {
    ghost use Rattle.std.specs.Prelude.{◌≢◌};
    ghost use Rattle.capture_core.specs.declared.entry_line.LineRefused.TheVariants.{LineTooLong};

    ghost from_gives = { λ fault refusal. refusal ≢ LineTooLong };

    fn from(fault: KeyFault) -> LineRefused {
        match fault {
            KeyFault::Memory => LineRefused::Memory,
            KeyFault::TooLong => LineRefused::KeyTooLong,
        }
    }
}

/// What an entry has beside its texts: its stamp, the archive's name, which isn't empty, and the
/// record's place.
#[derive(Clone, Copy)]
pub(crate) struct EntryFrame<'a> {
    pub stamp: [u8; 14],
    pub name: &'a str,
    pub place: Place,
}

/// The texts of an entry as they are stored: they may not be UTF-8. None of them is empty.
#[derive(Clone, Copy)]
pub(crate) struct RawTexts<'a> {
    pub url: &'a [u8],
    pub mime: &'a [u8],
    pub status: &'a str,
    pub digest: &'a [u8],
}

/// Writes the line of an entry.
pub(crate) fn entry_line(
    alloc: Global,
    frame: EntryFrame<'_>,
    raw: RawTexts<'_>,
) -> Result<HeldLine, LineRefused>
    requires framed { IsFrame frame }
    requires filled { AreRawFilled raw }
    ensures value { IfOk result (λ held. held ≡ entry_of_raw frame.entry raw.entry) }
    ensures line { IfOk result (HasLine LINE_LIMIT) }
    ensures long { result ≡ Err LineRefused.LineTooLong
        → LINE_LIMIT < length (line_text (entry_of_raw frame.entry raw.entry)) }
{
    match plain_texts(frame.name, raw) {
        Some(texts) => plain_line(alloc, frame, texts),
        None => {
            let url = utf8_text(alloc, raw.url)?;
            let mime = utf8_text(alloc, raw.mime)?;
            let digest = utf8_text(alloc, raw.digest)?;
            let texts = EntryTexts {
                url: url.as_str(),
                mime: mime.as_str(),
                status: raw.status,
                digest: digest.as_str(),
            };
            line_of_texts(alloc, frame, texts)
        }
    }
}

/// The texts of an entry, but for its key and its file name. None of them is empty.
#[derive(Clone, Copy)]
struct EntryTexts<'a> {
    url: &'a str,
    mime: &'a str,
    status: &'a str,
    digest: &'a str,
}

/// Returns the texts of an entry if none of them needs an escape, nor does the archive's name, as
/// in most entries.
fn plain_texts<'a>(name: &str, raw: RawTexts<'a>) -> Option<EntryTexts<'a>>
    requires { list_all is_plain raw.status.now ≡ true }
    ensures url { IfSome result (λ t. t.url.now ≡ utf8_text raw.entry.url.now) }
    ensures mime { IfSome result (λ t. t.mime.now ≡ utf8_text raw.entry.mime.now) }
    ensures status { IfSome result (λ t. t.status.now ≡ raw.entry.status.now) }
    ensures digest { IfSome result (λ t. t.digest.now ≡ utf8_text raw.entry.digest.now) }
    ensures plain { IfSome result (ArePlain name.now) }
{
    let _name = plain_utf8(name.as_bytes())?;
    Some(EntryTexts {
        url: plain_text(raw.url)?,
        mime: plain_text(raw.mime)?,
        status: raw.status,
        digest: plain_text(raw.digest)?,
    })
}

/// Returns the entry with these texts, but for its key.
#[inline(always)]
fn keyless<'a>(frame: EntryFrame<'a>, texts: EntryTexts<'a>) -> KeylessEntry<'a>
    ensures { keyed_view (key_of texts.entry.url.now) result
        ≡ entry_with frame.entry texts.entry }
{
    KeylessEntry {
        stamp: frame.stamp,
        url: texts.url,
        mime: texts.mime,
        status: texts.status,
        digest: texts.digest,
        length: frame.place.length,
        offset: frame.place.offset,
        filename: frame.name,
    }
}

/// Like `line_of_texts`, from texts that need no escapes.
fn plain_line(
    alloc: Global,
    frame: EntryFrame<'_>,
    texts: EntryTexts<'_>,
) -> Result<HeldLine, LineRefused>
    requires framed { IsFrame frame }
    requires filled { AreFilled texts }
    requires plain { HasPlainTexts (entry_with frame texts) }
    ensures value { IfOk result (λ held. held ≡ entry_with frame.entry texts.entry) }
    ensures line { IfOk result (HasLine LINE_LIMIT) }
    ensures long { result ≡ Err LineRefused.LineTooLong
        → LINE_LIMIT < length (line_text (entry_with frame.entry texts.entry)) }
{
    let entry = keyless(frame, texts);
    let room = entry.room();
    // Most URLs are longer than their keys.
    let most = room.saturating_add(texts.url.len());
    let mut key = url_key_with_room(alloc, texts.url, most)?;
    key.reserve_exact(room)?;
    // For the proof alone: a key is UTF-8.
    let _text = key.as_str();
    held(HeldLine::plain(key, entry))
}

/// Writes the line of an entry with these texts.
fn line_of_texts(
    alloc: Global,
    frame: EntryFrame<'_>,
    texts: EntryTexts<'_>,
) -> Result<HeldLine, LineRefused>
    requires framed { IsFrame frame }
    requires filled { AreFilled texts }
    ensures value { IfOk result (λ held. held ≡ entry_with frame.entry texts.entry) }
    ensures line { IfOk result (HasLine LINE_LIMIT) }
    ensures long { result ≡ Err LineRefused.LineTooLong
        → LINE_LIMIT < length (line_text (entry_with frame.entry texts.entry)) }
{
    let key = url_key(alloc, texts.url)?;
    held(HeldLine::new(alloc, key.as_str(), keyless(frame, texts)))
}

/// Returns a line, or why it could not be written.
fn held(written: Result<HeldLine, LineFault>) -> Result<HeldLine, LineRefused>
    ensures value { IfOk result (λ line. written ≡ Ok line) }
    ensures long { result ≡ Err LineRefused.LineTooLong → written ≡ Err LineFault.LineTooLong }
{
    match written {
        Ok(line) => Ok(line),
        Err(LineFault::LineTooLong) => Err(LineRefused::LineTooLong),
        Err(_) => Err(LineRefused::Memory),
    }
}
