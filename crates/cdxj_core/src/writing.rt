//! The writing of an entry's line.
ghost use Rattle.std.specs.Prelude.{◌≡◌, ◌≢◌, ◌<◌, ◌≤◌, ◌++◌, [], ◌∷◌, length, string_bytes, IfOk};
ghost use Rattle.std.specs.Prelude.{MatchResult};
ghost use Rattle.cdxj_core.specs.Entries.{HasPlainTexts, IsGood, keyed_view, line_text};

use crate::entry::{Entry, KeylessEntry, LINE_FRAME};
use crate::fault::LineFault;
use crate::limit::LINE_LIMIT;
use cdxj_objects::{Members, push_object, push_plain_object};
use itoa::Buffer;
use std::alloc::{AllocError, Global};

/// Appends the stamp of a line to its key, with a space on both sides.
fn push_stamp(line: &mut Vec<u8>, stamp: &[u8; 14]) -> Result<(), AllocError>
    ensures { IfOk result (λ _. line.new.items ≡ line.old.items ++ 32 ∷ (stamp.now ++ 32 ∷ [])) }
{
    line.push(b' ')?;
    line.extend_from_slice(stamp)?;
    line.push(b' ')?;
    Ok(())
}

// The key, with room for the line of these texts, where none needs an escape.
fn key_with_room(alloc: Global, key: &str, texts: Members<&str>) -> Result<Vec<u8>, AllocError>
    ensures { IfOk result (λ line. line.items ≡ key.now) }
{
    let length = texts
        .total_length()
        .saturating_add(key.len())
        .saturating_add(LINE_FRAME);
    let mut line = Vec::with_capacity(alloc, length.min(LINE_LIMIT))?;
    line.extend_from_slice(key.as_bytes())?;
    Ok(line)
}

fn line_bytes(alloc: Global, key: &str, entry: KeylessEntry<'_>) -> Result<Vec<u8>, AllocError>
    requires { IsGood (keyed_view key.now entry) }
    ensures { IfOk result (λ line. line.items ≡ line_text (keyed_view key.now entry.entry)) }
{
    let mut length = Buffer::new();
    let mut offset = Buffer::new();
    let texts = entry.members(length.format(entry.length), offset.format(entry.offset));
    let mut line = key_with_room(alloc, key, texts)?;
    push_stamp(&mut line, &entry.stamp)?;
    push_object(&mut line, alloc, texts)?;
    line.push(b'\n')?;
    Ok(line)
}

fn plain_line_bytes(key: String, entry: KeylessEntry<'_>) -> Result<Vec<u8>, AllocError>
    requires good { IsGood (keyed_view (string_bytes key) entry) }
    requires plain { HasPlainTexts (keyed_view (string_bytes key) entry) }
    ensures { IfOk result (λ line. line.items
        ≡ line_text (keyed_view (string_bytes key) entry.entry)) }
{
    let mut length = Buffer::new();
    let mut offset = Buffer::new();
    let texts = entry.members(length.format(entry.length), offset.format(entry.offset));
    let mut line = key.into_bytes();
    push_stamp(&mut line, &entry.stamp)?;
    push_plain_object(&mut line, texts)?;
    line.push(b'\n')?;
    Ok(line)
}

/// Writes the line of a good entry behind its key, in the key's memory. No text of the entry needs
/// an escape. Errors are those of `write_line`.
pub fn write_plain_entry(key: String, entry: KeylessEntry<'_>) -> Result<Vec<u8>, LineFault>
    requires good { IsGood (keyed_view (string_bytes key) entry) }
    requires plain { HasPlainTexts (keyed_view (string_bytes key) entry) }
    ensures { MatchResult result
        (λ line. (line.items ≡ line_text (keyed_view (string_bytes key) entry.entry))
        × (length line.items ≤ LINE_LIMIT))
        (λ fault. (fault ≡ LineFault.LineTooLong
        → LINE_LIMIT < length (line_text (keyed_view (string_bytes key) entry.entry)))
        × (fault ≢ LineFault.BadLine)) }
{
    within_limit(plain_line_bytes(key, entry)?)
}

/// Returns a line, if it isn't longer than `LINE_LIMIT`.
fn within_limit(line: Vec<u8>) -> Result<Vec<u8>, LineFault>
    ensures { MatchResult result
        (λ kept. (kept ≡ line) × (length kept.items ≤ LINE_LIMIT))
        (λ fault. (fault ≡ LineFault.LineTooLong) × (LINE_LIMIT < length line.items)) }
{
    if line.len() > LINE_LIMIT {
        return Err(LineFault::LineTooLong);
    }
    Ok(line)
}

/// Writes the line of a good entry, as `write_line` does.
/// Errors are those of `write_line`.
pub fn write_entry(alloc: Global, key: &str, entry: KeylessEntry<'_>) -> Result<Vec<u8>, LineFault>
    requires { IsGood (keyed_view key.now entry) }
    ensures { MatchResult result
        (λ line. (line.items ≡ line_text (keyed_view key.now entry.entry))
        × (length line.items ≤ LINE_LIMIT))
        (λ fault. (fault ≡ LineFault.LineTooLong
        → LINE_LIMIT < length (line_text (keyed_view key.now entry.entry)))
        × (fault ≢ LineFault.BadLine)) }
{
    within_limit(line_bytes(alloc, key, entry)?)
}

/// Writes the line of a good entry, with its line feed: the key, the stamp and a JSON object with
/// the members url, mime, status, digest, length, offset and filename, all as texts. The error is
/// `LineTooLong` if the line has more than `LINE_LIMIT` bytes.
pub fn write_line(alloc: Global, entry: &Entry) -> Result<Vec<u8>, LineFault>
    requires { IsGood entry.now }
    ensures { MatchResult result
        (λ line. (line.items ≡ line_text entry.now) × (length line.items ≤ LINE_LIMIT))
        (λ fault. (fault ≡ LineFault.LineTooLong → LINE_LIMIT < length (line_text entry.now))
        × (fault ≢ LineFault.BadLine)) }
{
    write_entry(alloc, entry.key.as_str(), entry.keyless())
}
