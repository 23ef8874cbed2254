//! Making a key, a line and a resume key, by `cdxj_core` alone.
ghost use Rattle.std.specs.Prelude.{◌≡◌, IfOk, IfSome, Some, option_map, string_bytes};
ghost use Rattle.cdxj_core.specs.declared.limit.TheConstants.{LINE_LIMIT};
ghost use Rattle.cdxj_core.specs.Key.{key_of};
ghost use Rattle.cdxj_core.specs.Members.{entry_member, line_entry};
ghost use Rattle.cdxj_core.specs.Places.{place_from, resume_place, resume_text};

use cdxj_core::{
    Entry, KeyFault, LineFault, Place, PlaceFault, is_key, is_stamp, place_is_good, read_offset,
    resume_key_is_read, resume_text, url_key, write_line, written_line_is_read,
};
use std::alloc::Global;

/// Returns the key under which an index has the captures of a URL.
///
/// Errors are `Memory`, and `TooLong` if the URL parser has no room for the URL.
pub fn key(alloc: Global, url: &str) -> Result<String, KeyFault>
    ensures { IfOk result (λ key. string_bytes key ≡ key_of url.now) }
{
    url_key(alloc, url)
}

/// Returns the line of an entry, or `None` if the entry can't be written. The line is read as the
/// entry.
///
/// Errors are `Memory`, and `LineTooLong` for more than `LINE_LIMIT` bytes.
pub fn line(alloc: Global, entry: &Entry) -> Result<Option<Vec<u8>>, LineFault>
    ensures { IfOk result (λ written. IfSome written (λ line.
        line_entry LINE_LIMIT line.items ≡ Some (entry_member entry.now))) }
{
    if !entry.good() {
        return Ok(None);
    }
    written_line_is_read();
    let line = write_line(alloc, entry)?;
    Ok(Some(line))
}

/// Returns the resume key of the place with these parts, or `None` if they aren't those of a place.
/// The key is read as the place.
///
/// The only error is `Memory`.
pub fn resume_key(
    alloc: Global,
    key: &str,
    stamp: [u8; 14],
    filename: &str,
    offset: &str,
) -> Result<Option<String>, PlaceFault>
    ensures text { IfOk result (λ made. option_map string_bytes made
        ≡ option_map resume_text (place_from key.now stamp filename.now offset.now)) }
    ensures place { IfOk result (λ made. IfSome made (λ text.
        resume_place (string_bytes text) ≡ place_from key.now stamp filename.now offset.now)) }
{
    let Some(offset) = read_offset(offset) else {
        return Ok(None);
    };
    if is_key(key.as_bytes()) && is_stamp(&stamp) && !filename.is_empty() {
        let place = Place {
            key,
            stamp,
            filename,
            offset,
        };
        place_is_good(place);
        resume_key_is_read();
        let text = resume_text(alloc, place)?;
        Ok(Some(text))
    } else {
        Ok(None)
    }
}
