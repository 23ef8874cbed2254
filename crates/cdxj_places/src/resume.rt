//! Resume keys: a place as one form-encoded value.
ghost use Rattle.std.specs.Prelude.{◌≡◌, ◌++◌, ◌∷◌, [], IfOk, MatchResult, string_bytes};
ghost use Rattle.form_urlencoded.specs.Form.{byte_serialize};
ghost use Rattle.cdxj_places.specs.Places.{place_text, resume_text};
ghost use Rattle.cdxj_places.specs.PlaceViews.{place_view};

use crate::fault::PlaceFault;
use crate::place::Place;
use form_urlencoded::byte_serialize;
use std::alloc::{AllocError, Global};

fn push_part(text: &mut Vec<u8>, part: &[u8]) -> Result<(), AllocError>
    ensures { IfOk result (λ _. text.new.items ≡ text.old.items ++ (part.now ++ 32 ∷ [])) }
{
    text.extend_from_slice(part)?;
    text.push(b' ')?;
    Ok(())
}

fn place_text(alloc: Global, place: Place<'_>) -> Result<Vec<u8>, AllocError>
    ensures { IfOk result (λ t. t.items ≡ place_text (place_view place.entry)) }
{
    let mut text = Vec::new(alloc);
    push_part(&mut text, place.key.as_bytes())?;
    push_part(&mut text, &place.stamp)?;
    push_part(&mut text, place.filename.as_bytes())?;
    let offset = format!(in alloc; "{}", place.offset)?;
    text.extend_from_slice(offset.as_bytes())?;
    Ok(text)
}

fn form_text(alloc: Global, bytes: &[u8]) -> Result<String, AllocError>
    ensures { IfOk result (λ t. string_bytes t ≡ byte_serialize bytes.now) }
{
    let mut text = String::new(alloc);
    for piece in byte_serialize(bytes) {
        text.push_str(piece)?;
    }
    Ok(text)
}

/// Writes the resume key of a place: key, stamp, file name and offset, joined with spaces, in the
/// form encoding (URL Standard, "application/x-www-form-urlencoded").
/// The only error is refused memory.
pub fn resume_text(alloc: Global, place: Place<'_>) -> Result<String, PlaceFault>
    ensures { MatchResult result
        (λ text. string_bytes text ≡ resume_text (place_view place.entry))
        (λ fault. fault ≡ PlaceFault.Memory) }
{
    let text = place_text(alloc, place)?;
    Ok(form_text(alloc, &text)?)
}
