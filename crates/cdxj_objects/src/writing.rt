//! The writing of texts between quotes, and of an object that has any texts.
ghost use Rattle.std.specs.Prelude.{◌≡◌, ◌++◌, drop, IfOk};
ghost use Rattle.json.specs.Print.{escape, quoted};
ghost use Rattle.cdxj_objects.specs.Objects.{object_text};
ghost use Rattle.cdxj_objects.specs.Plain.{pieces, plain_pieces, plain_text};
ghost use Rattle.cdxj_objects.specs.Texts.{borrowed_view, text_members};

use crate::members::{AFTER, BEFORE, Members};
use crate::plain_text::is_plain_text;
use serde_json::Value;
use std::alloc::{AllocError, Global};

// A text that needs escapes, without its quotes.
#[cold]
fn push_with_escapes(line: &mut Vec<u8>, alloc: Global, text: &str) -> Result<(), AllocError>
    ensures { IfOk result (λ _. line.new.items ≡ line.old.items ++ escape text.now) }
{
    let value = Value::try_from_str(alloc, text)?;
    let quoted = value.to_vec(alloc)?;
    line.extend_from_slice(&quoted[1..quoted.len() - 1])
}

// A text as it stands between quotes.
#[tactic(auto, using(crate::proofs::PlainLaw::escape_plain))]
fn push_escaped(line: &mut Vec<u8>, alloc: Global, text: &str) -> Result<(), AllocError>
    ensures { IfOk result (λ _. line.new.items ≡ line.old.items ++ escape text.now) }
{
    if is_plain_text(text.as_bytes()) {
        line.extend_from_slice(text.as_bytes())
    } else {
        push_with_escapes(line, alloc, text)
    }
}

/// Appends the text to the line, between quotes, as `serde_json` writes it.
/// The only error is refused memory.
#[tactic(auto, using(std::proofs::Common::append_assoc))]
pub fn push_quoted(line: &mut Vec<u8>, alloc: Global, text: &str) -> Result<(), AllocError>
    ensures { IfOk result (λ _. line.new.items ≡ line.old.items ++ quoted text.now) }
{
    line.push(b'"')?;
    push_escaped(line, alloc, text)?;
    line.push(b'"')?;
    Ok(())
}

// What stands before a text, and the text.
fn push_member(line: &mut Vec<u8>, alloc: Global, front: &str, text: &str) -> Result<(), AllocError>
    ensures { IfOk result
        (λ _. line.new.items ≡ line.old.items ++ (front.now ++ escape text.now)) }
{
    line.extend_from_slice(front.as_bytes())?;
    push_escaped(line, alloc, text)
}

/// Appends the object of these texts to the line, each as `push_quoted` appends it. The only error
/// is refused memory.
pub fn push_object(
    line: &mut Vec<u8>,
    alloc: Global,
    texts: Members<&str>,
) -> Result<(), AllocError>
    ensures { IfOk result (λ _. line.new.items
        ≡ line.old.items ++ object_text (text_members (borrowed_view texts.entry))) }
{
    let before = BEFORE;
    push_member(line, alloc, before.url, texts.url)?;
    push_member(line, alloc, before.mime, texts.mime)?;
    push_member(line, alloc, before.status, texts.status)?;
    push_member(line, alloc, before.digest, texts.digest)?;
    push_member(line, alloc, before.length, texts.length)?;
    push_member(line, alloc, before.offset, texts.offset)?;
    push_member(line, alloc, before.filename, texts.filename)?;
    line.extend_from_slice(AFTER.as_bytes())?;
    Ok(())
}

// What stands before a text, and the text, which needs no escapes.
#[inline(always)]
fn push_plain_member(line: &mut Vec<u8>, front: &str, text: &str) -> Result<(), AllocError>
    ensures { IfOk result (λ _. line.new.items ≡ line.old.items ++ (front.now ++ text.now)) }
{
    line.extend_from_slice(front.as_bytes())?;
    line.extend_from_slice(text.as_bytes())
}

// The members up to the digest. They are apart from the others since the compiler inlines a few
// calls alone.
#[inline(never)]
fn push_first_members(line: &mut Vec<u8>, texts: &Members<&str>) -> Result<(), AllocError>
    ensures { IfOk result (λ _. line.new.items
        ++ pieces (drop 4 (plain_pieces (borrowed_view texts.now)))
        ≡ line.old.items ++ plain_text (borrowed_view texts.now)) }
{
    let before = BEFORE;
    push_plain_member(line, before.url, texts.url)?;
    push_plain_member(line, before.mime, texts.mime)?;
    push_plain_member(line, before.status, texts.status)?;
    push_plain_member(line, before.digest, texts.digest)?;
    Ok(())
}

// The members behind the digest, and the end of the object.
#[inline(never)]
fn push_last_members(line: &mut Vec<u8>, texts: &Members<&str>) -> Result<(), AllocError>
    ensures { IfOk result (λ _. line.new.items
        ≡ line.old.items ++ pieces (drop 4 (plain_pieces (borrowed_view texts.now)))) }
{
    let before = BEFORE;
    push_plain_member(line, before.length, texts.length)?;
    push_plain_member(line, before.offset, texts.offset)?;
    push_plain_member(line, before.filename, texts.filename)?;
    line.extend_from_slice(AFTER.as_bytes())?;
    Ok(())
}

/// Appends the plain object of these texts to the line. The only error is refused memory.
pub fn push_plain_object(line: &mut Vec<u8>, texts: Members<&str>) -> Result<(), AllocError>
    ensures { IfOk result (λ _. line.new.items
        ≡ line.old.items ++ plain_text (borrowed_view texts.entry)) }
{
    push_first_members(line, &texts)?;
    push_last_members(line, &texts)
}
