//! Keys in the manner of SURT: URLs with the host's labels reversed, so that the pages of a host
//! are adjacent in an index.
ghost use Rattle.std.specs.Prelude.{◌≡◌, ◌<◌, ◌++◌, length, option_copied, option_map, true, IfOk, None, Ok, string_bytes};
ghost use Rattle.std.specs.Char.{digit_char};
ghost use Rattle.std.specs.List.{list_all};
ghost use Rattle.url.specs.Parser.{parse_url};
ghost use Rattle.cdxj_places.specs.Pair.{is_key};
ghost use Rattle.cdxj_keys.specs.PlainUrls.{plain_key_text};
ghost use Rattle.cdxj_keys.specs.Key.{port_text, query_text, is_web, web_text, key_text, is_graphic, key_byte, folded, key_of, host_key_of};

use crate::fault::KeyFault;
use crate::host::{ROOM, domain_text, host_text};
use crate::plain_url::{PlainUrl, plain_url};
use itoa::Buffer;
use std::alloc::{AllocError, Global};
use url::{ParseError, Url};

fn push_folded(text: &mut String, byte: u8) -> Result<(), AllocError>
    ensures { IfOk result (λ _. string_bytes text.new ≡ string_bytes text.old ++ key_byte byte) }
{
    if byte.is_ascii_graphic() {
        text.push(byte.to_ascii_lowercase() as char)
    } else {
        text.push('%')?;
        text.push(hex(byte >> 4))?;
        text.push(hex(byte & 15))
    }
}

fn hex(digit: u8) -> char
    requires { digit < 16 }
    ensures { result ≡ digit_char digit }
{
    if digit < 10 {
        (b'0' + digit) as char
    } else {
        (b'a' + (digit - 10)) as char
    }
}

/// Returns `true` if every byte is from 0x21 to 0x7E. It is one pass without an early exit, which
/// compiles to vector tests.
fn is_graphic(bytes: &[u8]) -> bool
    ensures { result ≡ list_all is_graphic bytes.now }
{
    let mut good = true;
    for byte in bytes {
        good &= *byte >= 0x21 && *byte <= 0x7e;
    }
    good
}

/// Writes a text without escapes in lower case, in its own memory.
#[tactic(auto, using(crate::proofs::GraphicLemmas::graphic_rules))]
fn lowered(text: Vec<u8>) -> String
    requires { list_all is_graphic text.items ≡ true }
    ensures { string_bytes result ≡ folded text.items }
{
    let mut key = unsafe { String::from_utf8_unchecked(text) };
    key.make_ascii_lowercase();
    key
}

fn escaped(alloc: Global, bytes: &[u8]) -> Result<String, AllocError>
    ensures { IfOk result (λ text. string_bytes text ≡ folded bytes.now) }
{
    let mut text = String::with_capacity(alloc, bytes.len())?;
    for byte in bytes {
        push_folded(&mut text, *byte)?;
    }
    Ok(text)
}

/// Returns the key of a key text that has escapes.
fn escaped_key(alloc: Global, text: &[u8]) -> Result<String, AllocError>
    ensures value { IfOk result (λ key. string_bytes key ≡ folded text.now) }
    ensures key { IfOk result (λ key. 0 < length text.now → is_key (string_bytes key) ≡ true) }
{
    escaped(alloc, text)
}

/// Returns the key of a key text. Most have no escapes.
#[tactic(auto, using(crate::proofs::FoldedKey::graphic_is_key))]
fn key_from(alloc: Global, text: Vec<u8>) -> Result<String, AllocError>
    ensures value { IfOk result (λ key. string_bytes key ≡ folded text.items) }
    ensures key { IfOk result (λ key. 0 < length text.items → is_key (string_bytes key) ≡ true) }
{
    if is_graphic(&text) {
        Ok(lowered(text))
    } else {
        escaped_key(alloc, &text)
    }
}

/// Returns the key of a target that is no web URL.
fn target_key(alloc: Global, target: &str) -> Result<String, AllocError>
    ensures value { IfOk result (λ key. string_bytes key ≡ folded target.now) }
    ensures key { IfOk result (λ key. 0 < length target.now → is_key (string_bytes key) ≡ true) }
{
    key_from(alloc, Vec::from_slice(alloc, target.as_bytes())?)
}

/// Returns the key of a URL that the parser leaves as it is.
fn plain_key(alloc: Global, url: PlainUrl<'_>, room: usize) -> Result<String, AllocError>
    ensures value { IfOk result (λ key. string_bytes key
        ≡ folded (plain_key_text url.entry.host.now url.entry.tail.now)) }
    ensures key { IfOk result (λ key. is_key (string_bytes key) ≡ true) }
{
    let mut text = domain_text(alloc, url.host.as_bytes(), room)?;
    text.push(b')')?;
    text.extend_from_slice(url.tail.as_bytes())?;
    key_from(alloc, text)
}

fn is_web(url: &Url) -> bool
    ensures { result ≡ is_web url.now }
{
    url.scheme() == "http" || url.scheme() == "https"
}

fn push_port(text: &mut Vec<u8>, port: Option<u16>) -> Result<(), AllocError>
    ensures { IfOk result (λ _. text.new.items ≡ text.old.items ++ port_text port) }
{
    if let Some(number) = port {
        text.push(b':')?;
        text.extend_from_slice(Buffer::new().format(number).as_bytes())?;
    }
    Ok(())
}

fn push_query(text: &mut Vec<u8>, query: Option<&str>) -> Result<(), AllocError>
    ensures { IfOk result (λ _. text.new.items
        ≡ text.old.items ++ query_text (option_copied query.entry)) }
{
    match query {
        Some(query) if !query.is_empty() => {
            text.push(b'?')?;
            text.extend_from_slice(query.as_bytes())
        }
        _ => Ok(()),
    }
}

fn web_text(alloc: Global, url: &Url) -> Result<Vec<u8>, AllocError>
    ensures { IfOk result (λ text. text.items ≡ web_text url.now) }
{
    let mut text = host_text(alloc, url)?;
    push_port(&mut text, url.port())?;
    text.push(b')')?;
    text.extend_from_slice(url.path().as_bytes())?;
    push_query(&mut text, url.query())?;
    Ok(text)
}

/// Returns the key of a target that the URL parser read as this URL, as `url_key` does.
/// Errors are those of `url_key`.
#[tactic(auto, using(crate::proofs::FoldedKey::web_text_is_filled), unfolding(crate::specs::Key::key_of))]
pub fn parsed_url_key(alloc: Global, url: &Url, target: &str) -> Result<String, AllocError>
    ensures value { IfOk result (λ key. string_bytes key
        ≡ folded (key_text (Ok url.now) target.now)) }
    ensures parsed { parse_url None target.now ≡ Ok url.now
        → IfOk result (λ key. string_bytes key ≡ key_of target.now) }
    ensures key { IfOk result (λ key. 0 < length target.now → is_key (string_bytes key) ≡ true) }
{
    if is_web(url) {
        key_from(alloc, web_text(alloc, url)?)
    } else {
        target_key(alloc, target)
    }
}

/// Returns the key of a target. The key of a web URL, as the URL Standard parses it, is the host
/// text, `:` and the port unless it is the scheme's default port, `)`, the path, and `?` and the
/// query unless it is empty. The key of any other target is the target itself. ASCII letters are
/// written in lower case, and bytes outside 0x21 to 0x7E as `%` and two hexadecimal digits. The key
/// of a target that isn't empty is valid as the key of a line.
///
/// Returns `TooLong` only if the URL parser has no room for the URL.
pub fn url_key(alloc: Global, target: &str) -> Result<String, KeyFault>
    ensures value { IfOk result (λ key. string_bytes key ≡ key_of target.now) }
    ensures key { IfOk result (λ key. 0 < length target.now → is_key (string_bytes key) ≡ true) }
{
    url_key_with_room(alloc, target, ROOM)
}

/// Like `url_key`. In most cases, the key's memory is this many bytes.
#[tactic(auto, using(crate::proofs::PlainKeys::plain_key_of))]
pub fn url_key_with_room(alloc: Global, target: &str, room: usize) -> Result<String, KeyFault>
    ensures value { IfOk result (λ key. string_bytes key ≡ key_of target.now) }
    ensures key { IfOk result (λ key. 0 < length target.now → is_key (string_bytes key) ≡ true) }
{
    match plain_url(target) {
        Some(url) => Ok(plain_key(alloc, url, room)?),
        None => any_url_key(alloc, target),
    }
}

/// Returns the key of a target, as the URL parser reads it.
#[tactic(auto, unfolding(crate::specs::Key::key_of))]
fn any_url_key(alloc: Global, target: &str) -> Result<String, KeyFault>
    ensures value { IfOk result (λ key. string_bytes key ≡ key_of target.now) }
    ensures key { IfOk result (λ key. 0 < length target.now → is_key (string_bytes key) ≡ true) }
{
    match Url::parse(alloc, target) {
        Ok(url) => Ok(parsed_url_key(alloc, &url, target)?),
        Err(ParseError::OutOfMemory) => Err(KeyFault::Memory),
        Err(ParseError::Overflow) => Err(KeyFault::TooLong),
        Err(_) => Ok(target_key(alloc, target)?),
    }
}

/// Returns the host text of a target's key, in lower case, if the target is a web URL. Errors are
/// those of `url_key`.
#[tactic(auto, unfolding(crate::specs::Key::host_key_of))]
pub fn host_key(alloc: Global, target: &str) -> Result<Option<String>, KeyFault>
    ensures { IfOk result (λ host. option_map string_bytes host ≡ host_key_of target.now) }
{
    match Url::parse(alloc, target) {
        Ok(url) => {
            if is_web(&url) {
                let text = host_text(alloc, &url)?;
                Ok(Some(key_from(alloc, text)?))
            } else {
                Ok(None)
            }
        }
        Err(ParseError::OutOfMemory) => Err(KeyFault::Memory),
        Err(ParseError::Overflow) => Err(KeyFault::TooLong),
        Err(_) => Ok(None),
    }
}
