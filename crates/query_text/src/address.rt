//! Addresses of web pages, as a query's `url` writes them.
ghost use Rattle.std.specs.Prelude.{◌≡◌, IfOk, string_bytes};
ghost use Rattle.std.specs.Cow.{cow_str_bytes};
ghost use Rattle.std.specs.List.{list_all};
ghost use Rattle.query_text.specs.Readings.{IsReadingBy};
ghost use Rattle.query_text.specs.Targets.{is_scheme_byte, has_scheme, web_address, address_key, address_host};

use crate::fault::QueryFault;
use cdxj_core::{host_key, parsed_url_key};
use std::alloc::{AllocError, Global};
use std::borrow::CowStr;
use url::{ParseError, Url};

fn are_scheme_bytes(bytes: &[u8]) -> bool
    ensures { result ≡ list_all is_scheme_byte bytes.now }
{
    bytes.iter().all(|byte| byte.is_ascii_alphanumeric() || matches!(byte, b'+' | b'-' | b'.'))
}

/// Returns `true` if the text begins with a letter, then letters, digits, `+`, `-` or `.`, then
/// `://`.
fn has_scheme(text: &str) -> bool
    ensures { result ≡ has_scheme text.now }
{
    let Some((scheme, rest)) = text.split_once(':') else {
        return false;
    };
    matches!(scheme.as_bytes(), [first, ..] if first.is_ascii_alphabetic())
        && are_scheme_bytes(scheme.as_bytes())
        && rest.as_bytes().starts_with(b"//")
}

/// Returns the text as an address, with `http://` before it if it has no scheme.
pub(crate) fn web_address(alloc: Global, text: &str) -> Result<CowStr<'_>, AllocError>
    ensures { IfOk result (λ address. cow_str_bytes address ≡ web_address text.now) }
{
    if has_scheme(text) {
        return Ok(CowStr::Borrowed(text));
    }
    let mut address = String::new(alloc);
    address.push_str("http://")?;
    address.push_str(text)?;
    Ok(CowStr::Owned(address))
}

/// Returns the key of an address. The error is `BadUrl` if the URL parser rejects the address.
pub(crate) fn address_key(alloc: Global, address: &str) -> Result<String, QueryFault>
    ensures { IsReadingBy string_bytes (address_key address.now) result }
{
    match Url::parse(alloc, address) {
        Ok(url) => Ok(parsed_url_key(alloc, &url, address)?),
        Err(ParseError::OutOfMemory | ParseError::Overflow) => Err(QueryFault::Memory),
        Err(_) => Err(QueryFault::BadUrl),
    }
}

/// Returns the host key of an address. The error is `BadUrl` if the address isn't a URL of `http`
/// or `https`.
pub(crate) fn address_host(alloc: Global, address: &str) -> Result<String, QueryFault>
    ensures { IsReadingBy string_bytes (address_host address.now) result }
{
    match host_key(alloc, address)? {
        Some(host) => Ok(host),
        None => Err(QueryFault::BadUrl),
    }
}
