//! Web URLs that the URL parser leaves as they are.
ghost use Rattle.std.specs.Prelude.{◌≡◌, ◌<◌, ◌+◌, ◌++◌, ℕ, drop, false, length, slice_index, true, zip, IfSome};
ghost use Rattle.std.specs.Char.{is_ascii_lowercase};
ghost use Rattle.std.specs.List.{list_all};
ghost use Rattle.url.specs.Ipv4.{last_label};
ghost use Rattle.cdxj_keys.specs.PlainUrls.{begins_plain, is_domain_byte, is_path_byte, is_plain_byte, is_usual_byte, HasInnerDots, IsBehindScheme, IsPlainHost, IsPlainPath, IsPlainQuery, IsPlainTail, IsPlainUrl};

use memchr::{memchr, memrchr};

/// A web URL that the URL parser leaves as it is.
#[derive(Copy, Clone)]
pub(crate) struct PlainUrl<'a> {
    pub host: &'a str,
    /// The path, and `?` and the query if there is one.
    pub tail: &'a str,
}

fn has_domain_bytes(host: &[u8]) -> bool
    ensures { result ≡ list_all is_domain_byte host.now }
{
    host.iter().all(|byte| {
        byte.is_ascii_lowercase() || byte.is_ascii_digit() || *byte == b'-' || *byte == b'.'
    })
}

/// Returns what follows the last dot, or the whole host if there is none.
#[tactic(auto, using(crate::proofs::PlainHosts::label_rules))]
fn last_label(host: &[u8]) -> &[u8]
    ensures { 0 < length result.now → result.now ≡ last_label host.now }
{
    match memrchr(b'.', host) {
        Some(dot) => &host[dot + 1..],
        None => host,
    }
}

fn has_plain_label(host: &[u8]) -> bool
    ensures { result ≡ true → is_ascii_lowercase (slice_index (last_label host.now) 0) ≡ true }
{
    match last_label(host) {
        [first, ..] => first.is_ascii_lowercase(),
        [] => false,
    }
}

fn is_plain_host(host: &[u8]) -> bool
    ensures { result ≡ true → IsPlainHost host.now }
{
    has_domain_bytes(host) && has_plain_label(host)
}

/// Returns `true` if the byte stays as it is in a query. Most bytes are in one of two ranges, which is the faster test.
fn is_plain_byte(byte: u8) -> bool
    ensures { result ≡ is_plain_byte byte }
{
    matches!(byte, b'a'..=b'z' | b'-'..=b'9')
        || byte.is_ascii_graphic()
            && !matches!(
                byte,
                b'"' | b'#' | b'\'' | b'<' | b'>' | b'\\' | b'^' | b'`' | b'{' | b'}'
            )
}

/// Returns `true` if a query escapes none of these bytes.
fn has_plain_bytes(bytes: &[u8]) -> bool
    ensures { result ≡ list_all is_plain_byte bytes.now }
{
    bytes.iter().all(|byte| is_plain_byte(*byte))
}

/// Returns `true` if a path escapes none of these bytes and ends at none.
fn has_path_bytes(path: &[u8]) -> bool
    ensures { result ≡ list_all is_path_byte path.now }
{
    path.iter()
        .all(|byte| is_plain_byte(*byte) && *byte != b'?')
}

fn each_begins_plain(path: &[u8], later: &[u8]) -> bool
    ensures { result ≡ list_all (λ p. begins_plain p.0 p.1) (zip path.now later.now) }
{
    path.iter().zip(later).all(|(before, byte)| !(*before == b'/'
        && (*byte == b'.' || *byte == b'%')))
}

/// Returns `true` if no segment begins with `.` or `%`.
fn has_plain_segments(path: &[u8]) -> bool
    ensures { result ≡ list_all (λ p. begins_plain p.0 p.1) (zip path.now (drop 1 path.now)) }
{
    match path {
        [_, later @ ..] => each_begins_plain(path, later),
        [] => true,
    }
}

fn is_plain_path(path: &[u8]) -> bool
    ensures { result ≡ true → IsPlainPath path.now }
{
    has_path_bytes(path) && has_plain_segments(path)
}

fn is_plain_query(query: &[u8]) -> bool
    ensures { result ≡ true → IsPlainQuery query.now }
{
    !query.is_empty() && has_plain_bytes(query)
}

/// Returns `true` if the path, and the query that follows it if there is one, are left as they are.
#[tactic(auto, using(crate::proofs::PlainTails::path_alone))]
fn is_plain_tail(tail: &[u8]) -> bool
    requires { slice_index tail.now 0 ≡ 47 }
    ensures { result ≡ true → IsPlainTail tail.now }
{
    match memchr(b'?', tail) {
        Some(at) => is_plain_path(&tail[..at]) && is_plain_query(&tail[at + 1..]),
        None => is_plain_path(tail),
    }
}

fn is_usual_byte(byte: u8) -> bool
    ensures { result ≡ is_usual_byte byte }
{
    matches!(byte, b'a'..=b'z' | b'-'..=b'9')
}

/// Returns `true` if each byte is usual. It is one pass without an early exit, which compiles to vector tests.
fn has_usual_bytes(text: &[u8]) -> bool
    ensures { result ≡ list_all is_usual_byte text.now }
{
    let mut good = true;
    for byte in text {
        good &= is_usual_byte(*byte);
    }
    good
}

/// Returns `true` if the byte before this one is `/`.
fn follows_slash(path: &[u8], at: usize) -> bool
    requires { at < length path.now }
    ensures { result ≡ false → (k : ℕ) → k + 1 ≡ at → slice_index path.now k ≡ 47 → ⊥ }
{
    at > 0 && path[at - 1] == b'/'
}

/// Returns `true` if no `.` follows a `/`.
fn has_inner_dots(path: &[u8]) -> bool
    ensures { result ≡ true → HasInnerDots path.now (length path.now) }
{
    let mut at = 0;
    'dots: while let Some(dot) = memchr(b'.', &path[at..]) {
        if follows_slash(path, at + dot) {
            return false;
        }
        at += dot + 1;
    }
    true
}

/// Returns `true` for most texts that are a host and a path, if the URL parser leaves them as they are.
fn is_usual(rest: &[u8], host: &[u8], tail: &[u8]) -> bool
    requires whole { rest.now ≡ host.now ++ tail.now }
    requires host { (k : ℕ) → k < length host.now → slice_index host.now k ≡ 47 → ⊥ }
    requires tail { slice_index tail.now 0 ≡ 47 }
    ensures host { result ≡ true → IsPlainHost host.now }
    ensures tail { result ≡ true → IsPlainTail tail.now }
{
    if !has_usual_bytes(rest) {
        return false;
    }
    has_plain_label(host) && has_inner_dots(tail)
}

/// Returns the text behind the scheme and `://`, if the target is a web URL.
fn without_scheme(target: &str) -> Option<&str>
    ensures { IfSome result (λ rest. IsBehindScheme target.now rest.now) }
{
    match target.strip_prefix("http://") {
        Some(rest) => Some(rest),
        None => target.strip_prefix("https://"),
    }
}

/// Returns the host of the target, and the path and query that follow it, if the URL parser leaves
/// the target as it is. It may decline any target.
pub(crate) fn plain_url(target: &str) -> Option<PlainUrl<'_>>
    ensures { IfSome result (λ url. IsPlainUrl target.now url.host.now url.tail.now) }
{
    let rest = without_scheme(target)?;
    let slash = memchr(b'/', rest.as_bytes())?;
    let (host, tail) = rest.split_at_checked(slash)?;
    if is_usual(rest.as_bytes(), host.as_bytes(), tail.as_bytes())
        || is_plain_host(host.as_bytes()) && is_plain_tail(tail.as_bytes())
    {
        Some(PlainUrl { host, tail })
    } else {
        None
    }
}
