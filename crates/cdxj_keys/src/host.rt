//! The host text of a key: a domain's labels reversed, or an address as URLs write it.
ghost use Rattle.std.specs.Prelude.{◌≡◌, ◌==◌, ◌++◌, reverse, IfOk};
ghost use Rattle.std.specs.List.{slice_split, join_with_byte};
ghost use Rattle.std.specs.Io.BufRead.{strip_last};
ghost use Rattle.url.specs.Parts.{host_or_empty};
ghost use Rattle.cdxj_keys.specs.Key.{is_www, drop_www, domain_text, key_host};

use cdxj_places::has_digits;
use memchr::{memchr, memrchr};
use std::alloc::{AllocError, Global};
use url::Url;

// Room for most keys before they are folded: a key's text goes on after its host.
pub(crate) const ROOM: usize = 192;

fn is_www(label: &[u8]) -> bool
    ensures { result ≡ is_www label.now }
{
    match label {
        [b'w', b'w', b'w', digits @ ..] => has_digits(digits),
        _ => false,
    }
}

fn without_last_dot(domain: &[u8]) -> &[u8]
    ensures { result.now ≡ strip_last 46 domain.now }
{
    match domain {
        [rest @ .., b'.'] => rest,
        _ => domain,
    }
}

#[tactic(auto, using(crate::proofs::Labels::www_rules))]
fn without_www(domain: &[u8]) -> &[u8]
    ensures { slice_split (λ b. b == 46) result.now
        ≡ drop_www (slice_split (λ b. b == 46) domain.now) }
{
    let Some(dot) = memchr(b'.', domain) else {
        return domain;
    };
    if is_www(&domain[..dot]) {
        &domain[dot + 1..]
    } else {
        domain
    }
}

/// Appends the domain's labels, last first, with `,` between them.
#[tactic(auto, using(crate::proofs::Labels::reversed_rules))]
fn push_reversed(text: &mut Vec<u8>, domain: &[u8]) -> Result<(), AllocError>
    ensures { IfOk result (λ _. text.new.items
        ≡ text.old.items ++ join_with_byte 44 (reverse (slice_split (λ b. b == 46) domain.now))) }
{
    let mut rest = domain;
    while let Some(dot) = memrchr(b'.', rest) {
        text.extend_from_slice(&rest[dot + 1..])?;
        text.push(b',')?;
        rest = &rest[..dot];
    }
    text.extend_from_slice(rest)
}

#[tactic(auto, using(crate::proofs::Labels::domain_text_is))]
fn push_domain(text: &mut Vec<u8>, domain: &[u8]) -> Result<(), AllocError>
    ensures { IfOk result (λ _. text.new.items ≡ text.old.items ++ domain_text domain.now) }
{
    push_reversed(text, without_www(without_last_dot(domain)))
}

/// Returns the text of a domain, in memory of this many bytes if it has no more.
pub(crate) fn domain_text(alloc: Global, domain: &[u8], room: usize) -> Result<Vec<u8>, AllocError>
    ensures { IfOk result (λ text. text.items ≡ domain_text domain.now) }
{
    let mut text = Vec::with_capacity(alloc, room)?;
    push_domain(&mut text, domain)?;
    Ok(text)
}

/// Returns the host text, which is empty if the URL has no host.
pub(crate) fn host_text(alloc: Global, url: &Url) -> Result<Vec<u8>, AllocError>
    ensures { IfOk result (λ text. text.items ≡ key_host (host_or_empty url.now)) }
{
    let mut text = Vec::with_capacity(alloc, ROOM)?;
    if let Some(domain) = url.domain() {
        push_domain(&mut text, domain.as_bytes())?;
    } else if let Some(address) = url.host_str() {
        text.extend_from_slice(address.as_bytes())?;
    }
    Ok(text)
}
