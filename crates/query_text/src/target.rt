//! Targets: the keys that a query matches.
ghost use Rattle.std.specs.Prelude.{◌≡◌, ◌≤◌, IsTrue, length, string_bytes};
ghost use Rattle.query_text.specs.Readings.{IsReading};
ghost use Rattle.query_text.specs.Targets.{match_kind_of, star_cut};
ghost use Rattle.query_text.specs.Matching.{may_follow};

use crate::address::{address_host, address_key, web_address};
use crate::fault::QueryFault;
use std::alloc::Global;
use std::marker::Model;

/// The keys that a target matches.
#[derive(Clone, Copy, Debug, Drop, PartialEq, Eq)]
pub enum MatchKind {
    /// The target alone.
    Exact,
    /// The keys that begin with the target.
    Prefix,
    /// The keys of a host, at any port.
    Host,
    /// The keys of a host and its subdomains, at any port.
    Domain,
}

/// Reads the name of a match type. The error is `BadMatch` if there is none of that name.
pub(crate) fn read_kind(name: &str) -> Result<MatchKind, QueryFault>
    ensures { IsReading (match_kind_of name.now) result }
{
    match name {
        "exact" => Ok(MatchKind::Exact),
        "prefix" => Ok(MatchKind::Prefix),
        "host" => Ok(MatchKind::Host),
        "domain" => Ok(MatchKind::Domain),
        _ => Err(QueryFault::BadMatch),
    }
}

/// The keys that a query matches. They form part of one range of keys: none is below the target's text, and none is
/// above a key that is past the range.
#[derive(Debug, Drop)]
pub struct Target {
    kind: MatchKind,
    text: String,
}

impl Model for Target {
    ghost use Rattle.std.specs.Prelude.{string_bytes};
    ghost use Rattle.query_text.specs.Targets.{TargetValue};

    ghost Value = { TargetValue };

    ghost view = { λ t. record { kind = t.kind; text = string_bytes t.text } };
}

/// Returns the match type that the stars in a text stand for, and the text without them.
fn cut_star(text: &str) -> (MatchKind, &str)
    ensures { (result.0, result.1.now) ≡ star_cut text.now }
{
    if let Some(domain) = text.strip_prefix("*.") {
        return (MatchKind::Domain, domain);
    }
    match text.strip_suffix('*') {
        Some(front) => (MatchKind::Prefix, front),
        None => (MatchKind::Exact, text),
    }
}

/// Returns `true` if these bytes may follow the target in a key that begins with it.
fn may_follow(kind: MatchKind, rest: &[u8]) -> bool
    ensures { result ≡ may_follow kind rest.now }
{
    match kind {
        MatchKind::Exact | MatchKind::Prefix => true,
        MatchKind::Host => matches!(rest, [b')' | b':', ..]),
        MatchKind::Domain => matches!(rest, [b')' | b',' | b':', ..]),
    }
}

impl Target {
    ghost use Rattle.query_text.specs.Targets.{url_target};
    ghost use Rattle.query_text.specs.Matching.{covers, key_matches, is_past};

    /// Returns the target of a `url`, with this match type if one was given.
    pub(crate) fn of_url(
        alloc: Global,
        url: &str,
        kind: Option<MatchKind>,
    ) -> Result<Target, QueryFault>
        ensures { IsReading (url_target url.now kind) result }
    {
        let (kind, text) = match kind {
            Some(kind) => (kind, url),
            None => cut_star(url),
        };
        let address = web_address(alloc, text)?;
        let text = match kind {
            MatchKind::Exact | MatchKind::Prefix => address_key(alloc, address.as_str())?,
            MatchKind::Host | MatchKind::Domain => address_host(alloc, address.as_str())?,
        };
        Ok(Target { kind, text })
    }

    /// Returns the target of a `key`, which is taken as it is.
    pub(crate) fn of_key(key: String, kind: MatchKind) -> Target
        ensures { result ≡ record { kind = kind; text = string_bytes key } }
    {
        Target { kind, text: key }
    }

    /// Returns the match type.
    pub fn kind(&self) -> MatchKind
        ensures { result ≡ self.now.kind }
    {
        self.kind
    }

    /// Returns the key, or the bytes that a key begins with. The target's range begins there.
    pub fn text(&self) -> &str
        ensures { result.now ≡ self.now.text }
    {
        self.text.as_str()
    }

    /// Returns `true` if the key is in the target's range. For an exact match it must be the target; for any other it
    /// must begin with the target.
    pub fn covers(&self, key: &str) -> bool
        ensures value { result ≡ covers self.now key.now }
        ensures long { IsTrue result → length self.now.text ≤ length key.now }
    {
        match self.kind {
            MatchKind::Exact => key == self.text.as_str(),
            _ => key.as_bytes().starts_with(self.text.as_bytes()),
        }
    }

    /// Returns `true` if the target matches the key.
    pub fn matches(&self, key: &str) -> bool
        ensures { result ≡ key_matches self.now key.now }
    {
        self.covers(key) && may_follow(self.kind, &key.as_bytes()[self.text.len()..])
    }

    /// Returns `true` if the key is past the target's range. Then each key above it is past the range too.
    pub fn is_past(&self, key: &str) -> bool
        ensures { result ≡ is_past self.now key.now }
    {
        !self.covers(key) && key > self.text.as_str()
    }
}
