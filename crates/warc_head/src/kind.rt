//! The type of a record.
ghost use Rattle.std.specs.Prelude.{◌≡◌};
ghost use Rattle.warc_head.specs.Kind.{kind_of};

use crate::names::is_spelled;

/// The type of a record (ISO 28500:2017, clause 6). `Other` is a type that the standard doesn't name.
#[derive(Clone, Copy, Debug, PartialEq, Eq)]
pub enum Kind {
    /// What follows in the file, and how it was made.
    Warcinfo,
    /// What a server sent, as it was received.
    Response,
    /// A resource without the protocol that brought it.
    Resource,
    /// What was sent to a server.
    Request,
    /// What further describes another record.
    Metadata,
    /// A visit whose content another record has.
    Revisit,
    /// Another form of another record's content.
    Conversion,
    /// A further segment of a record.
    Continuation,
    /// Any other type.
    Other,
}

impl Kind {
    ghost use Rattle.warc_head.specs.Kind.{kind_name};

    /// Returns the type's name in lower case, as `WARC-Type` spells it, or `other` for `Other`.
    pub fn name(self) -> &'static str
        ensures { result.now ≡ kind_name self }
    {
        match self {
            Kind::Warcinfo => "warcinfo",
            Kind::Response => "response",
            Kind::Resource => "resource",
            Kind::Request => "request",
            Kind::Metadata => "metadata",
            Kind::Revisit => "revisit",
            Kind::Conversion => "conversion",
            Kind::Continuation => "continuation",
            Kind::Other => "other",
        }
    }
}

/// Returns the type that a value names.
#[tactic(auto, unfolding(crate::specs::Kind::kind_of))]
pub fn kind_of(value: &[u8]) -> Kind
    ensures { result ≡ kind_of value.now }
{
    if is_spelled(value, b"warcinfo") {
        Kind::Warcinfo
    } else if is_spelled(value, b"response") {
        Kind::Response
    } else if is_spelled(value, b"resource") {
        Kind::Resource
    } else if is_spelled(value, b"request") {
        Kind::Request
    } else if is_spelled(value, b"metadata") {
        Kind::Metadata
    } else if is_spelled(value, b"revisit") {
        Kind::Revisit
    } else if is_spelled(value, b"conversion") {
        Kind::Conversion
    } else if is_spelled(value, b"continuation") {
        Kind::Continuation
    } else {
        Kind::Other
    }
}
