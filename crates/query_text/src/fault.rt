//! Why a query text is rejected.
ghost use Rattle.std.specs.Prelude.{◌≡◌};

use cdxj_core::KeyFault;
use std::alloc::AllocError;
use std::error::Error;
use std::fmt;

/// Why a query text is rejected.
#[derive(Clone, Copy, Debug, Drop, PartialEq, Eq)]
pub enum QueryFault {
    /// Memory could not be allocated, or the URL parser has no room for the URL.
    Memory,
    /// No parameter has this name.
    Unknown,
    /// A parameter that may occur once is given twice.
    RepeatedParameter,
    /// The match type is none of `exact`, `prefix`, `host` and `domain`.
    BadMatch,
    /// A bound of the stamps is not 1 to 14 digits.
    BadStamp,
    /// A filter has no colon, or no field has the name before it.
    BadFilter,
    /// The text of `filter` contains a sign that patterns use.
    NotLiteral,
    /// The limit is not a number from 1 to 1,000,000, in at most 7 digits.
    BadLimit,
    /// The resume key does not name a place.
    BadResume,
    /// No field has a name that `fl` lists.
    BadField,
    /// The output is none of `text`, `json` and `cdxj`.
    BadOutput,
    /// A flag is neither `true` nor `false`.
    BadFlag,
    /// The text has neither `url` nor `key`.
    NoUrl,
    /// The text has both `url` and `key`.
    UrlAndKey,
    /// The URL Standard has no URL for the target, or the target has no host.
    BadUrl,
    /// The text has more than `QUERY_LIMIT` bytes.
    QueryTooLong,
    /// The captures can't be collapsed by this value.
    BadCollapse,
}

impl fmt::Display for QueryFault {
    fn fmt<W: fmt::Write>(&self, f: &mut fmt::Formatter<W>) -> fmt::Result {
        f.write_str(self.message())
    }
}

impl Error for QueryFault {}

impl From<AllocError> for QueryFault {
    ghost use Rattle.query_text.specs.declared.fault.QueryFault.TheVariants.{Memory};

    ghost from_gives = { λ _ fault. fault ≡ Memory };

    fn from(_refused: AllocError) -> QueryFault {
        QueryFault::Memory
    }
}

impl From<KeyFault> for QueryFault {
    ghost use Rattle.query_text.specs.declared.fault.QueryFault.TheVariants.{Memory};

    ghost from_gives = { λ _ fault. fault ≡ Memory };

    fn from(_fault: KeyFault) -> QueryFault {
        QueryFault::Memory
    }
}

impl QueryFault {
    ghost use Rattle.query_text.specs.FaultNames.{query_fault_name};

    /// Returns the fault's name, as replies write it.
    pub fn name(self) -> &'static str
        ensures { result.now ≡ query_fault_name self }
    {
        match self {
            QueryFault::Memory => "Memory",
            QueryFault::Unknown => "Unknown",
            QueryFault::RepeatedParameter => "RepeatedParameter",
            QueryFault::BadMatch => "BadMatch",
            QueryFault::BadStamp => "BadStamp",
            QueryFault::BadFilter => "BadFilter",
            QueryFault::NotLiteral => "NotLiteral",
            QueryFault::BadLimit => "BadLimit",
            QueryFault::BadResume => "BadResume",
            QueryFault::BadField => "BadField",
            QueryFault::BadOutput => "BadOutput",
            QueryFault::BadFlag => "BadFlag",
            QueryFault::NoUrl => "NoUrl",
            QueryFault::UrlAndKey => "UrlAndKey",
            QueryFault::BadUrl => "BadUrl",
            QueryFault::QueryTooLong => "QueryTooLong",
            QueryFault::BadCollapse => "BadCollapse",
        }
    }

    fn message(self) -> &'static str {
        match self {
            QueryFault::Memory => "memory",
            QueryFault::Unknown => "unknown parameter",
            QueryFault::RepeatedParameter => "repeated parameter",
            QueryFault::BadMatch => "bad match type",
            QueryFault::BadStamp => "bad stamp",
            QueryFault::BadFilter => "bad filter",
            QueryFault::NotLiteral => "filter is a pattern",
            QueryFault::BadLimit => "bad limit",
            QueryFault::BadResume => "bad resume key",
            QueryFault::BadField => "bad field",
            QueryFault::BadOutput => "bad output",
            QueryFault::BadFlag => "bad flag",
            QueryFault::NoUrl => "neither url nor key",
            QueryFault::UrlAndKey => "both url and key",
            QueryFault::BadUrl => "bad URL",
            QueryFault::QueryTooLong => "query too long",
            QueryFault::BadCollapse => "bad collapse",
        }
    }
}
