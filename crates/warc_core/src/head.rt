//! The head of a record.
ghost use Rattle.std.specs.Prelude.{◌≡◌};

use std::fmt;
use std::marker::Model;
use warc_head::{HeadMemory, Kind, Parts};

/// A record's head, with the record's offset in its archive.
#[derive(Drop)]
pub struct Head {
    start: u64,
    parts: Parts,
}

impl fmt::Debug for Head {
    fn fmt<W: fmt::Write>(&self, f: &mut fmt::Formatter<W>) -> fmt::Result {
        f.debug_struct("Head")
            .field("start", &self.start)
            .finish_non_exhaustive()
    }
}

impl Model for Head {
    ghost use Rattle.warc_core.specs.declared.next.TheConstants.{HEAD_LIMIT};
    ghost use Rattle.warc_core.specs.HeadView.{HeadView, head_view};
    ghost use Rattle.warc_core.specs.RecordText.{IsHead};

    ghost Value = { HeadView };

    ghost view = { λ h. head_view h.start h.parts };

    ghost invariant = { λ h. IsHead HEAD_LIMIT (head_view h.start h.parts) };
}

impl Head {
    ghost use Rattle.std.specs.Prelude.{MatchOption, None, Some, true};
    ghost use Rattle.warc_head.specs.Fields.{value_of};
    ghost use Rattle.warc_head.specs.Length.{all_digits};
    ghost use Rattle.warc_core.specs.declared.next.TheConstants.{HEAD_LIMIT};
    ghost use Rattle.warc_core.specs.HeadView.{head_view, record_length, IsWithinOffsets};
    ghost use Rattle.warc_core.specs.RecordText.{IsHead};

    pub(crate) fn from_parts(start: u64, parts: Parts) -> Head
        requires { IsHead HEAD_LIMIT (head_view start parts) }
        ensures { result ≡ head_view start parts }
    {
        Head { start, parts }
    }

    pub(crate) fn into_memory(self) -> HeadMemory {
        self.parts.into_memory()
    }

    /// Returns the offset of the record, in bytes from the archive's start.
    pub fn start(&self) -> u64
        ensures { result ≡ self.now.start }
    {
        self.start
    }

    /// Returns the record's type (ISO 28500:2017, WARC-Type).
    pub fn kind(&self) -> Kind
        ensures { result ≡ self.now.parts.kind }
    {
        self.parts.kind()
    }

    /// Returns the length of the block in bytes (ISO 28500:2017, Content-Length).
    pub fn length(&self) -> u64
        ensures { result ≡ self.now.parts.block_length }
    {
        self.parts.length()
    }

    /// Returns the length of the whole record in bytes: its head, its block and the closing.
    pub fn record_length(&self) -> u64
        ensures value { result ≡ record_length self.now }
        ensures within { IsWithinOffsets self.now }
    {
        self.raw().len() as u64 + self.parts.length() + 4
    }

    /// Returns the time at which the record was made, as 14 digits (ISO 28500:2017, WARC-Date).
    pub fn stamp(&self) -> [u8; 14]
        ensures value { result ≡ self.now.parts.stamp }
        ensures digits { all_digits result ≡ true }
    {
        self.parts.stamp()
    }

    /// Returns the value of the first field of this name, ignoring ASCII case.
    pub fn field(&self, name: &[u8]) -> Option<&[u8]>
        ensures { MatchOption result
            (value_of name.now self.now.parts.fields ≡ None)
            (λ v. value_of name.now self.now.parts.fields ≡ Some v.now) }
    {
        self.parts.field(name)
    }

    /// Returns the head as it is stored, from the version line to the empty line.
    pub fn raw(&self) -> &[u8]
        ensures value { result.now ≡ self.now.raw }
        ensures said { IsHead HEAD_LIMIT self.now }
    {
        self.parts.raw()
    }
}
