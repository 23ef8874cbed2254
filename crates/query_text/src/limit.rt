//! The maximum number of captures on a page.
ghost use Rattle.std.specs.Prelude.{◌<◌, ◌≤◌, IfOk};
ghost use Rattle.query_text.specs.Readings.{IsReading};
ghost use Rattle.query_text.specs.Values.{limit_of};

use crate::fault::QueryFault;
use crate::parts::is_number;
use std::marker::Model;

/// The maximum number of captures on a page, 1 to 1,000,000.
#[derive(Debug, Drop)]
pub(crate) struct Limit {
    captures: u64,
}

impl Model for Limit {
    ghost use Rattle.std.specs.Prelude.{ℕ, ◌<◌, ◌≤◌};

    ghost Value = { ℕ };

    ghost view = { λ l. l.captures };

    ghost invariant = { λ l. (0 < l.captures) × (l.captures ≤ 1000000) };
}

#[tactic(auto, using(crate::proofs::Limits::limit_parsed))]
fn read_number(text: &str) -> Result<u64, QueryFault>
    ensures value { IsReading (limit_of text.now) result }
    ensures bounds { IfOk result (λ n. (0 < n) × (n ≤ 1000000)) }
{
    if !is_number(text, 7) {
        return Err(QueryFault::BadLimit);
    }
    match text.parse::<u64>() {
        Ok(number) if number > 0 && number <= 1_000_000 => Ok(number),
        _ => Err(QueryFault::BadLimit),
    }
}

impl Limit {
    ghost use Rattle.std.specs.Prelude.{◌≡◌, ◌<◌, ◌≤◌};

    /// Reads a limit. The error is `BadLimit` unless the text is 1 to 7 digits with a value from 1
    /// to 1,000,000.
    pub(crate) fn read(text: &str) -> Result<Limit, QueryFault>
        ensures { IsReading (limit_of text.now) result }
    {
        let captures = read_number(text)?;
        Ok(Limit { captures })
    }

    pub(crate) fn captures(&self) -> u64
        ensures value { result ≡ self.now }
        ensures some { 0 < result }
        ensures most { result ≤ 1000000 }
    {
        self.captures
    }
}
