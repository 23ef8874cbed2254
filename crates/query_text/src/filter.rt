//! Filters: conditions on the fields of lines.
ghost use Rattle.std.specs.Prelude.{◌≡◌, string_bytes};
ghost use Rattle.query_text.specs.Readings.{IsReading};
ghost use Rattle.query_text.specs.Filters.{filter_of, literal_of, is_literal, bang_cut, occurs, holds};

use crate::fault::QueryFault;
use cdxj_core::{Field, LineRef, field_named};
use std::alloc::Global;
use std::marker::Model;

/// The test of a filter: whether a value equals a text or not, or contains it or not.
#[derive(Clone, Copy, Debug, Drop)]
pub(crate) enum Test {
    Is,
    IsNot,
    Has,
    HasNot,
}

/// A condition on one field of a line.
#[derive(Debug, Drop)]
pub(crate) struct Filter {
    field: Field,
    test: Test,
    text: String,
}

impl Model for Filter {
    ghost use Rattle.std.specs.Prelude.{string_bytes};
    ghost use Rattle.query_text.specs.Filters.{FilterValue};

    ghost Value = { FilterValue };

    ghost view = { λ f. record { field = f.field; test = f.test; text = string_bytes f.text } };
}

impl Filter {
    /// Reads the filter of `field:text`. The error is `BadFilter` if there is no `:`, or no such
    /// field.
    pub(crate) fn read(alloc: Global, test: Test, condition: &str) -> Result<Filter, QueryFault>
        ensures { IsReading (filter_of test condition.now) result }
    {
        let Some((name, text)) = condition.split_once(':') else {
            return Err(QueryFault::BadFilter);
        };
        let Some(field) = field_named(name) else {
            return Err(QueryFault::BadFilter);
        };
        let text = String::from_str(alloc, text)?;
        Ok(Filter { field, test, text })
    }

    /// Reads the filter of `field:text` or `!field:text`. The error is `BadFilter` as in `read`,
    /// and otherwise `NotLiteral` if the text has a character that patterns use.
    pub(crate) fn read_literal(alloc: Global, condition: &str) -> Result<Filter, QueryFault>
        ensures { IsReading (literal_of condition.now) result }
    {
        let (test, condition) = cut_bang(condition);
        let filter = Filter::read(alloc, test, condition)?;
        if is_literal(filter.text.as_bytes()) {
            Ok(filter)
        } else {
            Err(QueryFault::NotLiteral)
        }
    }

    /// Returns `true` if the line satisfies the filter.
    pub(crate) fn holds(&self, line: &LineRef<'_>) -> bool
        ensures { result ≡ holds line.now.values self.now }
    {
        let value = line.value(self.field);
        let text = self.text.as_str();
        match self.test {
            Test::Is => value == text,
            Test::IsNot => value != text,
            Test::Has => occurs(text, value),
            Test::HasNot => !occurs(text, value),
        }
    }
}

/// Splits off one leading `!`, if there is one.
fn cut_bang(condition: &str) -> (Test, &str)
    ensures { (result.0, result.1.now) ≡ bang_cut condition.now }
{
    match condition.strip_prefix('!') {
        Some(rest) => (Test::IsNot, rest),
        None => (Test::Is, condition),
    }
}

/// Returns `true` if the text has no character that patterns use.
fn is_literal(text: &[u8]) -> bool
    ensures { result ≡ is_literal text.now }
{
    text.iter().all(|byte| {
        !matches!(
            byte,
            b'\\'
                | b'^'
                | b'$'
                | b'.'
                | b'|'
                | b'?'
                | b'*'
                | b'+'
                | b'('
                | b')'
                | b'['
                | b']'
                | b'{'
                | b'}'
        )
    })
}

/// Returns `true` if the text occurs in the value.
fn occurs(text: &str, value: &str) -> bool
    ensures { result ≡ occurs text.now value.now }
{
    value.contains(text)
}
