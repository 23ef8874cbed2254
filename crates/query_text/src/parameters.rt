//! The parameters of a query text, read from left to right.
ghost use Rattle.std.specs.Prelude.{◌≡◌, Ok, Err, Some, MatchResult, string_bytes};
ghost use Rattle.std.specs.Cow.{cow_str_bytes};
ghost use Rattle.query_text.specs.Readings.{IsReadingBy};
ghost use Rattle.query_text.specs.ParameterViews.{IsReadingInto, parameter_values};
ghost use Rattle.query_text.specs.Parameters.{no_values, is_given, with_filter, with_value, with_piece, with_pieces, pieces_of};

use crate::collapse::{Collapse, read_collapse};
use crate::fault::QueryFault;
use crate::fields::read_fields;
use crate::filter::Filter;
use crate::limit::Limit;
use crate::output::{OutputFormat, read_flag, read_output};
use crate::parameter::{Parameter, parameter_named};
use crate::parts::{cut_pair, cut_part, decoded};
use crate::resume::read_resume_key;
use crate::stamp::StampStart;
use crate::target::{MatchKind, read_kind};
use cdxj_core::{Field, OwnedPlace};
use std::alloc::Global;
use std::borrow::CowStr;

/// The values of the parameters that have been read.
#[derive(Drop)]
pub(crate) struct Parameters {
    pub url: Option<String>,
    pub key: Option<String>,
    pub kind: Option<MatchKind>,
    pub from: Option<StampStart>,
    pub to: Option<StampStart>,
    pub filters: Vec<Filter>,
    pub limit: Option<Limit>,
    pub resume: Option<OwnedPlace>,
    pub show_resume_key: Option<bool>,
    pub fields: Option<Vec<Field>>,
    pub output: Option<OutputFormat>,
    pub collapse: Option<Collapse>,
}

/// Stores what was read, or returns why it couldn't be read.
fn store<T: Drop>(slot: &mut Option<T>, read: Result<T, QueryFault>) -> Result<(), QueryFault>
    ensures { MatchResult read (λ value. (result ≡ Ok tt) × (slot.new ≡ Some value))
        (λ fault. result ≡ Err fault) }
{
    *slot = Some(read?);
    Ok(())
}

fn owned(alloc: Global, text: CowStr<'_>) -> Result<String, QueryFault>
    ensures { MatchResult result (λ kept. string_bytes kept ≡ cow_str_bytes text.entry)
        (λ fault. fault ≡ QueryFault.Memory) }
{
    Ok(text.into_owned(alloc)?)
}

impl Parameters {
    /// Returns `true` if the parameter was given and may not be given again.
    fn is_given(&self, parameter: Parameter) -> bool
        ensures { result ≡ is_given parameter (parameter_values self.now) }
    {
        match parameter {
            Parameter::Url => self.url.is_some(),
            Parameter::Key => self.key.is_some(),
            Parameter::MatchType => self.kind.is_some(),
            Parameter::From => self.from.is_some(),
            Parameter::To => self.to.is_some(),
            Parameter::Filter | Parameter::Condition(_) => false,
            Parameter::Limit => self.limit.is_some(),
            Parameter::ResumeKey => self.resume.is_some(),
            Parameter::ShowResumeKey => self.show_resume_key.is_some(),
            Parameter::Fl => self.fields.is_some(),
            Parameter::Output => self.output.is_some(),
            Parameter::Collapse => self.collapse.is_some(),
        }
    }

    fn add_filter(&mut self, read: Result<Filter, QueryFault>) -> Result<(), QueryFault>
        ensures { MatchResult read (λ filter.
            IsReadingInto self.new (Ok (with_filter (parameter_values self.old) filter)) result)
            (λ fault. result ≡ Err fault) }
    {
        match self.filters.push(read?) {
            Ok(()) => Ok(()),
            Err(_) => Err(QueryFault::Memory),
        }
    }

    /// Reads the value of one more parameter, from `text` as it is in the query text.
    fn read_value(
        &mut self,
        alloc: Global,
        parameter: Parameter,
        text: &str,
    ) -> Result<(), QueryFault>
        ensures { IsReadingInto self.new
            (with_value parameter (parameter_values self.old) text.now) result }
    {
        let decoded = decoded(alloc, text)?;
        let value = decoded.as_str();
        match parameter {
            Parameter::Url => store(&mut self.url, owned(alloc, decoded)),
            Parameter::Key => store(&mut self.key, owned(alloc, decoded)),
            Parameter::MatchType => store(&mut self.kind, read_kind(value)),
            Parameter::From => store(&mut self.from, StampStart::read(value)),
            Parameter::To => store(&mut self.to, StampStart::read(value)),
            Parameter::Filter => self.add_filter(Filter::read_literal(alloc, value)),
            Parameter::Condition(test) => { self.add_filter(Filter::read(alloc, test, value)) }
            Parameter::Limit => store(&mut self.limit, Limit::read(value)),
            Parameter::ResumeKey => store(&mut self.resume, read_resume_key(alloc, text)),
            Parameter::ShowResumeKey => { store(&mut self.show_resume_key, read_flag(value)) }
            Parameter::Fl => store(&mut self.fields, read_fields(alloc, value)),
            Parameter::Output => store(&mut self.output, read_output(value)),
            Parameter::Collapse => store(&mut self.collapse, read_collapse(value)),
        }
    }

    /// Reads one more piece of the text: a name, `=` and a value.
    fn read_piece(&mut self, alloc: Global, piece: &str) -> Result<(), QueryFault>
        ensures { IsReadingInto self.new (with_piece (parameter_values self.old) piece.now) result }
    {
        if piece.is_empty() {
            return Ok(());
        }
        let (name, text) = cut_pair(piece);
        let name = decoded(alloc, name)?;
        let Some(parameter) = parameter_named(name.as_str()) else {
            return Err(QueryFault::Unknown);
        };
        if self.is_given(parameter) {
            return Err(QueryFault::RepeatedParameter);
        }
        self.read_value(alloc, parameter, text)
    }

    /// Reads the parameters of a text, or returns the first error.
    pub(crate) fn read(alloc: Global, text: &str) -> Result<Parameters, QueryFault>
        ensures { IsReadingBy parameter_values (with_pieces no_values (pieces_of text.now)) result }
    {
        let mut parameters = Parameters {
            url: None,
            key: None,
            kind: None,
            from: None,
            to: None,
            filters: Vec::new(alloc),
            limit: None,
            resume: None,
            show_resume_key: None,
            fields: None,
            output: None,
            collapse: None,
        };
        let mut left = Some(text);
        while let Some(pieces) = left {
            let (piece, later) = cut_part(pieces, '&');
            parameters.read_piece(alloc, piece)?;
            left = later;
        }
        Ok(parameters)
    }
}
