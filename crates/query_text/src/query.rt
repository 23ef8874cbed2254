//! Queries: selections of captures from indexes.
ghost use Rattle.std.specs.Prelude.{◌≡◌, IfOk, option_map, string_bytes};
ghost use Rattle.query_text.specs.Readings.{IsReading};
ghost use Rattle.query_text.specs.Queries.{usual_fields, target_of};

use crate::collapse::Collapse;
use crate::fault::QueryFault;
use crate::filter::Filter;
use crate::limit::Limit;
use crate::output::OutputFormat;
use crate::parameters::Parameters;
use crate::stamp::{StampStart, not_after, not_before};
use crate::target::{MatchKind, Target};
use cdxj_core::{Field, Line, LineRef, OwnedPlace, Pair, Place};
use std::alloc::{AllocError, Global};
use std::marker::Model;

/// The maximum length of a query text in bytes.
pub const QUERY_LIMIT: usize = 65_536;

/// A selection of captures from indexes.
#[derive(Debug, Drop)]
pub struct Query {
    target: Target,
    from: Option<StampStart>,
    to: Option<StampStart>,
    filters: Vec<Filter>,
    limit: Option<Limit>,
    resume: Option<OwnedPlace>,
    show_resume_key: bool,
    fields: Vec<Field>,
    output: OutputFormat,
    collapse: Option<Collapse>,
}

impl Model for Query {
    ghost use Rattle.query_text.specs.Queries.{QueryValue};

    ghost Value = { QueryValue };

    ghost view = { λ q. record {
      target = q.target;
      from = q.from;
      to = q.to;
      filters = q.filters.items;
      limit = q.limit;
      resume = q.resume;
      show_resume_key = q.show_resume_key;
      fields = q.fields.items;
      output = q.output;
      collapse = q.collapse;
    } };
}

/// Returns the fields of a row for a query that names none.
fn usual_fields(alloc: Global) -> Result<Vec<Field>, AllocError>
    ensures { IfOk result (λ fields. fields.items ≡ usual_fields) }
{
    Vec::from_slice(
        alloc,
        &[
            Field::Urlkey,
            Field::Timestamp,
            Field::Original,
            Field::Mimetype,
            Field::Statuscode,
            Field::Digest,
            Field::Length,
        ],
    )
}

/// Returns the target of a `url` or of a `key`. The error is `NoUrl` if there is neither and
/// `UrlAndKey` if there are both, and otherwise `BadUrl`.
fn target_of(
    alloc: Global,
    url: Option<String>,
    key: Option<String>,
    kind: Option<MatchKind>,
) -> Result<Target, QueryFault>
    ensures { IsReading
        (target_of (option_map string_bytes url) (option_map string_bytes key) kind) result }
{
    match (url, key) {
        (None, None) => Err(QueryFault::NoUrl),
        (Some(_), Some(_)) => Err(QueryFault::UrlAndKey),
        (Some(url), None) => Target::of_url(alloc, url.as_str(), kind),
        (None, Some(key)) => Ok(Target::of_key(key, kind.unwrap_or(MatchKind::Exact))),
    }
}

impl Query {
    ghost use Rattle.std.specs.Prelude.{◌≢◌, ◌<◌, ◌≤◌, [], false, length, IfSome, MatchResult, Ok, Err};
    ghost use Rattle.cdxj_core.specs.PlaceViews.{place_view};
    ghost use Rattle.query_text.specs.declared.query.TheConstants.{QUERY_LIMIT};
    ghost use Rattle.query_text.specs.ParameterViews.{parameter_values};
    ghost use Rattle.query_text.specs.Queries.{query_with, query_of};
    ghost use Rattle.query_text.specs.Matching.{matches_pair, passes_filters, matches};

    fn with_parameters(alloc: Global, parameters: Parameters) -> Result<Query, QueryFault>
        ensures { IsReading (query_with (parameter_values parameters)) result }
    {
        let Parameters {
            url,
            key,
            kind,
            from,
            to,
            filters,
            limit,
            resume,
            show_resume_key,
            fields,
            output,
            collapse,
        } = parameters;
        let target = target_of(alloc, url, key, kind)?;
        let fields = match fields {
            Some(fields) => fields,
            None => usual_fields(alloc)?,
        };
        Ok(Query {
            target,
            from,
            to,
            filters,
            limit,
            resume,
            show_resume_key: show_resume_key.unwrap_or(false),
            fields,
            output: output.unwrap_or(OutputFormat::Text),
            collapse,
        })
    }

    /// Reads the query of a text.
    ///
    /// Returns the first of these errors: `QueryTooLong` for more than `QUERY_LIMIT` bytes, before it allocates; the
    /// errors of the parameters, from left to right; then `NoUrl`, `UrlAndKey` and `BadUrl`. Returns `Memory` if memory
    /// could not be allocated, or if the URL parser has no room for the URL.
    pub fn read(alloc: Global, text: &str) -> Result<Query, QueryFault>
        ensures value { MatchResult result (λ query. query_of QUERY_LIMIT text.now ≡ Ok query)
            (λ fault. fault ≢ QueryFault.Memory → query_of QUERY_LIMIT text.now ≡ Err fault) }
        ensures long { QUERY_LIMIT < length text.now → result ≡ Err QueryFault.QueryTooLong }
    {
        if text.len() > QUERY_LIMIT {
            return Err(QueryFault::QueryTooLong);
        }
        Query::with_parameters(alloc, Parameters::read(alloc, text)?)
    }

    /// Returns the keys that the query matches.
    pub fn target(&self) -> &Target
        ensures { result.now ≡ self.now.target }
    {
        &self.target
    }

    /// Returns `true` if the query matches this key and stamp. Its filters are not considered.
    pub fn matches_pair(&self, pair: Pair<'_>) -> bool
        ensures { result ≡ matches_pair self.now pair.entry.key.now pair.entry.stamp }
    {
        self.target.matches(pair.key)
            && not_before(&self.from, &pair.stamp)
            && not_after(&self.to, &pair.stamp)
    }

    fn passes_filters(&self, line: &LineRef<'_>) -> bool
        ensures { result ≡ passes_filters self.now line.now.values }
    {
        self.filters.iter().all(|filter| filter.holds(line))
    }

    /// Returns `true` if the query matches the line.
    pub fn matches(&self, line: &LineRef<'_>) -> bool
        ensures { result ≡ matches self.now line.now.values }
    {
        self.matches_pair(line.pair()) && self.passes_filters(line)
    }

    /// Returns `true` if the query matches the line.
    pub fn matches_kept(&self, line: &Line) -> bool
        ensures { result ≡ matches self.now line.now.values }
    {
        self.matches_pair(line.pair()) && self.passes_filters(&line.values())
    }

    /// Returns the maximum number of captures on a page, if there is one.
    pub fn limit(&self) -> Option<u64>
        ensures value { result ≡ self.now.limit }
        ensures bounds { IfSome result (λ limit. (0 < limit) × (limit ≤ 1000000)) }
    {
        self.limit.as_ref().map(|limit| limit.captures())
    }

    /// Returns the place after which the page begins, if one was given.
    pub fn resume(&self) -> Option<Place<'_>>
        ensures { option_map place_view result ≡ self.now.resume }
    {
        self.resume.as_ref().map(|place| place.place())
    }

    /// Returns `true` if the page ends with the resume key of the next page.
    pub fn shows_resume_key(&self) -> bool
        ensures { result ≡ self.now.show_resume_key }
    {
        self.show_resume_key
    }

    /// Returns the fields of a row, in order.
    pub fn fields(&self) -> &[Field]
        ensures { result.now ≡ self.now.fields }
    {
        self.fields.as_slice()
    }

    /// Returns the format in which the page is written.
    pub fn output(&self) -> OutputFormat
        ensures { result ≡ self.now.output }
    {
        self.output
    }

    /// Returns the part by which adjacent captures are collapsed, if they are.
    pub fn collapse(&self) -> Option<Collapse>
        ensures { result ≡ self.now.collapse }
    {
        self.collapse
    }
}
