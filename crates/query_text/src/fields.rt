//! The fields that a query names.
ghost use Rattle.query_text.specs.Readings.{IsReadingBy};
ghost use Rattle.query_text.specs.Values.{listed_fields};

use crate::fault::QueryFault;
use crate::parts::cut_part;
use cdxj_core::{Field, field_named};
use std::alloc::Global;

/// Reads the fields of a list of names, separated by commas.
pub(crate) fn read_fields(alloc: Global, names: &str) -> Result<Vec<Field>, QueryFault>
    ensures { IsReadingBy (λ fields. fields.items) (listed_fields names.now) result }
{
    let mut fields = Vec::new(alloc);
    let mut left = Some(names);
    while let Some(names) = left {
        let (name, later) = cut_part(names, ',');
        let Some(field) = field_named(name) else {
            return Err(QueryFault::BadField);
        };
        if fields.push(field).is_err() {
            return Err(QueryFault::Memory);
        }
        left = later;
    }
    Ok(fields)
}
