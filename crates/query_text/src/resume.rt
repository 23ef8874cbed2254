//! The place after which a page begins.
ghost use Rattle.query_text.specs.Readings.{IsReading};
ghost use Rattle.query_text.specs.Values.{resume_of};

use crate::fault::QueryFault;
use cdxj_core::{OwnedPlace, PlaceFault};
use std::alloc::Global;

/// Reads the place that a resume key names, from its text as it was printed.
pub(crate) fn read_resume_key(alloc: Global, text: &str) -> Result<OwnedPlace, QueryFault>
    ensures { IsReading (resume_of text.now) result }
{
    match OwnedPlace::read(alloc, text) {
        Ok(place) => Ok(place),
        Err(PlaceFault::Memory) => Err(QueryFault::Memory),
        Err(PlaceFault::BadResume) => Err(QueryFault::BadResume),
    }
}
