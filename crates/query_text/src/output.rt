//! The format in which a query's page is written.
ghost use Rattle.query_text.specs.Readings.{IsReading};
ghost use Rattle.query_text.specs.Outputs.{output_of, flag_of};

use crate::fault::QueryFault;

/// The format of a page.
#[derive(Clone, Copy, Debug, Drop, PartialEq, Eq)]
pub enum OutputFormat {
    /// A line for each capture: the values of its fields, with one space between them.
    Text,
    /// One JSON array: a row of the fields' names, and a row of the fields' values for each capture.
    Json,
    /// The line of each capture, as its index has it.
    Cdxj,
}

/// Reads the name of a format. The error is `BadOutput` unless the name is `text`, `json` or `cdxj`.
pub(crate) fn read_output(name: &str) -> Result<OutputFormat, QueryFault>
    ensures { IsReading (output_of name.now) result }
{
    match name {
        "text" => Ok(OutputFormat::Text),
        "json" => Ok(OutputFormat::Json),
        "cdxj" => Ok(OutputFormat::Cdxj),
        _ => Err(QueryFault::BadOutput),
    }
}

/// Reads a flag. The error is `BadFlag` unless the text is `true` or `false`.
pub(crate) fn read_flag(text: &str) -> Result<bool, QueryFault>
    ensures { IsReading (flag_of text.now) result }
{
    match text {
        "true" => Ok(true),
        "false" => Ok(false),
        _ => Err(QueryFault::BadFlag),
    }
}
