//! The fields of a line, and their names.
ghost use Rattle.std.specs.Prelude.{◌≡◌};
ghost use Rattle.cdxj_core.specs.Fields.{field_name, field_named};

/// A field of a line, by the names of the Wayback CDX Server API.
#[derive(Clone, Copy, Debug, Drop, PartialEq, Eq)]
pub enum Field {
    /// The key.
    Urlkey,
    /// The stamp.
    Timestamp,
    /// The member `url`.
    Original,
    /// The member `mime`.
    Mimetype,
    /// The member `status`.
    Statuscode,
    /// The member `digest`.
    Digest,
    /// The member `length`.
    Length,
    /// The offset, in decimal.
    Offset,
    /// The member `filename`.
    Filename,
}

/// The fields, in the order of a capture's row.
const FIELDS: [Field; 9] = [
    Field::Urlkey,
    Field::Timestamp,
    Field::Original,
    Field::Mimetype,
    Field::Statuscode,
    Field::Digest,
    Field::Length,
    Field::Offset,
    Field::Filename,
];

/// Returns the name of a field, as queries and JSON pages write it.
pub fn field_name(field: Field) -> &'static str
    ensures { result.now ≡ field_name field }
{
    match field {
        Field::Urlkey => "urlkey",
        Field::Timestamp => "timestamp",
        Field::Original => "original",
        Field::Mimetype => "mimetype",
        Field::Statuscode => "statuscode",
        Field::Digest => "digest",
        Field::Length => "length",
        Field::Offset => "offset",
        Field::Filename => "filename",
    }
}

/// Returns the field of this name, as queries write it.
#[tactic(auto, unfolding(crate::specs::Fields::field_named))]
pub fn field_named(name: &str) -> Option<Field>
    ensures { result ≡ field_named name.now }
{
    FIELDS
        .iter()
        .copied()
        .find(|field| field_name(*field) == name)
}
