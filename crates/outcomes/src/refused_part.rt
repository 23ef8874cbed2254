//! Which part of a query text is refused, for messages.
use cdxj_core::field_named;
use query_core::QueryFault;
use query_text::is_parameter;

/// A part of a query text, and what it is or isn't.
#[derive(Clone, Copy)]
pub struct RefusedPart<'a> {
    pub name: &'a str,
    pub what: &'static str,
}

/// Returns the part of the text for which a query is refused, if the fault is of one that can be
/// named.
pub fn refused_part(text: &str, fault: QueryFault) -> Option<RefusedPart<'_>> {
    match fault {
        QueryFault::Unknown => parameter_part(unknown_parameter(text)),
        QueryFault::RepeatedParameter => part(repeated_parameter(text), "is given twice"),
        QueryFault::BadField => field_part(unknown_field(text)),
        QueryFault::BadFilter => field_part(unknown_condition(text)),
        QueryFault::BadUrl => part(empty_url(text), "is empty"),
        _ => None,
    }
}

/// Returns `true` if an argument that isn't the query seems to be a part of one.
pub fn is_parameter_with_value(argument: &str) -> bool {
    argument.contains('=') && is_parameter(parameter_name(argument))
}

fn part<'a>(name: Option<&'a str>, what: &'static str) -> Option<RefusedPart<'a>> {
    match name {
        Some(name) => Some(RefusedPart { name, what }),
        None => None,
    }
}

/// Returns a part that is no parameter, and what to write if it is a field, or was meant as a parameter of another
/// spelling or program.
fn parameter_part(name: Option<&str>) -> Option<RefusedPart<'_>> {
    let what = match name {
        Some("matchtype") => "isn't a parameter, and matchType is",
        Some("resumekey") => "isn't a parameter, and resumeKey is",
        Some("showresumekey") => "isn't a parameter, and showResumeKey is",
        Some("fields") => "isn't a parameter, and fl is",
        Some("status") => "isn't a parameter, and filter=statuscode:TEXT is",
        Some("mime") => "isn't a parameter, and filter=mimetype:TEXT is",
        Some("page" | "pageSize" | "showNumPages") => {
            "is for warcdx-gateway: warcdx pages writes all pages"
        }
        Some("sort" | "reverse" | "closest") => {
            "is for warcdx-gateway: the order here is that of the index"
        }
        Some(field) if is_field(field) => "is a field, for filter=FIELD:TEXT",
        _ => "isn't a parameter",
    };
    part(name, what)
}

/// Returns a part that is no field, and which field was meant if it is a member of a line's object.
fn field_part(name: Option<&str>) -> Option<RefusedPart<'_>> {
    let what = match name {
        Some("url") => "isn't a field, and original is",
        Some("mime") => "isn't a field, and mimetype is",
        Some("status") => "isn't a field, and statuscode is",
        _ => "isn't a field",
    };
    part(name, what)
}

fn unknown_parameter(text: &str) -> Option<&str> {
    text.split('&')
        .map(parameter_name)
        .find(|name| is_unknown(name))
}

fn empty_url(text: &str) -> Option<&str> {
    text.split('&')
        .find(|piece| *piece == "url=")
        .map(parameter_name)
}

/// Returns the first name of a parameter that stands twice, and may not.
fn repeated_parameter(text: &str) -> Option<&str> {
    text.split('&')
        .map(parameter_name)
        .find(|name| !is_condition(name) && is_repeated(text, name))
}

/// Returns the first name in the list of fields that is none.
fn unknown_field(text: &str) -> Option<&str> {
    text.split('&')
        .filter(|piece| parameter_name(piece) == "fl")
        .flat_map(|piece| parameter_value(piece).split(','))
        .find(|name| !is_field(name))
}

/// Returns the first text that stands in the place of a condition's field, and is none.
fn unknown_condition(text: &str) -> Option<&str> {
    text.split('&')
        .filter(|piece| is_condition(parameter_name(piece)))
        .map(condition_field)
        .find(|name| !is_field(name))
}

fn parameter_name(piece: &str) -> &str {
    before(piece, '=')
}

fn parameter_value(piece: &str) -> &str {
    match piece.split_once('=') {
        Some((_name, value)) => value,
        None => "",
    }
}

fn condition_field(piece: &str) -> &str {
    let condition = parameter_value(piece);
    before(condition.strip_prefix('!').unwrap_or(condition), ':')
}

fn before(text: &str, separator: char) -> &str {
    match text.split_once(separator) {
        Some((first, _rest)) => first,
        None => text,
    }
}

/// Returns `true` for a text that is no parameter's name, and isn't the empty one between two `&`.
fn is_unknown(name: &str) -> bool {
    !name.is_empty() && !is_parameter(name)
}

fn is_repeated(text: &str, name: &str) -> bool {
    text.split('&')
        .filter(|piece| parameter_name(piece) == name)
        .count()
        > 1
}

fn is_condition(name: &str) -> bool {
    matches!(name, "filter" | "is" | "isnot" | "has" | "hasnot")
}

fn is_field(name: &str) -> bool {
    field_named(name).is_some()
}
