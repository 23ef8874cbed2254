//! The names of parameters.
ghost use Rattle.std.specs.Prelude.{◌≡◌, is_some};
ghost use Rattle.query_text.specs.ParameterNames.{parameter_named};

use crate::filter::Test;

/// A parameter of a query text. The conditions are `is`, `isnot`, `has` and `hasnot`.
#[derive(Clone, Copy)]
pub(crate) enum Parameter {
    Url,
    Key,
    MatchType,
    From,
    To,
    Filter,
    Condition(Test),
    Limit,
    ResumeKey,
    ShowResumeKey,
    Fl,
    Output,
    Collapse,
}

/// Returns the parameter of this name. Case is significant.
pub(crate) fn parameter_named(name: &str) -> Option<Parameter>
    ensures { result ≡ parameter_named name.now }
{
    match name {
        "url" => Some(Parameter::Url),
        "key" => Some(Parameter::Key),
        "matchType" => Some(Parameter::MatchType),
        "from" => Some(Parameter::From),
        "to" => Some(Parameter::To),
        "filter" => Some(Parameter::Filter),
        "is" => Some(Parameter::Condition(Test::Is)),
        "isnot" => Some(Parameter::Condition(Test::IsNot)),
        "has" => Some(Parameter::Condition(Test::Has)),
        "hasnot" => Some(Parameter::Condition(Test::HasNot)),
        "limit" => Some(Parameter::Limit),
        "resumeKey" => Some(Parameter::ResumeKey),
        "showResumeKey" => Some(Parameter::ShowResumeKey),
        "fl" => Some(Parameter::Fl),
        "output" => Some(Parameter::Output),
        "collapse" => Some(Parameter::Collapse),
        _ => None,
    }
}

/// Returns `true` for the name of a parameter. Case is significant.
pub fn is_parameter(name: &str) -> bool
    ensures { result ≡ is_some (parameter_named name.now) }
{
    parameter_named(name).is_some()
}
