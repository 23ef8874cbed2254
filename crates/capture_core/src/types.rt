//! The types of records that are indexed.
use warc_core::Kind;

/// A set of one or more record types out of response, resource, revisit, conversion and metadata.
/// The records of these types are indexed.
#[derive(Clone, Copy, Debug, PartialEq, Eq)]
pub struct Types {
    response: bool,
    resource: bool,
    revisit: bool,
    conversion: bool,
    metadata: bool,
}

impl Types {
    ghost use Rattle.std.specs.Prelude.{◌≡◌, IfSome};
    ghost use Rattle.std.specs.List.{slice_split};
    ghost use Rattle.capture_core.specs.Types.{HasType, includes, is_comma, no_types, types_of};
    ghost use Rattle.capture_core.specs.Types.{usual_types, with_kind, with_name, with_names};

    /// Returns the set of response, resource and revisit: the types that are indexed by default.
    pub fn usual() -> Types
        ensures { result ≡ usual_types }
    {
        Types {
            response: true,
            resource: true,
            revisit: true,
            ..Types::none()
        }
    }

    /// Reads the names of one or more types, in lower case, separated by commas, with no type
    /// twice. Returns `None` for any other text.
    #[tactic(auto, using(crate::proofs::TypeNames::read_rules))]
    pub fn read(text: &str) -> Option<Types>
        ensures value { result ≡ types_of text.now }
        ensures some { IfSome result HasType }
    {
        Types::none().with_names(text)
    }

    /// Returns `true` if the set contains the type.
    pub fn includes(self, kind: Kind) -> bool
        ensures { result ≡ includes self kind }
    {
        match kind {
            Kind::Response => self.response,
            Kind::Resource => self.resource,
            Kind::Revisit => self.revisit,
            Kind::Conversion => self.conversion,
            Kind::Metadata => self.metadata,
            _ => false,
        }
    }

    fn none() -> Types
        ensures { result ≡ no_types }
    {
        Types {
            response: false,
            resource: false,
            revisit: false,
            conversion: false,
            metadata: false,
        }
    }

    /// Returns the set with the types of these names added. The names are separated by commas.
    #[tactic(auto, using(crate::proofs::TypeNames::names_rules))]
    fn with_names(self, names: &str) -> Option<Types>
        ensures { result ≡ with_names self (slice_split is_comma names.now) }
    {
        match names.split_once(',') {
            Some((name, others)) => self.with_name(name)?.with_names(others),
            None => self.with_name(names),
        }
    }

    /// Returns the set with the type of this name added.
    #[tactic(auto, unfolding(crate::specs::Types::with_name))]
    fn with_name(self, name: &str) -> Option<Types>
        ensures { result ≡ with_name self name.now }
    {
        match name {
            "response" => self.with_kind(Kind::Response),
            "resource" => self.with_kind(Kind::Resource),
            "revisit" => self.with_kind(Kind::Revisit),
            "conversion" => self.with_kind(Kind::Conversion),
            "metadata" => self.with_kind(Kind::Metadata),
            _ => None,
        }
    }

    /// Returns the set with this type added, if the type can be indexed and isn't in the set yet.
    fn with_kind(self, kind: Kind) -> Option<Types>
        ensures { result ≡ with_kind self kind }
    {
        if self.includes(kind) {
            return None;
        }
        match kind {
            Kind::Response => Some(Types {
                response: true,
                ..self
            }),
            Kind::Resource => Some(Types {
                resource: true,
                ..self
            }),
            Kind::Revisit => Some(Types {
                revisit: true,
                ..self
            }),
            Kind::Conversion => Some(Types {
                conversion: true,
                ..self
            }),
            Kind::Metadata => Some(Types {
                metadata: true,
                ..self
            }),
            _ => None,
        }
    }
}
