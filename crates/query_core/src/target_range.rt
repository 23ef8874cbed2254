//! The range of a query's target, for merges.

use merge_core::Range;
use query_text::Target;

/// The keys up to the end of a target's range.
#[derive(Drop)]
pub(crate) struct TargetRange<'q> {
    pub target: &'q Target,
}

impl Range for TargetRange<'_> {
    ghost use Rattle.query_text.specs.Matching.{is_past};

    ghost past = { λ range key. is_past range.target.now key };

    fn is_past(&self, key: &str) -> bool {
        self.target.is_past(key)
    }
}
