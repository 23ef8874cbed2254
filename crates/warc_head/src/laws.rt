//! Laws of the definitions of a head. These functions do nothing: each law is a contract.
ghost use Rattle.warc_head.specs.Folding.{FieldsAreSpelled};
ghost use Rattle.warc_head.specs.Spelling.{SpellingReadsBack};

/// A head that gives each field on a line of its own, as `name: value`, is read as these fields, in this order.
#[tactic(auto, using(crate::proofs::SpellingLemmas::read_back))]
pub fn spelling_reads_back()
    ensures { SpellingReadsBack }
{}

/// A text is read as fields if and only if it spells them, folded or not.
pub fn fields_are_spelled()
    ensures { FieldsAreSpelled }
{}
