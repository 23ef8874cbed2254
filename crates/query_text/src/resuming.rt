//! The law of resume keys in query texts. Its function does nothing: the law is its contract.
ghost use Rattle.query_text.specs.Resuming.{GoesOn, IsCutWithKey};

/// A printed resume key may be put into the text of a query, in the place of an older one. If the text isn't too long,
/// it then means the same query, continued from the place that the key names. A printed key is one piece of the text.
#[tactic(auto, using(crate::proofs::ResumeLemmas::goes_on, crate::proofs::KeyPieces::cut_with_key))]
pub fn resume_key_is_put_into_query()
    ensures meaning { GoesOn }
    ensures pieces { IsCutWithKey }
{}
