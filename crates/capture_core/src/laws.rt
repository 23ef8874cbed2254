//! Laws of the definitions of captures. These functions do nothing: each law is a contract.
ghost use Rattle.capture_core.specs.HttpHead.{OneHead, FrontDecides};
ghost use Rattle.capture_core.specs.Capture.{OneCapture};

/// A block has at most one HTTP head, and one payload. Its first bytes, as many as a head may have,
/// decide what its head is.
pub fn block_has_one_head()
    ensures one { OneHead }
    ensures front { FrontDecides }
{}

/// A record has at most one capture under a name.
#[tactic(auto, using(crate::proofs::Captures::one_capture))]
pub fn record_has_one_capture()
    ensures { OneCapture }
{}
