//! Laws of the definitions that the contracts cite. These functions do nothing: each law is a
//! contract.
ghost use Rattle.std.specs.Prelude.{◌≡◌, true, false};
ghost use Rattle.query_text.specs.Readings.{Text};
ghost use Rattle.query_text.specs.Targets.{TargetValue};
ghost use Rattle.query_text.specs.Matching.{covers, key_matches, is_text_above, is_past};

/// The keys that a target matches are in its range. None of them is below the target or past the
/// range. A key that isn't below a key past the range is past it too.
pub fn matching_keys_are_in_one_range()
    ensures covered { (target : TargetValue) → (key : Text) → key_matches target key ≡ true
        → covers target key ≡ true }
    ensures low { (target : TargetValue) → (key : Text) → key_matches target key ≡ true
        → is_text_above target.text key ≡ false }
    ensures inside { (target : TargetValue) → (key : Text) → key_matches target key ≡ true
        → is_past target key ≡ false }
    ensures upward { (target : TargetValue) → (key later : Text) → is_past target key ≡ true
        → is_text_above key later ≡ false → is_past target later ≡ true }
{}
