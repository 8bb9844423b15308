//! What holds of what is shown, for all octets.

ghost use Rattle.std.specs.Prelude.{◌≡◌, ℕ, List};
ghost use Rattle.capture_show.specs.declared.ends.End.{End};
ghost use Rattle.capture_show.specs.Shown.{ShowsFrame};

/// Of the octets of a frame one text is shown, and one list of ends is named after it, where these ends were named before.
pub fn one_show()
    ensures { (octets text other : List ℕ) (ends after more : List End)
        → ShowsFrame octets ends text after → ShowsFrame octets ends other more → (text ≡ other) × (after ≡ more) }
{}
