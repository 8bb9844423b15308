//! What holds of frames, for all lists of octets.

ghost use Rattle.std.specs.Prelude.{◌≡◌, ◌<◌, ◌↔◌, ℕ, List, Some, All};
ghost use Rattle.lan_frame.specs.Frame.{Framed, IsFrame, frame_in};

/// Octets are read as a frame exactly where they are that whole frame, and padding behind it.
pub fn one_frame()
    ensures { (octets : List ℕ) (frame : Framed) → All (λ octet. octet < 256) octets → ((frame_in octets ≡ Some frame) ↔ IsFrame octets frame) }
{}
