//! What holds of all octets.

ghost use Rattle.std.specs.Prelude.{◌≡◌, ◌⊎◌, ℕ, List};
ghost use Rattle.octet_loop.specs.Outcome.{AsksOne};
ghost use Rattle.capture_decode.specs.Capture.{Record, IsCapture};
ghost use Rattle.capture_decode.specs.Course.{capture_course};
ghost use Rattle.capture_decode.specs.Faults.{CaptureFault};
ghost use Rattle.capture_decode.specs.declared.cause.Cause.{Cause};

/// Octets are one capture at most.
pub fn one_capture()
    ensures { (octets : List ℕ) (records other : List Record) → IsCapture octets records → IsCapture octets other → records ≡ other }
{}

/// Octets have one first fault at most.
pub fn one_fault()
    ensures { (octets : List ℕ) (offset place : ℕ) (cause other : Cause) → CaptureFault octets offset cause → CaptureFault octets place other
        → (offset ≡ place) × (cause ≡ other) }
{}

/// Octets are a capture or have a fault, and not both.
pub fn capture_or_fault()
    ensures one { (octets : List ℕ) → ((records : List Record) × IsCapture octets records)
        ⊎ ((offset : ℕ) × (cause : Cause) × CaptureFault octets offset cause) }
    ensures not_both { (octets : List ℕ) (records : List Record) (offset : ℕ) (cause : Cause)
        → IsCapture octets records → ¬ CaptureFault octets offset cause }
{}

/// Octets ask for one status and one text at most.
pub fn one_outcome()
    ensures { AsksOne capture_course }
{
    capture_show::one_show();
}
