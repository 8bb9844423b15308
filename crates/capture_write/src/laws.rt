//! What is written is a capture.

ghost use Rattle.capture_write.specs.Laws.{WritesCapture};

/// What is written of frames is a capture, and its records are the frames.
pub fn writes_capture()
    ensures { WritesCapture }
{}
