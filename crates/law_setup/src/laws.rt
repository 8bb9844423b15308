//! The laws of lines that were read.

ghost use Rattle.law_setup.specs.Laws.{LinesAreInOctets, LinesAreProper, LinesFit, LinesRun};

/// Until the start a line that was read fits what was said before it, and the names declared and the set-up know the same after it. At
/// the start no bound of a LAN is above the lifetime.
pub fn lines_fit()
    ensures { LinesFit }
{}

/// From the start on a line that was read is one of a running network, the systems that it names are declared, and its size and its
/// credit are in their bounds.
pub fn lines_run()
    ensures { LinesRun }
{}

/// The octets of a line that was read are octets, and its selectors have 32 at most.
pub fn lines_are_in_octets()
    ensures { LinesAreInOctets }
{}

/// The lines of a script after the start keep its limits: sizes of TPDUs, selectors and credits.
pub fn lines_are_proper()
    ensures { LinesAreProper }
{}
