//! What holds of each step of the network, over every carrier of frames that keeps the link contract.

ghost use Rattle.std.specs.Prelude.{◌≡◌};
ghost use Rattle.nsap.specs.declared.port.Port.{Port};
ghost use Rattle.inactive_step.specs.Laws.{BeginsSoundly, CarriesOn, ComesBack, StaysSound};

use nsap::Port;
use osi_base::Carrier;

/// Each call of the network keeps the link contract: it is a carrier of units, with the bounds of its frames.
pub fn carries_on<C: Carrier<Addr = Port>>()
    ensures { CarriesOn C.link C.steps }
{}

/// What holds of the network between calls goes on holding.
pub fn stays_sound<C: Carrier<Addr = Port>>()
    ensures { StaysSound C.link C.steps }
{}

/// The network as it is made is sound.
pub fn begins_soundly<C: Carrier<Addr = Port>>()
    ensures { BeginsSoundly C.link }
{}

/// The frame of a unit, whole and unaltered, is read as that unit, whatever system takes it.
pub fn comes_back()
    ensures { ComesBack }
{}
