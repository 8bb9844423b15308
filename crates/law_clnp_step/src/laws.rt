//! What holds of each step of the network, over every carrier of frames that keeps the link contract.

ghost use Rattle.std.specs.Prelude.{◌≡◌};
ghost use Rattle.nsap.specs.declared.port.Port.{Port};
ghost use Rattle.law_clnp_step.specs.Laws.{BeginsSoundly, CarriesOn, StaysSound};

use nsap::Port;
use osi_base::Carrier;

/// Each call of the network keeps the link contract: it is a carrier of units, with the initial lifetime as its bound.
pub fn carries_on<C: Carrier<Addr = Port>, N>()
    ensures { CarriesOn C.link C.steps N }
{}

/// What holds of the network between calls goes on holding.
pub fn stays_sound<C: Carrier<Addr = Port>, N>()
    ensures { StaysSound C.link C.steps N }
{}

/// The network as it is made is sound.
pub fn begins_soundly<C: Carrier<Addr = Port>, N>()
    ensures { BeginsSoundly C.link C.steps N }
{}
