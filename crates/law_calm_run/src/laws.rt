//! Laws of calm runs, over any carrier that loses nothing and keeps order (X.214, queue model of the transport service).

ghost use Rattle.law_calm_run.specs.Service.{ConnectsAreIndicated, OnFifo};
ghost use Rattle.law_calm_run.specs.steps.Confirms.{AcceptsAreConfirmed};
ghost use Rattle.law_calm_run.specs.Pairs.{HavePairs, ShowAll};
ghost use Rattle.tp4_number.specs.Number.{whole, wire};

use nsap::Nsap;
use osi_base::Carrier;

/// A connect request that was taken is indicated by the settle behind it, with its addresses, selectors and octets, where its selector is registered, a reference is
/// free, and no end of that caller is there; over whole numbers.
pub fn indicates<C: Carrier<Addr = Nsap>>()
    ensures { OnFifo C.link C.steps (ConnectsAreIndicated C.link C.steps whole) }
{}

/// Each two partner ends that are both open have a pair that went from its accept to them; so each shows what the other submitted, but for want of
/// credit or for what the number rule holds back at the tick of the clock; over whole numbers.
pub fn has_pairs<C: Carrier<Addr = Nsap>>()
    ensures pairs { OnFifo C.link C.steps (HavePairs C.link C.steps whole) }
    ensures shown { OnFifo C.link C.steps (ShowAll C.link C.steps whole) }
{
    law_tp4_pair::claims();
}

/// So each shows what the other submitted over the numbers of the wire too.
pub fn has_pairs_on_wire<C: Carrier<Addr = Nsap>>()
    ensures { OnFifo C.link C.steps (ShowAll C.link C.steps wire) }
{
    tp4_world::whole_run::<C>();
    has_pairs::<C>();
}

/// A connect request that was taken is indicated by the settle behind it over the numbers of the wire too.
pub fn indicates_on_wire<C: Carrier<Addr = Nsap>>()
    ensures { OnFifo C.link C.steps (ConnectsAreIndicated C.link C.steps wire) }
{
    tp4_world::whole_run::<C>();
}

/// An accept that was taken has its confirm after the settle behind it, if the calling end waited for an answer: with what was agreed and with the
/// octets of the accept; over whole numbers.
pub fn confirms<C: Carrier<Addr = Nsap>>()
    ensures { OnFifo C.link C.steps (AcceptsAreConfirmed C.link C.steps whole) }
{}

/// So it has over the numbers of the wire.
pub fn confirms_on_wire<C: Carrier<Addr = Nsap>>()
    ensures { OnFifo C.link C.steps (AcceptsAreConfirmed C.link C.steps wire) }
{
    tp4_world::whole_run::<C>();
    confirms::<C>();
}
