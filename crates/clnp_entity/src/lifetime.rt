//! A lifetime that has ended (X.233, lifetime control).

ghost use Rattle.std.specs.Prelude.{◌≡◌, nat_le, nat_lt};
ghost use Rattle.clnp_options.specs.declared.reason.Reason.TheVariants.{LifetimeExpiredInTransit};
ghost use Rattle.clnp_system.specs.declared.verdict.Verdict.TheVariants.{Discard};

use clnp_header::Reason;
use clnp_system::Verdict;

/// The place of the lifetime in a header.
const LIFETIME_PLACE: u8 = 4;

/// Whether the lifetime of a PDU for this system has ended: it is less than the bound of the LAN on which it came.
pub fn has_ended_here(lifetime: u32, bound: u32) -> bool
    ensures { result ≡ nat_lt lifetime bound }
{
    lifetime < bound
}

/// Whether the lifetime of a PDU that goes onward has ended: nothing would be left of it behind the LAN on which it came.
pub fn has_ended_onward(lifetime: u32, bound: u32) -> bool
    ensures { result ≡ nat_le lifetime bound }
{
    lifetime <= bound
}

/// A PDU whose lifetime has ended.
pub fn too_old() -> Verdict
    ensures { result ≡ Discard LifetimeExpiredInTransit 4 }
{
    Verdict::Discard {
        reason: Reason::LifetimeExpiredInTransit,
        place: LIFETIME_PLACE,
    }
}
