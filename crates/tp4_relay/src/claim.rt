//! Ends that were indicated at rows. Ends are numbered as they are made, so they rise, and one is found by halving.

ghost use Rattle.std.specs.Prelude.{◌≡◌, ◌<◌, length, get_or, map, IfSome, IfNone};
ghost use Rattle.tp4_relay.specs.Kept.{is_lost, lost};
ghost use Rattle.tp4_relay.specs.steps.Rising.{IsMissedBy, IsPlaceBy, IsRisingBy, claim_of};
ghost use Rattle.tp4_relay.specs.steps.Tables.{is_claimed};

/// An end that was indicated at a row of a relay's table.
#[derive(Clone, Copy, Debug, PartialEq, Eq)]
pub struct Claim {
    pub end: u32,
    /// Whether it went.
    pub gone: bool,
}

/// Whether the end was indicated at a row.
pub fn is_claimed(claims: &[Claim], end: u32) -> bool
    requires { IsRisingBy claim_of claims.now }
    ensures { result ≡ is_claimed claims.now end }
{
    claim_place(claims, end).is_some()
}

/// Whether the end was indicated at a row, and went.
pub fn is_lost(claims: &[Claim], end: u32) -> bool
    requires { IsRisingBy claim_of claims.now }
    ensures { result ≡ is_lost claims.now end }
{
    match claim_place(claims, end) {
        Some(place) => claims[place].gone,
        None => false,
    }
}

/// An end that was indicated at a row went.
pub fn lose_at(claims: &mut [Claim], end: u32)
    requires { IsRisingBy claim_of claims.old }
    ensures { claims.new ≡ map (lost end) claims.old }
{
    if let Some(place) = claim_place(claims, end) {
        claims[place].gone = true;
    }
}

/// The place of an end.
fn claim_place(claims: &[Claim], end: u32) -> Option<usize>
    requires { IsRisingBy claim_of claims.now }
    ensures some { IfSome result (λ place. IsPlaceBy claim_of end place claims.now) }
    ensures none { IfNone result (IsMissedBy claim_of end claims.now) }
{
    match claims.binary_search_by_key(&end, |claim| claim.end) {
        Ok(place) => Some(place),
        Err(_) => None,
    }
}
