//! What holds of every list of rows (X.233, route PDU function).

ghost use Rattle.std.specs.Prelude.{◌≡◌, List, ℕ, Option};
ghost use Rattle.nsap.specs.declared.port.Hop.{Hop};
ghost use Rattle.clnp_route.specs.declared.table.RouteRow.{RouteRow};
ghost use Rattle.clnp_route.specs.Routes.{AreDistinct, IsNext, next_hop};

/// Where each prefix has one row, an address has one next hop or none.
pub fn one_next()
    ensures { (rows : List RouteRow) (address : List ℕ) (first second : Option Hop) → AreDistinct rows → IsNext rows address first → IsNext rows address second
        → first ≡ second }
{}

/// The next hop that is found is the one of the longest prefix.
pub fn next_is_longest()
    ensures { (rows : List RouteRow) (address : List ℕ) → IsNext rows address (next_hop rows address) }
{}
