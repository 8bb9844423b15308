//! The ports on a LAN, and which groups of systems name some of them (ISO 9542, multicast addresses).

ghost use Rattle.std.specs.Prelude.{◌≡◌, false};
ghost use Rattle.std.specs.List.{list_any};
ghost use Rattle.lan_step.specs.Receivers.{is_named_by};

use lan_step::{PortRow, group_of};
use nsap::Snpa;
use std::marker::Model;

/// Ports, of which it is known whether the groups name some: then a hello to a group that has no port on the LAN, as those of end systems
/// where no router is, is not compared with each port.
#[derive(Drop)]
pub struct LanPorts {
    rows: Vec<PortRow>,
    has_end: bool,
    has_intermediate: bool,
}

// Both answers are those of the ports.
impl Model for LanPorts {
    ghost use Rattle.std.specs.Prelude.{List};
    ghost use Rattle.lan_step.specs.declared.row.PortRow.{PortRow as Row};
    ghost use Rattle.lan_bag.specs.steps.Setting.{IsListed};

    ghost Value = { List Row };

    ghost view = { λ l. l.rows.items };

    ghost invariant = { λ l. IsListed l.rows.items l.has_end l.has_intermediate };
}

impl LanPorts {
    /// These ports.
    pub fn of(rows: Vec<PortRow>) -> LanPorts
        ensures { result ≡ rows.items }
    {
        let has_end = is_any_named(&rows, &group_of(true));
        let has_intermediate = is_any_named(&rows, &group_of(false));
        LanPorts {
            rows,
            has_end,
            has_intermediate,
        }
    }

    /// The ports.
    pub fn rows(&self) -> &[PortRow]
        ensures { result.now ≡ self.now }
    {
        &self.rows
    }

    /// Whether an SNPA may name some of the ports; false only where it names none.
    pub fn may_name(&self, snpa: &Snpa) -> bool
        ensures { result ≡ false → list_any (λ row. is_named_by row snpa.now) self.now ≡ false }
    {
        if *snpa == group_of(true) {
            self.has_end
        } else if *snpa == group_of(false) {
            self.has_intermediate
        } else {
            true
        }
    }
}

/// Whether an SNPA names some of these ports.
fn is_any_named(rows: &[PortRow], snpa: &Snpa) -> bool
    ensures { result ≡ list_any (λ row. is_named_by row snpa.now) rows.now }
{
    rows.iter().any(|row| row.is_named_by(snpa))
}
