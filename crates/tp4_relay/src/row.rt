//! The rows of a relay's table.

ghost use Rattle.std.specs.Prelude.{◌≡◌, option_copied};
ghost use Rattle.tp4_relay.specs.Kept.{row_for};

use nsap::Nsap;
use osi_base::Bytes;
use script_journal::Indication;

/// A connection that is indicated at this system and selector is asked for again, from them, at another address and selector.
#[derive(Drop)]
pub struct RelayRow {
    pub system: u8,
    /// The selector of the row, of 1 to 32 octets.
    pub selector: Bytes,
    /// Where the connection goes on to, with a selector of 1 to 32 octets.
    pub to: Nsap,
    pub to_selector: Bytes,
}

/// The row at which a connection is indicated.
pub fn row_for<'a>(rows: &'a [RelayRow], heard: &Indication) -> Option<&'a RelayRow>
    ensures { option_copied result ≡ row_for rows.now heard.now }
{
    for row in rows {
        if row.system == heard.system && row.selector == heard.called_selector {
            return Some(row);
        }
    }
    None
}
