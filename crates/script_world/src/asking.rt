//! What a connect line asks of a transport entity.

ghost use Rattle.std.specs.Prelude.{◌≡◌};
ghost use Rattle.tp4_world.specs.Run.{transport_address};

use nsap::{Nsap, TRANSPORT};
use osi_base::Bytes;
use tp4_conn::ConnectRequest;
use tpdu::Options;

/// A request with these two selectors, to the users of the system of that title.
pub fn connect_request(
    selector: Bytes,
    to: &Nsap,
    called: Bytes,
    options: Options,
    octets: Bytes,
) -> ConnectRequest
    ensures from { result.from_selector ≡ selector }
    ensures to { result.to ≡ transport_address to.now }
    ensures called { result.to_selector ≡ called }
    ensures options { result.options ≡ options }
    ensures octets { result.octets ≡ octets }
{
    ConnectRequest {
        from_selector: selector,
        to: to.with_selector(TRANSPORT),
        to_selector: called,
        options,
        octets,
    }
}
