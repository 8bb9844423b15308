//! Datagrams that go out (X.234, unit data transfer).

ghost use Rattle.std.specs.Prelude.{◌≡◌, ◌≤◌, length, IfOk};
ghost use Rattle.cltp.specs.Sending.{answer_of, send_event, ud_for};
ghost use Rattle.cltp.specs.Ud.{IsSelector};
ghost use Rattle.cltp.specs.Writing.{IsWritten};

use crate::writing::write_ud;
use net_world::{address, refusal};
use nsap::Nsap;
use osi_base::{Bytes, DropCause, NoMemory, Offered, Wish};
use script_journal::{Boxed, Event};
use std::alloc::Global;

/// The most octets of data.
pub const MOST_OCTETS: usize = 16_000;

/// A UD may be cut, and asks for nothing else.
pub const WISH: Wish = Wish {
    cut: true,
    report: false,
    trace: false,
    path: 0,
};

/// What a user asks to send (X.214, T-UNIT-DATA request).
#[derive(Drop)]
pub struct Request {
    /// The transport selector that it comes from, of 1 to 32 octets.
    pub from_selector: Bytes,
    /// The address and the transport selector that it is for.
    pub to: Nsap,
    pub to_selector: Bytes,
    /// The data.
    pub octets: Bytes,
}

/// The answer to a request.
#[derive(Clone, Copy, Debug, PartialEq, Eq)]
pub enum ClAnswer {
    /// The network took the datagram.
    Done,
    /// The data has more than 16,000 octets.
    TooLong,
    /// The network did not take the datagram.
    Dropped(DropCause),
}

/// The octets of the UD of a request.
pub fn octets_of(alloc: Global, request: &Request) -> Result<Bytes, NoMemory>
    requires from { IsSelector request.now.from_selector }
    requires to { IsSelector request.now.to_selector }
    requires short { length request.now.octets ≤ 16000 }
    ensures { IfOk result (λ octets. IsWritten (ud_for request.now) octets) }
{
    let octets = write_ud(
        alloc,
        request.from_selector.as_slice(),
        request.to_selector.as_slice(),
        request.octets.as_slice(),
    )?;
    Ok(Bytes::of(octets))
}

/// The answer to a request whose UD was offered.
pub fn answer_of(answer: Offered) -> ClAnswer
    ensures { result ≡ answer_of answer }
{
    match answer {
        Offered::Taken => ClAnswer::Done,
        Offered::Dropped(cause) => ClAnswer::Dropped(cause),
    }
}

/// The event of a request whose UD was offered.
pub fn send_event(
    alloc: Global,
    system: u8,
    request: Request,
    answer: Offered,
) -> Result<Event, NoMemory>
    ensures { IfOk result (λ event. event ≡ send_event system request answer) }
{
    match answer {
        Offered::Taken => Ok(Event::Send {
            system,
            selector: Boxed::new(alloc, request.from_selector)?,
            to: address(&request.to),
            called: Boxed::new(alloc, request.to_selector)?,
            octets: Boxed::new(alloc, request.octets)?,
        }),
        Offered::Dropped(cause) => Ok(Event::No {
            cause: refusal(cause),
        }),
    }
}
