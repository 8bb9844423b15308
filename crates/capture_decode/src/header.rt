//! The header of a capture (libpcap file format 2.4).

ghost use Rattle.std.specs.Prelude.{◌≡◌, ◌≤◌, true, false, length, IfOk, IfSome, IfNone, IsErrOf};
ghost use Rattle.capture_decode.specs.Capture.{IsHeader, IsMagic, IsMagicNumber};
ghost use Rattle.capture_decode.specs.Faults.{IsHeaderFault, IsLasting};
ghost use Rattle.capture_decode.specs.declared.order.Order.{Order};

use crate::cause::Cause;
use crate::order::Order;

/// The octets of a header.
pub const HEADER: usize = 24;
/// The magic number of a capture with microseconds.
const MICROSECONDS: u32 = 0xa1b2_c3d4;
/// The magic number of a capture with nanoseconds.
const NANOSECONDS: u32 = 0xa1b2_3c4d;
/// The first number of the version.
const MAJOR: u16 = 2;
/// The second number of the version.
const MINOR: u16 = 4;
/// The link type of Ethernet and IEEE 802.3.
const LINK: u32 = 1;
/// Where the version stands.
const VERSION_AT: u32 = 4;
/// Where the link type stands.
const LINK_AT: u32 = 20;

/// Where a capture is refused, and why.
#[derive(Clone, Copy, Debug)]
pub struct Refusal {
    pub offset: u32,
    pub cause: Cause,
}

/// The order of the numbers of a capture, by its header. The first fault is that of the magic number, the version or
/// the link type.
pub fn read_header(octets: &[u8]) -> Result<Order, Refusal>
    requires { length octets.now ≡ 24 }
    ensures ok { IfOk result (λ order. IsHeader order octets.now) }
    ensures refused { (refusal : Refusal) → IsErrOf result refusal
        → IsHeaderFault octets.now refusal.offset refusal.cause × IsLasting refusal.cause }
{
    let Some(order) = order_of(octets) else {
        return Err(Refusal {
            offset: 0,
            cause: Cause::Magic,
        });
    };
    if order.short(&octets[4..]) != MAJOR || order.short(&octets[6..]) != MINOR {
        return Err(Refusal {
            offset: VERSION_AT,
            cause: Cause::Version,
        });
    }
    if order.long(&octets[20..]) != LINK {
        return Err(Refusal {
            offset: LINK_AT,
            cause: Cause::Link,
        });
    }
    Ok(order)
}

/// The order of octets by the magic number. None where there is another one.
fn order_of(octets: &[u8]) -> Option<Order>
    requires { 4 ≤ length octets.now }
    ensures some { IfSome result (λ order. IsMagic order octets.now) }
    ensures none { IfNone result ((order : Order) → ¬ IsMagic order octets.now) }
{
    if is_magic(Order::Big.long(octets)) {
        Some(Order::Big)
    } else if is_magic(Order::Little.long(octets)) {
        Some(Order::Little)
    } else {
        None
    }
}

/// Whether a number is a magic number of captures.
fn is_magic(number: u32) -> bool
    ensures yes { result ≡ true → IsMagicNumber number }
    ensures no { result ≡ false → ¬ IsMagicNumber number }
{
    number == MICROSECONDS || number == NANOSECONDS
}
