//! The numbers of a record of a capture (libpcap file format 2.4).

ghost use Rattle.std.specs.Prelude.{◌≡◌, length, IfSome, IfNone};
ghost use Rattle.capture_decode.specs.Faults.{IsRecordFault};
ghost use Rattle.capture_decode.specs.declared.cause.Cause.TheVariants.{Length};
ghost use Rattle.capture_decode.specs.steps.Reading.{AreNumbers};

use crate::order::Order;

/// The octets of the four numbers of a record.
pub const NUMBERS: usize = 16;
/// The most captured octets of a record.
const MOST_CAPTURED: u32 = 65_535;

/// The four numbers in front of the captured octets.
#[derive(Clone, Copy, Debug)]
pub struct Numbers {
    pub seconds: u32,
    /// Microseconds or nanoseconds.
    pub fraction: u32,
    /// How many octets were captured.
    pub captured: u32,
    /// How many octets the frame had.
    pub original: u32,
}

/// The numbers of a record. None exactly where the captured length is above 65,535 or above the original one.
pub fn read_numbers(order: Order, octets: &[u8]) -> Option<Numbers>
    requires { length octets.now ≡ 16 }
    ensures some { IfSome result (λ numbers. AreNumbers order octets.now numbers) }
    ensures none { IfNone result (IsRecordFault order octets.now Length) }
{
    let numbers = Numbers {
        seconds: order.long(octets),
        fraction: order.long(&octets[4..]),
        captured: order.long(&octets[8..]),
        original: order.long(&octets[12..]),
    };
    if numbers.captured > MOST_CAPTURED || numbers.captured > numbers.original {
        return None;
    }
    Some(numbers)
}
