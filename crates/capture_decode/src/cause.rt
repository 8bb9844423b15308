//! What makes octets no capture.

/// The first fault of a capture, in the order in which the header and then each record is checked.
#[derive(Clone, Copy, Debug, PartialEq, Eq)]
pub enum Cause {
    /// The header or a record is incomplete at the end of the input.
    Short,
    /// The header has another magic number.
    Magic,
    /// The header has another version than 2.4.
    Version,
    /// The header has another link type than 1.
    Link,
    /// A record has a captured length above 65,535 or above the original one.
    Length,
}
