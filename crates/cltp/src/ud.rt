//! What a UD carries (X.234, unit data TPDU).

/// A UD whose selectors and data are lent: `length, 40, parameters, data` in the octets.
#[derive(Clone, Copy, Debug)]
pub struct UdRef<'a> {
    /// The source transport selector, of 1 to 32 octets.
    pub from_selector: &'a [u8],
    /// The destination transport selector, of 1 to 32 octets.
    pub to_selector: &'a [u8],
    /// The data.
    pub octets: &'a [u8],
}
