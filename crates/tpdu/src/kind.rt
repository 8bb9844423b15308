//! The kinds of TPDU with their codes, fixed parts and data (X.224, structure and encoding of TPDUs).

ghost use Rattle.std.specs.Prelude.{◌≡◌};
ghost use Rattle.tpdu.specs.Kinds.{kind_of, fixed_count, is_request, is_connect, takes_rest, data_suits};

use crate::Format;

/// A kind of TPDU.
#[derive(Clone, Copy, Debug)]
pub enum Kind {
    Cr,
    Cc,
    Dr,
    Dc,
    Dt,
    Ed,
    Ak,
    Ea,
    Er,
}

impl Kind {
    /// The kind of a code octet. CR, CC and AK have a credit in its low half.
    pub fn of(code: u8) -> Option<Kind>
        ensures { result ≡ kind_of code }
    {
        match code {
            0xe0..=0xef => Some(Kind::Cr),
            0xd0..=0xdf => Some(Kind::Cc),
            0x80 => Some(Kind::Dr),
            0xc0 => Some(Kind::Dc),
            0xf0 => Some(Kind::Dt),
            0x10 => Some(Kind::Ed),
            0x60..=0x6f => Some(Kind::Ak),
            0x20 => Some(Kind::Ea),
            0x70 => Some(Kind::Er),
            _ => None,
        }
    }

    /// The octets of the fixed part after the code.
    pub fn fixed_count(self, format: Format) -> usize
        ensures { result ≡ fixed_count self format }
    {
        match (self, format) {
            (Kind::Cr | Kind::Cc | Kind::Dr, _) => 5,
            (Kind::Dc, _) => 4,
            (Kind::Er, _) => 3,
            (Kind::Dt | Kind::Ed | Kind::Ak | Kind::Ea, Format::Normal) => 3,
            (Kind::Dt | Kind::Ed | Kind::Ea, Format::Extended) => 6,
            (Kind::Ak, Format::Extended) => 8,
        }
    }

    /// Whether it is a CR, which has a checksum always.
    pub fn is_request(self) -> bool
        ensures { result ≡ is_request self }
    {
        matches!(self, Kind::Cr)
    }

    /// Whether it is a CR or a CC, which have a class, and whose other parameters are skipped.
    pub fn is_connect(self) -> bool
        ensures { result ≡ is_connect self }
    {
        match self {
            Kind::Cr | Kind::Cc => true,
            Kind::Dr | Kind::Dc | Kind::Dt | Kind::Ed | Kind::Ak | Kind::Ea | Kind::Er => false,
        }
    }

    /// Whether it reaches to the end of the unit. The others end with their header.
    pub fn takes_rest(self) -> bool
        ensures { result ≡ takes_rest self }
    {
        match self {
            Kind::Cr | Kind::Cc | Kind::Dr | Kind::Dt | Kind::Ed => true,
            Kind::Dc | Kind::Ak | Kind::Ea | Kind::Er => false,
        }
    }

    /// Whether it may have data of so many octets.
    pub fn data_suits(self, count: usize) -> bool
        ensures { result ≡ data_suits self count }
    {
        match self {
            Kind::Cr | Kind::Cc => count <= 32,
            Kind::Dr => count <= 64,
            Kind::Dt => true,
            Kind::Ed => 1 <= count && count <= 16,
            Kind::Dc | Kind::Ak | Kind::Ea | Kind::Er => count == 0,
        }
    }
}
