//! TPDUs as values (X.224, structure and encoding of TPDUs).

ghost use Rattle.std.specs.Prelude.{◌≡◌};
ghost use Rattle.tpdu.specs.Values.{tpdu_of};
ghost use Rattle.tpdu.specs.Writing.{kind_for};

use crate::kind::Kind;
use osi_base::Bytes;

/// The format of numbers and credits: 7 and 4 bits in normal formats, 31 and 16 in extended formats.
#[derive(Clone, Copy, Debug, PartialEq, Eq)]
pub enum Format {
    Normal,
    Extended,
}

/// A TPDU over the octets that it was read from.
///
/// `sum` tells whether a checksum stands there. In CR and CC an absent selector is empty, and `extra`
/// (additional options) is 1 where absent; `size` is in octets, and `preferred` in units of 128 octets.
#[derive(Clone, Copy, Debug)]
pub enum TpduRef<'a> {
    /// Connection request.
    Cr {
        credit: u8,
        source: u16,
        format: Format,
        calling: &'a [u8],
        called: &'a [u8],
        size: Option<u16>,
        preferred: Option<u32>,
        extra: u8,
        version: Option<u8>,
        classes: Option<&'a [u8]>,
        ack_time: Option<u16>,
        sum: bool,
        octets: &'a [u8],
    },
    /// Connection confirm.
    Cc {
        credit: u8,
        destination: u16,
        source: u16,
        format: Format,
        calling: &'a [u8],
        called: &'a [u8],
        size: Option<u16>,
        preferred: Option<u32>,
        extra: u8,
        version: Option<u8>,
        classes: Option<&'a [u8]>,
        ack_time: Option<u16>,
        sum: bool,
        octets: &'a [u8],
    },
    /// Disconnect request.
    Dr {
        destination: u16,
        source: u16,
        reason: u8,
        info: Option<&'a [u8]>,
        sum: bool,
        octets: &'a [u8],
    },
    /// Disconnect confirm.
    Dc {
        destination: u16,
        source: u16,
        sum: bool,
    },
    /// Data; `last` where a transport unit ends with it.
    Dt {
        destination: u16,
        last: bool,
        number: u32,
        sum: bool,
        octets: &'a [u8],
    },
    /// Expedited data.
    Ed {
        destination: u16,
        last: bool,
        number: u32,
        sum: bool,
        octets: &'a [u8],
    },
    /// Data acknowledgement.
    Ak {
        destination: u16,
        number: u32,
        credit: u16,
        subsequence: u16,
        confirmation: Option<&'a [u8]>,
        sum: bool,
    },
    /// Expedited data acknowledgement.
    Ea {
        destination: u16,
        number: u32,
        sum: bool,
    },
    /// TPDU error.
    Er {
        destination: u16,
        cause: u8,
        rejected: Option<&'a [u8]>,
        sum: bool,
    },
}

/// A TPDU that owns its octets, with the fields of [`TpduRef`] but `sum`.
#[derive(Debug, Drop)]
pub enum Tpdu {
    /// Connection request.
    Cr {
        credit: u8,
        source: u16,
        format: Format,
        calling: Bytes,
        called: Bytes,
        size: Option<u16>,
        preferred: Option<u32>,
        extra: u8,
        version: Option<u8>,
        classes: Option<Bytes>,
        ack_time: Option<u16>,
        octets: Bytes,
    },
    /// Connection confirm.
    Cc {
        credit: u8,
        destination: u16,
        source: u16,
        format: Format,
        calling: Bytes,
        called: Bytes,
        size: Option<u16>,
        preferred: Option<u32>,
        extra: u8,
        version: Option<u8>,
        classes: Option<Bytes>,
        ack_time: Option<u16>,
        octets: Bytes,
    },
    /// Disconnect request.
    Dr {
        destination: u16,
        source: u16,
        reason: u8,
        info: Option<Bytes>,
        octets: Bytes,
    },
    /// Disconnect confirm.
    Dc {
        destination: u16,
        source: u16,
    },
    /// Data; `last` where a transport unit ends with it.
    Dt {
        destination: u16,
        last: bool,
        number: u32,
        octets: Bytes,
    },
    /// Expedited data.
    Ed {
        destination: u16,
        last: bool,
        number: u32,
        octets: Bytes,
    },
    /// Data acknowledgement.
    Ak {
        destination: u16,
        number: u32,
        credit: u16,
        subsequence: u16,
        confirmation: Option<Bytes>,
    },
    /// Expedited data acknowledgement.
    Ea {
        destination: u16,
        number: u32,
    },
    /// TPDU error.
    Er {
        destination: u16,
        cause: u8,
        rejected: Option<Bytes>,
    },
}

impl TpduRef<'_> {
    /// The kind of the TPDU.
    pub fn kind(&self) -> Kind
        ensures { result ≡ kind_for (tpdu_of self.now) }
    {
        match self {
            TpduRef::Cr { .. } => Kind::Cr,
            TpduRef::Cc { .. } => Kind::Cc,
            TpduRef::Dr { .. } => Kind::Dr,
            TpduRef::Dc { .. } => Kind::Dc,
            TpduRef::Dt { .. } => Kind::Dt,
            TpduRef::Ed { .. } => Kind::Ed,
            TpduRef::Ak { .. } => Kind::Ak,
            TpduRef::Ea { .. } => Kind::Ea,
            TpduRef::Er { .. } => Kind::Er,
        }
    }
}

impl Tpdu {
    /// The kind of the TPDU.
    pub fn kind(&self) -> Kind
        ensures { result ≡ kind_for self.now }
    {
        match self {
            Tpdu::Cr { .. } => Kind::Cr,
            Tpdu::Cc { .. } => Kind::Cc,
            Tpdu::Dr { .. } => Kind::Dr,
            Tpdu::Dc { .. } => Kind::Dc,
            Tpdu::Dt { .. } => Kind::Dt,
            Tpdu::Ed { .. } => Kind::Ed,
            Tpdu::Ak { .. } => Kind::Ak,
            Tpdu::Ea { .. } => Kind::Ea,
            Tpdu::Er { .. } => Kind::Er,
        }
    }
}
