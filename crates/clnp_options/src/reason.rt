//! Why a PDU is discarded (X.233, reason for discard), and the types of PDU.
ghost use Rattle.std.specs.Prelude.{◌≡◌};

/// The type of a PDU.
#[derive(Clone, Copy, Debug, PartialEq, Eq)]
pub enum PduKind {
    /// Data.
    Dt,
    /// Error report.
    Er,
}

/// A reason for discard, in the order of the standard's table.
#[derive(Clone, Copy)]
pub enum Reason {
    /// Not specified.
    NotSpecified,
    /// Protocol procedure error.
    ProtocolProcedure,
    /// Incorrect checksum.
    IncorrectChecksum,
    /// The PDU is discarded due to congestion.
    Congestion,
    /// Header syntax error: the header cannot be parsed.
    HeaderSyntax,
    /// Segmentation is needed but not permitted.
    SegmentationNeeded,
    /// An incomplete PDU is received.
    IncompletePdu,
    /// An option stands twice.
    DuplicateOption,
    /// The destination address is unreachable.
    DestinationUnreachable,
    /// The destination address is unknown.
    DestinationUnknown,
    /// Source routing error, not specified.
    SourceRouting,
    /// Syntax error in the source routing field.
    SourceRoutingSyntax,
    /// Unknown address in the source routing field.
    SourceRoutingUnknownAddress,
    /// The path of the source routing field is not acceptable.
    PathNotAcceptable,
    /// The lifetime expired while the data unit was in transit.
    LifetimeExpiredInTransit,
    /// The lifetime expired during reassembly.
    LifetimeExpiredInReassembly,
    /// An option is not supported, and which is not specified.
    UnsupportedOption,
    /// The protocol version is not supported.
    UnsupportedVersion,
    /// The security option is not supported.
    UnsupportedSecurity,
    /// The source routing option is not supported.
    UnsupportedSourceRouting,
    /// The option on recording of route is not supported.
    UnsupportedRecording,
    /// The quality of service is not supported or not available.
    UnsupportedQuality,
    /// Reassembly interference.
    ReassemblyInterference,
}

impl Reason {
    ghost use Rattle.clnp_options.specs.Reasons.{code_of};

    /// The code of the reason in the option of an error report.
    pub fn code(self) -> u8
        ensures { result ≡ code_of self }
    {
        match self {
            Reason::NotSpecified => 0x00,
            Reason::ProtocolProcedure => 0x01,
            Reason::IncorrectChecksum => 0x02,
            Reason::Congestion => 0x03,
            Reason::HeaderSyntax => 0x04,
            Reason::SegmentationNeeded => 0x05,
            Reason::IncompletePdu => 0x06,
            Reason::DuplicateOption => 0x07,
            Reason::DestinationUnreachable => 0x80,
            Reason::DestinationUnknown => 0x81,
            Reason::SourceRouting => 0x90,
            Reason::SourceRoutingSyntax => 0x91,
            Reason::SourceRoutingUnknownAddress => 0x92,
            Reason::PathNotAcceptable => 0x93,
            Reason::LifetimeExpiredInTransit => 0xa0,
            Reason::LifetimeExpiredInReassembly => 0xa1,
            Reason::UnsupportedOption => 0xb0,
            Reason::UnsupportedVersion => 0xb1,
            Reason::UnsupportedSecurity => 0xb2,
            Reason::UnsupportedSourceRouting => 0xb3,
            Reason::UnsupportedRecording => 0xb4,
            Reason::UnsupportedQuality => 0xb5,
            Reason::ReassemblyInterference => 0xc0,
        }
    }
}

/// What is wrong with a PDU.
#[derive(Clone, Copy)]
pub struct Fault {
    /// The reason for discard.
    pub reason: Reason,
    /// The number of the octet at fault, counted from 1 over the header, and 0 for none.
    pub place: u8,
    /// Whether an error report may tell it to the sender.
    pub reportable: bool,
}
