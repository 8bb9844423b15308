//! The words of the lines, the kinds of their fields, and what they do.

/// The command that reads a script. It says which words name a line, and whether the lines are those of version 2 from the first on.
#[derive(Clone, Copy)]
pub enum Dialect {
    /// Connections over the network, in the version that the script names.
    Run,
    /// Datagrams over the network.
    Datagrams,
    /// Connections over the inactive subset of the network layer (X.233).
    Inactive,
    /// Connections over the network, and relays that join two of them.
    Relay,
}

/// The first field of a line.
#[derive(Clone, Copy)]
pub enum Word {
    Version,
    Set,
    Lan,
    Es,
    Is,
    Port,
    Route,
    Path,
    Tsap,
    Relay,
    Start,
    Connect,
    Accept,
    Refuse,
    Disconnect,
    Data,
    Expedite,
    Window,
    Unit,
    Tick,
    Settle,
    Deliver,
    Inject,
    Restart,
    Send,
}

/// A name that stands in a field, and what is asked of it.
#[derive(Clone, Copy)]
pub enum NameKind {
    /// A system.
    System,
    /// An end system.
    EndSystem,
    /// The end system that a line goes to.
    To,
    /// The end system that a line goes to, where it is not the line's own.
    Other,
    /// The system that a route goes through.
    Next,
    /// A LAN.
    Lan,
    /// A LAN on which the line's system has no port.
    PortLan,
    /// A LAN on which the line's system and the next one have ports.
    RouteLan,
    /// A source route, or `-`.
    Path,
}

/// A word or a number.
#[derive(Clone, Copy)]
pub enum WordKind {
    /// A key that is not set.
    Key,
    /// A value of the line's key.
    Value,
    /// A number within bounds.
    Number { least: u32, most: u32 },
    /// A second number within bounds.
    Amount { least: u32, most: u32 },
    /// A credit.
    Credit,
    /// `complete` or `partial`.
    PathKind,
    /// `extended` or `normal`.
    Format,
    /// A listed size, or in version 2 a preferred one.
    Size,
    /// `exp` or `noexp`.
    Expedited,
    /// `sum` or `nosum`.
    Sum,
    /// `-` or letters.
    Flags,
}

/// A field of a line: its form and its checks.
#[derive(Clone, Copy)]
pub enum FieldKind {
    Named(NameKind),
    Plain(WordKind),
    /// A name that no LAN has.
    NewLan,
    /// A name that no system has.
    NewSystem,
    /// A name that no source route has.
    NewPath,
    /// A title that no system has.
    Title,
    /// An SNPA that no port has.
    Station,
    /// A prefix that no route of the line's system has.
    Prefix,
    /// One to four intermediate systems, parted by commas.
    Hops,
    /// A selector that the line's system has not.
    NewSelector,
    /// The calling selector.
    Selector,
    /// The called selector.
    Called,
    /// Any octets.
    Octets,
}

/// What a line does once its fields are read.
#[derive(Clone, Copy)]
pub enum Effect {
    /// It declares nothing.
    Nothing,
    /// It sets the version of the script.
    Version,
    /// It sets a key.
    Setting,
    /// It declares a LAN.
    Lan,
    /// It declares an end system.
    EndSystem,
    /// It declares an intermediate system.
    IntermediateSystem,
    /// It gives a system a port.
    Port,
    /// It gives a system a route.
    Route,
    /// It declares a source route.
    Path,
    /// It gives a system a selector.
    Selector,
    /// It ends the set-up.
    Start,
}
