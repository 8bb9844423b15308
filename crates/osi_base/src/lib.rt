//! What every layer of the network stands on: ticks, the checksum, a cursor over octets, owned
//! lists, the ends that a program reads from and writes to, and its statuses.
#![tactic(auto)]

mod address;
mod carrier;
mod fletcher;
mod floating;
mod laws;
mod lists;
mod memory;
mod note;
mod octets;
mod refusal;
mod runs;
mod sink;
mod source;
mod standard;
mod status;
mod unit;

pub use address::Address;
pub use carrier::Carrier;
pub use fletcher::{fletcher_ok, fletcher_seal};
pub use floating::{Floating, is_older};
pub use laws::{one_seal, over_runs};
pub use lists::{Bytes, Items};
pub use memory::{MemSink, MemSource, PlainSink, PlainSource};
pub use note::{HelloCause, HelloKind, Note};
pub use octets::Octets;
pub use refusal::{Failed, HeaderRefusal, NoMemory, WriteRefusal, go_on};
pub use runs::gather;
pub use sink::Sink;
pub use source::Source;
pub use standard::{StdSink, StdSource};
pub use status::Status;
pub use unit::{Arrival, DropCause, Injected, Offered, Picked, Unit, Up, Wish};

/// A time of the network's clock, in units of 500 ms.
pub type Tick = u32;
