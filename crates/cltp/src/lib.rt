//! The connectionless transport protocol (X.234, protocol for providing the connectionless-mode transport service): its one TPDU, the
//! UD, and a world of systems whose users send one another datagrams, over any carrier of units.
#![tactic(auto)]

mod fault;
mod hearing;
mod laws;
mod parameter;
mod reading;
mod sending;
mod settling;
mod system;
mod ud;
mod world;
mod writing;

pub use fault::UdFault;
pub use laws::{
    one_fault, one_hearing, one_run, one_start, one_value, one_writing, shows_sent, some_run,
    some_start, value_or_fault,
};
pub use reading::read_ud;
pub use script_journal::UdCause;
pub use sending::{ClAnswer, Request};
pub use system::ClSystem;
pub use ud::UdRef;
pub use world::ClWorld;
pub use writing::write_ud;
