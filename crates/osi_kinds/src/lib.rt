//! The commands that read a script beside `run`: `datagrams`, `inactive` and `relay`, each over a network of its own.
#![tactic(auto)]

mod kinds;

pub use kinds::{DatagramWorld, InactiveWorld, Kind, RelayWorld, run_kind};
