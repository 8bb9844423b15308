//! What holds of every run of the network of `run`, for all scripts: its lines have one journal, raw units and connections are lawful, and
//! after a calm script nothing is missing.
#![tactic(auto)]

mod laws;
mod world;

pub use laws::{
    calm_scripts_are_served, ends_are_lawful, one_journal, raw_units_are_lawful, script_runs,
    strays_are_injected, systems_are_silent,
};
pub use world::{Bench, NetWorld, run_network};
