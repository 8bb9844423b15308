//! The commands of the program: a script in, the transcript of the whole network out.
//!
//! `top` has the call of the program, `command` the words that ask for each command. What scripts run beside that of `run` is the crate
//! `osi_kinds`, the run of a generated script `osi_storm`; the network of `run` and what holds of it is the crate `law_run`, the command `frames`
//! is `script_frames`. What the call says of each command is written out by `law_commands`.
#![tactic(auto)]

mod command;
mod top;

pub use top::{Transcript, osi, run_in_memory};
