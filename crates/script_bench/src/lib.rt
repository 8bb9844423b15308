//! The machine of scripts: a script in, the transcript of what it sets up and runs out.
//!
//! `stage` is what a script sets up and runs; `bench` is the machine over it that `line_loop` drives: `script_lines` reads a line, the
//! stage does what it says, `event_limit` says how many of its events have room, and `script_journal` tells them. `run` drives it from a source to a sink, `text` has the
//! closing lines, and `laws` what holds of every script.
#![tactic(auto)]

mod bench;
mod event_limit;
mod laws;
mod run;
mod stage;
mod text;

pub use bench::Bench;
pub use laws::{one_outcome, some_outcome};
pub use run::run_script;
pub use stage::Stage;
pub use text::{push_done, push_too_much};
