//! The receiving half of an end (X.224, class 4: sequencing, explicit flow control, expedited data), and the rules, the options and
//! the list of what is told and sent that both halves share. The sending half is `tp4_sending`.
#![tactic(auto)]

mod laws;
mod reassembling;
mod receiving;
mod rules;
mod step;

pub use laws::over_wires;
pub use receiving::Receiving;
pub use rules::{FlowRules, Life, SubmitRefusal};
pub use step::{EndEvent, Sent, Step, What};
