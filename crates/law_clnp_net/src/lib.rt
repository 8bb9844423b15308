//! The network of two end systems on one LAN brings units in the order in which they were sent, each once, as long as no frame is dropped; and again
//! once none is any more, whatever was before (X.213, queue model of the network connectionless-mode service).
#![tactic(auto)]

mod cutting;
mod laws;

pub use cutting::{cut_brings, cut_goes, cut_keeps};
pub use laws::{
    always_answers, begins_empty, begins_reached, begins_serving, begins_standing, is_fifo,
    is_new_key, is_prompt, one_answer, one_lan_answer, one_network, router_is_told, serves,
    stays_reached, steps_by_hellos,
};
