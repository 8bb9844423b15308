//! What a script of `run` promises the users of its network once nothing is lost any more (X.214, service primitives; queue model of the transport service).
#![tactic(auto)]

mod laws;

pub use laws::{
    lines_keep_order, nets_are_prompt, nets_ask, nets_follow, nets_recover, outages_are_kept,
    scripts_are_ordered, scripts_part, scripts_recover,
};
