//! What the users of a network may rely on once nothing is lost any more (X.214, service primitives; queue model of the transport service).
#![tactic(auto)]

mod laws;

pub use laws::{
    asks_on_wire, calm_ends_are_up_to_date, ended_have_left, followed_are_back, followed_are_pairs,
    followed_part, followed_show, indications_end, left_are_over, lines_follow, networks_ask,
    outages_end_none, outages_end_none_on_wire, partners_stay, recovers_on_wire, runs_are_told,
    runs_ask, runs_end_indications, runs_follow, runs_last, runs_part, runs_recover, runs_tell,
    stand_by_number, tries_are_past, walked_recover, walked_tell,
};
