//! A network from a tick on since when nothing is lost, over any carrier of units (X.213, queue model; X.224, class 4 procedures).
#![tactic(auto)]

mod laws;

pub use laws::{
    calls_rest, ends_have_numbers, goes_in_order, goes_in_time, lines_are_calls, open_ends_speak,
    opened_are_followed, others_stay_aside, partners_are_alone, partners_are_followed,
    requests_are_carried, requests_are_sent_again, runs_are_ready, settles_go_on,
};
