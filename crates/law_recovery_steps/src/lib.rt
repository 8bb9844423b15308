//! Two Opened ends since when nothing is lost between them, step by step (X.224, class 4 state tables).
#![tactic(auto)]

mod laws;

pub use laws::{
    asks, asks_begin, data_opens, dts_fit, eds_rest, lines_fit, none_sends_er, numbers_end,
    openings_step, pairs_begin, pairs_open, pairs_part, pairs_recover, pairs_rest, pairs_ride,
    pairs_show, parted_in_time, requests_come, requests_stay, rides, rows, rows_keep_up, sends,
    urges,
};
