//! What a system knows of others by hellos: neighbours and redirects (ISO 9542, record configuration function, record redirect
//! function, flush old configuration function, flush old redirect function).
#![tactic(auto)]

mod address_table;
mod holding_time;
mod laws;
mod least_router;
mod neighbours;
mod redirects;
mod room;
mod rows;

pub use address_table::HearRefusal;
pub use laws::{
    count_is_told, empty_stands, finds_what_is_told, named_have_rows, one_router, stays_swept,
    stays_table,
};
pub use neighbours::Neighbours;
pub use redirects::Redirects;
