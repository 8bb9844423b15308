//! TPDUs of transport class 4 (X.224, structure and encoding of TPDUs): nine kinds in two formats,
//! their parameters and their checksum, read and written.
#![tactic(auto)]

mod checksum;
mod fault;
mod fixed;
mod kind;
mod laws;
mod parameter;
mod reading;
mod sections;
mod service;
mod tpdu;
mod writing;

pub use fault::{TpduCause, TpduFault};
pub use kind::Kind;
pub use laws::{
    allowed_fits, either_format, front_or_fault, one_bundle, one_front, one_value, one_writing,
    read_is_allowed, same_target, spelling_is_first,
};
pub use reading::read_first;
pub use service::{EndTold, GoneCause, HeldKind, Options, State};
pub use tpdu::{Format, Tpdu, TpduRef};
pub use writing::write_tpdu;
