//! LANs in memory: every frame is kept while it may be taken (IEEE 802.3; ISO/IEC 8802-2).
#![tactic(auto)]

mod bag;
mod delivery;
mod frame;
mod frame_index;
mod frame_store;
mod lan_ports;
mod late;
mod next_delivery;
mod offering;
mod setup;
mod takers;
mod waiting;
mod wheel;

pub use bag::LanBag;
pub use frame::Sent;
pub use lan_step::{Lan, PortRow};
