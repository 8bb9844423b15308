//! One end of a class 4 connection (X.224, class 4 procedures and state tables).
#![tactic(auto)]

mod ak_wait;
mod call;
mod closing;
mod connection;
mod cr_wait;
mod end_record;
mod halves;
mod inactivity;
mod laws;
mod looks;
mod matching;
mod opened;
mod proposed;
mod refusal;
mod release;
mod state_table;
mod states;
mod timers;
mod user_wait;
mod wait_before_close;

pub use call::{CallRefusal, ConnectCall, ConnectRequest, UserCall};
pub use connection::Connection;
pub use end_record::EndRecord;
pub use halves::{BoxedHalves, Halves};
pub use laws::{over_dues, over_lives, over_sendings, over_sizes, over_wires, worked_rows};
pub use looks::{Counted, Looks, Uncounted};
pub use proposed::Proposed;
pub use states::{InAkWait, InClosing, InCrWait, InOpened, InWaitBeforeClose, StateData};
pub use timers::Timers;
