//! The ends of a system: which end a TPDU belongs to, what is answered without one, and which references are free (X.224, class 4:
//! association of TPDUs with connections; frozen references).
#![tactic(auto)]

mod association;
mod entity;
mod laws;
mod references;
mod refusal;
mod silence;
mod steps;
mod unit;

pub use entity::TpEntity;
pub use laws::{one_answer, one_hearing, over_references, over_wires, separates_bundles};
pub use refusal::{ConnectRefusal, EntityRefusal, TsapRefusal};
