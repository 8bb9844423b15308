//! A network of transport entities over a carrier that loses nothing and keeps order: what its users may rely on, as long as nothing is dropped
//! (X.214, service primitives; queue model of the transport service).
#![tactic(auto)]

mod laws;

pub use laws::{
    confirms, confirms_on_wire, has_pairs, has_pairs_on_wire, indicates, indicates_on_wire,
};
