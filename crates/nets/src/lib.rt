//! Gate nets without feedback, worked under any algebra of transients, and their records.

#![tactic(auto)]

pub mod arrivals;
pub mod call;
pub mod fault;
pub mod net;
pub(crate) mod records;
pub(crate) mod request;
pub mod told;
pub mod wire;
