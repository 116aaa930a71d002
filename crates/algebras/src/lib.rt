//! Transients of gate nets, the kinds of gate, and the algebras that grade transients.

#![tactic(auto)]

pub mod algebra;
pub mod counted;
mod counting;
pub mod eight;
pub mod five;
pub mod hearing;
pub mod kind;
pub mod telling;
pub mod transient;
pub mod verdict;
