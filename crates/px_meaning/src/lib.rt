//! What modules mean.
#![tactic(auto)]

pub mod laws;
