//! The machine of register code.
#![tactic(auto)]

pub mod laws;
