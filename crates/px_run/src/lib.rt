//! The run of a module on its main member.
#![tactic(auto)]

mod run;

pub use run::run_module;
