//! That the code of a module means the module, and that such a module has a meaning, as contracts of functions that do nothing.
#![tactic(auto)]

mod laws;
mod running;

pub use laws::{code_means_its_module, compiled_modules_have_outcomes};
pub use running::code_runs;
