//! From the typed tree to the image of a module.
#![tactic(auto)]

mod coding;
mod fits;
mod laws;
mod modules;
mod statements;
mod trees;

pub use coding::codes;
pub use laws::{built_modules_have_outcomes, images_mean_their_modules, images_run};
pub use modules::unbuilt;
