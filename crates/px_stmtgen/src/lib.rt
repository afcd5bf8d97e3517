//! The code of statements and functions.
#![tactic(auto)]

mod endings;
mod functions;
mod layouts;
mod object_numbers;
mod printing;
mod setting;
mod sizes;
mod statements;

pub use functions::function;
pub use layouts::Layout;
pub use object_numbers::objects;
pub use sizes::{body_objects, body_places, registers};
pub use statements::statement;
