//! What the types of expressions and statements hang on: what written types stand for, the variables and functions that names stand for;
//! and which forms have types that are built.
#![tactic(auto)]

mod atoms;
mod built_forms;
mod code_environments;
mod form_contexts;
mod locals;
mod signatures;
mod unbuilt;
mod variables;
mod written_types;

pub use atoms::{c_comparison, is_long, is_value};
pub use code_environments::{CodeEnvironment, code_environment};
pub use locals::locals_of;
pub use signatures::{Signature, ValueTypes, Variable};
pub use unbuilt::unbuilt_in;
pub use variables::{Signatures, Variables, gives_of, param_type, result_type};
pub use written_types::first_type;
