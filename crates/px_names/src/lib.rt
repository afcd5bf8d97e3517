//! The phase of names: what each name of a module stands for, by the parameters, declarations, assignments, functions and imports of
//! its text, and the directives of its leading comments and decorators.
#![tactic(auto)]

mod arguments;
mod callees;
mod calls;
mod comments;
mod contexts;
mod decorators;
mod directives;
mod gathering;
mod imports;
mod judging;
mod laws;
mod lookups;
mod meanings;
mod named;
mod naming;
mod rows;
mod settings;
mod tables;
mod texts;
mod words;

pub use callees::Callee;
pub use calls::is_call;
pub use contexts::{Context, Role, count_of_exception, count_of_result};
pub use laws::{named_modules_are_unique, names_stand_for_one};
pub use meanings::{Imported, LocalKind, Meaning};
pub use named::{Named, NamedCode, NamedFunctions, Scope};
pub use naming::{function_item, names};
pub use settings::{Directive, Directives};
