//! The nodes of the typed tree that values become: conversions into the types that are asked for, and operators on operands in their
//! common type.
#![tactic(auto)]

mod conversions;
mod fittings;
mod gathering;
mod laws;
mod operands;
mod operators;

pub use conversions::{as_objects, fitted, fitted_each, in_c, tested, valued};
pub use gathering::{
    Gathered, Part, all_parts, both, leaf, made, one, part_of, refused, refused_with, two, unbuilt,
};
pub use laws::{chain_types, conversions_are_needed, operands_have_their_types, operator_types};
pub use operands::{Operand, as_operand, as_operands, given};
pub use operators::{
    Logic, binary_step, chain_of, common_of, comparison_of, conditional_of, in_common, logic_of,
    not_of, only, only_part, unary_of,
};
