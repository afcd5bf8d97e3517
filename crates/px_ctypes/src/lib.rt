//! The arithmetic of the C integer types, on whole numbers.
#![tactic(auto)]

mod conversions;
mod division;
mod faults;
mod laws;
mod operators;
mod types;
mod wrapping;

pub use conversions::{common, convert, from_object, promoted};
pub use laws::{
    bitwise_by_words, common_type_holds_operands, division_is_exact,
    division_overflows_at_minus_one, quotient_and_remainder_give_back, wrapping_is_exact,
    wrapping_on_the_way,
};
pub use operators::{binary, compare, unary};
pub use types::size_of;
pub use wrapping::wrap;
