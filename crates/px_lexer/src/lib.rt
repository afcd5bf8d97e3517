//! From the bytes of a module to its tokens.
//!
//! The rules follow section 2, Lexical analysis, of the Python Language Reference, where this language's own rules don't
//! say otherwise.
#![tactic(auto)]

pub mod access;
mod characters;
mod forms;
pub mod laws;
pub mod lexing;
mod numbers;
mod parts;
mod places;
mod reader;
mod readings;
mod signs;
mod spelling;
mod strays;
mod string_content;
mod strings;
mod token_list;
mod words;

pub use spelling::{Keyword, Operator};
pub use token_list::{Comment, Comments, Token, TokenKind, TokenList, Tokens};
