ghost use Rattle.std.specs.Prelude.{◌≡◌, MatchBool, MatchOption};
ghost use Rattle.px_tree.specs.Names.{IsFunctionName};

use px_base::{Chars, Sequence};
use std::marker::Model;

/// Names, in the order of the text.
pub type Names = Sequence<Chars>;

/// The name of a function: it is nonempty, and has neither a space nor LF.
#[derive(Drop)]
pub struct FunctionName {
    chars: Chars,
}

impl Model for FunctionName {
    ghost use Rattle.std.specs.Prelude.{ℕ, List};
    ghost use Rattle.px_tree.specs.Names.{IsFunctionName};

    ghost Value = { List ℕ };

    ghost view = { λ name. name.chars };

    ghost invariant = { λ name. IsFunctionName name.chars };
}

impl FunctionName {
    /// The name with these characters; none where it is empty, or has a space or LF.
    pub fn new(chars: Chars) -> Option<FunctionName>
        ensures { MatchOption result (IsFunctionName chars → ⊥) (λ name. name ≡ chars) }
    {
        if is_function_name(chars.as_slice()) {
            Some(FunctionName { chars })
        } else {
            None
        }
    }

    /// The characters of the name.
    pub fn as_slice(&self) -> &[char]
        ensures value { result.now ≡ self.now }
        ensures formed { IsFunctionName self.now }
    {
        self.chars.as_slice()
    }
}

/// Whether a function may have the name.
fn is_function_name(name: &[char]) -> bool
    ensures { MatchBool result (IsFunctionName name.now) (IsFunctionName name.now → ⊥) }
{
    !name.is_empty() && !name.contains(&' ') && !name.contains(&'\n')
}
