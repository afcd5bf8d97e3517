ghost use Rattle.std.specs.Prelude.{◌≡◌};
ghost use Rattle.px_walk.specs.Nodes.{rose_of};
ghost use Rattle.px_walk.specs.Roses.{head_of, parts_of};
ghost use Rattle.px_environments.specs.Atoms.{atom_meaning, is_range, is_range_row, is_range_head};
ghost use Rattle.px_environments.specs.Kept.{environment_kept, variables_kept, signatures_kept};
ghost use Rattle.px_names.specs.Kept.{meanings_kept};

use crate::atoms::is_range;
use crate::signatures::Variable;
use crate::variables::{Signatures, Variables};
use px_names::{Meaning, NamedCode, Scope};
use px_tree::ValueType;
use px_walk::{Head, Node, TreeNode};

/// What the types of a function's code, or of module code, hang on.
#[derive(Clone, Copy)]
pub struct CodeEnvironment<'a> {
    pub scope: &'a Scope,
    pub variables: &'a Variables,
    pub functions: &'a Signatures,
    /// `//` and `%` truncate.
    pub cdivision: bool,
    /// The type of the function's result; module code has none.
    pub gives: Option<ValueType>,
}

impl<'a> CodeEnvironment<'a> {
    /// What the name of a number stands for.
    pub fn meaning(&self, number: u32) -> Option<Meaning>
        ensures { result ≡ (environment_kept self.now).meanings number }
    {
        self.scope.meaning(number)
    }

    /// The variable with the declaration of a number.
    pub fn variable(&self, number: u32) -> Option<Variable>
        ensures { result ≡ (environment_kept self.now).variables number }
    {
        self.variables.get(number)
    }

    /// What the name at the head of a row stands for.
    pub fn atom_meaning(&self, atom: TreeNode<'_>) -> Option<Meaning>
        ensures { result ≡ atom_meaning (environment_kept self.now) (rose_of atom.entry) }
    {
        match atom.head() {
            Head::Name(_) => self.meaning(atom.number()),
            _ => None,
        }
    }

    /// Whether a row calls `range`.
    pub fn is_range_row(&self, row: TreeNode<'_>) -> bool
        ensures { result ≡ is_range_row (environment_kept self.now) (parts_of (rose_of row.entry)) }
    {
        match row.get(0) {
            Some(atom) => is_range(self.atom_meaning(atom)),
            None => false,
        }
    }

    /// Whether an expression is a call of `range`.
    pub fn is_range_head(&self, node: TreeNode<'_>) -> bool
        ensures { result ≡ is_range_head (environment_kept self.now) (rose_of node.entry) (head_of (rose_of node.entry)) }
    {
        match node.head() {
            Head::Row => self.is_range_row(node),
            _ => false,
        }
    }
}

/// The environment of a function with these variables, or of module code.
pub fn code_environment<'a>(
    signatures: &'a Signatures,
    variables: &'a Variables,
    code: &'a NamedCode,
    gives: Option<ValueType>,
) -> CodeEnvironment<'a>
    ensures { environment_kept result ≡ record {
      meanings = meanings_kept code.now.scope;
      variables = variables_kept variables.now;
      functions = signatures_kept signatures.now;
      cdivision = code.now.directives.cdivision;
      gives = gives;
    } }
{
    CodeEnvironment {
        scope: &code.scope,
        variables,
        functions: signatures,
        cdivision: code.directives.cdivision,
        gives,
    }
}
