//! What statements ask of expressions.

ghost use Rattle.std.specs.Prelude.{◌≡◌, IfOk, slice_get};
ghost use Rattle.px_walk.specs.Nodes.{rose_of};
ghost use Rattle.px_walk.specs.Roses.{at_of, parts_of};
ghost use Rattle.px_typed_walk.specs.TypedView.{rose_of_typed};
ghost use Rattle.px_operators.specs.Outcomes.{Gives};
ghost use Rattle.px_operators.specs.Kept.{parts_kept};
ghost use Rattle.px_typed_expressions.specs.Expressions.{expression, expression_at, operands_below};
ghost use Rattle.px_types.specs.Typers.{environment_of};

use px_base::{NoMemory, Trouble};
use px_environments::CodeEnvironment;
use px_operators::Part;
use px_tree::TypedTree;
use px_typed_expressions::ExpressionTyper;
use px_walk::TreeNode;
use std::alloc::Global;

/// What finds the types of a function's code, or of module code.
#[derive(Clone, Copy)]
pub(crate) struct Typer<'a> {
    pub(crate) alloc: Global,
    pub(crate) code: CodeEnvironment<'a>,
}

impl<'a> Typer<'a> {
    /// What a node is as parts of what stands round it.
    pub(crate) fn below(&self, node: TreeNode<'_>) -> Result<Vec<Part>, NoMemory>
        ensures { IfOk result (λ parts. parts_kept parts.items ≡ operands_below (environment_of self.now) (rose_of node.entry)) }
    {
        let typer = ExpressionTyper {
            alloc: self.alloc,
            code: self.code,
        };
        typer.below(node)
    }

    /// An expression.
    pub(crate) fn expression(&self, node: TreeNode<'_>) -> Result<TypedTree, Trouble>
        ensures { Gives rose_of_typed result (expression (environment_of self.now) (rose_of node.entry)) }
    {
        let typer = ExpressionTyper {
            alloc: self.alloc,
            code: self.code,
        };
        typer.expression(node)
    }

    /// The expression that is a part of a node.
    pub(crate) fn expression_at(&self, node: TreeNode<'_>, k: usize) -> Result<TypedTree, Trouble>
        ensures { Gives rose_of_typed result (expression_at (environment_of self.now) (at_of (rose_of node.entry)) (slice_get (parts_of (rose_of node.entry)) k)) }
    {
        let typer = ExpressionTyper {
            alloc: self.alloc,
            code: self.code,
        };
        typer.expression_at(node, k)
    }
}
