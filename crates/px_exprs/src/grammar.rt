//! The functions that read operands and elements take the reader of expressions as a parameter, so that each is proved by itself.

ghost use Rattle.std.specs.Prelude.{◌<◌, length};
ghost use Rattle.px_exprs.specs.Codes.{EndsUnary, EndsExpr};
ghost use Rattle.px_exprs.specs.Grammar.{IsExpr, IsPrimary};
ghost use Rattle.px_exprs.specs.Inputs.{IsInput};
ghost use Rattle.px_lexer.specs.Terminals.{terminals_of};
ghost use Rattle.px_exprs.specs.Readings.{Reads};

use crate::readings::{Read, Unread};
use px_lexer::Tokens;
use px_tree::Expr;
use std::alloc::Global;

/// The readers of the parts of an expression. Each reads the longest run of tokens from an index on with which its form begins.
/// `room` is the nesting that is left for it. Of an operand it isn't known yet whether a chain stands round it, so the first
/// operand has the chain's room, and its nesting is looked at where the first operator comes.
#[derive(Clone, Copy)]
pub(crate) struct Grammar<F> {
    pub(crate) alloc: Global,
    /// Reads an expression for which less room is left.
    pub(crate) nested: F,
}

/// The expression from an index on.
///
/// # Errors
/// `Stuck` or `TooDeep` at the first such token; `NoMemory` where there is no memory for the tree.
pub fn expr(alloc: Global, tokens: &Tokens, room: usize, from: usize) -> Result<Read<Expr>, Unread>
    requires input { IsInput tokens.now }
    requires inside { from < length tokens.now.list }
    ensures { Reads IsExpr EndsExpr (terminals_of tokens.now) from room result }
{
    Grammar {
        alloc,
        nested: expr,
    }
    .conditional(tokens, room, from)
}

/// The atom from an index on with the trailers behind it, without operators before or behind it.
///
/// # Errors
/// As `expr`.
pub fn primary(
    alloc: Global,
    tokens: &Tokens,
    room: usize,
    from: usize,
) -> Result<Read<Expr>, Unread>
    requires input { IsInput tokens.now }
    requires inside { from < length tokens.now.list }
    ensures { Reads IsPrimary EndsUnary (terminals_of tokens.now) from room result }
{
    Grammar {
        alloc,
        nested: expr,
    }
    .primary(tokens, room, from)
}
