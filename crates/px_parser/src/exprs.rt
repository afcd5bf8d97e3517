//! Expressions and lists of them.

ghost use Rattle.std.specs.Prelude.{◌≡◌, ◌<◌, ◌∷◌, length, Some, IfOk, MatchResult};
ghost use Rattle.px_lexer.specs.declared.spelling.Operator.TheVariants as sign;
ghost use Rattle.px_lexer.specs.declared.token_list.TokenKind.TheVariants as kind;
ghost use Rattle.px_base.specs.declared.refusals.Span.{Span};
ghost use Rattle.px_lexer.specs.Terminals.{IsAt, terminals_of};
ghost use Rattle.px_exprs.specs.Codes.{EndsExpr};
ghost use Rattle.px_exprs.specs.Words.{IsStuckAt};
ghost use Rattle.px_parser.specs.Listings.{IsListing};
ghost use Rattle.px_parser.specs.Readings.{ReadsFlat};
ghost use Rattle.px_parser.specs.Shapes.{Elements};
ghost use Rattle.px_parser.specs.StatementGrammar.{IsWithinLimit, Exprs, expr_list};
ghost use Rattle.px_parser.specs.Parts.{ExprsRead};
ghost use Rattle.px_parser.specs.Ends.{EndsExprs};

use crate::readings::Found;
use crate::words::ends_exprs;
use px_exprs::grammar;
use px_exprs::nodes::{node, prepend};
use px_exprs::readings::Unread;
use px_exprs::words::begins_expr;
use px_lexer::access::is_operator;
use px_lexer::{Operator, Tokens};
use px_tree::{Expr, ExprForm};
use sqlite_items::{Boxed, Items};
use std::alloc::{AllocError, Global};

/// The greatest nesting of an expression, and the greatest number of blocks round a token.
pub(crate) const NESTING_LIMIT: usize = 64;

/// The expression from an index on.
///
/// # Errors
/// `Stuck` or `TooDeep` at the first such token; `NoMemory` where there is no memory for the tree.
pub(crate) fn expr(alloc: Global, tokens: &Tokens, from: usize) -> Result<Found<Expr>, Unread>
    requires input { IsListing tokens.now }
    requires inside { from < length tokens.now.list }
    ensures { ReadsFlat IsWithinLimit EndsExpr (terminals_of tokens.now) from result }
{
    let read = grammar::expr(alloc, tokens, NESTING_LIMIT, from)?;
    Ok(Found {
        tree: read.tree,
        to: read.to,
    })
}

/// What was read, where a list of expressions may end behind it.
///
/// # Errors
/// `Stuck` where it can't.
fn keep_before_end<T: Drop>(tokens: &Tokens, tree: T, to: usize) -> Result<Found<T>, Unread>
    ensures { MatchResult result
        (λ found. (found.tree ≡ tree) × (found.to ≡ to) × EndsExprs (terminals_of tokens.now) to)
        (λ unread. IsStuckAt to unread × (EndsExprs (terminals_of tokens.now) to → ⊥)) }
{
    if ends_exprs(tokens, to) {
        Ok(Found { tree, to })
    } else {
        Err(Unread::Stuck(to))
    }
}

/// The expressions behind a comma from an index on, perhaps none.
///
/// # Errors
/// As `expr`; `Stuck` behind them too where a list of expressions can't end there.
fn others(alloc: Global, tokens: &Tokens, from: usize) -> Result<Found<Items<Expr>>, Unread>
    requires input { IsListing tokens.now }
    requires inside { from < length tokens.now.list }
    ensures { ReadsFlat (Elements (kind.Operator sign.Comma) IsWithinLimit) EndsExprs (terminals_of tokens.now) from result }
{
    let mut items = Items::new(alloc);
    let mut to = from;
    while begins_expr(tokens, to) {
        let next = expr(alloc, tokens, to)?;
        items.push(next.tree)?;
        if !is_operator(tokens, next.to, Operator::Comma) {
            return keep_before_end(tokens, items, next.to);
        }
        to = next.to + 1;
    }
    keep_before_end(tokens, items, to)
}

/// The list of these expressions: the first, at an index, and others behind the comma at another.
///
/// # Errors
/// `AllocError` where there is no memory for it.
pub(crate) fn list(
    alloc: Global,
    tokens: &Tokens,
    from: usize,
    first: Boxed<Expr>,
    comma: usize,
    others: Items<Expr>,
) -> Result<Expr, AllocError>
    requires input { IsListing tokens.now }
    requires inside { from < length tokens.now.list }
    requires behind { comma < length tokens.now.list }
    ensures { IfOk result (λ made. (at : Span) × IsAt (terminals_of tokens.now) from at × (made ≡ expr_list at first comma (Some others))) }
{
    let items = prepend(alloc, first, others)?;
    Ok(node(tokens, comma, from, ExprForm::Tuple(items)))
}

/// The expressions from an index on, and whether they are one expression without a comma.
///
/// # Errors
/// As `expr`; `Stuck` behind them too where a list of expressions can't end there.
pub(crate) fn exprs(
    alloc: Global,
    tokens: &Tokens,
    from: usize,
) -> Result<Found<(Expr, bool)>, Unread>
    requires input { IsListing tokens.now }
    requires inside { from < length tokens.now.list }
    ensures { ReadsFlat ExprsRead EndsExprs (terminals_of tokens.now) from result }
{
    let first = expr(alloc, tokens, from)?;
    let comma = first.to;
    if !is_operator(tokens, comma, Operator::Comma) {
        return keep_before_end(tokens, (first.tree, true), comma);
    }
    let first_tree = Boxed::new(alloc, first.tree)?;
    let others = others(alloc, tokens, comma + 1)?;
    let tree = list(alloc, tokens, from, first_tree, comma, others.tree)?;
    Ok(Found {
        tree: (tree, false),
        to: others.to,
    })
}

/// The expressions from an index on.
///
/// # Errors
/// As `exprs`.
pub(crate) fn values(alloc: Global, tokens: &Tokens, from: usize) -> Result<Found<Expr>, Unread>
    requires input { IsListing tokens.now }
    requires inside { from < length tokens.now.list }
    ensures { ReadsFlat Exprs EndsExprs (terminals_of tokens.now) from result }
{
    let found = exprs(alloc, tokens, from)?;
    Ok(Found {
        tree: found.tree.0,
        to: found.to,
    })
}
