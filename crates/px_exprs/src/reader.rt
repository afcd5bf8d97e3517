ghost use Rattle.std.specs.Prelude.{◌≡◌, ◌<◌, ◌≤◌, length, IfOk};
ghost use Rattle.px_base.specs.declared.refusals.Trouble.TheVariants.{Refused};
ghost use Rattle.px_base.specs.declared.refusals.Refusal.{Refusal};
ghost use Rattle.px_base.specs.Troubles.{IfRefused};
ghost use Rattle.px_lexer.specs.Tokens.{IsTokens};
ghost use Rattle.px_lexer.specs.Terminals.{terminals_of};
ghost use Rattle.px_exprs.specs.Runs.{nesting_limit, IsRead, IsRefusalAt, IsExpressionRefused};

use crate::grammar::expr;
use crate::readings::Unread;
use px_base::{Refusal, Trouble};
use px_lexer::Tokens;
use px_lexer::access::place;
use px_tree::Expr;
use std::alloc::Global;

/// The greatest nesting of an expression.
const NESTING_LIMIT: usize = 64;

/// The refusal with this number at the token with this index.
fn refuse(tokens: &Tokens, number: u8, at: usize) -> Trouble
    requires { at < length tokens.now.list }
    ensures { (refusal : Refusal) × (result ≡ Refused refusal) × IsRefusalAt (terminals_of tokens.now) number at refusal }
{
    let span = place(tokens, at);
    Trouble::Refused(Refusal {
        number,
        line: span.line,
        column: span.column,
    })
}

/// The expression from an index on, and the index of the token behind it. It is the longest run of tokens with which some
/// expression begins, even where a shorter one is whole (Python Language Reference, 6 Expressions).
///
/// # Errors
/// E6 at the first bracket or operator such that each expression that begins with the tokens up to it is nested deeper than 64;
/// and where there is none and the run is no expression, E5 at the token behind it. `NoMemory` where there is no memory for the
/// tree.
pub fn expression(alloc: Global, tokens: &Tokens, from: usize) -> Result<(Expr, usize), Trouble>
    requires lexed { IsTokens tokens.now.text tokens.now.list tokens.now.comments }
    requires inside { from < length tokens.now.list }
    ensures read { IfOk result (λ found. IsRead nesting_limit (terminals_of tokens.now) from found.0 found.1) }
    ensures refused { IfRefused result (IsExpressionRefused nesting_limit (terminals_of tokens.now) from) }
{
    expression_within(alloc, tokens, NESTING_LIMIT, from)
}

/// The expression from an index on that stands in other nesting, so that only so much is left for its own; else as `expression`.
///
/// # Errors
/// As `expression`, with `limit` for 64.
pub fn expression_within(
    alloc: Global,
    tokens: &Tokens,
    limit: usize,
    from: usize,
) -> Result<(Expr, usize), Trouble>
    requires lexed { IsTokens tokens.now.text tokens.now.list tokens.now.comments }
    requires inside { from < length tokens.now.list }
    requires bounded { limit ≤ nesting_limit }
    ensures read { IfOk result (λ found. IsRead limit (terminals_of tokens.now) from found.0 found.1) }
    ensures refused { IfRefused result (IsExpressionRefused limit (terminals_of tokens.now) from) }
{
    match expr(alloc, tokens, limit, from) {
        Ok(read) => Ok((read.tree, read.to)),
        Err(Unread::Stuck(at)) => Err(refuse(tokens, 5, at)),
        Err(Unread::TooDeep(at)) => Err(refuse(tokens, 6, at)),
        Err(Unread::NoMemory) => Err(Trouble::NoMemory),
    }
}
