//! Simple statements (Python Language Reference, 7 Simple statements).

ghost use Rattle.std.specs.Prelude.{◌<◌, length};
ghost use Rattle.px_lexer.specs.Terminals.{terminals_of};
ghost use Rattle.px_parser.specs.Ends.{EndsSimple};
ghost use Rattle.px_parser.specs.Listings.{IsListing};
ghost use Rattle.px_parser.specs.Parts.{RaisedText};
ghost use Rattle.px_parser.specs.Readings.{ReadsFlat, Anywhere};
ghost use Rattle.px_parser.specs.StatementGrammar.{Return, Raise, Global as GlobalForm, SimpleForm, Simple, Line};

use crate::exprs::{NESTING_LIMIT, values};
use crate::names::names;
use crate::readings::Found;
use crate::targets::assigned_form;
use crate::words::{
    ends_simple, identifier, is_newline, keep_before_simple_end, keyword, newline, operator,
};
use px_exprs::grammar;
use px_exprs::readings::Unread;
use px_lexer::access::{is_operator, keyword_at, place};
use px_lexer::{Keyword, Operator, Tokens};
use px_tree::{Expr, Stmt, StmtForm, room_for_one};
use sqlite_items::{Boxed, Items};
use std::alloc::Global;

/// `return`, with or without expressions.
///
/// # Errors
/// As `simple`.
fn return_form(alloc: Global, tokens: &Tokens, from: usize) -> Result<Found<StmtForm>, Unread>
    requires input { IsListing tokens.now }
    requires inside { from < length tokens.now.list }
    ensures { ReadsFlat Return EndsSimple (terminals_of tokens.now) from result }
{
    let word = keyword(tokens, from, Keyword::Return)?;
    if ends_simple(tokens, word.to) {
        return Ok(Found {
            tree: StmtForm::Return(None),
            to: word.to,
        });
    }
    let value = values(alloc, tokens, word.to)?;
    keep_before_simple_end(tokens, StmtForm::Return(Some(value.tree)), value.to)
}

/// The text of a `raise` in its brackets, which may be empty.
///
/// # Errors
/// As `simple`.
fn raised_text(
    alloc: Global,
    tokens: &Tokens,
    from: usize,
) -> Result<Found<Option<Boxed<Expr>>>, Unread>
    requires input { IsListing tokens.now }
    requires inside { from < length tokens.now.list }
    ensures { ReadsFlat RaisedText Anywhere (terminals_of tokens.now) from result }
{
    let opening = operator(tokens, from, Operator::OpenParenthesis)?;
    if is_operator(tokens, opening.to, Operator::CloseParenthesis) {
        return Ok(Found {
            tree: None,
            to: opening.to + 1,
        });
    }
    let text = grammar::expr(alloc, tokens, NESTING_LIMIT - 1, opening.to)?;
    let text_to = text.to;
    let text_tree = Boxed::new(alloc, text.tree)?;
    let closing = operator(tokens, text_to, Operator::CloseParenthesis)?;
    Ok(Found {
        tree: Some(text_tree),
        to: closing.to,
    })
}

/// `raise` with a kind, and a text or none.
///
/// # Errors
/// As `simple`.
fn raise_form(alloc: Global, tokens: &Tokens, from: usize) -> Result<Found<StmtForm>, Unread>
    requires input { IsListing tokens.now }
    requires inside { from < length tokens.now.list }
    ensures { ReadsFlat Raise EndsSimple (terminals_of tokens.now) from result }
{
    let word = keyword(tokens, from, Keyword::Raise)?;
    let kind = identifier(alloc, tokens, word.to)?;
    if !is_operator(tokens, kind.to, Operator::OpenParenthesis) {
        return keep_before_simple_end(tokens, StmtForm::Raise(kind.tree, None), kind.to);
    }
    let text = raised_text(alloc, tokens, kind.to)?;
    keep_before_simple_end(tokens, StmtForm::Raise(kind.tree, text.tree), text.to)
}

/// `global` with its names.
///
/// # Errors
/// As `simple`.
fn global(alloc: Global, tokens: &Tokens, from: usize) -> Result<Found<StmtForm>, Unread>
    requires input { IsListing tokens.now }
    requires inside { from < length tokens.now.list }
    ensures { ReadsFlat GlobalForm EndsSimple (terminals_of tokens.now) from result }
{
    let word = keyword(tokens, from, Keyword::Global)?;
    let found = names(alloc, tokens, word.to, Operator::Comma)?;
    keep_before_simple_end(tokens, StmtForm::Global(found.tree), found.to)
}

/// What a simple statement says.
///
/// # Errors
/// As `simple`.
fn simple_form(alloc: Global, tokens: &Tokens, from: usize) -> Result<Found<StmtForm>, Unread>
    requires input { IsListing tokens.now }
    requires inside { from < length tokens.now.list }
    ensures { ReadsFlat SimpleForm EndsSimple (terminals_of tokens.now) from result }
{
    let Some(word) = keyword_at(tokens, from) else {
        return assigned_form(alloc, tokens, from);
    };
    match word {
        Keyword::Pass => keep_before_simple_end(tokens, StmtForm::Pass, from + 1),
        Keyword::Break => keep_before_simple_end(tokens, StmtForm::Break, from + 1),
        Keyword::Continue => keep_before_simple_end(tokens, StmtForm::Continue, from + 1),
        Keyword::Return => return_form(alloc, tokens, from),
        Keyword::Raise => raise_form(alloc, tokens, from),
        Keyword::Global => global(alloc, tokens, from),
        _ => assigned_form(alloc, tokens, from),
    }
}

/// The simple statement from an index on.
///
/// # Errors
/// `Stuck` at the first token with which none begins, or behind it where neither a `;` nor the end of the line stands there;
/// `TooDeep` where an expression is nested too deep; `NoMemory` where there is no memory for the tree.
pub(crate) fn simple(alloc: Global, tokens: &Tokens, from: usize) -> Result<Found<Stmt>, Unread>
    requires input { IsListing tokens.now }
    requires inside { from < length tokens.now.list }
    ensures { ReadsFlat Simple EndsSimple (terminals_of tokens.now) from result }
{
    let found = simple_form(alloc, tokens, from)?;
    Ok(Found {
        tree: Stmt {
            number: found.to as u32,
            at: place(tokens, from),
            form: found.tree,
        },
        to: found.to,
    })
}

/// The simple statements of the line from an index on.
///
/// # Errors
/// As `simple`.
pub(crate) fn line(
    alloc: Global,
    tokens: &Tokens,
    from: usize,
) -> Result<Found<Items<Stmt>>, Unread>
    requires input { IsListing tokens.now }
    requires inside { from < length tokens.now.list }
    ensures { ReadsFlat Line Anywhere (terminals_of tokens.now) from result }
{
    let mut tree = room_for_one(alloc)?;
    let first = simple(alloc, tokens, from)?;
    tree.push(first.tree)?;
    let mut to = first.to;
    while is_operator(tokens, to, Operator::Semicolon) && !is_newline(tokens, to + 1) {
        let next = simple(alloc, tokens, to + 1)?;
        tree.push(next.tree)?;
        to = next.to;
    }
    if is_operator(tokens, to, Operator::Semicolon) {
        to += 1;
    }
    let end = newline(tokens, to)?;
    Ok(Found { tree, to: end.to })
}
