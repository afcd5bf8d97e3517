//! Single tokens.

ghost use Rattle.std.specs.Prelude.{◌≡◌, ◌+◌, ◌<◌, length, IsTrue, IsFalse, MatchResult, ◌↔◌};
ghost use Rattle.px_lexer.specs.declared.spelling.Keyword.{Keyword};
ghost use Rattle.px_lexer.specs.declared.spelling.Operator.{Operator};
ghost use Rattle.px_lexer.specs.declared.token_list.TokenKind.TheVariants as kind;
ghost use Rattle.px_lexer.specs.Terminals.{HasKind, IsOperator, terminals_of};
ghost use Rattle.px_exprs.specs.Codes.{code_at, word_code, sign_code, ends_exprs_code};
ghost use Rattle.px_exprs.specs.Words.{are_ascii, IsStuckAt};
ghost use Rattle.px_parser.specs.Listings.{IsListing};
ghost use Rattle.px_parser.specs.Readings.{ReadsFlat, ReadsTokens, Anywhere};
ghost use Rattle.px_parser.specs.Shapes.{Token, Word, Sign, Name, Soft};
ghost use Rattle.px_parser.specs.Ends.{EndsSimple};

use crate::readings::Found;
use px_base::Chars;
use px_exprs::readings::Unread;
use px_exprs::words::{is_word, name};
use px_lexer::access::{is_keyword, is_operator, kind_at};
use px_lexer::{Keyword, Operator, TokenKind, Tokens};
use std::alloc::Global;

/// Whether the end of a logical line stands at an index.
pub(crate) fn is_newline(tokens: &Tokens, at: usize) -> bool
    ensures { IsTrue result ↔ (HasKind (terminals_of tokens.now) at kind.Newline) }
{
    match kind_at(tokens, at) {
        Some(TokenKind::Newline) => true,
        _ => false,
    }
}

/// Whether a deeper line begins at an index.
pub(crate) fn is_indent(tokens: &Tokens, at: usize) -> bool
    ensures { IsTrue result ↔ (HasKind (terminals_of tokens.now) at kind.Indent) }
{
    match kind_at(tokens, at) {
        Some(TokenKind::Indent) => true,
        _ => false,
    }
}

/// Whether a level of indentation is left at an index.
pub(crate) fn is_dedent(tokens: &Tokens, at: usize) -> bool
    ensures { IsTrue result ↔ (HasKind (terminals_of tokens.now) at kind.Dedent) }
{
    match kind_at(tokens, at) {
        Some(TokenKind::Dedent) => true,
        _ => false,
    }
}

/// Whether the text ends at an index.
pub(crate) fn is_end(tokens: &Tokens, at: usize) -> bool
    ensures { IsTrue result ↔ (HasKind (terminals_of tokens.now) at kind.End) }
{
    match kind_at(tokens, at) {
        Some(TokenKind::End) => true,
        _ => false,
    }
}

/// The token at an index, where it is the one that is asked for.
///
/// # Errors
/// `Stuck` there where it isn't.
fn token(at: usize, stands: bool) -> Result<Found<()>, Unread>
    requires { IsTrue stands → at < 4294967296 }
    ensures { MatchResult result (λ found. IsTrue stands × (found.to ≡ at + 1)) (λ unread. IsFalse stands × IsStuckAt at unread) }
{
    if stands {
        Ok(Found {
            tree: (),
            to: at + 1,
        })
    } else {
        Err(Unread::Stuck(at))
    }
}

/// This operator.
///
/// # Errors
/// `Stuck` where it doesn't stand there.
pub(crate) fn operator(tokens: &Tokens, at: usize, sign: Operator) -> Result<Found<()>, Unread>
    requires input { IsListing tokens.now }
    requires inside { at < length tokens.now.list }
    ensures { ReadsTokens (Sign sign) Anywhere (terminals_of tokens.now) at result }
{
    token(at, is_operator(tokens, at, sign))
}

/// This keyword.
///
/// # Errors
/// `Stuck` where it doesn't stand there.
pub(crate) fn keyword(tokens: &Tokens, at: usize, word: Keyword) -> Result<Found<()>, Unread>
    requires input { IsListing tokens.now }
    requires inside { at < length tokens.now.list }
    ensures { ReadsTokens (Word word) Anywhere (terminals_of tokens.now) at result }
{
    token(at, is_keyword(tokens, at, word))
}

/// The identifier with this spelling, which is ASCII.
///
/// # Errors
/// `Stuck` where it doesn't stand there.
pub(crate) fn soft(tokens: &Tokens, at: usize, word: &[u8]) -> Result<Found<()>, Unread>
    requires input { IsListing tokens.now }
    requires inside { at < length tokens.now.list }
    requires ascii { IsTrue (are_ascii word.now) }
    ensures { ReadsTokens (Soft word.now) Anywhere (terminals_of tokens.now) at result }
{
    token(at, is_word(tokens, at, word))
}

/// The end of a logical line.
///
/// # Errors
/// `Stuck` where it doesn't stand there.
pub(crate) fn newline(tokens: &Tokens, at: usize) -> Result<Found<()>, Unread>
    requires input { IsListing tokens.now }
    requires inside { at < length tokens.now.list }
    ensures { ReadsTokens (Token kind.Newline) Anywhere (terminals_of tokens.now) at result }
{
    token(at, is_newline(tokens, at))
}

/// The beginning of a deeper line.
///
/// # Errors
/// `Stuck` where it doesn't stand there.
pub(crate) fn indent(tokens: &Tokens, at: usize) -> Result<Found<()>, Unread>
    requires input { IsListing tokens.now }
    requires inside { at < length tokens.now.list }
    ensures { ReadsTokens (Token kind.Indent) Anywhere (terminals_of tokens.now) at result }
{
    token(at, is_indent(tokens, at))
}

/// The end of a level of indentation.
///
/// # Errors
/// `Stuck` where it doesn't stand there.
pub(crate) fn dedent(tokens: &Tokens, at: usize) -> Result<Found<()>, Unread>
    requires input { IsListing tokens.now }
    requires inside { at < length tokens.now.list }
    ensures { ReadsTokens (Token kind.Dedent) Anywhere (terminals_of tokens.now) at result }
{
    token(at, is_dedent(tokens, at))
}

/// An identifier.
///
/// # Errors
/// `Stuck` where none stands there; `NoMemory` where there is no memory for its characters.
pub(crate) fn identifier(alloc: Global, tokens: &Tokens, at: usize) -> Result<Found<Chars>, Unread>
    requires input { IsListing tokens.now }
    requires inside { at < length tokens.now.list }
    ensures { ReadsFlat Name Anywhere (terminals_of tokens.now) at result }
{
    let tree = name(alloc, tokens, at)?;
    Ok(Found { tree, to: at + 1 })
}

/// Whether a list of expressions may end before the token at an index: it neither begins an expression nor goes on with one, and is
/// no comma.
pub(crate) fn ends_exprs(tokens: &Tokens, at: usize) -> bool
    ensures { result ≡ ends_exprs_code (code_at (terminals_of tokens.now) at) }
{
    let Some(found) = kind_at(tokens, at) else {
        return true;
    };
    match found {
        TokenKind::Name => false,
        TokenKind::Number(_) => false,
        TokenKind::Text(_) => false,
        TokenKind::Keyword(word) => ends_before_keyword(*word),
        TokenKind::Operator(sign) => ends_before_operator(*sign),
        _ => true,
    }
}

/// Whether a list of expressions may end before this keyword.
fn ends_before_keyword(word: Keyword) -> bool
    ensures { result ≡ ends_exprs_code (word_code word) }
{
    match word {
        Keyword::True => false,
        Keyword::False => false,
        Keyword::None => false,
        Keyword::Sizeof => false,
        Keyword::In => false,
        Keyword::Not => false,
        Keyword::Is => false,
        Keyword::And => false,
        Keyword::Or => false,
        Keyword::If => false,
        Keyword::Else => false,
        _ => true,
    }
}

/// Whether a list of expressions may end before this operator.
fn ends_before_operator(sign: Operator) -> bool
    ensures { result ≡ ends_exprs_code (sign_code sign) }
{
    match sign {
        Operator::Point => false,
        Operator::OpenBrace => false,
        Operator::OpenParenthesis => false,
        Operator::OpenBracket => false,
        Operator::Tilde => false,
        Operator::Star => false,
        Operator::DoubleSlash => false,
        Operator::Percent => false,
        Operator::Plus => false,
        Operator::Minus => false,
        Operator::LeftShift => false,
        Operator::RightShift => false,
        Operator::Ampersand => false,
        Operator::Caret => false,
        Operator::Bar => false,
        Operator::Less => false,
        Operator::Greater => false,
        Operator::LessEqual => false,
        Operator::GreaterEqual => false,
        Operator::DoubleEqual => false,
        Operator::NotEqual => false,
        Operator::Comma => false,
        _ => true,
    }
}

/// Whether a simple statement ends before the token at an index.
pub(crate) fn ends_simple(tokens: &Tokens, at: usize) -> bool
    ensures { IsTrue result ↔ (EndsSimple (terminals_of tokens.now) at) }
{
    is_operator(tokens, at, Operator::Semicolon) || is_newline(tokens, at)
}

/// What was read, where it may end.
///
/// # Errors
/// `Stuck` behind it where it may not.
pub(crate) fn keep_if<T: Drop>(tree: T, to: usize, may_end: bool) -> Result<Found<T>, Unread>
    ensures { MatchResult result
        (λ found. IsTrue may_end × (found.tree ≡ tree) × (found.to ≡ to))
        (λ unread. IsFalse may_end × IsStuckAt to unread) }
{
    if may_end {
        Ok(Found { tree, to })
    } else {
        Err(Unread::Stuck(to))
    }
}

/// A tree that was read, where a simple statement ends behind it.
///
/// # Errors
/// `Stuck` where none ends there.
pub(crate) fn keep_before_simple_end<T: Drop>(
    tokens: &Tokens,
    tree: T,
    to: usize,
) -> Result<Found<T>, Unread>
    ensures { MatchResult result
        (λ found. (found.tree ≡ tree) × (found.to ≡ to) × EndsSimple (terminals_of tokens.now) to)
        (λ unread. IsStuckAt to unread × (EndsSimple (terminals_of tokens.now) to → ⊥)) }
{
    if ends_simple(tokens, to) {
        Ok(Found { tree, to })
    } else {
        Err(Unread::Stuck(to))
    }
}
