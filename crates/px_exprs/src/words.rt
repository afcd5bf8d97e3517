ghost use Rattle.std.specs.Prelude.{◌≡◌, ℕ, List, ◌<◌, slice_range, Contains, IsTrue, IsUtf8, IfOk, MatchOption, ◌↔◌};
ghost use Rattle.std.specs.Str.{chars};
ghost use Rattle.px_lexer.specs.declared.spelling.Keyword.{Keyword};
ghost use Rattle.px_lexer.specs.declared.spelling.Operator.{Operator};
ghost use Rattle.px_lexer.specs.declared.spelling.Operator.TheVariants as sign;
ghost use Rattle.px_lexer.specs.declared.token_list.TokenKind.{TokenKind};
ghost use Rattle.px_lexer.specs.declared.token_list.TokenKind.TheVariants as kind;
ghost use Rattle.px_lexer.specs.Terminals.{IsName, terminals_of};
ghost use Rattle.px_exprs.specs.Inputs.{IsInput};
ghost use Rattle.px_exprs.specs.Words.{IsOne, are_ascii, IsNamed, IsBehind};
ghost use Rattle.px_exprs.specs.Readings.{EndsElement};
ghost use Rattle.px_exprs.specs.Codes.{code_at, word_code, sign_code, begins_code};

use crate::readings::Unread;
use px_base::{Chars, Sequence};
use px_lexer::access::{is_operator, kind_at};
use px_lexer::{Keyword, Operator, Token, TokenKind, Tokens};
use std::alloc::{AllocError, Global};

/// The bytes that a token is spelled with.
fn spelling<'a>(tokens: &'a Tokens, token: &Token) -> &'a [u8]
    requires input { IsInput tokens.now }
    requires known { Contains tokens.now.list token.now }
    ensures { result.now ≡ slice_range tokens.now.text token.now.from token.now.to }
{
    &tokens.text.as_slice()[token.from as usize..token.to as usize]
}

/// The bytes of the identifier at an index, if one stands there.
fn name_at(tokens: &Tokens, at: usize) -> Option<&[u8]>
    requires { IsInput tokens.now }
    ensures { MatchOption result ((name : List ℕ) → IsName (terminals_of tokens.now) at name → ⊥) (λ bytes. IsUtf8 bytes.now × IsName (terminals_of tokens.now) at (chars bytes.now)) }
{
    match tokens.list.as_slice().get(at) {
        Some(token) => match token.kind {
            TokenKind::Name => Some(spelling(tokens, token)),
            _ => None,
        },
        None => None,
    }
}

/// Whether the identifier with this spelling, which is ASCII, stands at an index.
pub fn is_word(tokens: &Tokens, at: usize, word: &[u8]) -> bool
    requires input { IsInput tokens.now }
    requires ascii { IsTrue (are_ascii word.now) }
    ensures { IsTrue result ↔ (IsName (terminals_of tokens.now) at word.now) }
{
    match name_at(tokens, at) {
        Some(found) => found == word,
        None => false,
    }
}

/// Whether the number that is spelled `1` stands at an index.
pub fn is_one(tokens: &Tokens, at: usize) -> bool
    requires { IsInput tokens.now }
    ensures { IsTrue result ↔ (IsOne (terminals_of tokens.now) at) }
{
    match tokens.list.as_slice().get(at) {
        Some(token) => match token.kind {
            TokenKind::Number(value) => { value == 1 && spelling(tokens, token) == b"1".as_slice() }
            _ => false,
        },
        None => false,
    }
}

/// The characters of the identifier at an index.
///
/// # Errors
/// `Stuck` there where none stands; `NoMemory` where there is no memory for it.
pub fn name(alloc: Global, tokens: &Tokens, at: usize) -> Result<Chars, Unread>
    requires { IsInput tokens.now }
    ensures { IsNamed (terminals_of tokens.now) at result }
{
    match name_at(tokens, at) {
        Some(bytes) => Ok(characters(alloc, bytes)?),
        None => Err(Unread::Stuck(at)),
    }
}

/// The characters that bytes of a text are.
fn characters(alloc: Global, bytes: &[u8]) -> Result<Chars, AllocError>
    requires { IsUtf8 bytes.now }
    ensures { IfOk result (λ found. found ≡ chars bytes.now) }
{
    let Ok(text) = str::from_utf8(bytes) else {
        unreachable!()
    };
    let found = text.chars().collect(alloc)?;
    Ok(Sequence::from_vec(found))
}

/// The index behind this operator, which stands at an index.
///
/// # Errors
/// `Stuck` there where it doesn't.
pub fn behind(tokens: &Tokens, at: usize, operator: Operator) -> Result<usize, Unread>
    requires { IsInput tokens.now }
    ensures { IsBehind (terminals_of tokens.now) at operator result }
{
    if is_operator(tokens, at, operator) {
        Ok(at + 1)
    } else {
        Err(Unread::Stuck(at))
    }
}

/// Whether a comma or this closing bracket stands at an index.
pub fn ends_element(tokens: &Tokens, at: usize, closing: Operator) -> bool
    ensures { IsTrue result ↔ (EndsElement closing (terminals_of tokens.now) at) }
{
    is_operator(tokens, at, Operator::Comma) || is_operator(tokens, at, closing)
}

/// Whether an expression begins with the token at an index.
pub fn begins_expr(tokens: &Tokens, at: usize) -> bool
    ensures { result ≡ begins_code (code_at (terminals_of tokens.now) at) }
{
    let Some(found) = kind_at(tokens, at) else {
        return false;
    };
    match found {
        TokenKind::Name => true,
        TokenKind::Number(_) => true,
        TokenKind::Text(_) => true,
        TokenKind::Keyword(word) => begins_with_keyword(*word),
        TokenKind::Operator(sign) => begins_with_operator(*sign),
        _ => false,
    }
}

/// Whether an expression begins with this keyword.
fn begins_with_keyword(word: Keyword) -> bool
    ensures { result ≡ begins_code (word_code word) }
{
    match word {
        Keyword::False => true,
        Keyword::None => true,
        Keyword::True => true,
        Keyword::Not => true,
        Keyword::Sizeof => true,
        _ => false,
    }
}

/// Whether an expression begins with this operator.
fn begins_with_operator(sign: Operator) -> bool
    ensures { result ≡ begins_code (sign_code sign) }
{
    match sign {
        Operator::Plus => true,
        Operator::Minus => true,
        Operator::Tilde => true,
        Operator::Less => true,
        Operator::OpenParenthesis => true,
        Operator::OpenBracket => true,
        Operator::OpenBrace => true,
        _ => false,
    }
}
