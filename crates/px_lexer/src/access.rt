ghost use Rattle.std.specs.Prelude.{◌≡◌, ℕ, List, ◌<◌, ◌↔◌, length, IsTrue, MatchOption};
ghost use Rattle.px_lexer.specs.declared.spelling.Keyword.{Keyword};
ghost use Rattle.px_lexer.specs.declared.spelling.Operator.{Operator};
ghost use Rattle.px_lexer.specs.declared.token_list.TokenKind.{TokenKind};
ghost use Rattle.px_lexer.specs.Terminals.{HasKind, IsKeyword, IsOperator, IsName, IsAt, terminals_of};

use crate::spelling::{Keyword, Operator};
use crate::token_list::{TokenKind, Tokens};
use px_base::Span;

/// The kind of the token at an index; none behind the last token.
pub fn kind_at(tokens: &Tokens, at: usize) -> Option<&TokenKind>
    ensures { MatchOption result
        ((k : TokenKind) → HasKind (terminals_of tokens.now) at k → ⊥)
        (λ k. HasKind (terminals_of tokens.now) at k.now) }
{
    match tokens.list.as_slice().get(at) {
        Some(token) => Some(&token.kind),
        None => None,
    }
}

/// The operator at an index, if one stands there.
pub fn operator_at(tokens: &Tokens, at: usize) -> Option<Operator>
    ensures { MatchOption result
        ((o : Operator) → IsOperator (terminals_of tokens.now) at o → ⊥)
        (IsOperator (terminals_of tokens.now) at) }
{
    match kind_at(tokens, at) {
        Some(TokenKind::Operator(found)) => Some(*found),
        _ => None,
    }
}

/// The keyword at an index, if one stands there.
pub fn keyword_at(tokens: &Tokens, at: usize) -> Option<Keyword>
    ensures { MatchOption result
        ((k : Keyword) → IsKeyword (terminals_of tokens.now) at k → ⊥)
        (IsKeyword (terminals_of tokens.now) at) }
{
    match kind_at(tokens, at) {
        Some(TokenKind::Keyword(found)) => Some(*found),
        _ => None,
    }
}

/// Whether this operator stands at an index.
pub fn is_operator(tokens: &Tokens, at: usize, operator: Operator) -> bool
    ensures { IsTrue result ↔ (IsOperator (terminals_of tokens.now) at operator) }
{
    operator_at(tokens, at) == Some(operator)
}

/// Whether this keyword stands at an index.
pub fn is_keyword(tokens: &Tokens, at: usize, keyword: Keyword) -> bool
    ensures { IsTrue result ↔ (IsKeyword (terminals_of tokens.now) at keyword) }
{
    keyword_at(tokens, at) == Some(keyword)
}

/// Whether an identifier stands at an index.
pub fn is_name(tokens: &Tokens, at: usize) -> bool
    ensures { IsTrue result ↔ ((name : List ℕ) × IsName (terminals_of tokens.now) at name) }
{
    match kind_at(tokens, at) {
        Some(TokenKind::Name) => true,
        _ => false,
    }
}

/// The place of the token at an index.
pub fn place(tokens: &Tokens, at: usize) -> Span
    requires { at < length tokens.now.list }
    ensures { IsAt (terminals_of tokens.now) at result }
{
    tokens.list.as_slice()[at].at
}
