//! Foreign words.

ghost use Rattle.std.specs.Prelude.{◌<◌, length, IsTrue, MatchOption, ◌↔◌};
ghost use Rattle.px_lexer.specs.declared.token_list.TokenKind.TheVariants as kind;
ghost use Rattle.px_lexer.specs.Terminals.{HasKind, terminals_of};
ghost use Rattle.px_parser.specs.Parsing.{HasNoForeign, IsForeign};

use px_lexer::access::kind_at;
use px_lexer::{TokenKind, Tokens};

/// Whether a foreign word stands at an index.
fn is_foreign(tokens: &Tokens, at: usize) -> bool
    ensures { IsTrue result ↔ (HasKind (terminals_of tokens.now) at kind.Foreign) }
{
    match kind_at(tokens, at) {
        Some(TokenKind::Foreign) => true,
        _ => false,
    }
}

/// The index of the first foreign word, if there is one.
pub(crate) fn foreign(tokens: &Tokens) -> Option<usize>
    ensures { MatchOption result (HasNoForeign (terminals_of tokens.now)) (λ at. IsForeign (terminals_of tokens.now) at × (at < length tokens.now.list)) }
{
    for at in 0..tokens.list.as_slice().len() {
        if is_foreign(tokens, at) {
            return Some(at);
        }
    }
    None
}
