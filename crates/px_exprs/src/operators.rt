ghost use Rattle.std.specs.Prelude.{◌≡◌, suc, ◌<◌, length, IsTrue, IfOk, IfErr, MatchOption, ◌↔◌};
ghost use Rattle.px_lexer.specs.declared.spelling.Keyword.TheVariants as word;
ghost use Rattle.px_tree.specs.declared.expressions.CompareOp.{CompareOp};
ghost use Rattle.px_tree.specs.declared.expressions.CompareOp.TheVariants as compare;
ghost use Rattle.px_base.specs.declared.c_types.BinOp.{BinOp};
ghost use Rattle.px_base.specs.declared.c_types.UnOp.{UnOp};
ghost use Rattle.px_lexer.specs.Terminals.{IsKeyword, terminals_of};
ghost use Rattle.px_exprs.specs.Grammar.{IsOf, IsCompareOp, unary_operators};
ghost use Rattle.px_exprs.specs.Inputs.{IsInput};
ghost use Rattle.px_exprs.specs.Parts.{BeginsComparison, IsNotBehind};

use crate::readings::Unread;
use px_base::{BinOp, UnOp};
use px_lexer::access::{is_keyword, keyword_at, operator_at};
use px_lexer::{Keyword, Operator, Tokens};
use px_tree::CompareOp;

/// The binary operators of one level.
pub(crate) type Level = &'static [(Operator, BinOp)];

/// The levels of binary operators, from the loosest.
pub(crate) const BINARY_LEVELS: [Level; 6] = [
    &[(Operator::Bar, BinOp::BitOr)],
    &[(Operator::Caret, BinOp::BitXor)],
    &[(Operator::Ampersand, BinOp::BitAnd)],
    &[
        (Operator::LeftShift, BinOp::Shl),
        (Operator::RightShift, BinOp::Shr),
    ],
    &[(Operator::Plus, BinOp::Add), (Operator::Minus, BinOp::Sub)],
    &[
        (Operator::Star, BinOp::Mul),
        (Operator::DoubleSlash, BinOp::FloorDiv),
        (Operator::Percent, BinOp::Mod),
    ],
];

const UNARY_OPERATORS: [(Operator, UnOp); 3] = [
    (Operator::Plus, UnOp::Plus),
    (Operator::Minus, UnOp::Minus),
    (Operator::Tilde, UnOp::Invert),
];

const COMPARE_SIGNS: [(Operator, CompareOp); 6] = [
    (Operator::Less, CompareOp::Less),
    (Operator::Greater, CompareOp::Greater),
    (Operator::LessEqual, CompareOp::LessEqual),
    (Operator::GreaterEqual, CompareOp::GreaterEqual),
    (Operator::DoubleEqual, CompareOp::Equal),
    (Operator::NotEqual, CompareOp::NotEqual),
];

/// What the operator at an index stands for in a table.
pub fn meaning<T: Copy>(table: &[(Operator, T)], tokens: &Tokens, at: usize) -> Option<T>
    ensures { MatchOption result ((meant : T) → IsOf table.now (terminals_of tokens.now) at meant → ⊥) (IsOf table.now (terminals_of tokens.now) at) }
{
    let Some(sign) = operator_at(tokens, at) else {
        return None;
    };
    for row in table {
        if row.0 == sign {
            return Some(row.1);
        }
    }
    None
}

/// The binary operator of this level that stands at an index.
pub(crate) fn binary_operator(level: Level, tokens: &Tokens, at: usize) -> Option<BinOp>
    ensures { MatchOption result ((meant : BinOp) → IsOf level.now (terminals_of tokens.now) at meant → ⊥) (IsOf level.now (terminals_of tokens.now) at) }
{
    meaning(level, tokens, at)
}

/// The unary operator at an index.
#[tactic(auto, unfolding(crate::specs::Grammar::unary_operators))]
pub(crate) fn unary_operator(tokens: &Tokens, at: usize) -> Option<UnOp>
    ensures { MatchOption result ((meant : UnOp) → IsOf unary_operators (terminals_of tokens.now) at meant → ⊥) (IsOf unary_operators (terminals_of tokens.now) at) }
{
    meaning(&UNARY_OPERATORS, tokens, at)
}

/// Whether the token at an index, which stands behind an operand, begins a comparison.
pub(crate) fn begins_comparison(tokens: &Tokens, at: usize) -> bool
    ensures { IsTrue result ↔ (BeginsComparison (terminals_of tokens.now) at) }
{
    is_keyword(tokens, at, Keyword::In)
        || is_keyword(tokens, at, Keyword::Not)
        || is_keyword(tokens, at, Keyword::Is)
        || meaning(&COMPARE_SIGNS, tokens, at).is_some()
}

/// The comparison at an index, where it begins, and the index behind it.
///
/// # Errors
/// `Stuck` behind a `not` that no `in` follows.
pub(crate) fn compare_operator(tokens: &Tokens, at: usize) -> Result<(CompareOp, usize), Unread>
    requires input { IsInput tokens.now }
    requires begins { BeginsComparison (terminals_of tokens.now) at }
    ensures read { IfOk result (λ found. IsCompareOp (terminals_of tokens.now) at found.0 found.1) }
    ensures longest { IfOk result (λ found. found.0 ≡ compare.Is → IsKeyword (terminals_of tokens.now) (suc at) word.Not → ⊥) }
    ensures inside { IfOk result (λ found. found.1 < length tokens.now.list) }
    ensures stuck { IfErr result (λ unread. IsNotBehind (terminals_of tokens.now) at unread) }
{
    if let Some(found) = meaning(&COMPARE_SIGNS, tokens, at) {
        return Ok((found, at + 1));
    }
    match keyword_at(tokens, at) {
        Some(Keyword::In) => Ok((CompareOp::In, at + 1)),
        Some(Keyword::Not) => {
            if is_keyword(tokens, at + 1, Keyword::In) {
                Ok((CompareOp::NotIn, at + 2))
            } else {
                Err(Unread::Stuck(at + 1))
            }
        }
        Some(Keyword::Is) => {
            if is_keyword(tokens, at + 1, Keyword::Not) {
                Ok((CompareOp::IsNot, at + 2))
            } else {
                Ok((CompareOp::Is, at + 1))
            }
        }
        _ => Err(Unread::Stuck(at)),
    }
}
