//! What the forms of expressions show by themselves.

ghost use Rattle.std.specs.Prelude.{◌≡◌};
ghost use Rattle.px_environments.specs.Atoms.{c_comparison, is_long, is_value, is_range};

use px_base::{Builtin, CmpOp};
use px_names::Meaning;
use px_tree::CompareOp;

/// The comparison of C values that is spelled so.
pub fn c_comparison(op: CompareOp) -> Option<CmpOp>
    ensures { result ≡ c_comparison op }
{
    match op {
        CompareOp::Less => Some(CmpOp::Lt),
        CompareOp::Greater => Some(CmpOp::Gt),
        CompareOp::LessEqual => Some(CmpOp::Le),
        CompareOp::GreaterEqual => Some(CmpOp::Ge),
        CompareOp::Equal => Some(CmpOp::Eq),
        CompareOp::NotEqual => Some(CmpOp::Ne),
        _ => None,
    }
}

/// 2^63, below which a literal is a long.
const LONG_LIMIT: i128 = 9_223_372_036_854_775_808;

/// Whether a literal is a long.
pub fn is_long(n: i128) -> bool
    ensures { result ≡ is_long n }
{
    n < LONG_LIMIT
}

pub(crate) fn is_range(meaning: Option<Meaning>) -> bool
    ensures { result ≡ is_range meaning }
{
    match meaning {
        Some(Meaning::Builtin(Builtin::Range)) => true,
        _ => false,
    }
}

/// Whether a name that stands for this is a value: functions, imports and builtins are none.
pub fn is_value(meaning: Option<Meaning>) -> bool
    ensures { result ≡ is_value meaning }
{
    match meaning {
        Some(Meaning::Function(_, _)) => false,
        Some(Meaning::Import(_)) => false,
        Some(Meaning::Builtin(_)) => false,
        _ => true,
    }
}
