ghost use Rattle.std.specs.Prelude.{◌≡◌, ◌⊎◌, ◌↔◌, [], IsTrue, IsNone, Option, Some, None, Contains};
ghost use Rattle.px_base.specs.declared.refusals.Refusal.{Refusal};
ghost use Rattle.px_base.specs.Findings.{comes_first, IsFirst, first_of};

use crate::refusals::Refusal;

/// Whether the first refusal is the second or comes before it: by the line, then the column, then the number.
#[tactic(auto, unfolding(crate::specs::Findings::comes_first))]
pub fn precedes(a: &Refusal, b: &Refusal) -> bool
    ensures { result ≡ comes_first a.now b.now }
{
    a.line < b.line
        || a.line == b.line && (a.column < b.column || a.column == b.column && a.number <= b.number)
}

/// The one of two findings that comes first.
pub fn earlier(a: Option<Refusal>, b: Option<Refusal>) -> Option<Refusal>
    ensures { result ≡ first_of a b }
{
    match (a, b) {
        (None, b) => b,
        (Some(a), None) => Some(a),
        (Some(a), Some(b)) => Some(if precedes(&a, &b) { a } else { b }),
    }
}

/// The finding that comes first, or `None` where there is none.
pub fn first_in(findings: &[Refusal]) -> Option<Refusal>
    ensures first { IsFirst (Contains findings.now) result }
    ensures empty { IsNone result ↔ (findings.now ≡ []) }
{
    let mut first = None;
    for finding in findings {
        first = earlier(first, Some(*finding));
    }
    first
}

/// Every two refusals have an order, which goes on over a third; two that each come before the other are one.
pub fn order_laws()
    ensures total { (a b : Refusal) → IsTrue (comes_first a b) ⊎ IsTrue (comes_first b a) }
    ensures transitive { (a b c : Refusal) →
        IsTrue (comes_first a b) → IsTrue (comes_first b c) → IsTrue (comes_first a c) }
    ensures antisymmetric { (a b : Refusal) → IsTrue (comes_first a b) → IsTrue (comes_first b a) → a ≡ b }
{}

/// The first of several findings is the same whatever the order in which they are met.
pub fn first_laws()
    ensures associative { (a b c : Option Refusal) → first_of (first_of a b) c ≡ first_of a (first_of b c) }
    ensures commutative { (a b : Option Refusal) → first_of a b ≡ first_of b a }
    ensures idempotent { (a : Option Refusal) → first_of a a ≡ a }
{}
