//! The values of sums.

ghost use Rattle.std.specs.Prelude.{◌↔◌, ℤ, IsTrue, IfSome, MatchOption};
ghost use Rattle.px_base.specs.declared.c_types.CType.TheVariants.{Long};
ghost use Rattle.px_ctypes.specs.Types.{IsInRange};
ghost use Rattle.px_cli.specs.FirstMeaning.{AtomIs, FactorsGive, ProductIs, SumIs, TermsGive};
ghost use Rattle.px_cli.specs.KeptValues.{AreLongs, BeginsWithTerm, IsTerm, values_of};

use crate::arithmetic::{product_by, total_of};
use crate::variables::Variables;
use px_base::BinOp;
use px_tree::{Expr, ExprForm, Link};

const LEAST: i128 = -9_223_372_036_854_775_808;

const GREATEST: i128 = 9_223_372_036_854_775_807;

/// Whether a `long` holds the number.
fn fits_long(number: i128) -> bool
    ensures { IsTrue result ↔ IsInRange Long number }
{
    LEAST <= number && number <= GREATEST
}

fn value_of_atom(variables: &Variables<'_>, expr: &Expr) -> Option<i128>
    requires longs { AreLongs (values_of variables.now) }
    ensures value { MatchOption result
        ((value : ℤ) → AtomIs (values_of variables.now) expr.now value → ⊥)
        (AtomIs (values_of variables.now) expr.now) }
    ensures long { IfSome result (IsInRange Long) }
{
    match &expr.form {
        ExprForm::Name(name) => variables.value(name.as_slice()),
        ExprForm::Number(number) if fits_long(*number) => Some(*number),
        _ => None,
    }
}

/// The product with further factors.
fn with_factors(variables: &Variables<'_>, first: i128, links: &[Link]) -> Option<i128>
    requires longs { AreLongs (values_of variables.now) }
    requires long { IsInRange Long first }
    ensures value { MatchOption result
        ((value : ℤ) → FactorsGive (values_of variables.now) first links.now value → ⊥)
        (FactorsGive (values_of variables.now) first links.now) }
    ensures long { IfSome result (IsInRange Long) }
{
    let mut product = first;
    for link in links {
        let value = value_of_atom(variables, &link.operand)?;
        product = product_by(link.op, product, value)?;
    }
    Some(product)
}

fn value_of_product(variables: &Variables<'_>, expr: &Expr) -> Option<i128>
    requires longs { AreLongs (values_of variables.now) }
    ensures value { MatchOption result
        ((value : ℤ) → ProductIs (values_of variables.now) expr.now value → ⊥)
        (ProductIs (values_of variables.now) expr.now) }
    ensures long { IfSome result (IsInRange Long) }
{
    let ExprForm::Chain(first, links) = &expr.form else {
        return value_of_atom(variables, expr);
    };
    if links.is_empty() {
        return None;
    }
    let begun = value_of_atom(variables, first.get())?;
    with_factors(variables, begun, links.as_slice())
}

/// The sum with further products.
fn with_terms(variables: &Variables<'_>, first: i128, links: &[Link]) -> Option<i128>
    requires longs { AreLongs (values_of variables.now) }
    requires long { IsInRange Long first }
    ensures value { MatchOption result
        ((value : ℤ) → TermsGive (values_of variables.now) first links.now value → ⊥)
        (TermsGive (values_of variables.now) first links.now) }
    ensures long { IfSome result (IsInRange Long) }
{
    let mut sum = first;
    for link in links {
        let value = value_of_product(variables, &link.operand)?;
        sum = total_of(link.op, sum, value)?;
    }
    Some(sum)
}

/// Whether it is `+` or `-`.
fn is_term(op: BinOp) -> bool
    ensures { IsTrue result ↔ IsTerm op }
{
    matches!(op, BinOp::Add | BinOp::Sub)
}

/// Whether the first of these is a `+` or a `-`.
fn begins_with_term(links: &[Link]) -> bool
    ensures { IsTrue result ↔ BeginsWithTerm links.now }
{
    match links.first() {
        Some(link) => is_term(link.op),
        None => false,
    }
}

/// The value of a sum, with these variables; none where it is no sum of the form that is built.
pub(crate) fn value_of_sum(variables: &Variables<'_>, expr: &Expr) -> Option<i128>
    requires longs { AreLongs (values_of variables.now) }
    ensures value { MatchOption result
        ((value : ℤ) → SumIs (values_of variables.now) expr.now value → ⊥)
        (SumIs (values_of variables.now) expr.now) }
    ensures long { IfSome result (IsInRange Long) }
{
    if let ExprForm::Chain(first, links) = &expr.form {
        if begins_with_term(links.as_slice()) {
            let begun = value_of_product(variables, first.get())?;
            return with_terms(variables, begun, links.as_slice());
        }
    }
    value_of_product(variables, expr)
}
