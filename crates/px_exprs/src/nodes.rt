ghost use Rattle.std.specs.Prelude.{◌≡◌, ◌<◌, ◌^◌, ◌∷◌, length, IfOk};
ghost use Rattle.px_base.specs.declared.refusals.Span.{Span};
ghost use Rattle.px_tree.specs.declared.expressions.ExprForm.TheVariants as forms;
ghost use Rattle.px_lexer.specs.Terminals.{IsAt, terminals_of};
ghost use Rattle.px_exprs.specs.Grammar.{node as node_of};

use crate::readings::Read;
use px_lexer::Tokens;
use px_lexer::access::place;
use px_tree::{Expr, ExprForm};
use sqlite_items::{Boxed, Items};
use std::alloc::{AllocError, Global};

/// The node of this form with the number of one token, at the place of another.
pub fn node(tokens: &Tokens, number: usize, at: usize, form: ExprForm) -> Expr
    requires small { number < 2 ^ 32 }
    requires inside { at < length tokens.now.list }
    ensures { (span : Span) × IsAt (terminals_of tokens.now) at span × (result ≡ node_of number span form) }
{
    Expr {
        number: number as u32,
        at: place(tokens, at),
        form,
    }
}

/// What is read of a node of this form, whose number and place are those of its first token.
pub fn read_node(
    tokens: &Tokens,
    from: usize,
    form: ExprForm,
    depth: usize,
    to: usize,
) -> Read<Expr>
    requires small { from < 2 ^ 32 }
    requires inside { from < length tokens.now.list }
    ensures { (span : Span) × IsAt (terminals_of tokens.now) from span × (result.tree ≡ node_of from span form) × (result.depth ≡ depth) × (result.to ≡ to) }
{
    Read {
        tree: node(tokens, from, from, form),
        depth,
        to,
    }
}

/// A value, the test on which it depends, and the other value.
///
/// # Errors
/// `AllocError` where there is no memory for it.
pub fn choice(
    alloc: Global,
    value: Boxed<Expr>,
    test: Boxed<Expr>,
    otherwise: Expr,
) -> Result<ExprForm, AllocError>
    ensures { IfOk result (λ made. made ≡ forms.Conditional value test otherwise) }
{
    let otherwise = Boxed::new(alloc, otherwise)?;
    Ok(ExprForm::Conditional(value, test, otherwise))
}

/// An operand before others.
///
/// # Errors
/// `AllocError` where there is no memory for them.
pub fn prepend(
    alloc: Global,
    first: Boxed<Expr>,
    others: Items<Expr>,
) -> Result<Items<Expr>, AllocError>
    ensures { IfOk result (λ all. all ≡ first ∷ others) }
{
    let mut all = Items::new(alloc);
    all.push(first.into_inner())?;
    all.append(others)?;
    Ok(all)
}
