//! Targets of assignments. They are read as expressions, and told by their trees.

ghost use Rattle.std.specs.Prelude.{ℕ, ◌<◌, length, IsTrue, MatchOption, ◌↔◌};
ghost use Rattle.px_base.specs.declared.c_types.BinOp.{BinOp};
ghost use Rattle.px_lexer.specs.declared.spelling.Keyword.TheVariants as word;
ghost use Rattle.px_lexer.specs.Terminals.{IsKeyword, terminals_of};
ghost use Rattle.px_exprs.specs.Grammar.{IsOf};
ghost use Rattle.px_parser.specs.Listings.{IsListing};
ghost use Rattle.px_parser.specs.Readings.{IsReading, ReadsFlat};
ghost use Rattle.px_parser.specs.Shapes.{Nested};
ghost use Rattle.px_parser.specs.StatementGrammar.{EndsWithSubscript, IsTarget, LoopTargets, augmented};
ghost use Rattle.px_parser.specs.Parts.{ExprsRead, IsTargetTree, AreTargetTrees, Assigned};
ghost use Rattle.px_parser.specs.Ends.{EndsExprs, EndsSimple, EndsLoopTarget};

use crate::exprs::{NESTING_LIMIT, expr, exprs, list};
use crate::readings::Found;
use crate::words::{keep_before_simple_end, keep_if};
use px_base::BinOp;
use px_exprs::grammar;
use px_exprs::operators::meaning;
use px_exprs::readings::Unread;
use px_lexer::access::{is_keyword, is_operator};
use px_lexer::{Keyword, Operator, Tokens};
use px_tree::{Expr, ExprForm, StmtForm, Trailer};
use sqlite_items::{Boxed, Items};
use std::alloc::Global;

/// Whether the last of these is a subscript.
fn ends_with_subscript(trailers: &[Trailer]) -> bool
    ensures { IsTrue result ↔ (EndsWithSubscript trailers.now) }
{
    match trailers.last() {
        Some(Trailer::Subscript(_, _)) => true,
        _ => false,
    }
}

/// Whether an expression is a target too.
#[cycle(target)]
pub(crate) fn is_target(expr: &Expr) -> bool
    ensures { IsTrue result ↔ (IsTargetTree expr.now) }
{
    match &expr.form {
        ExprForm::Name(_) => true,
        ExprForm::Row(_, trailers) => ends_with_subscript(trailers.as_slice()),
        ExprForm::Tuple(items) => !items.is_empty() && are_targets(items.as_slice()),
        _ => false,
    }
}

/// Whether each of these is a target.
#[cycle(target)]
fn are_targets(exprs: &[Expr]) -> bool
    ensures { IsTrue result ↔ (AreTargetTrees exprs.now) }
{
    for expr in exprs {
        if !is_target(expr) {
            return false;
        }
    }
    true
}

const AUGMENTED: [(Operator, BinOp); 10] = [
    (Operator::PlusEqual, BinOp::Add),
    (Operator::MinusEqual, BinOp::Sub),
    (Operator::StarEqual, BinOp::Mul),
    (Operator::DoubleSlashEqual, BinOp::FloorDiv),
    (Operator::PercentEqual, BinOp::Mod),
    (Operator::AmpersandEqual, BinOp::BitAnd),
    (Operator::BarEqual, BinOp::BitOr),
    (Operator::CaretEqual, BinOp::BitXor),
    (Operator::LeftShiftEqual, BinOp::Shl),
    (Operator::RightShiftEqual, BinOp::Shr),
];

/// The binary operator of an augmented assignment whose operator stands at an index.
fn augmented_at(tokens: &Tokens, at: usize) -> Option<BinOp>
    ensures { MatchOption result ((meant : BinOp) → IsOf augmented (terminals_of tokens.now) at meant → ⊥) (IsOf augmented (terminals_of tokens.now) at) }
{
    meaning(&AUGMENTED, tokens, at)
}

/// The augmented assignment with this operator, which stands behind the expressions that were read.
///
/// # Errors
/// `Stuck` at the operator where they aren't one target; else as `expr`, and `Stuck` behind the value where no simple statement ends
/// there.
fn augmentation(
    alloc: Global,
    tokens: &Tokens,
    from: usize,
    read: (Expr, bool),
    to: usize,
    op: BinOp,
) -> Result<Found<StmtForm>, Unread>
    requires input { IsListing tokens.now }
    requires read { (room : ℕ) → IsReading ExprsRead EndsExprs (terminals_of tokens.now) from room read to }
    requires behind { IsOf augmented (terminals_of tokens.now) to op }
    ensures { ReadsFlat Assigned EndsSimple (terminals_of tokens.now) from result }
{
    let (target, is_alone) = read;
    let target_tree = Boxed::new(alloc, target)?;
    if !is_alone || !is_target(target_tree.get()) {
        return Err(Unread::Stuck(to));
    }
    let value = expr(alloc, tokens, to + 1)?;
    let value_to = value.to;
    let value_tree = Boxed::new(alloc, value.tree)?;
    let form = StmtForm::Augment(target_tree.into_inner(), op, value_tree);
    keep_before_simple_end(tokens, form, value_to)
}

/// An assignment, or an augmented one, from an index on to where a simple statement ends.
///
/// # Errors
/// As `exprs`; `Stuck` at an operator where what stands before it is no target, and behind the value where no simple statement ends
/// there.
pub(crate) fn assigned_form(
    alloc: Global,
    tokens: &Tokens,
    from: usize,
) -> Result<Found<StmtForm>, Unread>
    requires input { IsListing tokens.now }
    requires inside { from < length tokens.now.list }
    ensures { ReadsFlat Assigned EndsSimple (terminals_of tokens.now) from result }
{
    let first = exprs(alloc, tokens, from)?;
    if let Some(op) = augmented_at(tokens, first.to) {
        return augmentation(alloc, tokens, from, first.tree, first.to, op);
    }
    assignment(alloc, tokens, from, first.tree, first.to)
}

/// The assignment that begins with the expressions that were read.
///
/// # Errors
/// As `assigned`.
fn assignment(
    alloc: Global,
    tokens: &Tokens,
    from: usize,
    read: (Expr, bool),
    end: usize,
) -> Result<Found<StmtForm>, Unread>
    requires input { IsListing tokens.now }
    requires read { (room : ℕ) → IsReading ExprsRead EndsExprs (terminals_of tokens.now) from room read end }
    requires plain { (meant : BinOp) → IsOf augmented (terminals_of tokens.now) end meant → ⊥ }
    ensures { ReadsFlat Assigned EndsSimple (terminals_of tokens.now) from result }
{
    let mut targets = Items::new(alloc);
    let mut value = read.0;
    let mut to = end;
    while is_operator(tokens, to, Operator::Equal) {
        if !is_target(&value) {
            return Err(Unread::Stuck(to));
        }
        targets.push(value)?;
        let next = exprs(alloc, tokens, to + 1)?;
        to = next.to;
        let tree = next.tree;
        value = tree.0;
    }
    keep_before_simple_end(tokens, StmtForm::Assign(targets, value), to)
}

/// Whether a comma or `in` stands at an index.
fn ends_loop_target(tokens: &Tokens, at: usize) -> bool
    ensures { IsTrue result ↔ (EndsLoopTarget (terminals_of tokens.now) at) }
{
    is_operator(tokens, at, Operator::Comma) || is_keyword(tokens, at, Keyword::In)
}

/// A target of a `for` from an index on, which a comma or `in` follows.
///
/// # Errors
/// As `expr`; `Stuck` behind what is no target, or where neither follows.
fn loop_target(alloc: Global, tokens: &Tokens, from: usize) -> Result<Found<Expr>, Unread>
    requires input { IsListing tokens.now }
    requires inside { from < length tokens.now.list }
    ensures { ReadsFlat (Nested IsTarget) EndsLoopTarget (terminals_of tokens.now) from result }
{
    let read = grammar::primary(alloc, tokens, NESTING_LIMIT, from)?;
    let is_whole = ends_loop_target(tokens, read.to) && is_target(&read.tree);
    keep_if(read.tree, read.to, is_whole)
}

/// The targets of a `for` from an index on, to its `in`.
///
/// # Errors
/// As `expr`; `Stuck` behind what is no target, or where neither a comma nor `in` follows.
pub(crate) fn loop_targets(
    alloc: Global,
    tokens: &Tokens,
    from: usize,
) -> Result<Found<Expr>, Unread>
    requires input { IsListing tokens.now }
    requires inside { from < length tokens.now.list }
    ensures { ReadsFlat LoopTargets (λ ts i. IsKeyword ts i word.In) (terminals_of tokens.now) from result }
{
    let first = loop_target(alloc, tokens, from)?;
    let first_to = first.to;
    let first_tree = Boxed::new(alloc, first.tree)?;
    further_targets(alloc, tokens, from, first_tree, first_to)
}

/// The targets of a `for` that begin with the one that was read, and the others behind it.
///
/// # Errors
/// As `loop_targets`.
fn further_targets(
    alloc: Global,
    tokens: &Tokens,
    from: usize,
    first: Boxed<Expr>,
    comma: usize,
) -> Result<Found<Expr>, Unread>
    requires input { IsListing tokens.now }
    requires inside { from < length tokens.now.list }
    requires read { (room : ℕ) → IsReading (Nested IsTarget) EndsLoopTarget (terminals_of tokens.now) from room first comma }
    ensures { ReadsFlat LoopTargets (λ ts i. IsKeyword ts i word.In) (terminals_of tokens.now) from result }
{
    let mut others = Items::new(alloc);
    let mut to = comma;
    while is_operator(tokens, to, Operator::Comma) {
        let next = loop_target(alloc, tokens, to + 1)?;
        others.push(next.tree)?;
        to = next.to;
    }
    if others.is_empty() {
        return Ok(Found {
            tree: first.into_inner(),
            to,
        });
    }
    let tree = list(alloc, tokens, from, first, comma, others)?;
    Ok(Found { tree, to })
}
