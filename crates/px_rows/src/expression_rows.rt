//! Rows of what the reader of expressions gives.
use crate::parts::show_tree;
use crate::rows::Row;
use px_base::{Bytes, Refusal, Trouble};
use px_exprs::reader::{expression, expression_within};
use px_lexer::lexing::tokens;
use px_tree::{Expr, ExprForm};
use sqlite_items::Boxed;
use std::alloc::Global;

/// What is answered where no token stands.
const NOWHERE: Trouble = Trouble::Refused(Refusal {
    number: 0,
    line: 0,
    column: 0,
});

/// The expression from an index of the tokens of a text on, and the index behind it.
fn read(alloc: Global, text: &Bytes, from: usize) -> Result<(Boxed<Expr>, usize), Trouble> {
    let found = tokens(alloc, text.as_slice())?;
    if from >= found.list.len() {
        return Err(NOWHERE);
    }
    let (tree, to) = expression(alloc, &found, from)?;
    Ok((Boxed::new(alloc, tree)?, to))
}

/// Gives what the tokens of a text are from an index on: the tree and the index behind it, or the refusal.
fn show(row: &mut Row, text: &Bytes, from: usize) {
    match read(row.alloc(), text, from) {
        Ok((tree, to)) => {
            show_tree(row, tree.get());
            row.word(" ");
            row.whole_number(to as i128);
        }
        Err(trouble) => row.refusal(trouble),
    }
}

/// A text, and the tree of the expression that it begins with and the index of the token behind it, or its refusal.
pub fn expression_row(row: &mut Row) {
    let text = row.bytes();
    show(row, &text, 0);
}

/// The index of the first token, the text, and what is read from there on.
pub fn start_row(row: &mut Row) {
    let from = row.number() as usize;
    let text = row.bytes();
    show(row, &text, from);
}

/// Gives how far an expression goes, or its refusal.
fn show_extent(row: &mut Row, extent: Result<usize, Trouble>) {
    match extent {
        Ok(to) => {
            row.word("ok ");
            row.whole_number(to as i128);
        }
        Err(trouble) => row.refusal(trouble),
    }
}

/// How far the expression at the start of a text goes.
fn extent(alloc: Global, text: &Bytes) -> Result<usize, Trouble> {
    let (_, to) = read(alloc, text, 0)?;
    Ok(to)
}

/// A text, and how far the expression that it begins with goes, or its refusal.
pub fn extent_row(row: &mut Row) {
    let text = row.bytes();
    let extent = extent(row.alloc(), &text);
    show_extent(row, extent);
}

/// Nesting: what opens, and how often; what stands within; what closes as often; what stands behind; and how far it is read.
pub fn nesting_row(row: &mut Row) {
    let opening = row.bytes();
    let count = row.number();
    let within = row.bytes();
    let closing = row.bytes();
    let behind = row.bytes();
    let mut text = Bytes::new(row.alloc());
    row.repeat(&mut text, &opening, count);
    row.repeat(&mut text, &within, 1);
    row.repeat(&mut text, &closing, count);
    row.repeat(&mut text, &behind, 1);
    let extent = extent(row.alloc(), &text);
    show_extent(row, extent);
}

/// How many parts stand behind the first operand of a chain, or behind the atom of a row.
fn part_count(tree: &Expr) -> usize {
    match &tree.form {
        ExprForm::Chain(_, links) => links.len(),
        ExprForm::Compare(_, comparisons) => comparisons.len(),
        ExprForm::Row(_, trailers) => trailers.len(),
        ExprForm::And(operands) => operands.len(),
        ExprForm::Or(operands) => operands.len(),
        _ => 0,
    }
}

/// A long expression: what stands first, what stands behind it, and how often; then how many parts are read and to before which token.
pub fn long_row(row: &mut Row) {
    let mut text = row.bytes();
    let part = row.bytes();
    let count = row.number();
    row.repeat(&mut text, &part, count);
    match read(row.alloc(), &text, 0) {
        Ok((tree, to)) => {
            let count = part_count(tree.get());
            let text = format!(in row.alloc(); "{count} parts, ok {to}");
            row.text(text);
        }
        Err(trouble) => row.refusal(trouble),
    }
}

/// The index behind the expression of a text, within a limit of its nesting.
fn extent_within(alloc: Global, text: &Bytes, limit: usize) -> Result<usize, Trouble> {
    let found = tokens(alloc, text.as_slice())?;
    if found.list.is_empty() || limit > 64 {
        return Err(NOWHERE);
    }
    let (tree, to) = expression_within(alloc, &found, limit, 0)?;
    drop(tree);
    Ok(to)
}

/// A text, a limit of its nesting of at most 64, and how far it is read within that limit, or its refusal.
pub fn limit_row(row: &mut Row) {
    let text = row.bytes();
    let limit = row.number() as usize;
    let extent = extent_within(row.alloc(), &text, limit);
    show_extent(row, extent);
}
