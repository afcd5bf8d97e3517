//! Rows of what the reader of modules gives.
use crate::parts::show_tree;
use crate::rows::Row;
use px_base::{Bytes, Trouble};
use px_lexer::lexing::tokens;
use px_parser::parse;
use px_tree::Module;
use sqlite_items::Boxed;
use std::alloc::Global;

/// The module that a text is.
fn read(alloc: Global, text: &Bytes) -> Result<Boxed<Module>, Trouble> {
    let found = tokens(alloc, text.as_slice())?;
    let module = Boxed::new(alloc, parse(alloc, &found)?)?;
    Ok(module)
}

/// A text, and its module or its refusal.
pub fn module_row(row: &mut Row) {
    let text = row.bytes();
    match read(row.alloc(), &text) {
        Ok(module) => show_tree(row, module.get()),
        Err(trouble) => row.refusal(trouble),
    }
}

/// Gives whether a text is a module, or its refusal.
fn show_verdict(row: &mut Row, text: &Bytes) {
    match read(row.alloc(), text) {
        Ok(_) => row.word("ok"),
        Err(trouble) => row.refusal(trouble),
    }
}

/// A text, and whether it is a module, or its refusal.
pub fn verdict_row(row: &mut Row) {
    let text = row.bytes();
    show_verdict(row, &text);
}

/// Adds spaces to a text.
fn indent(row: &mut Row, text: &mut Bytes, level: u64) {
    for _ in 0..level {
        let added = text.push(b' ');
        row.keep(added);
    }
}

/// Adds a header at a level to a text, and answers the level of the block behind it. One without a character isn't there.
fn add_header(row: &mut Row, text: &mut Bytes, header: &Bytes, level: u64) -> u64 {
    if header.is_empty() {
        return level;
    }
    indent(row, text, level);
    row.repeat(text, header, 1);
    let added = text.push(b'\n');
    row.keep(added);
    level.saturating_add(1)
}

/// Nested blocks: the first header, if there is one; the other header, and how often it stands, each time in the block of the one before
/// it; the last lines; and the verdict.
pub fn blocks_row(row: &mut Row) {
    let first = row.bytes();
    let other = row.bytes();
    let count = row.number();
    let last = row.bytes();
    let mut text = Bytes::new(row.alloc());
    let mut level = add_header(row, &mut text, &first, 0);
    for _ in 0..count {
        level = add_header(row, &mut text, &other, level);
    }
    indent(row, &mut text, level);
    row.repeat(&mut text, &last, 1);
    show_verdict(row, &text);
}

/// Nested expressions: what stands first; what opens, and how often; what stands within; what closes as often; what stands last; and the
/// verdict.
pub fn nested_row(row: &mut Row) {
    let mut text = row.bytes();
    let opening = row.bytes();
    let count = row.number();
    let within = row.bytes();
    let closing = row.bytes();
    let last = row.bytes();
    row.repeat(&mut text, &opening, count);
    row.repeat(&mut text, &within, 1);
    row.repeat(&mut text, &closing, count);
    row.repeat(&mut text, &last, 1);
    show_verdict(row, &text);
}
