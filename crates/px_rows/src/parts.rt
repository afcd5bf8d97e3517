//! The text of a tree. A tree is taken apart on a stack of parts, so that nothing calls itself.
use crate::expression_parts::expr_parts;
use crate::rows::{Row, Unjudged};
use crate::statement_parts::stmt_parts;
use px_base::{Chars, Span};
use px_tree::{Expr, Stmt};
use sqlite_items::{Boxed, Items};
use std::alloc::Global;

/// A part of a text: a word, or what is still to be taken apart.
#[derive(Clone, Copy)]
pub enum Part<'a> {
    Word(&'static str),
    /// The number and the place of a node.
    Node(u32, Span),
    Place(Span),
    Number(i128),
    /// Characters between quotes.
    Chars(&'a [char]),
    Expr(&'a Expr),
    Stmt(&'a Stmt),
}

/// Parts in the order of the text.
#[derive(Drop)]
pub struct Parts<'a> {
    parts: Vec<Part<'a>>,
    /// Whether there was no memory for a part.
    is_short: bool,
}

impl<'a> Parts<'a> {
    /// No parts.
    fn new(alloc: Global) -> Parts<'a> {
        Parts {
            parts: Vec::new(alloc),
            is_short: false,
        }
    }

    /// Adds a part at the end.
    pub fn push(&mut self, part: Part<'a>) {
        if self.parts.push(part).is_err() {
            self.is_short = true;
        }
    }

    /// Adds a word at the end.
    pub fn word(&mut self, word: &'static str) {
        self.push(Part::Word(word));
    }

    /// Adds the number and the place of a node.
    pub fn node(&mut self, number: u32, at: Span) {
        self.push(Part::Node(number, at));
    }

    /// Moves the parts to the end of others, the last first.
    fn stack_up(&mut self, stack: &mut Parts<'a>) {
        for part in self.parts.as_slice().iter().rev() {
            stack.push(*part);
        }
        self.parts.clear();
        stack.is_short = stack.is_short || self.is_short;
    }
}

/// What has a text.
pub trait Shown {
    /// Adds the parts of its text.
    fn show<'a>(&'a self, parts: &mut Parts<'a>);
}

impl Shown for bool {
    fn show<'a>(&'a self, parts: &mut Parts<'a>) {
        parts.word(if *self { "true" } else { "false" })
    }
}

impl Shown for Chars {
    fn show<'a>(&'a self, parts: &mut Parts<'a>) {
        parts.push(Part::Chars(self.as_slice()))
    }
}

impl<T: Shown> Shown for Boxed<T> {
    fn show<'a>(&'a self, parts: &mut Parts<'a>) {
        self.get().show(parts)
    }
}

impl<T: Shown> Shown for Items<T> {
    fn show<'a>(&'a self, parts: &mut Parts<'a>) {
        show_list(parts, self.as_slice())
    }
}

impl<T: Shown> Shown for Option<T> {
    fn show<'a>(&'a self, parts: &mut Parts<'a>) {
        match self {
            Some(value) => show_one(parts, "Some(", value),
            None => parts.word("None"),
        }
    }
}

/// Adds a list in brackets.
pub fn show_list<'a, T: Shown>(parts: &mut Parts<'a>, list: &'a [T]) {
    parts.word("[");
    let mut between = "";
    for item in list {
        parts.word(between);
        item.show(parts);
        between = ", ";
    }
    parts.word("]")
}

/// Adds a head and one part in parentheses.
pub fn show_one<'a, T: Shown>(parts: &mut Parts<'a>, head: &'static str, only: &'a T) {
    parts.word(head);
    only.show(parts);
    parts.word(")")
}

/// Adds a head and two parts in parentheses.
pub fn show_two<'a, T: Shown, U: Shown>(
    parts: &mut Parts<'a>,
    head: &'static str,
    first: &'a T,
    second: &'a U,
) {
    parts.word(head);
    first.show(parts);
    parts.word(", ");
    second.show(parts);
    parts.word(")")
}

/// Adds a head and three parts in parentheses.
pub fn show_three<'a, T: Shown, U: Shown, V: Shown>(
    parts: &mut Parts<'a>,
    head: &'static str,
    first: &'a T,
    second: &'a U,
    third: &'a V,
) {
    parts.word(head);
    first.show(parts);
    parts.word(", ");
    second.show(parts);
    parts.word(", ");
    third.show(parts);
    parts.word(")")
}

/// Gives a part, or adds the parts that it is made of.
fn give<'a>(row: &mut Row, inner: &mut Parts<'a>, part: Part<'a>) {
    match part {
        Part::Word(word) => row.word(word),
        Part::Node(number, at) => {
            let text = format!(in row.alloc(); "#{number}@{}:{} ", at.line, at.column);
            row.text(text);
        }
        Part::Place(at) => {
            let text = format!(in row.alloc(); "{}:{}", at.line, at.column);
            row.text(text);
        }
        Part::Number(number) => row.whole_number(number),
        Part::Chars(characters) => {
            row.word("'");
            row.spell_characters(characters);
            row.word("'");
        }
        Part::Expr(tree) => expr_parts(inner, tree),
        Part::Stmt(tree) => stmt_parts(inner, tree),
    }
}

/// Gives the text of a tree.
pub fn show_tree<T: Shown>(row: &mut Row, tree: &T) {
    let mut stack = Parts::new(row.alloc());
    let mut inner = Parts::new(row.alloc());
    tree.show(&mut inner);
    inner.stack_up(&mut stack);
    for _ in 0..u64::MAX {
        let Some(part) = stack.parts.pop() else {
            break;
        };
        give(row, &mut inner, part);
        inner.stack_up(&mut stack);
    }
    if stack.is_short {
        row.leave(Unjudged::NoMemory);
    }
}
