//! Rows of what the lexer gives.
use crate::rows::Row;
use crate::spelling_names::{name_of_keyword, name_of_operator};
use px_base::{Bytes, Span};
use px_lexer::lexing::tokens;
use px_lexer::{TokenKind, Tokens};

/// Gives the kind of a token, with the content of a string as it is.
fn show_kind(row: &mut Row, kind: &TokenKind) {
    match kind {
        TokenKind::Name => row.word("Name"),
        TokenKind::Number(number) => {
            row.word("Number(");
            row.whole_number(*number);
            row.word(")");
        }
        TokenKind::Text(content) => {
            row.word("Text(");
            row.spell_characters(content.as_slice());
            row.word(")");
        }
        TokenKind::Keyword(keyword) => {
            row.word("Keyword(");
            row.word(name_of_keyword(*keyword));
            row.word(")");
        }
        TokenKind::Operator(operator) => {
            row.word("Operator(");
            row.word(name_of_operator(*operator));
            row.word(")");
        }
        TokenKind::Foreign => row.word("Foreign"),
        TokenKind::Newline => row.word("Newline"),
        TokenKind::Indent => row.word("Indent"),
        TokenKind::Dedent => row.word("Dedent"),
        TokenKind::End => row.word("End"),
    }
}

/// Gives a place, and the bytes from one to before another.
fn show_place(row: &mut Row, at: Span, from: u32, to: u32) {
    let text = format!(in row.alloc(); " {}:{} {from}-{to}", at.line, at.column);
    row.text(text);
}

/// Gives tokens, and behind them the leading comment lines.
fn show_tokens(row: &mut Row, found: &Tokens) {
    let mut is_first = true;
    for token in found.list.as_slice() {
        row.separate(", ", is_first);
        show_kind(row, &token.kind);
        show_place(row, token.at, token.from, token.to);
        is_first = false;
    }
    for comment in found.comments.as_slice() {
        row.word(", Comment");
        show_place(row, comment.at, comment.from, comment.to);
    }
}

/// Gives what a text is: its tokens, or the number and place of its refusal.
fn show(row: &mut Row, text: &Bytes) {
    match tokens(row.alloc(), text.as_slice()) {
        Ok(found) => show_tokens(row, &found),
        Err(trouble) => row.refusal(trouble),
    }
}

/// A text, and its tokens or its refusal.
pub fn tokens_row(row: &mut Row) {
    let text = row.bytes();
    show(row, &text);
}

/// A long text: what stands first, what is then repeated, how often, and what stands last; then what the text gives.
pub fn long_text_row(row: &mut Row) {
    let mut text = row.bytes();
    let part = row.bytes();
    let count = row.number();
    let last = row.bytes();
    row.repeat(&mut text, &part, count);
    row.repeat(&mut text, &last, 1);
    show(row, &text);
}
