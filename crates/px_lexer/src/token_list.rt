use crate::spelling::{Keyword, Operator};
use px_base::{Bytes, Chars, Sequence, Span};

/// What a token is (Python Language Reference, 2.1.1 Logical lines and 2.2 Other tokens).
#[derive(Drop)]
pub enum TokenKind {
    /// An identifier; its spelling is the name.
    Name,
    /// A whole number from 0 to 2^127 - 1.
    Number(i128),
    /// A string, by its content.
    Text(Chars),
    Keyword(Keyword),
    Operator(Operator),
    /// A word, an operator or a string of Cython that this language leaves out.
    Foreign,
    /// The end of a logical line.
    Newline,
    /// A logical line is deeper than the one before it.
    Indent,
    /// A logical line leaves a level of indentation.
    Dedent,
    /// The end of the text.
    End,
}

/// A token of a text: its place, and its bytes from `from` to before `to`, which are its spelling.
#[derive(Drop)]
pub struct Token {
    pub kind: TokenKind,
    pub at: Span,
    pub from: u32,
    pub to: u32,
}

/// The tokens of a text, in its order.
pub type TokenList = Sequence<Token>;

/// A comment: its place, and its bytes from the `#` to before its line end.
#[derive(Clone, Copy)]
pub struct Comment {
    pub at: Span,
    pub from: u32,
    pub to: u32,
}

/// Comments of a text, in its order.
pub type Comments = Sequence<Comment>;

/// A text with its tokens, the last of which is `End`, and the comment lines before its first other token.
#[derive(Drop)]
pub struct Tokens {
    pub text: Bytes,
    pub list: TokenList,
    pub comments: Comments,
}
