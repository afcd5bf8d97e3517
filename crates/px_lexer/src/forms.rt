ghost use Rattle.std.specs.Prelude.{◌≡◌, ◌==◌, ◌&&◌, ◌+◌, ◌<◌, [], ◌∷◌, drop, length, not, slice_index, IsFalse};
ghost use Rattle.std.specs.Char.{is_ascii_digit, to_ascii_lowercase};
ghost use Rattle.std.specs.List.{prefix_len};
ghost use Rattle.px_lexer.specs.Places.{is_line_break, line_end_len};
ghost use Rattle.px_lexer.specs.Strings.{is_prefix, is_quote, opens_string};
ghost use Rattle.px_lexer.specs.Signs.{begins_sign};
ghost use Rattle.px_lexer.specs.Pieces.{is_blank, begins_number, joins_lines, form_of, is_content};
ghost use Rattle.px_lexer.specs.Readers.{EndsAt};

use crate::characters::Characters;
use crate::signs::begins_sign;

/// What stands at a place of a text (Python Language Reference, 2 Lexical analysis).
#[derive(Clone, Copy)]
pub enum Form {
    /// A space, a tab or a form feed (2.1.9 Whitespace between tokens).
    Blank,
    /// The end of a physical line (2.1.2 Physical lines).
    LineEnd,
    /// A backslash and the line end that it joins over (2.1.5 Explicit line joining).
    Join,
    /// `#` and all up to the line end (2.1.3 Comments).
    Comment,
    /// An identifier, keyword or foreign word (2.3 Identifiers and keywords).
    Word,
    /// A numeric literal (2.4.4 Numeric literals).
    Number,
    /// A string (2.4.1 String and Bytes literals).
    Text,
    /// An operator or delimiter (2.5 Operators, 2.6 Delimiters).
    Sign,
    /// A character that begins none of these, or can't be read.
    Stray,
}

/// A space, a tab or a form feed.
fn is_blank(c: u32) -> bool
    ensures { result ≡ is_blank c }
{
    c == u32::from(b' ') || c == u32::from(b'\t') || c == u32::from(b'\x0c')
}

/// LF or CR.
fn is_line_break(c: u32) -> bool
    ensures { result ≡ is_line_break c }
{
    c == u32::from(b'\n') || c == u32::from(b'\r')
}

/// `'` or `"`.
fn is_quote(c: u32) -> bool
    ensures { result ≡ is_quote c }
{
    c == u32::from(b'\'') || c == u32::from(b'"')
}

/// The character in lower case, where it is an ASCII letter.
fn ascii_lowercase(c: u32) -> u32
    ensures { result ≡ to_ascii_lowercase c }
{
    if u32::from(b'A') <= c && c <= u32::from(b'Z') {
        c + 32
    } else {
        c
    }
}

/// Whether the character alone may stand before a quote.
fn is_prefix_letter(c: u32) -> bool
    ensures { result ≡ is_prefix (c ∷ []) }
{
    let c = ascii_lowercase(c);
    c == u32::from(b'r')
        || c == u32::from(b'u')
        || c == u32::from(b'b')
        || c == u32::from(b'c')
        || c == u32::from(b'f')
}

/// Whether the two characters may stand before a quote.
fn is_prefix_pair(first: u32, second: u32) -> bool
    ensures { result ≡ is_prefix (first ∷ second ∷ []) }
{
    let first = ascii_lowercase(first);
    let second = ascii_lowercase(second);
    if second == u32::from(b'r') {
        first == u32::from(b'b') || first == u32::from(b'f') || first == u32::from(b'u')
    } else {
        first == u32::from(b'r') && (second == u32::from(b'b') || second == u32::from(b'f'))
    }
}

/// Whether a string begins at an index. A prefix has at most two characters, so three are enough.
#[tactic(auto, using(crate::proofs::PrefixLemmas::opens_string_at))]
fn opens_string(cs: &Characters, at: usize) -> bool
    ensures { result ≡ opens_string (drop at cs.now) }
{
    let first = cs.code(at);
    if is_quote(first) {
        return true;
    }
    if !is_prefix_letter(first) {
        return false;
    }
    let second = cs.code_ahead(at, 1);
    is_quote(second) || is_prefix_pair(first, second) && is_quote(cs.code_ahead(at, 2))
}

/// A digit from 0 to 9.
fn is_digit(c: u32) -> bool
    ensures { result ≡ is_ascii_digit c }
{
    u32::from(b'0') <= c && c <= u32::from(b'9')
}

/// Whether a digit, or a point and a digit, stand at an index.
fn begins_number(cs: &Characters, at: usize) -> bool
    ensures { result ≡ begins_number (drop at cs.now) }
{
    let c = cs.code(at);
    is_digit(c) || c == u32::from(b'.') && is_digit(cs.code_ahead(at, 1))
}

/// Whether a backslash and a line end stand at an index.
fn joins_lines(cs: &Characters, at: usize) -> bool
    ensures { result ≡ joins_lines (drop at cs.now) }
{
    cs.code(at) == u32::from(b'\\') && is_line_break(cs.code_ahead(at, 1))
}

/// The form of the piece at an index.
#[tactic(auto, using(crate::proofs::FormLemmas::form_of_at))]
pub(crate) fn form_at(cs: &Characters, at: usize) -> Form
    ensures { result ≡ form_of (drop at cs.now) }
{
    let c = cs.code(at);
    if is_blank(c) {
        Form::Blank
    } else if is_line_break(c) {
        Form::LineEnd
    } else if joins_lines(cs, at) {
        Form::Join
    } else if c == u32::from(b'#') {
        Form::Comment
    } else if opens_string(cs, at) {
        Form::Text
    } else if cs.starts_word(at) {
        Form::Word
    } else if begins_number(cs, at) {
        Form::Number
    } else if begins_sign(cs, at) {
        Form::Sign
    } else {
        Form::Stray
    }
}

/// How many characters the line end at an index takes: two for CR LF.
fn line_end_len(cs: &Characters, at: usize) -> usize
    ensures { result ≡ line_end_len (drop at cs.now) }
{
    if cs.code(at) == u32::from(b'\r') && cs.code_ahead(at, 1) == u32::from(b'\n') {
        2
    } else {
        1
    }
}

/// The index of the line end that ends the comment at an index, or behind the last character.
fn comment_end(cs: &Characters, from: usize) -> usize
    ensures { result ≡ from + prefix_len (λ c. not (is_line_break c)) (drop from cs.now) }
{
    let length = cs.len();
    let mut to = from;
    while to < length && !is_line_break(cs.code(to)) {
        to += 1;
    }
    to
}

/// The index behind the blank, line end, join or comment at an index.
pub(crate) fn gap_end(cs: &Characters, form: Form, from: usize) -> usize
    requires inside { from < length cs.now }
    requires stands { form ≡ form_of (drop from cs.now) }
    requires gap { IsFalse (is_content form) }
    ensures { EndsAt form cs.now from result }
{
    // The length bounds the sums.
    let _length = cs.len();
    match form {
        Form::LineEnd => from + line_end_len(cs, from),
        Form::Join => from + 1 + line_end_len(cs, from + 1),
        Form::Comment => comment_end(cs, from),
        _ => from + 1,
    }
}
