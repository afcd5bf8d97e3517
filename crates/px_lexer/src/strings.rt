ghost use Rattle.std.specs.Prelude.{◌≡◌, ◌≤◌, length, drop, slice_index, nat_eq, IsTrue};
ghost use Rattle.std.specs.List.{starts_with};
ghost use Rattle.px_lexer.specs.declared.forms.Form.TheVariants as form;
ghost use Rattle.px_lexer.specs.Places.{begins_line_end};
ghost use Rattle.px_lexer.specs.Pieces.{form_of};
ghost use Rattle.px_lexer.specs.Readers.{Reads};
ghost use Rattle.px_lexer.specs.Strings.{is_quote, is_escaped, closes, stops, is_raw, is_prefix, is_foreign_prefix, opens_string};
ghost use Rattle.px_lexer.specs.StringSteps.{is_own_letter, quotes_by, AreOpening, IsBodyEnd, IsOutline};

use crate::characters::{Characters, UNREADABLE};
use crate::parts::Part;
use crate::readings::{Breach, Found, Unread};
use crate::string_content::{Content, content_of};
use crate::token_list::TokenKind;
use crate::words::word_end;
use std::alloc::Global;

/// The quotes on each side of a string, by their code: one, or three.
#[derive(Clone, Copy)]
pub struct Quotes {
    pub code: u32,
    pub triple: bool,
}

/// How many characters the body of a string has, and whether the string is closed behind it.
#[derive(Clone, Copy)]
pub struct BodyEnd {
    pub len: usize,
    pub closed: bool,
}

/// The indices in a text of the opening quotes of a string, of its body and of what follows the string.
#[derive(Clone, Copy)]
pub struct Outline {
    pub opening: usize,
    pub start: usize,
    pub body: BodyEnd,
    pub to: usize,
}

impl Quotes {
    fn count(self) -> usize
        ensures { result ≡ length (quotes_by self.code self.triple) }
    {
        if self.triple { 3 } else { 1 }
    }
}

/// The string at an index.
///
/// # Errors
/// The rule that it breaks; `NoMemory` where there is no memory for its content.
pub(crate) fn string(alloc: Global, cs: &Characters, from: usize) -> Result<Found, Unread>
    requires { form_of (drop from cs.now) ≡ form.Text }
    ensures { Reads form.Text cs.now from result }
{
    let outline = outline_at(cs, from);
    let end = outline.start + outline.body.len;
    if !outline.body.closed && cs.code(end) != UNREADABLE {
        return Err(Unread::Broken(Breach { rule: 4, at: from }));
    }
    let prefix = Part::new(cs, from, outline.opening);
    let body = Part::new(cs, outline.start, end);
    let content = match content_of(alloc, &body, is_raw(&prefix))? {
        Content::Spelled(content) => content,
        Content::Wrong(index) => {
            return Err(Unread::Broken(Breach {
                rule: 2,
                at: outline.start + index,
            }));
        }
    };
    if !outline.body.closed {
        return Err(Unread::Broken(Breach { rule: 1, at: end }));
    }
    let kind = if is_foreign(&prefix) {
        TokenKind::Foreign
    } else {
        TokenKind::Text(content)
    };
    Ok(Found {
        kind,
        to: outline.to,
    })
}

/// Where the parts of the string at an index stand.
fn outline_at(cs: &Characters, from: usize) -> Outline
    requires { IsTrue (opens_string (drop from cs.now)) }
    ensures { IsOutline cs.now from result }
{
    let opening = word_end(cs, from);
    let len = cs.len();
    let quotes = opening_quotes(&Part::new(cs, opening, len));
    let start = opening + quotes.count();
    let body = body_end(&Part::new(cs, start, len), quotes);
    let end = start + body.len;
    Outline {
        opening,
        start,
        body,
        to: if body.closed {
            end + quotes.count()
        } else {
            end
        },
    }
}

/// The quotes with which a text begins.
fn opening_quotes(text: &Part) -> Quotes
    requires { IsTrue (is_quote (slice_index text.now 0)) }
    ensures { AreOpening text.now result }
{
    let code = text.code(0);
    Quotes {
        code,
        triple: text.code(1) == code && text.code(2) == code,
    }
}

/// Where the body of a string ends, which stands behind these opening quotes.
fn body_end(rest: &Part, quotes: Quotes) -> BodyEnd
    requires { IsTrue (is_quote quotes.code) }
    ensures { IsBodyEnd (quotes_by quotes.code quotes.triple) rest.now result }
{
    let mut len = 0;
    let mut escaped = false;
    while !stops(rest, len, quotes, escaped) {
        escaped = rest.code(len) == u32::from(b'\\') && !escaped;
        len += 1;
    }
    BodyEnd {
        len,
        closed: closes(rest, len, quotes, escaped),
    }
}

/// Whether the body of a string stops at an index, whose character is escaped or not.
fn stops(rest: &Part, at: usize, quotes: Quotes, escaped: bool) -> bool
    requires quote { IsTrue (is_quote quotes.code) }
    requires inside { at ≤ length rest.now }
    requires escaped { escaped ≡ is_escaped rest.now at }
    ensures { result ≡ stops (quotes_by quotes.code quotes.triple) rest.now at }
{
    closes(rest, at, quotes, escaped)
        || (!quotes.triple && begins_line_end(rest, at) && !escaped)
        || at >= rest.len()
        || rest.code(at) == UNREADABLE
}

/// Whether the closing quotes of a string stand at an index, whose character is escaped or not.
fn closes(rest: &Part, at: usize, quotes: Quotes, escaped: bool) -> bool
    requires quote { IsTrue (is_quote quotes.code) }
    requires inside { at ≤ length rest.now }
    requires escaped { escaped ≡ is_escaped rest.now at }
    ensures { result ≡ closes (quotes_by quotes.code quotes.triple) rest.now at }
{
    stand_at(rest, at, quotes) && !escaped
}

/// Whether these quotes stand at an index.
fn stand_at(text: &Part, at: usize, quotes: Quotes) -> bool
    requires quote { IsTrue (is_quote quotes.code) }
    requires inside { at ≤ length text.now }
    ensures { result ≡ starts_with nat_eq (drop at text.now) (quotes_by quotes.code quotes.triple) }
{
    text.code(at) == quotes.code
        && (!quotes.triple
            || (text.code(at + 1) == quotes.code && text.code(at + 2) == quotes.code))
}

/// Whether a line end begins at an index: the LF of a CR LF begins none.
fn begins_line_end(text: &Part, at: usize) -> bool
    ensures { result ≡ begins_line_end text.now at }
{
    let code = text.code(at);
    if code == u32::from(b'\n') {
        at == 0 || text.code(at - 1) != u32::from(b'\r')
    } else {
        code == u32::from(b'\r')
    }
}

/// Whether the prefix makes a raw string.
fn is_raw(prefix: &Part) -> bool
    ensures { result ≡ is_raw prefix.now }
{
    let mut at = 0;
    while at < prefix.len() {
        let code = prefix.code(at);
        if code == u32::from(b'r') || code == u32::from(b'R') {
            return true;
        }
        at += 1;
    }
    false
}

/// Whether the prefix, which may stand before a quote, is one that this language leaves out: all but r and u are.
fn is_foreign(prefix: &Part) -> bool
    requires { IsTrue (is_prefix prefix.now) }
    ensures { result ≡ is_foreign_prefix prefix.now }
{
    let len = prefix.len();
    len > 1 || (len == 1 && !is_own_letter(prefix.code(0)))
}

/// Whether the letter alone is a prefix of this language.
fn is_own_letter(code: u32) -> bool
    ensures { result ≡ is_own_letter code }
{
    code == u32::from(b'r')
        || code == u32::from(b'R')
        || code == u32::from(b'u')
        || code == u32::from(b'U')
}
