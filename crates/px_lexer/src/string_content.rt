ghost use Rattle.std.specs.Prelude.{◌≡◌, ◌+◌, ◌++◌, true, false, ◌<◌, ◌≤◌, ◌*◌, ◌^◌, min, length, drop, take, find, ◌==◌, Some, slice_index, Contains, SomeIff, IfOk, IsTrue};
ghost use Rattle.std.specs.List.{prefix_len};
ghost use Rattle.std.specs.Char.{is_digit, digit_value};
ghost use Rattle.px_lexer.specs.Characters.{unreadable};
ghost use Rattle.px_lexer.specs.Places.{line_end_len, is_line_break};
ghost use Rattle.px_lexer.specs.Numbers.{digits_value};
ghost use Rattle.px_lexer.specs.Strings.{escape_of, hex_escape, octal_escape, simple_escape, simple_escapes, with_line_feeds};
ghost use Rattle.px_lexer.specs.StringSteps.{given_of, escape_by, IsContentRead};

use crate::parts::Part;
use px_base::{Chars, Sequence};
use std::alloc::{AllocError, Global};

/// What the body of a string stands for, or the index of its first wrong escape.
#[derive(Drop)]
pub enum Content {
    Spelled(Chars),
    Wrong(usize),
}

/// What an escape gives.
#[derive(Clone, Copy)]
pub enum Given {
    Nothing,
    One(char),
    /// The backslash stays before this character.
    Kept(char),
}

/// An escape: how many characters it has, and what they stand for.
#[derive(Clone, Copy)]
pub struct EscapeRead {
    pub taken: usize,
    pub given: Given,
}

/// The content of a string with this body, by whether it is raw.
///
/// # Errors
/// `AllocError` where there is no memory for it.
pub(crate) fn content_of(alloc: Global, body: &Part, raw: bool) -> Result<Content, AllocError>
    requires { Contains body.now unreadable → ⊥ }
    ensures { IfOk result (λ content. IsContentRead raw body.now content) }
{
    if raw {
        Ok(Content::Spelled(raw_content(alloc, body)?))
    } else {
        escaped_content(alloc, body)
    }
}

/// The content of a raw string.
///
/// # Errors
/// `AllocError` where there is no memory for it.
#[tactic(auto, using(crate::proofs::StringContentLemmas::raw_line_end))]
fn raw_content(alloc: Global, body: &Part) -> Result<Chars, AllocError>
    requires { Contains body.now unreadable → ⊥ }
    ensures { IfOk result (λ content. content ≡ with_line_feeds body.now) }
{
    let mut content = Sequence::new(alloc);
    let mut at = 0;
    while let Some(c) = body.character(at) {
        at += 1;
        if c != '\r' {
            content.push(c)?;
        } else if body.code(at) != u32::from(b'\n') {
            content.push('\n')?;
        }
    }
    Ok(content)
}

/// The content of a string that isn't raw. A backslash at the very end, which no closed string has, gives nothing.
///
/// # Errors
/// `AllocError` where there is no memory for it.
fn escaped_content(alloc: Global, body: &Part) -> Result<Content, AllocError>
    requires { Contains body.now unreadable → ⊥ }
    ensures { IfOk result (λ content. IsContentRead false body.now content) }
{
    let mut content = Sequence::new(alloc);
    let mut at = 0;
    while let Some(c) = body.character(at) {
        if c == '\\' {
            let Some(next) = body.character(at + 1) else {
                break;
            };
            let Some(escape) = escape_at(body, at, next) else {
                return Ok(Content::Wrong(at));
            };
            give(&mut content, escape.given)?;
            at += escape.taken;
        } else if c == '\r' || c == '\n' {
            content.push('\n')?;
            at += line_end_len(body, at);
        } else {
            content.push(c)?;
            at += 1;
        }
    }
    Ok(Content::Spelled(content))
}

/// Adds what an escape gives.
///
/// # Errors
/// `AllocError` where there is no memory for it.
fn give(content: &mut Chars, given: Given) -> Result<(), AllocError>
    ensures { IfOk result (λ _. content.new ≡ content.old ++ given_of given) }
{
    match given {
        Given::Nothing => Ok(()),
        Given::One(c) => content.push(c),
        Given::Kept(c) => {
            content.push('\\')?;
            content.push(c)
        }
    }
}

/// How many characters the line end takes that begins at an index.
fn line_end_len(body: &Part, at: usize) -> usize
    requires { at < length body.now }
    ensures { result ≡ line_end_len (drop at body.now) }
{
    if body.code(at) == u32::from(b'\r') && body.code(at + 1) == u32::from(b'\n') {
        2
    } else {
        1
    }
}

/// The escape that begins with the backslash at an index, before this character; none where it is wrong.
fn escape_at(body: &Part, at: usize, next: char) -> Option<EscapeRead>
    requires inside { at + 1 < length body.now }
    requires next { slice_index body.now (at + 1) ≡ next }
    requires short { length body.now < 2 ^ 64 }
    ensures { escape_by result ≡ escape_of (drop at body.now) }
{
    if next == '\r' || next == '\n' {
        return Some(EscapeRead {
            taken: 1 + line_end_len(body, at + 1),
            given: Given::Nothing,
        });
    }
    if next.is_digit(8) {
        return octal_escape(body, at);
    }
    match next {
        'x' => hex_escape(body, at, 2),
        'u' => hex_escape(body, at, 4),
        'U' => hex_escape(body, at, 8),
        'N' => None,
        _ => Some(EscapeRead {
            taken: 2,
            given: simple_escape(next),
        }),
    }
}

/// What a simple escape gives.
#[tactic(auto, unfolding(crate::specs::Strings::simple_escapes))]
fn simple_escape(next: char) -> Given
    ensures { Some (record { taken = 2; given = given_of result })
        ≡ simple_escape next (find (λ row. row.0 == next) simple_escapes) }
{
    match next {
        '\\' => Given::One('\\'),
        '\'' => Given::One('\''),
        '"' => Given::One('"'),
        'a' => Given::One('\x07'),
        'b' => Given::One('\x08'),
        'f' => Given::One('\x0c'),
        'n' => Given::One('\n'),
        'r' => Given::One('\r'),
        't' => Given::One('\t'),
        'v' => Given::One('\x0b'),
        _ => Given::Kept(next),
    }
}

/// The escape of one to three octal digits behind a backslash.
fn octal_escape(body: &Part, at: usize) -> Option<EscapeRead>
    requires inside { at + 1 < length body.now }
    requires short { length body.now < 2 ^ 64 }
    ensures { escape_by result ≡ octal_escape (drop at body.now) }
{
    let count = digits_len(body, at + 1, 8, 3);
    let c = char::from_u32(number(body, at + 1, 8, count))?;
    Some(EscapeRead {
        taken: 1 + count,
        given: Given::One(c),
    })
}

/// The escape of so many hexadecimal digits behind a backslash and a letter; none where they aren't there, or write no
/// character.
fn hex_escape(body: &Part, at: usize, count: usize) -> Option<EscapeRead>
    requires inside { at + 1 < length body.now }
    requires few { count ≤ 8 }
    requires short { length body.now < 2 ^ 64 }
    ensures { escape_by result ≡ hex_escape count (drop at body.now) }
{
    if digits_len(body, at + 2, 16, count) < count {
        return None;
    }
    let c = char::from_u32(number(body, at + 2, 16, count))?;
    Some(EscapeRead {
        taken: 2 + count,
        given: Given::One(c),
    })
}

/// The value of the digit of this base that stands at an index, if one does.
fn digit_at(body: &Part, at: usize, base: u32) -> Option<u32>
    requires low { 2 ≤ base }
    requires high { base ≤ 36 }
    ensures { SomeIff result (digit_value (slice_index body.now at) < base) (digit_value (slice_index body.now at)) }
{
    body.character(at)?.to_digit(base)
}

/// How many digits of this base stand at an index, of so many at most.
fn digits_len(body: &Part, from: usize, base: u32, most: usize) -> usize
    requires inside { from ≤ length body.now }
    requires short { length body.now < 2 ^ 64 }
    requires low { 2 ≤ base }
    requires high { base ≤ 36 }
    ensures { result ≡ min most (prefix_len (λ c. is_digit c base) (drop from body.now)) }
{
    let mut count = 0;
    while count < most && digit_at(body, from + count, base).is_some() {
        count += 1;
    }
    count
}

/// The number that so many digits of this base write.
fn number(body: &Part, from: usize, base: u32, count: usize) -> u32
    requires inside { from ≤ length body.now }
    requires short { length body.now < 2 ^ 64 }
    requires low { 2 ≤ base }
    requires high { base ≤ 36 }
    requires digits { count ≤ prefix_len (λ c. is_digit c base) (drop from body.now) }
    requires fits { base ^ count ≤ 2 ^ 32 }
    ensures value { result ≡ digits_value base (take count (drop from body.now)) }
    ensures small { result < base ^ count }
{
    let mut value = 0;
    let mut read = 0;
    while read < count {
        let digit = digit_at(body, from + read, base).unwrap_or(0);
        value = value * base + digit;
        read += 1;
    }
    value
}
