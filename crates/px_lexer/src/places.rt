ghost use Rattle.std.specs.Prelude.{◌≡◌, ◌+◌, ◌<◌, ◌≤◌, ◌==◌, length, drop};
ghost use Rattle.std.specs.List.{prefix_len};
ghost use Rattle.std.specs.Char.{len_utf8};
ghost use Rattle.px_base.specs.declared.refusals.Trouble.TheVariants.{Refused};
ghost use Rattle.px_lexer.specs.Characters.{mark_len};
ghost use Rattle.px_lexer.specs.Places.{ends_line, refusal_at};
ghost use Rattle.px_lexer.specs.Lines.{level_from, indented_to};
ghost use Rattle.px_lexer.specs.Reached.{IsPlace, IsNear, IsSource};

use crate::characters::Characters;
use crate::readings::Breach;
use px_base::{Refusal, Span, Trouble};

/// A text and its characters.
#[derive(Drop)]
pub struct Source<'a> {
    pub text: &'a [u8],
    pub characters: Characters,
}

/// A place in a text: the index of a character, or behind the last one, with its line, its column and its byte.
#[derive(Clone, Copy)]
pub struct Place {
    pub index: usize,
    pub line: u32,
    pub column: u32,
    pub byte: u32,
}

/// How many spaces stand at the start of a line behind its form feeds, and the index behind them.
#[derive(Clone, Copy)]
pub(crate) struct Indentation {
    pub(crate) level: usize,
    pub(crate) end: usize,
}

/// How many bytes a character has in UTF-8.
fn utf8_len(code: u32) -> u32
    ensures { result ≡ len_utf8 code }
{
    if code < 0x80 {
        1
    } else if code < 0x800 {
        2
    } else if code < 0x10000 {
        3
    } else {
        4
    }
}

/// Whether a line ends with the character at an index.
fn line_ends(cs: &Characters, at: usize) -> bool
    requires { at < length cs.now }
    ensures { result ≡ ends_line cs.now at }
{
    let code = cs.code(at);
    code == u32::from(b'\n') || code == u32::from(b'\r') && cs.code_ahead(at, 1) != u32::from(b'\n')
}

/// The place behind the character of a place.
fn next_place(source: &Source, place: Place) -> Place
    requires whole { IsSource source.now }
    requires there { IsPlace source.now.text.now place }
    requires near { IsNear place }
    requires inside { place.index < length source.now.characters }
    ensures index { result.index ≡ place.index + 1 }
    ensures place { IsPlace source.now.text.now result }
    ensures near { IsNear result }
{
    let byte = place.byte + utf8_len(source.characters.code(place.index));
    if line_ends(&source.characters, place.index) {
        Place {
            index: place.index + 1,
            line: place.line + 1,
            column: 1,
            byte,
        }
    } else {
        Place {
            index: place.index + 1,
            line: place.line,
            column: place.column + 1,
            byte,
        }
    }
}

/// The place of a later index.
pub(crate) fn place_at(source: &Source, from: Place, to: usize) -> Place
    requires whole { IsSource source.now }
    requires there { IsPlace source.now.text.now from }
    requires near { IsNear from }
    requires forward { from.index ≤ to }
    requires within { to ≤ length source.now.characters }
    ensures index { result.index ≡ to }
    ensures place { IsPlace source.now.text.now result }
    ensures near { IsNear result }
{
    let mut place = from;
    while place.index < to {
        place = next_place(source, place);
    }
    place
}

/// The index behind the characters with this code that stand from an index on.
fn run_end(cs: &Characters, code: u32, from: usize) -> usize
    requires { from ≤ length cs.now }
    ensures end { result ≡ from + prefix_len (λ c. c == code) (drop from cs.now) }
    ensures within { result ≤ length cs.now }
{
    let mut to = from;
    while to < cs.len() && cs.code(to) == code {
        to += 1;
    }
    to
}

/// The place at the start of a text, behind its byte order mark.
pub(crate) fn text_start(source: &Source) -> Place
    requires { IsSource source.now }
    ensures index { result.index ≡ 0 }
    ensures place { IsPlace source.now.text.now result }
    ensures near { IsNear result }
{
    let byte = mark_len(source.text);
    Place {
        index: 0,
        line: 1,
        column: 1,
        byte,
    }
}

/// How many bytes the byte order mark takes at the start of a text.
fn mark_len(text: &[u8]) -> u32
    ensures value { result ≡ mark_len text.now }
    ensures bound { result ≤ 3 }
{
    if text.starts_with(&[0xEF, 0xBB, 0xBF]) {
        3
    } else {
        0
    }
}

/// The indentation of a line that begins at an index.
pub(crate) fn indentation_from(cs: &Characters, start: usize) -> Indentation
    requires { start ≤ length cs.now }
    ensures level { result.level ≡ level_from cs.now start }
    ensures end { result.end ≡ indented_to cs.now start }
    ensures within { result.end ≤ length cs.now }
{
    let feeds_end = run_end(cs, u32::from(b'\x0C'), start);
    let end = run_end(cs, u32::from(b' '), feeds_end);
    Indentation {
        level: end - feeds_end,
        end,
    }
}

/// The refusal for a rule that is broken on the line that begins at `start`, or on a later one.
pub(crate) fn refusal(source: &Source, start: Place, breach: Breach) -> Trouble
    requires whole { IsSource source.now }
    requires there { IsPlace source.now.text.now start }
    requires near { IsNear start }
    requires forward { start.index ≤ breach.at }
    requires within { breach.at ≤ length source.now.characters }
    ensures { result ≡ Refused (refusal_at source.now.characters breach.rule breach.at) }
{
    let place = place_at(source, start, breach.at);
    Trouble::Refused(Refusal {
        number: breach.rule,
        line: place.line,
        column: place.column,
    })
}

/// The line and the column of a place.
pub(crate) fn span_of(place: Place) -> Span
    ensures { result ≡ record { line = place.line; column = place.column } }
{
    Span {
        line: place.line,
        column: place.column,
    }
}
