//! Directives in comments.

ghost use Rattle.std.specs.Prelude.{◌≡◌, ◌≤◌, [], length, map, IfOk, option_map, option_copied, ◌==◌, unwrap_or};
ghost use Rattle.std.specs.List.{position_or_len};
ghost use Rattle.px_names.specs.Tables.{entry_of, is_among};
ghost use Rattle.px_names.specs.Comments.{is_blank, is_separator, without_blanks, trimmed, behind, behind_blanks, is_word, words_pair, pair_at, pairs_text, pairs_between_commas, pairs_of, truths, directives, versions, is_switch, is_pair_known, is_comment_known, setting_of};

use crate::settings::Directive;
use crate::texts::{entry_for, is_one_of};
use crate::words::DIRECTIVES;
use px_base::NoMemory;
use std::alloc::Global;

/// A name and its value in a comment.
#[derive(Clone, Copy)]
pub(crate) struct Pair<'a> {
    pub(crate) name: &'a [u8],
    pub(crate) value: &'a [u8],
}

const TRUTHS: [(&[u8], bool); 2] = [(b"True", true), (b"False", false)];

const VERSIONS: [&[u8]; 2] = [b"3", b"3str"];

const LEVELS: [&[u8]; 1] = [b"language_level"];

/// The switches that change nothing.
const UNUSED_SWITCHES: [&[u8]; 1] = [b"initializedcheck"];

fn is_blank(byte: u8) -> bool
    ensures { result ≡ is_blank byte }
{
    byte == b' ' || byte == b'\t' || byte == 12
}

/// Whether a byte stands in no name and no value.
fn is_separator(byte: u8) -> bool
    ensures { result ≡ is_separator byte }
{
    is_blank(byte) || byte == b',' || byte == b'='
}

/// The text without the blanks at its start.
fn without_blanks(text: &[u8]) -> &[u8]
    ensures { result.now ≡ without_blanks text.now }
{
    let mut from = 0;
    while from < text.len() && is_blank(text[from]) {
        from += 1;
    }
    &text[from..]
}

/// The text without the blanks at both ends.
fn trimmed(text: &[u8]) -> &[u8]
    ensures { result.now ≡ trimmed text.now }
{
    let text = without_blanks(text);
    let mut to = text.len();
    while to > 0 && is_blank(text[to - 1]) {
        to -= 1;
    }
    &text[..to]
}

/// What stands behind a text that this one begins with.
fn behind<'a>(front: &[u8], text: &'a [u8]) -> Option<&'a [u8]>
    ensures { option_copied result ≡ behind front.now text.now }
{
    if text.len() < front.len() || &text[..front.len()] != front {
        return None;
    }
    Some(&text[front.len()..])
}

/// Whether a text is a name or a value.
fn is_word(text: &[u8]) -> bool
    ensures { result ≡ is_word text.now }
{
    for byte in text {
        if is_separator(*byte) {
            return false;
        }
    }
    !text.is_empty()
}

/// The place of the first such byte; the length of the text where there is none.
fn place_of(byte: u8, text: &[u8]) -> usize
    ensures place { result ≡ position_or_len (λ b. b == byte) text.now }
    ensures within { result ≤ length text.now }
{
    let mut at = 0;
    while at < text.len() && text[at] != byte {
        at += 1;
    }
    at
}

/// The pair of two texts, where each is a word.
fn pair_of_words<'a>(name: &'a [u8], value: &'a [u8]) -> Option<Pair<'a>>
    ensures { option_map (λ pair. (pair.name.now, pair.value.now)) result ≡ words_pair name.now value.now }
{
    if is_word(name) && is_word(value) {
        Some(Pair { name, value })
    } else {
        None
    }
}

/// The pair that a text is, which has one `=`.
fn pair_of<'a>(text: &'a [u8]) -> Option<Pair<'a>>
    ensures { option_map (λ pair. (pair.name.now, pair.value.now)) result ≡ pair_at text.now }
{
    let sign = place_of(b'=', text);
    if sign == text.len() {
        return None;
    }
    let behind = &text[sign + 1..];
    if place_of(b'=', behind) < behind.len() {
        return None;
    }
    pair_of_words(trimmed(&text[..sign]), trimmed(behind))
}

/// The same behind blanks, where there is such a text.
fn behind_blanks<'a>(front: &[u8], text: Option<&'a [u8]>) -> Option<&'a [u8]>
    ensures { option_copied result ≡ behind_blanks front.now (option_copied text.entry) }
{
    match text {
        Some(text) => behind(front, without_blanks(text)),
        None => None,
    }
}

/// What stands behind the `:` of a comment of directives.
fn pairs_text<'a>(comment: &'a [u8]) -> Option<&'a [u8]>
    ensures { option_copied result ≡ pairs_text comment.now }
{
    let word = behind_blanks(b"cython", behind(b"#", comment));
    behind_blanks(b":", word)
}

/// The pairs between commas; none where a text there is no pair.
fn pairs_between<'a>(alloc: Global, text: &'a [u8]) -> Result<Vec<Pair<'a>>, NoMemory>
    ensures { IfOk result (λ pairs. map (λ pair. (pair.name.now, pair.value.now)) pairs.items ≡ unwrap_or (pairs_between_commas text.now) []) }
{
    let mut pairs = Vec::new(alloc);
    let mut left = text;
    loop {
        let comma = place_of(b',', left);
        match pair_of(&left[..comma]) {
            Some(pair) => pairs.push(pair)?,
            None => return Ok(Vec::new(alloc)),
        }
        if comma == left.len() {
            return Ok(pairs);
        }
        left = &left[comma + 1..];
    }
}

/// The pairs of a comment; of a plain one there are none.
///
/// # Errors
/// `NoMemory` where there is no memory for them.
pub(crate) fn pairs_of<'a>(alloc: Global, comment: &'a [u8]) -> Result<Vec<Pair<'a>>, NoMemory>
    ensures { IfOk result (λ pairs. map (λ pair. (pair.name.now, pair.value.now)) pairs.items ≡ pairs_of comment.now) }
{
    match pairs_text(comment) {
        Some(text) => pairs_between(alloc, text),
        None => Ok(Vec::new(alloc)),
    }
}

fn truth_of(value: &[u8]) -> Option<bool>
    ensures { result ≡ entry_of truths value.now }
{
    entry_for(&TRUTHS, value)
}

fn directive_of(name: &[u8]) -> Option<Directive>
    ensures { result ≡ entry_of directives name.now }
{
    entry_for(&DIRECTIVES, name)
}

/// Whether it is a value of `language_level`.
fn is_version(value: &[u8]) -> bool
    ensures { result ≡ is_among versions value.now }
{
    is_one_of(&VERSIONS, value)
}

/// Whether it is a directive whose values are True and False.
fn is_switch(name: &[u8]) -> bool
    ensures { result ≡ is_switch name.now }
{
    is_one_of(&UNUSED_SWITCHES, name) || directive_of(name).is_some()
}

/// Whether a pair is known, with one of its values.
fn is_pair_known(pair: Pair<'_>) -> bool
    ensures { result ≡ is_pair_known (pair.entry.name.now, pair.entry.value.now) }
{
    if is_one_of(&LEVELS, pair.name) {
        return is_version(pair.value);
    }
    if is_switch(pair.name) {
        return truth_of(pair.value).is_some();
    }
    false
}

/// Whether each directive of a comment is known, with one of its values.
///
/// # Errors
/// `NoMemory` where there is no memory for the pairs.
pub(crate) fn is_comment_known(alloc: Global, comment: &[u8]) -> Result<bool, NoMemory>
    ensures { IfOk result (λ known. known ≡ is_comment_known comment.now) }
{
    let pairs = pairs_of(alloc, comment)?;
    for pair in &pairs {
        if !is_pair_known(*pair) {
            return Ok(false);
        }
    }
    Ok(true)
}

/// The directive that a pair sets, and its value.
pub(crate) fn setting_of(pair: Pair<'_>) -> Option<(Directive, bool)>
    ensures { result ≡ setting_of (pair.entry.name.now, pair.entry.value.now) }
{
    match directive_of(pair.name) {
        Some(directive) => with_truth(directive, truth_of(pair.value)),
        None => None,
    }
}

/// A directive with its value, where there is one.
fn with_truth(directive: Directive, value: Option<bool>) -> Option<(Directive, bool)>
    ensures { result ≡ option_map (λ value. (directive, value)) value }
{
    match value {
        Some(value) => Some((directive, value)),
        None => None,
    }
}
