ghost use Rattle.std.specs.Prelude.{◌≡◌, ◌+◌, ◌≤◌, ◌==◌, ◌↔◌, drop, filter, map, length, bytes_eq, encode_utf8_all, IsTrue, IfOk, MatchOption};
ghost use Rattle.unicode_normalization.specs.Forms.{IsInForm, Nfkc};
ghost use Rattle.px_lexer.specs.declared.forms.Form.TheVariants as form;
ghost use Rattle.px_lexer.specs.Pieces.{form_of};
ghost use Rattle.px_lexer.specs.Spellings.{meaning_in, is_among};
ghost use Rattle.px_lexer.specs.Words.{word_len, keywords, foreign_words, identifier_limit, IsIdentifier, IsWordKind};
ghost use Rattle.px_lexer.specs.Refusals.{IsBadWord};
ghost use Rattle.px_lexer.specs.Readers.{Reads};

use crate::characters::Characters;
use crate::readings::{Breach, Found, Unread};
use crate::spelling::Keyword;
use crate::token_list::TokenKind;
use std::alloc::{AllocError, Global};
use unicode_normalization::{QuickCheck, slice};

// The tables are by length, so that a word is compared with few others.
const KEYWORDS_OF_TWO: [(&[u8], Keyword); 5] = [
    (b"as", Keyword::As),
    (b"if", Keyword::If),
    (b"in", Keyword::In),
    (b"is", Keyword::Is),
    (b"or", Keyword::Or),
];

const KEYWORDS_OF_THREE: [(&[u8], Keyword); 4] = [
    (b"and", Keyword::And),
    (b"def", Keyword::Def),
    (b"for", Keyword::For),
    (b"not", Keyword::Not),
];

const KEYWORDS_OF_FOUR: [(&[u8], Keyword); 8] = [
    (b"None", Keyword::None),
    (b"True", Keyword::True),
    (b"cdef", Keyword::Cdef),
    (b"elif", Keyword::Elif),
    (b"else", Keyword::Else),
    (b"from", Keyword::From),
    (b"pass", Keyword::Pass),
    (b"with", Keyword::With),
];

const KEYWORDS_OF_FIVE: [(&[u8], Keyword); 5] = [
    (b"False", Keyword::False),
    (b"break", Keyword::Break),
    (b"cpdef", Keyword::Cpdef),
    (b"raise", Keyword::Raise),
    (b"while", Keyword::While),
];

const KEYWORDS_OF_SIX: [(&[u8], Keyword); 6] = [
    (b"except", Keyword::Except),
    (b"global", Keyword::Global),
    (b"import", Keyword::Import),
    (b"inline", Keyword::Inline),
    (b"return", Keyword::Return),
    (b"sizeof", Keyword::Sizeof),
];

const KEYWORDS_OF_SEVEN: [(&[u8], Keyword); 1] = [(b"cimport", Keyword::Cimport)];

const KEYWORDS_OF_EIGHT: [(&[u8], Keyword); 1] = [(b"continue", Keyword::Continue)];

const FOREIGN_OF_THREE: [&[u8]; 2] = [b"del", b"try"];

const FOREIGN_OF_FIVE: [&[u8]; 4] = [b"async", b"await", b"class", b"yield"];

const FOREIGN_OF_SIX: [&[u8]; 3] = [b"assert", b"extern", b"lambda"];

const FOREIGN_OF_SEVEN: [&[u8]; 2] = [b"finally", b"include"];

const FOREIGN_OF_EIGHT: [&[u8]; 2] = [b"ctypedef", b"nonlocal"];

/// The keywords with so many letters.
fn keywords_of_len(len: usize) -> &'static [(&'static [u8], Keyword)]
    ensures { map (λ row. (row.0.now, row.1)) result.now ≡ filter (λ row. length row.0 == len) keywords }
{
    match len {
        2 => &KEYWORDS_OF_TWO,
        3 => &KEYWORDS_OF_THREE,
        4 => &KEYWORDS_OF_FOUR,
        5 => &KEYWORDS_OF_FIVE,
        6 => &KEYWORDS_OF_SIX,
        7 => &KEYWORDS_OF_SEVEN,
        8 => &KEYWORDS_OF_EIGHT,
        _ => &[],
    }
}

/// The foreign words with so many letters.
fn foreign_of_len(len: usize) -> &'static [&'static [u8]]
    ensures { map (λ spelling. spelling.now) result.now ≡ filter (λ spelling. length spelling == len) foreign_words }
{
    match len {
        3 => &FOREIGN_OF_THREE,
        5 => &FOREIGN_OF_FIVE,
        6 => &FOREIGN_OF_SIX,
        7 => &FOREIGN_OF_SEVEN,
        8 => &FOREIGN_OF_EIGHT,
        _ => &[],
    }
}

/// Whether a word has these letters, which are ASCII.
fn is_spelled(word: &[char], spelling: &[u8]) -> bool
    ensures { result ≡ bytes_eq spelling.now word.now }
{
    if word.len() != spelling.len() {
        return false;
    }
    for (c, letter) in word.iter().zip(spelling) {
        if *c != char::from(*letter) {
            return false;
        }
    }
    true
}

/// What a word stands for in a table.
fn meaning(mut table: &[(&[u8], Keyword)], word: &[char]) -> Option<Keyword>
    ensures { result ≡ meaning_in (map (λ row. (row.0.now, row.1)) table.entry.now) word.now }
{
    while let [row, rest @ ..] = table {
        if is_spelled(word, row.0) {
            return Some(row.1);
        }
        table = rest;
    }
    None
}

/// Whether a word stands in a table.
fn stands_in(mut table: &[&[u8]], word: &[char]) -> bool
    ensures { result ≡ is_among (map (λ spelling. spelling.now) table.entry.now) word.now }
{
    while let [spelling, rest @ ..] = table {
        if is_spelled(word, spelling) {
            return true;
        }
        table = rest;
    }
    false
}

/// The keyword that a word is.
fn keyword(word: &[char]) -> Option<Keyword>
    ensures { result ≡ meaning_in keywords word.now }
{
    meaning(keywords_of_len(word.len()), word)
}

/// Whether a word is foreign.
fn is_foreign(word: &[char]) -> bool
    ensures { result ≡ is_among foreign_words word.now }
{
    stands_in(foreign_of_len(word.len()), word)
}

/// The greatest number of bytes of an identifier in UTF-8.
const IDENTIFIER_LIMIT: usize = 255;

/// Whether a word isn't too long for an identifier.
fn is_short(word: &[char]) -> bool
    ensures { IsTrue result ↔ (length (encode_utf8_all word.now) ≤ identifier_limit) }
{
    if word.len() > IDENTIFIER_LIMIT {
        return false;
    }
    let mut size = 0;
    for c in word {
        size += c.len_utf8();
    }
    size <= IDENTIFIER_LIMIT
}

/// Whether a word is in NFKC. Only a word that a quick check can't decide takes memory.
fn is_normal(alloc: Global, word: &[char]) -> Result<bool, AllocError>
    ensures { IfOk result (λ normal. IsTrue normal ↔ IsInForm Nfkc word.now) }
{
    match slice::is_nfkc_quick(word) {
        QuickCheck::Yes => Ok(true),
        QuickCheck::No => Ok(false),
        QuickCheck::Maybe => {
            let mut normal = Vec::new(alloc);
            slice::extend_nfkc(&mut normal, word)?;
            Ok(normal.as_slice() == word)
        }
    }
}

/// Whether a word is an identifier.
fn is_identifier(alloc: Global, word: &[char]) -> Result<bool, AllocError>
    ensures { IfOk result (λ named. IsTrue named ↔ IsIdentifier word.now) }
{
    if is_short(word) {
        is_normal(alloc, word)
    } else {
        Ok(false)
    }
}

/// The kind of a word by its letters; none where it is wrong.
fn kind_of(alloc: Global, word: &[char]) -> Result<Option<TokenKind>, AllocError>
    ensures { IfOk result (λ found. MatchOption found (IsBadWord word.now) (IsWordKind word.now)) }
{
    if let Some(found) = keyword(word) {
        return Ok(Some(TokenKind::Keyword(found)));
    }
    if is_foreign(word) {
        return Ok(Some(TokenKind::Foreign));
    }
    if is_identifier(alloc, word)? {
        Ok(Some(TokenKind::Name))
    } else {
        Ok(None)
    }
}

/// The index behind the identifier characters that stand from an index on.
pub(crate) fn word_end(cs: &Characters, from: usize) -> usize
    ensures { result ≡ from + word_len (drop from cs.now) }
{
    let len = cs.len();
    let mut to = from;
    while to < len && cs.continues_word(to) {
        to += 1;
    }
    to
}

/// The identifier, keyword or foreign word at an index.
///
/// # Errors
/// The rule that it breaks; `NoMemory` where there is no memory to test it.
pub(crate) fn word(alloc: Global, cs: &Characters, from: usize) -> Result<Found, Unread>
    requires { form_of (drop from cs.now) ≡ form.Word }
    ensures { Reads form.Word cs.now from result }
{
    let to = word_end(cs, from);
    match kind_of(alloc, cs.between(from, to))? {
        Some(kind) => Ok(Found { kind, to }),
        None => Err(Unread::Broken(Breach { rule: 2, at: from })),
    }
}
