//! Names and texts against words that are spelled in ASCII.

ghost use Rattle.std.specs.Prelude.{◌≡◌, map, bytes_eq};
ghost use Rattle.std.specs.List.{concat};
ghost use Rattle.px_names.specs.Tables.{entry_of, is_among};

use px_base::Chars;

/// Whether a name is spelled so.
pub(crate) fn is_spelled(name: &[char], spelling: &[u8]) -> bool
    ensures { result ≡ bytes_eq spelling.now name.now }
{
    if name.len() != spelling.len() {
        return false;
    }
    for (c, letter) in name.iter().zip(spelling) {
        if *c != char::from(*letter) {
            return false;
        }
    }
    true
}

/// What a table has for a name.
pub(crate) fn named<T: Copy>(mut table: &[(&[u8], T)], name: &[char]) -> Option<T>
    ensures { result ≡ entry_of (map (λ row. (row.0.now, row.1)) table.entry.now) name.now }
{
    while let [row, rest @ ..] = table {
        if is_spelled(name, row.0) {
            return Some(row.1);
        }
        table = rest;
    }
    None
}

/// Whether a name is one of these.
pub(crate) fn is_among(mut words: &[&[u8]], name: &[char]) -> bool
    ensures { result ≡ is_among (map (λ word. word.now) words.entry.now) name.now }
{
    while let [word, rest @ ..] = words {
        if is_spelled(name, word) {
            return true;
        }
        words = rest;
    }
    false
}

/// Whether the contents of adjacent strings are this word.
pub(crate) fn is_joined(contents: &[Chars], spelling: &[u8]) -> bool
    ensures { result ≡ bytes_eq spelling.now (concat contents.now) }
{
    let mut rest = spelling;
    for content in contents {
        let content = content.as_slice();
        if content.len() > rest.len() || !is_spelled(content, &rest[..content.len()]) {
            return false;
        }
        rest = &rest[content.len()..];
    }
    rest.is_empty()
}

/// What a table has for bytes.
pub(crate) fn entry_for<T: Copy>(mut table: &[(&[u8], T)], text: &[u8]) -> Option<T>
    ensures { result ≡ entry_of (map (λ row. (row.0.now, row.1)) table.entry.now) text.now }
{
    while let [row, rest @ ..] = table {
        if row.0 == text {
            return Some(row.1);
        }
        table = rest;
    }
    None
}

/// Whether bytes are one of these.
pub(crate) fn is_one_of(mut words: &[&[u8]], text: &[u8]) -> bool
    ensures { result ≡ is_among (map (λ word. word.now) words.entry.now) text.now }
{
    while let [word, rest @ ..] = words {
        if *word == text {
            return true;
        }
        words = rest;
    }
    false
}
