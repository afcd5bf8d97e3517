ghost use Rattle.std.specs.Prelude.{◌≡◌, ◌≢◌, ◌⊎◌, ◌+◌, ◌-◌, ◌<◌, ◌≤◌, length, take, drop, slice_index, nat_le, IsTrue, IfOk, MatchOption};
ghost use Rattle.std.specs.Str.Lossy.{utf8_valid_len};
ghost use Rattle.px_lexer.specs.Characters.{unreadable, mark_len, characters};
ghost use Rattle.px_lexer.specs.Words.{starts_word, continues_word};

use std::alloc::{AllocError, Global};
use std::marker::Model;

/// The characters of a text, as far as it is UTF-8. Contracts see their codes, and `unreadable` behind them where bytes are
/// left.
#[derive(Drop)]
pub(crate) struct Characters {
    front: Vec<char>,
    cut: bool,
}

impl Model for Characters {
    ghost use Rattle.std.specs.Prelude.{ℕ, List, [], ◌∷◌, ◌++◌, if◌then◌else◌};
    ghost use Rattle.px_lexer.specs.Characters.{unreadable};

    ghost Value = { List ℕ };

    ghost view = { λ s. s.front.items ++ (if s.cut then unreadable ∷ [] else []) };
}

/// Stands for the first byte at which no character begins, and is the code of none.
pub(crate) const UNREADABLE: u32 = 0x110000;

/// The byte order mark in UTF-8.
const MARK: [u8; 3] = [0xEF, 0xBB, 0xBF];

/// The bytes behind the byte order mark at the start of a text; all of them where there is none.
fn without_mark(text: &[u8]) -> &[u8]
    ensures { result.now ≡ drop (mark_len text.now) text.now }
{
    match text.strip_prefix(&MARK) {
        Some(bytes) => bytes,
        None => text,
    }
}

/// The longest front of some bytes that is UTF-8.
fn readable_front(bytes: &[u8]) -> &str
    ensures { result.now ≡ take (utf8_valid_len bytes.now) bytes.now }
{
    match bytes.utf8_chunks().next() {
        Some(chunk) => chunk.valid(),
        None => "",
    }
}

impl Characters {
    /// The characters of a text, as far as it is UTF-8. A byte order mark at its start is skipped.
    ///
    /// # Errors
    /// Where there is no memory for them.
    pub(crate) fn read(alloc: Global, text: &[u8]) -> Result<Characters, AllocError>
        ensures { IfOk result (λ made. made ≡ characters text.now) }
    {
        let bytes = without_mark(text);
        let front = readable_front(bytes);
        let cut = front.len() < bytes.len();
        Ok(Characters {
            front: front.chars().collect(alloc)?,
            cut,
        })
    }

    pub(crate) fn len(&self) -> usize
        ensures { result ≡ length self.now }
    {
        if self.cut {
            self.front.len() + 1
        } else {
            self.front.len()
        }
    }

    /// The code of the character at an index, 0 behind the last one.
    pub(crate) fn code(&self, at: usize) -> u32
        ensures { result ≡ slice_index self.now at }
    {
        match self.front.get(at) {
            Some(c) => u32::from(*c),
            None => {
                if self.cut && at == self.front.len() {
                    UNREADABLE
                } else {
                    0
                }
            }
        }
    }

    /// The code of the character so many places behind an index, 0 behind the last one.
    pub(crate) fn code_ahead(&self, at: usize, places: usize) -> u32
        ensures { result ≡ slice_index self.now (at + places) }
    {
        let length = self.len();
        if at < length && places < length - at {
            self.code(at + places)
        } else {
            0
        }
    }

    /// The character at an index; none behind the last one, and none where it can't be read.
    pub(crate) fn character(&self, at: usize) -> Option<char>
        ensures { MatchOption result
            (IsTrue (nat_le (length self.now) at) ⊎ (slice_index self.now at ≡ unreadable))
            (λ c. (at < length self.now) × (slice_index self.now at ≡ c) × (c ≢ unreadable)) }
    {
        self.front.get(at).copied()
    }

    /// Whether the character at an index is an identifier character.
    pub(crate) fn continues_word(&self, at: usize) -> bool
        ensures { result ≡ continues_word (slice_index self.now at) }
    {
        match self.character(at) {
            Some(c) => unicode_ident::is_xid_continue(c),
            None => false,
        }
    }

    /// Whether a word may begin with the character at an index.
    pub(crate) fn starts_word(&self, at: usize) -> bool
        ensures { result ≡ starts_word (slice_index self.now at) }
    {
        match self.character(at) {
            Some(c) => c == '_' || unicode_ident::is_xid_start(c),
            None => false,
        }
    }

    /// The characters from one index to before another; the last of them can be read, and so all can.
    pub(crate) fn between(&self, from: usize, to: usize) -> &[char]
        requires forward { from < to }
        requires within { to ≤ length self.now }
        requires readable { slice_index self.now (to - 1) ≢ unreadable }
        ensures { result.now ≡ take (to - from) (drop from self.now) }
    {
        &self.front[from..to]
    }
}
