ghost use Rattle.std.specs.Prelude.{◌≡◌, ◌≢◌, ◌⊎◌, ◌<◌, ◌≤◌, ◌^◌, length, slice_index, slice_range, nat_le, IsTrue, MatchOption};
ghost use Rattle.px_lexer.specs.Characters.{unreadable};

use crate::characters::Characters;
use std::marker::Model;

/// The characters of a text from one index to before another. Contracts see their codes.
#[derive(Drop)]
pub(crate) struct Part<'a> {
    characters: &'a Characters,
    from: usize,
    to: usize,
}

impl<'a> Model for Part<'a> {
    ghost use Rattle.std.specs.Prelude.{ℕ, List, ◌≤◌, length, slice_range};

    ghost Value = { List ℕ };

    ghost view = { λ part. slice_range part.characters.now part.from part.to };

    ghost invariant = { λ part. (part.from ≤ part.to) × (part.to ≤ length part.characters.now) };
}

impl<'a> Part<'a> {
    pub(crate) fn new(characters: &'a Characters, from: usize, to: usize) -> Part<'a>
        requires ordered { from ≤ to }
        requires within { to ≤ length characters.now }
        ensures { result ≡ slice_range characters.now from to }
    {
        Part {
            characters,
            from,
            to,
        }
    }

    pub(crate) fn len(&self) -> usize
        ensures { result ≡ length self.now }
    {
        self.to - self.from
    }

    /// The code of the character at an index, 0 behind the last one.
    pub(crate) fn code(&self, at: usize) -> u32
        ensures value { result ≡ slice_index self.now at }
        ensures short { length self.now < 2 ^ 64 }
    {
        if at < self.to - self.from {
            self.characters.code(self.from + at)
        } else {
            0
        }
    }

    /// The character at an index; none behind the last one, and none where it can't be read.
    pub(crate) fn character(&self, at: usize) -> Option<char>
        ensures cases { MatchOption result
            (IsTrue (nat_le (length self.now) at) ⊎ (slice_index self.now at ≡ unreadable))
            (λ c. (at < length self.now) × (slice_index self.now at ≡ c) × (c ≢ unreadable)) }
        ensures short { length self.now < 2 ^ 64 }
    {
        if at < self.to - self.from {
            self.characters.character(self.from + at)
        } else {
            None
        }
    }
}
