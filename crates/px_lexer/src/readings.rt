use crate::token_list::TokenKind;
use std::alloc::AllocError;

/// The kind of a piece that is a token, and the index of the character behind it.
#[derive(Drop)]
pub struct Found {
    pub kind: TokenKind,
    pub to: usize,
}

/// A rule that is broken, by its number, and the index of the character at which it is.
#[derive(Clone, Copy)]
pub struct Breach {
    pub rule: u8,
    pub at: usize,
}

/// Why a piece is no token.
#[derive(Drop)]
pub enum Unread {
    Broken(Breach),
    NoMemory,
}

impl From<Breach> for Unread {
    ghost use Rattle.std.specs.Prelude.{◌≡◌};
    ghost use Rattle.px_lexer.specs.declared.readings.Unread.TheVariants.{Broken};

    ghost from_gives = { λ breach e. e ≡ Broken breach };

    fn from(breach: Breach) -> Unread {
        Unread::Broken(breach)
    }
}

impl From<AllocError> for Unread {
    ghost use Rattle.std.specs.Prelude.{◌≡◌};
    ghost use Rattle.px_lexer.specs.declared.readings.Unread.TheVariants.{NoMemory};

    ghost from_gives = { λ _ e. e ≡ NoMemory };

    fn from(_: AllocError) -> Unread {
        Unread::NoMemory
    }
}
