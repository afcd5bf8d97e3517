ghost use Rattle.std.specs.Prelude.{◌≡◌, suc, ◌<◌, ◌≤◌, IsTrue, IsFalse, MatchResult};
ghost use Rattle.px_exprs.specs.Words.{IsStuckAt, IsTooDeepAt};

use std::alloc::AllocError;

/// What was read: its tree, the nesting of its tokens, and the index of the token behind it.
#[derive(Drop)]
pub struct Read<T> {
    pub tree: T,
    pub depth: usize,
    pub to: usize,
}

/// Why a form wasn't read. The number is the index of a token.
#[derive(Clone, Copy)]
pub enum Unread {
    /// Some tokens of the form begin with those before this one, and none with this one too.
    Stuck(usize),
    /// All tokens of the form that begin with those up to this one are nested too deep.
    TooDeep(usize),
    NoMemory,
}

impl From<AllocError> for Unread {
    ghost use Rattle.std.specs.Prelude.{◌≡◌};
    ghost use Rattle.px_exprs.specs.declared.readings.Unread.TheVariants.{NoMemory};

    ghost from_gives = { λ _ e. e ≡ NoMemory };

    fn from(_: AllocError) -> Unread {
        Unread::NoMemory
    }
}

/// The nesting that is left within a form that stands round tokens of this nesting, where so much is left for the form.
///
/// # Errors
/// `TooDeep` at the token that shows the form, where nothing is left for it.
pub fn room_within(room: usize, depth: usize, at: usize) -> Result<usize, Unread>
    ensures { MatchResult result (λ left. (depth < room) × (room ≡ suc left)) (λ unread. IsTooDeepAt at unread × (room ≤ depth)) }
{
    if depth < room {
        Ok(room - 1)
    } else {
        Err(Unread::TooDeep(at))
    }
}

/// What was read, where it may end.
///
/// # Errors
/// `Stuck` behind it where it may not.
pub(crate) fn keep_if<T: Drop>(read: Read<T>, may_end: bool) -> Result<Read<T>, Unread>
    ensures { MatchResult result (λ kept. IsTrue may_end × (kept ≡ read)) (λ unread. IsFalse may_end × IsStuckAt read.to unread) }
{
    if may_end {
        Ok(read)
    } else {
        Err(Unread::Stuck(read.to))
    }
}
