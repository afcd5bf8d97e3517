ghost use Rattle.std.specs.Prelude.{◌≡◌, ◌≢◌, ◌^◌, pos};
ghost use Rattle.std.specs.Int.{int_rem_euclid};
ghost use Rattle.px_base.specs.declared.c_types.CType.TheVariants.{Bint};
ghost use Rattle.px_ctypes.specs.Wrapping.{IsWrapped, wrap};

use crate::types::{mask, sign_bit};
use px_base::CType;

/// The remainder of `n` modulo 2^64.
#[tactic(auto, using(crate::proofs::WrapLaws::low_word_is))]
pub(crate) fn low_word(n: i128) -> u64
    ensures { pos result ≡ int_rem_euclid n (pos (2 ^ 64)) }
{
    (n & 0xffff_ffff_ffff_ffff) as u64
}

/// The number of the type's range that is congruent to `n` modulo 2^width (ISO C11 6.3.1.3).
pub fn wrap(t: CType, n: i128) -> i128
    requires { t ≢ Bint }
    ensures wrapped { IsWrapped t n result }
    ensures value { result ≡ wrap t n }
{
    let low = low_word(n) & mask(t);
    // Two's complement: turning the sign bit and taking it away again extends the sign, without a branch that depends on
    // it and would often be mispredicted.
    let sign = sign_bit(t);
    (low ^ sign) as i128 - sign as i128
}
