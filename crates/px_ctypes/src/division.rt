ghost use Rattle.std.specs.Prelude.{◌≡◌, ◌≢◌, ◌<◌, ◌^◌, pos, unsigned_abs};
ghost use Rattle.px_ctypes.specs.Division.{floor_div, floor_mod, signed_of, trunc_div, trunc_mod};

// Values of 64 bits are divided by their magnitudes, since a division of 128 bits is a slow call.

fn magnitude(n: i128) -> u64
    requires { unsigned_abs n < 2 ^ 64 }
    ensures { result ≡ unsigned_abs n }
{
    n.unsigned_abs() as u64
}

/// The number of this magnitude, below 0 where the flag is set.
fn with_sign(magnitude: u64, negative: bool) -> i128
    ensures { result ≡ signed_of magnitude negative }
{
    if negative {
        -(magnitude as i128)
    } else {
        magnitude as i128
    }
}

/// `a / b`, rounded toward 0.
pub(crate) fn truncated_quotient(a: i128, b: i128) -> i128
    requires nonzero { b ≢ pos 0 }
    requires left { unsigned_abs a < 2 ^ 64 }
    requires right { unsigned_abs b < 2 ^ 64 }
    ensures { result ≡ trunc_div a b }
{
    with_sign(magnitude(a) / magnitude(b), (a < 0) != (b < 0))
}

/// What `truncated_quotient` leaves of `a`: it has the sign of `a`.
pub(crate) fn truncated_remainder(a: i128, b: i128) -> i128
    requires nonzero { b ≢ pos 0 }
    requires left { unsigned_abs a < 2 ^ 64 }
    requires right { unsigned_abs b < 2 ^ 64 }
    ensures { result ≡ trunc_mod a b }
{
    with_sign(magnitude(a) % magnitude(b), a < 0)
}

/// `a / b`, rounded down.
pub(crate) fn floored_quotient(a: i128, b: i128) -> i128
    requires nonzero { b ≢ pos 0 }
    requires left { unsigned_abs a < 2 ^ 64 }
    requires right { unsigned_abs b < 2 ^ 64 }
    ensures { result ≡ floor_div a b }
{
    let (left, right) = (magnitude(a), magnitude(b));
    if left == 0 || (a < 0) == (b < 0) {
        (left / right) as i128
    } else {
        -1 - ((left - 1) / right) as i128
    }
}

/// What `floored_quotient` leaves of `a`: it has the sign of `b`.
pub(crate) fn floored_remainder(a: i128, b: i128) -> i128
    requires nonzero { b ≢ pos 0 }
    requires left { unsigned_abs a < 2 ^ 64 }
    requires right { unsigned_abs b < 2 ^ 64 }
    ensures { result ≡ floor_mod a b }
{
    let (left, right) = (magnitude(a), magnitude(b));
    if left == 0 || (a < 0) == (b < 0) {
        with_sign(left % right, b < 0)
    } else {
        with_sign(right - 1 - (left - 1) % right, b < 0)
    }
}
